//! Reads operands of an expression that are written like words and their parts.

ghost use Rattle.std.specs.Prelude.{◌≡◌, ◌≤◌, ◌<◌, false, IfOk, IfSome, length, option_map};
ghost use Rattle.tcl_words.specs.Commands.{Gives};
ghost use Rattle.tcl_words.specs.Operands.{operand};
ghost use Rattle.tcl_words.specs.Pieces.{part_view, piece, no_pieces, word_view};

use crate::faults::WordFault;
use crate::lists::closing;
use crate::places::before;
use crate::reading::{Room, braced, parts, token_at};
use crate::shapes::{Part, Word};
use crate::stop::Stop;
use crate::token::Token;
use std::alloc::{AllocError, Global};

/// Makes a word of one part.
fn word_of(alloc: Global, part: Part) -> Result<Word, AllocError>
    ensures { IfOk result (λ w. word_view w ≡ record { expand = false; pieces = piece (part_view part) no_pieces }) }
{
    let mut parts = Vec::new(alloc);
    parts.push(part)?;
    Ok(Word {
        expand: false,
        parts,
    })
}

/// Reads the operand at the front of an expression, and returns it with the number of bytes it
/// takes. An operand is a `$` substitution, a script in brackets, or a text in quotes or braces.
///
/// `None` if the text begins with none of these, for example with a `$` that stands for itself. The
/// bytes after the operand are not checked.
#[tactic(auto, unfolding(crate::specs::Operands::operand))]
pub fn operand(alloc: Global, bytes: &[u8]) -> Result<Option<(Word, usize)>, WordFault>
    ensures value { Gives (λ found. option_map (λ x. (word_view x.0, x.1)) found) result (operand bytes.now) }
    ensures within { IfOk result (λ found. IfSome found (λ x. (0 < x.1) × (x.1 ≤ length bytes.now))) }
{
    match bytes {
        [b'"', rest @ ..] => {
            let (parts, n) = parts(alloc, rest, Stop::Quote, Room::whole(true))?;
            let word = Word {
                expand: false,
                parts,
            };
            Ok(Some((word, 1 + n)))
        }
        [b'{', rest @ ..] => {
            let Some(n) = closing(rest) else {
                return Err(WordFault::MissingBrace);
            };
            let word = Word {
                expand: false,
                parts: braced(alloc, before(rest, n))?,
            };
            Ok(Some((word, 2 + n)))
        }
        [b @ (b'$' | b'['), rest @ ..] => {
            let (token, n) = token_at(alloc, *b, rest, Room::whole(true))?;
            match token {
                Token::Byte(_) => Ok(None),
                Token::Escape(_) => Ok(None),
                Token::Substitution(part) => Ok(Some((word_of(alloc, part)?, 1 + n))),
            }
        }
        _ => Ok(None),
    }
}
