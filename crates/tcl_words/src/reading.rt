//! Reads the parts of a word.

ghost use Rattle.std.specs.Prelude.{◌≡◌, ◌≤◌, ℕ, List, false, Ok, IfOk, OnOk, length};
ghost use Rattle.tcl_words.specs.Tokens.{token_view};
ghost use Rattle.tcl_words.specs.Pieces.{Pieces, parts_view, append, literal_of, literal, piece, no_pieces};
ghost use Rattle.tcl_words.specs.Commands.{Gives, token_at, dollar, name_len, parts, reader, joined, text_parts};
ghost use Rattle.tcl_words.specs.Scripts.{has_script};

use crate::bytes::Text;
use crate::escapes::{backslash, blanks};
use crate::faults::WordFault;
use crate::places::{after, before};
use crate::scan::{begins_with, brace_at, is_continued, name_len, stop_len, stops, unclosed};
use crate::shapes::Part;
use crate::skip::bracket;
use crate::stop::Stop;
use crate::token::Token;
use std::alloc::{AllocError, Global};

/// The greatest nesting of brackets and indexes.
const DEEPEST: u8 = 200;

/// What may stand in a text.
#[derive(Clone, Copy)]
pub(crate) struct Room {
    /// How many more brackets and indexes may nest.
    depth: u8,
    /// Whether a bracket is a script.
    scripts: bool,
}

impl Room {
    /// Returns the room of a whole text.
    pub(crate) fn whole(scripts: bool) -> Room
        ensures { result ≡ record { depth = 200; scripts = scripts } }
    {
        Room {
            depth: DEEPEST,
            scripts,
        }
    }
}

/// Reads the token at a byte. Returns it and the number of later bytes that belong to it.
#[cycle(read)]
#[tactic(auto, unfolding(crate::specs::Commands::token_at, crate::specs::Commands::reader))]
pub(crate) fn token_at(
    alloc: Global,
    b: u8,
    rest: &[u8],
    room: Room,
) -> Result<(Token, usize), WordFault>
    ensures value { Gives (λ x. (token_view x.0, x.1)) result (token_at (reader room.scripts room.depth) b rest.now) }
    ensures within { IfOk result (λ x. x.1 ≤ length rest.now) }
{
    match b {
        b'\\' => {
            let (value, n) = backslash(rest);
            Ok((Token::Escape(value), n))
        }
        b'[' => {
            if !room.scripts {
                return Ok((Token::Byte(b), 0));
            }
            let n = bracket(rest, room.depth)?;
            let text = Text::from_slice(alloc, before(rest, n - 1))?;
            Ok((Token::Substitution(Part::Script(text)), n))
        }
        b'$' => variable(alloc, rest, room),
        _ => Ok((Token::Byte(b), 0)),
    }
}

/// Reads what follows a `$`.
#[cycle(read)]
fn variable(alloc: Global, rest: &[u8], room: Room) -> Result<(Token, usize), WordFault>
    ensures value { Gives (λ x. (token_view x.0, x.1)) result (dollar (reader room.scripts room.depth) (name_len rest.now) rest.now) }
    ensures within { IfOk result (λ x. x.1 ≤ length rest.now) }
{
    if begins_with(b'{', rest) {
        let inner = after(rest, 1);
        let Some(n) = brace_at(inner) else {
            return Err(WordFault::MissingBrace);
        };
        let name = Text::from_slice(alloc, before(inner, n))?;
        return Ok((Token::Substitution(Part::Var(name, None)), 2 + n));
    }
    let n = name_len(rest);
    if begins_with(b'(', after(rest, n)) {
        let (index, k) = index(alloc, after(rest, 1 + n), room)?;
        let name = Text::from_slice(alloc, before(rest, n))?;
        return Ok((Token::Substitution(Part::Var(name, Some(index))), 1 + n + k));
    }
    if n == 0 {
        return Ok((Token::Byte(b'$'), 0));
    }
    let name = Text::from_slice(alloc, before(rest, n))?;
    Ok((Token::Substitution(Part::Var(name, None)), n))
}

/// Reads the parts of an index, up to the `)`.
#[cycle(read)]
#[tactic(auto, unfolding(crate::specs::Commands::reader, crate::specs::Commands::nested))]
fn index(alloc: Global, rest: &[u8], room: Room) -> Result<(Vec<Part>, usize), WordFault>
    ensures value { Gives (λ x. (parts_view x.0.items, x.1)) result ((reader room.scripts room.depth).index rest.now) }
    ensures within { IfOk result (λ x. x.1 ≤ length rest.now) }
{
    let depth = room.depth;
    if depth == 0 {
        return Err(WordFault::TooDeep);
    }
    let room = Room {
        depth: depth - 1,
        scripts: room.scripts,
    };
    parts(alloc, rest, Stop::Paren, room)
}

/// Appends the bytes to the parts, as a literal.
fn flush(list: &mut Vec<Part>, text: Vec<u8>) -> Result<(), AllocError>
    ensures { OnOk result (parts_view list.new.items ≡ append (parts_view list.old.items) (literal_of text.items)) }
{
    if !text.is_empty() {
        list.push(Part::Lit(Text { bytes: text }))?;
    }
    Ok(())
}

/// Reads the parts up to the end of a run. Returns them and the number of bytes read.
#[cycle(read)]
pub(crate) fn parts(
    alloc: Global,
    bytes: &[u8],
    stop: Stop,
    room: Room,
) -> Result<(Vec<Part>, usize), WordFault>
    ensures value { Gives (λ x. (parts_view x.0.items, x.1)) result (parts (reader room.scripts room.depth) stop bytes.now) }
    ensures within { IfOk result (λ x. x.1 ≤ length bytes.now) }
{
    let mut list = Vec::new(alloc);
    let mut text = Vec::new(alloc);
    let mut at = 0;
    while at < bytes.len() {
        let b = bytes[at];
        let rest = after(bytes, at + 1);
        if stops(stop, b, rest) {
            flush(&mut list, text)?;
            return Ok((list, at + stop_len(stop)));
        }
        let (token, n) = token_at(alloc, b, rest, room)?;
        match token {
            Token::Byte(value) => text.push(value)?,
            Token::Escape(value) => text.extend_from_slice(value.as_slice())?,
            Token::Substitution(part) => {
                flush(&mut list, text)?;
                text = Vec::new(alloc);
                list.push(part)?;
            }
        }
        at += 1 + n;
    }
    match unclosed(stop) {
        Some(fault) => Err(fault),
        None => {
            flush(&mut list, text)?;
            Ok((list, at))
        }
    }
}

/// Returns the text of a word in braces.
fn joined(alloc: Global, bytes: &[u8]) -> Result<Vec<u8>, AllocError>
    ensures { IfOk result (λ v. v.items ≡ joined bytes.now) }
{
    let mut text = Vec::new(alloc);
    let mut at = 0;
    while at < bytes.len() {
        let b = bytes[at];
        let rest = after(bytes, at + 1);
        if is_continued(b, rest) {
            text.push(b' ')?;
            at += 2 + blanks(after(rest, 1));
        } else if b == b'\\' && at + 1 < bytes.len() {
            text.push(b)?;
            text.push(bytes[at + 1])?;
            at += 2;
        } else {
            text.push(b)?;
            at += 1;
        }
    }
    Ok(text)
}

/// Returns the parts of a word in braces: one literal, which may be empty.
pub(crate) fn braced(alloc: Global, bytes: &[u8]) -> Result<Vec<Part>, AllocError>
    ensures { IfOk result (λ list. parts_view list.items ≡ piece (literal (joined bytes.now)) no_pieces) }
{
    let text = joined(alloc, bytes)?;
    let mut list = Vec::new(alloc);
    list.push(Part::Lit(Text { bytes: text }))?;
    Ok(list)
}

/// Reads the parts of a whole text in which only backslashes and variables are replaced: `[` stands
/// for itself. The errors are `MissingBrace`, `MissingParen` and `TooDeep`. (Tcl(n): subst
/// -nocommands)
#[tactic(auto, unfolding(crate::specs::Commands::text_parts))]
pub fn text_parts(alloc: Global, text: &[u8]) -> Result<Vec<Part>, WordFault>
    ensures { Gives (λ list. parts_view list.items) result (text_parts text.now) }
{
    let (list, _) = parts(alloc, text, Stop::End, Room::whole(false))?;
    Ok(list)
}

/// States a law: no part that `text_parts` reads is a script. It does nothing at run time.
pub fn texts_have_no_script()
    ensures { (text : List ℕ) (ps : Pieces) → text_parts text ≡ Ok ps → has_script ps ≡ false }
{}
