//! Reads the next command of a text.

ghost use Rattle.std.specs.Prelude.{◌≡◌, ◌≤◌, ◌<◌, IfOk, IfSome, length, option_map};
ghost use Rattle.tcl_words.specs.Pieces.{parts_view, word_view, words_view, command_view};
ghost use Rattle.tcl_words.specs.Commands.{Gives, plain_word, word, words, start, inside_of, deepest, next_command};
ghost use Rattle.tcl_words.specs.declared.stop.Stop.TheVariants.{Gap};

use crate::faults::WordFault;
use crate::lists::closing;
use crate::places::{after, before};
use crate::reading::{Room, braced, parts};
use crate::scan::{ends_command, gap_at, is_expansion, may_end};
use crate::shapes::{Command, Part, Word};
use crate::stop::Stop;
use std::alloc::Global;

/// Reads a word without a leading `{*}`. Returns its parts and the number of bytes read.
#[tactic(auto, unfolding(crate::specs::Commands::plain_word))]
fn plain_word(alloc: Global, bytes: &[u8]) -> Result<(Vec<Part>, usize), WordFault>
    ensures value { Gives (λ x. (parts_view x.0.items, x.1)) result (plain_word (inside_of deepest) Gap bytes.now) }
    ensures within { IfOk result (λ x. x.1 ≤ length bytes.now) }
{
    match bytes {
        [] => Ok((Vec::new(alloc), 0)),
        [b'"', rest @ ..] => {
            let (list, n) = parts(alloc, rest, Stop::Quote, Room::whole(true))?;
            if !may_end(Stop::Gap, after(rest, n)) {
                return Err(WordFault::ExtraAfterQuote);
            }
            Ok((list, 1 + n))
        }
        [b'{', rest @ ..] => {
            let Some(n) = closing(rest) else {
                return Err(WordFault::MissingBrace);
            };
            if !may_end(Stop::Gap, after(rest, 1 + n)) {
                return Err(WordFault::ExtraAfterBrace);
            }
            Ok((braced(alloc, before(rest, n))?, 1 + (1 + n)))
        }
        [_, ..] => parts(alloc, bytes, Stop::Gap, Room::whole(true)),
    }
}

/// Reads the word at the front of a text that doesn't begin with white space.
#[tactic(auto, unfolding(crate::specs::Commands::word))]
fn word(alloc: Global, bytes: &[u8]) -> Result<(Word, usize), WordFault>
    ensures value { Gives (λ x. (word_view x.0, x.1)) result (word (inside_of deepest) Gap bytes.now) }
    ensures within { IfOk result (λ x. x.1 ≤ length bytes.now) }
{
    let expand = is_expansion(Stop::Gap, bytes);
    let prefix = if expand { 3 } else { 0 };
    let (parts, n) = plain_word(alloc, after(bytes, prefix))?;
    Ok((Word { expand, parts }, prefix + n))
}

/// Reads the words up to the end of the command. Returns them and the number of bytes read.
fn words(alloc: Global, bytes: &[u8]) -> Result<(Vec<Word>, usize), WordFault>
    ensures value { Gives (λ x. (words_view x.0.items, x.1)) result (words (inside_of deepest) bytes.now) }
    ensures within { IfOk result (λ x. x.1 ≤ length bytes.now) }
    ensures some { 0 < length bytes.now → IfOk result (λ x. 0 < x.1) }
{
    let mut list = Vec::new(alloc);
    let mut at = 0;
    while at < bytes.len() {
        let b = bytes[at];
        if ends_command(b) {
            return Ok((list, at + 1));
        }
        match gap_at(b, after(bytes, at + 1), false) {
            Some((n, _)) => at += 1 + n,
            None => {
                let (word, n) = word(alloc, after(bytes, at))?;
                list.push(word)?;
                at += n;
            }
        }
    }
    Ok((list, at))
}

/// Returns the number of bytes before the next command. `None` if there is no command.
fn start(bytes: &[u8]) -> Option<usize>
    ensures value { result ≡ start bytes.now }
    ensures within { IfSome result (λ n. n < length bytes.now) }
{
    let mut at = 0;
    while at < bytes.len() {
        match gap_at(bytes[at], after(bytes, at + 1), true) {
            Some((n, _)) => at += 1 + n,
            None => return Some(at),
        }
    }
    None
}

/// Reads the next command of a text from index `at` on. Returns it with the index after the newline
/// or `;` that ends it. `None` if only white space, ends of commands and comments are left.
///
/// An error inside brackets is an error of the command around them.
#[tactic(auto, unfolding(crate::specs::Commands::next_command))]
pub fn next_command(
    alloc: Global,
    src: &[u8],
    at: usize,
) -> Result<Option<(Command, usize)>, WordFault>
    requires { at ≤ length src.now }
    ensures value { Gives (λ found. option_map (λ x. (command_view x.0, x.1)) found) result (next_command src.now at) }
    ensures within { IfOk result (λ found. IfSome found (λ x. (at < x.1) × (x.1 ≤ length src.now))) }
{
    let Some(n) = start(after(src, at)) else {
        return Ok(None);
    };
    let (words, k) = words(alloc, after(src, at + n))?;
    Ok(Some((Command { words }, at + n + k)))
}
