//! Finds the end of a bracket. The text in it is read as commands, but not kept.
//!
//! `depth` is how many more brackets and indexes may nest.

ghost use Rattle.std.specs.Prelude.{◌≡◌, ◌≤◌, ◌<◌, true, IfOk, length};
ghost use Rattle.tcl_words.specs.Commands.{count_of, token_at, dollar, name_len, parts, plain_word, word, nested_script, inside_of};

use crate::escapes::backslash;
use crate::faults::WordFault;
use crate::lists::closing;
use crate::places::after;
use crate::scan::{
    begins_with, brace_at, gap_at, is_expansion, may_end, name_len, stop_len, stops, unclosed,
};
use crate::stop::Stop;

/// Returns the number of bytes after a byte that belong to its token.
#[cycle(skip)]
#[tactic(auto, unfolding(crate::specs::Commands::token_at, crate::specs::Commands::reader))]
fn skip_token(b: u8, rest: &[u8], depth: u8) -> Result<usize, WordFault>
    ensures value { result ≡ count_of (token_at (inside_of depth) b rest.now) }
    ensures within { IfOk result (λ n. n ≤ length rest.now) }
{
    match b {
        b'\\' => Ok(backslash(rest).1),
        b'[' => bracket(rest, depth),
        b'$' => skip_dollar(rest, depth),
        _ => Ok(0),
    }
}

/// Returns the number of bytes after a `$` that belong to it.
#[cycle(skip)]
fn skip_dollar(rest: &[u8], depth: u8) -> Result<usize, WordFault>
    ensures value { result ≡ count_of (dollar (inside_of depth) (name_len rest.now) rest.now) }
    ensures within { IfOk result (λ n. n ≤ length rest.now) }
{
    if begins_with(b'{', rest) {
        return match brace_at(after(rest, 1)) {
            Some(n) => Ok(2 + n),
            None => Err(WordFault::MissingBrace),
        };
    }
    let n = name_len(rest);
    if begins_with(b'(', after(rest, n)) {
        let k = skip_index(after(rest, 1 + n), depth)?;
        return Ok(1 + n + k);
    }
    Ok(n)
}

/// Returns the number of bytes after a `[` that belong to it, with the `]`.
#[cycle(skip)]
#[tactic(auto, unfolding(crate::specs::Commands::reader, crate::specs::Commands::nested))]
pub(crate) fn bracket(rest: &[u8], depth: u8) -> Result<usize, WordFault>
    ensures value { result ≡ (inside_of depth).bracket rest.now }
    ensures some { IfOk result (λ n. 0 < n) }
    ensures within { IfOk result (λ n. n ≤ length rest.now) }
{
    if depth == 0 {
        return Err(WordFault::TooDeep);
    }
    skip_script(rest, depth - 1)
}

/// Returns the length of an index, with the `)`.
#[cycle(skip)]
#[tactic(auto, unfolding(crate::specs::Commands::reader, crate::specs::Commands::nested))]
fn skip_index(rest: &[u8], depth: u8) -> Result<usize, WordFault>
    ensures value { result ≡ count_of ((inside_of depth).index rest.now) }
    ensures within { IfOk result (λ n. n ≤ length rest.now) }
{
    if depth == 0 {
        return Err(WordFault::TooDeep);
    }
    skip_parts(rest, Stop::Paren, depth - 1)
}

/// Returns the length of a run of parts.
#[cycle(skip)]
fn skip_parts(bytes: &[u8], stop: Stop, depth: u8) -> Result<usize, WordFault>
    ensures value { result ≡ count_of (parts (inside_of depth) stop bytes.now) }
    ensures within { IfOk result (λ n. n ≤ length bytes.now) }
{
    let mut at = 0;
    while at < bytes.len() {
        let b = bytes[at];
        let rest = after(bytes, at + 1);
        if stops(stop, b, rest) {
            return Ok(at + stop_len(stop));
        }
        let n = skip_token(b, rest, depth)?;
        at += 1 + n;
    }
    match unclosed(stop) {
        Some(fault) => Err(fault),
        None => Ok(at),
    }
}

/// Returns the length of a word without a leading `{*}`.
#[cycle(skip)]
#[tactic(auto, unfolding(crate::specs::Commands::plain_word))]
fn skip_plain_word(bytes: &[u8], stop: Stop, depth: u8) -> Result<usize, WordFault>
    ensures value { result ≡ count_of (plain_word (inside_of depth) stop bytes.now) }
    ensures within { IfOk result (λ n. n ≤ length bytes.now) }
{
    match bytes {
        [] => Ok(0),
        [b'"', rest @ ..] => {
            let n = skip_parts(rest, Stop::Quote, depth)?;
            if !may_end(stop, after(rest, n)) {
                return Err(WordFault::ExtraAfterQuote);
            }
            Ok(1 + n)
        }
        [b'{', rest @ ..] => {
            let Some(n) = closing(rest) else {
                return Err(WordFault::MissingBrace);
            };
            if !may_end(stop, after(rest, 1 + n)) {
                return Err(WordFault::ExtraAfterBrace);
            }
            Ok(1 + (1 + n))
        }
        [_, ..] => skip_parts(bytes, stop, depth),
    }
}

/// Returns the length of a word.
#[cycle(skip)]
#[tactic(auto, unfolding(crate::specs::Commands::word))]
fn skip_word(bytes: &[u8], stop: Stop, depth: u8) -> Result<usize, WordFault>
    ensures value { result ≡ count_of (word (inside_of depth) stop bytes.now) }
    ensures within { IfOk result (λ n. n ≤ length bytes.now) }
{
    let prefix = if is_expansion(stop, bytes) { 3 } else { 0 };
    let n = skip_plain_word(after(bytes, prefix), stop, depth)?;
    Ok(prefix + n)
}

/// Returns the length of a script in brackets, with the `]`.
#[cycle(skip)]
fn skip_script(bytes: &[u8], depth: u8) -> Result<usize, WordFault>
    ensures value { result ≡ nested_script (inside_of depth) bytes.now true }
    ensures some { IfOk result (λ n. 0 < n) }
    ensures within { IfOk result (λ n. n ≤ length bytes.now) }
{
    let mut first = true;
    let mut at = 0;
    while at < bytes.len() {
        let b = bytes[at];
        if b == b']' {
            return Ok(at + 1);
        }
        match gap_at(b, after(bytes, at + 1), first) {
            Some((n, begins)) => {
                at += 1 + n;
                first = begins;
            }
            None => {
                let n = skip_word(after(bytes, at), Stop::NestedGap, depth)?;
                at += n;
                first = false;
            }
        }
    }
    Err(WordFault::MissingBracket)
}
