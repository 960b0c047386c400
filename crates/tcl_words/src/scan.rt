//! Finds the ends of words, brackets and comments.

ghost use Rattle.std.specs.Prelude.{◌≡◌, ◌≤◌, ◌<◌, IfSome, IsTrue, length};
ghost use Rattle.tcl_words.specs.Lists.{begins_with};
ghost use Rattle.tcl_words.specs.Commands.{is_blank, ends_command, is_continued, is_gap, stops, stop_len, unclosed, may_end, is_name_byte, name_len, brace_at, comment_len, gap_at, is_expansion};

use crate::escapes::blanks;
use crate::faults::WordFault;
use crate::places::after;
use crate::stop::Stop;

/// Returns whether a byte is white space between the words of a command: 09, 0B, 0C, 0D or 20.
pub fn is_blank(b: u8) -> bool
    ensures { result ≡ is_blank b }
{
    b == b' ' || b == b'\t' || b == 0x0b || b == 0x0c || b == b'\r'
}

/// Returns whether a byte ends a command: a newline or `;`.
pub fn ends_command(b: u8) -> bool
    ensures { result ≡ ends_command b }
{
    b == b'\n' || b == b';'
}

pub(crate) fn begins_with(c: u8, bytes: &[u8]) -> bool
    ensures value { result ≡ begins_with c bytes.now }
    ensures some { IsTrue result → 0 < length bytes.now }
{
    match bytes {
        [] => false,
        [b, ..] => *b == c,
    }
}

/// Returns whether a byte is a backslash followed by a newline, which is white space between words.
pub fn is_continued(b: u8, rest: &[u8]) -> bool
    ensures { result ≡ is_continued b rest.now }
{
    b == b'\\' && begins_with(b'\n', rest)
}

fn is_gap(b: u8, rest: &[u8]) -> bool
    ensures { result ≡ is_gap b rest.now }
{
    is_blank(b) || ends_command(b) || is_continued(b, rest)
}

/// Returns whether a run of parts ends before this byte.
pub(crate) fn stops(stop: Stop, b: u8, rest: &[u8]) -> bool
    ensures { result ≡ stops stop b rest.now }
{
    match stop {
        Stop::Gap => is_gap(b, rest),
        Stop::NestedGap => is_gap(b, rest) || b == b']',
        Stop::Quote => b == b'"',
        Stop::Paren => b == b')',
        Stop::End => false,
    }
}

/// Returns the number of bytes that close a run.
pub(crate) fn stop_len(stop: Stop) -> usize
    ensures value { result ≡ stop_len stop }
    ensures small { result ≤ 1 }
{
    match stop {
        Stop::Gap | Stop::NestedGap | Stop::End => 0,
        Stop::Quote | Stop::Paren => 1,
    }
}

/// Returns the error if the text ends inside a run that needs a closing byte.
pub(crate) fn unclosed(stop: Stop) -> Option<WordFault>
    ensures { result ≡ unclosed stop }
{
    match stop {
        Stop::Gap | Stop::NestedGap | Stop::End => None,
        Stop::Quote => Some(WordFault::MissingQuote),
        Stop::Paren => Some(WordFault::MissingParen),
    }
}

/// Returns whether a word may end before these bytes.
pub(crate) fn may_end(stop: Stop, bytes: &[u8]) -> bool
    ensures { result ≡ may_end stop bytes.now }
{
    match bytes {
        [] => true,
        [b, rest @ ..] => stops(stop, *b, rest),
    }
}

fn is_name_byte(b: u8) -> bool
    ensures { result ≡ is_name_byte b }
{
    matches!(b, b'a'..=b'z' | b'A'..=b'Z' | b'0'..=b'9' | b'_')
}

/// Returns the number of leading bytes of a variable's name.
#[tactic(auto, unfolding(crate::specs::Commands::name_len))]
pub(crate) fn name_len(bytes: &[u8]) -> usize
    ensures value { result ≡ name_len bytes.now }
    ensures within { result ≤ length bytes.now }
{
    bytes.iter().take_while(|b| is_name_byte(**b)).count()
}

/// Returns the number of bytes before the first closing brace.
#[tactic(auto, unfolding(crate::specs::Commands::brace_at))]
pub(crate) fn brace_at(bytes: &[u8]) -> Option<usize>
    ensures value { result ≡ brace_at bytes.now }
    ensures within { IfSome result (λ n. n < length bytes.now) }
{
    bytes.iter().position(|b| *b == b'}')
}

/// Returns the length of a comment, up to and including the newline that ends it.
fn comment_len(bytes: &[u8]) -> usize
    ensures value { result ≡ comment_len bytes.now }
    ensures within { result ≤ length bytes.now }
{
    let mut at = 0;
    while at < bytes.len() {
        let b = bytes[at];
        if b == b'\n' {
            return at + 1;
        }
        if b == b'\\' && at + 1 < bytes.len() {
            at += 2;
        } else {
            at += 1;
        }
    }
    at
}

/// Reads white space, the end of a command or a comment. Returns the number of bytes after its
/// first one, and whether a command begins after it.
pub(crate) fn gap_at(b: u8, rest: &[u8], first: bool) -> Option<(usize, bool)>
    ensures value { result ≡ gap_at b rest.now first }
    ensures within { IfSome result (λ g. g.0 ≤ length rest.now) }
{
    if ends_command(b) {
        return Some((0, true));
    }
    if is_blank(b) {
        return Some((0, first));
    }
    if is_continued(b, rest) {
        return Some((1 + blanks(after(rest, 1)), first));
    }
    if b == b'#' && first {
        return Some((comment_len(rest), true));
    }
    None
}

/// Returns whether `{*}` stands directly before a word.
pub(crate) fn is_expansion(stop: Stop, bytes: &[u8]) -> bool
    ensures value { result ≡ is_expansion stop bytes.now }
    ensures room { IsTrue result → 3 < length bytes.now }
{
    match bytes {
        [b'{', b'*', b'}', rest @ ..] => !may_end(stop, rest),
        _ => false,
    }
}
