//! The search for an exact pattern.

ghost use Rattle.std.specs.Prelude.{◌≡◌, ◌↔◌, ◌<◌, ◌≤◌, true, false, IsTrue, take, length, slice_index, None};
ghost use Rattle.exp_match.specs.Exact.{StandsAt, FindsExact, find_text};

use crate::places::after;
use memchr::arch::all::packedpair::{DefaultFrequencyRank, HeuristicFrequencyRank};
use memchr::{memchr, memchr2, memmem};

/// The most bytes of a text that are compared to find the rarest one.
const RANKED: usize = 32;

/// Finds the least index of a text. Returns the index and the end. Under `nocase`, ASCII letters
/// are compared without case.
///
/// It does not allocate. With case it is one linear search, which begins only if the last byte of
/// the text occurs. Without case it compares the text at each occurrence of its rarest byte.
pub(crate) fn find_exact(text: &[u8], nocase: bool, bytes: &[u8]) -> Option<(usize, usize)>
    ensures stands { FindsExact nocase text.now bytes.now result }
    ensures value { result ≡ find_text nocase text.now bytes.now }
{
    if nocase {
        find_folded(text, bytes)
    } else {
        find_same(text, bytes)
    }
}

/// Like `find_exact`, given that `bytes[..sought]` doesn't contain the text. Pass 0 if unknown. It
/// reads at most `text.len()` of these bytes again.
pub(crate) fn find_exact_on(
    text: &[u8],
    nocase: bool,
    bytes: &[u8],
    sought: usize,
) -> Option<(usize, usize)>
    requires { 0 < sought → FindsExact nocase text.now (take sought bytes.now) None }
    ensures stands { FindsExact nocase text.now bytes.now result }
    ensures value { result ≡ find_text nocase text.now bytes.now }
{
    let from = sought.saturating_sub(text.len());
    if bytes.len() < from {
        return None;
    }
    match find_exact(text, nocase, after(bytes, from)) {
        Some((start, end)) => Some((from + start, from + end)),
        None => None,
    }
}

/// Returns true only if the last byte of the text doesn't occur, so that the text doesn't either.
/// This test is cheap and mostly decides, while a search for a text needs preparation.
fn lacks_last(text: &[u8], bytes: &[u8]) -> bool
    ensures { IsTrue result → FindsExact false text.now bytes.now None }
{
    if text.is_empty() {
        return false;
    }
    let last = text.len() - 1;
    match memchr(text[last], bytes) {
        Some(_) => false,
        None => true,
    }
}

/// Finds the least index of a text, with case.
fn find_same(text: &[u8], bytes: &[u8]) -> Option<(usize, usize)>
    ensures { FindsExact false text.now bytes.now result }
{
    if lacks_last(text, bytes) {
        return None;
    }
    match memmem::find(bytes, text) {
        Some(at) => Some((at, at + text.len())),
        None => None,
    }
}

/// Finds the least index of a text, without case.
fn find_folded(text: &[u8], bytes: &[u8]) -> Option<(usize, usize)>
    ensures { FindsExact true text.now bytes.now result }
{
    match text {
        [] => Some((0, 0)),
        [_, ..] => find_by(text, rarest(text), bytes),
    }
}

/// Returns the rank of a byte in typical text, the more common one of its two cases. A higher rank
/// is more common.
fn commonness(byte: u8) -> u8 {
    let ranks = DefaultFrequencyRank;
    let lower = ranks.rank(byte.to_ascii_lowercase());
    lower.max(ranks.rank(byte.to_ascii_uppercase()))
}

/// Returns the index of the byte that is least common in typical text, among the first ones.
fn rarest(text: &[u8]) -> usize
    requires { 0 < length text.now }
    ensures { result < length text.now }
{
    let mut rarest = 0;
    let mut least = commonness(text[0]);
    for j in 1..text.len().min(RANKED) {
        let common = commonness(text[j]);
        if common < least {
            least = common;
            rarest = j;
        }
    }
    rarest
}

/// Finds the least index of a text, without case. It compares the text at each occurrence of the
/// byte at index `rare`.
fn find_by(text: &[u8], rare: usize, bytes: &[u8]) -> Option<(usize, usize)>
    requires { rare < length text.now }
    ensures { FindsExact true text.now bytes.now result }
{
    if bytes.len() < text.len() {
        return None;
    }
    let lower = text[rare].to_ascii_lowercase();
    let upper = text[rare].to_ascii_uppercase();
    let mut from = 0;
    while let Some(n) = memchr2(lower, upper, after(bytes, from + rare)) {
        let at = from + n;
        if stands_folded(text, bytes, at) {
            return Some((at, at + text.len()));
        }
        from = at + 1;
    }
    None
}

/// Returns whether a text occurs at index `at`, without case.
fn stands_folded(text: &[u8], bytes: &[u8], at: usize) -> bool
    requires { at ≤ length bytes.now }
    ensures { IsTrue result ↔ StandsAt true text.now bytes.now at }
{
    if bytes.len() - at < text.len() {
        return false;
    }
    for (j, c) in text.iter().enumerate() {
        if bytes[at + j].to_ascii_lowercase() != c.to_ascii_lowercase() {
            return false;
        }
    }
    true
}
