//! The matches of a regular pattern in a text (`regexp`, `regsub`).

ghost use Rattle.std.specs.Prelude.{◌≡◌, ◌<◌, ◌^◌, drop, take, None, Some, MatchOption};
ghost use Rattle.exp_match.specs.Written.{find_from};
ghost use Rattle.tcl_patterns.specs.Matches.{group, bounds, place_after, most, start_of, sought, part};
ghost use Rattle.tcl_results.specs.Says.{Says};

use exp_match::{Compiled, Regular, Searcher, Spans};
use std::alloc::Global;
use tcl_results::front::{has_flag, start_word};
use tcl_results::indices::{before, index_behind};
use tcl_results::parts::{after, front};
use tcl_results::{Complaint, pattern_of};
use tcl_values::Value;

/// Returns the bounds of a group, or `None` if it took no part.
pub(crate) fn group(spans: &[Option<(usize, usize)>], n: usize) -> Option<(usize, usize)>
    ensures { result ≡ group n spans.now }
{
    match spans.get(n) {
        Some(span) => *span,
        None => None,
    }
}

/// Returns the start and the end of a match.
pub(crate) fn bounds(spans: &[Option<(usize, usize)>]) -> (usize, usize)
    ensures { result ≡ bounds spans.now }
{
    match group(spans, 0) {
        Some(span) => span,
        None => (0, 0),
    }
}

/// Returns the place of the search after a match with these bounds.
fn place_after(span: (usize, usize)) -> usize
    requires { span.1 < 2 ^ 63 }
    ensures { result ≡ place_after span }
{
    if span.0 == span.1 { span.1 + 1 } else { span.1 }
}

/// Finds the first match at or after a place. Returns the place of the next search.
pub(crate) fn next_match(
    searcher: &mut Searcher,
    text: &[u8],
    at: usize,
    spans: &mut Spans,
) -> Option<usize>
    ensures found { MatchOption result (find_from searcher.old text.now at ≡ None) (λ next. (find_from searcher.old text.now at ≡ Some spans.new) × (next ≡ place_after (bounds spans.new))) }
    ensures kept { result ≡ None → spans.new ≡ spans.old }
    ensures same { searcher.new ≡ searcher.old }
{
    if !searcher.find_from(text, at, spans) {
        return None;
    }
    Some(place_after(bounds(spans)))
}

/// Returns how many matches are sought: all, or one.
pub(crate) fn most(all: bool, text: &[u8]) -> usize
    ensures { result ≡ most all text.now }
{
    if all { text.len() + 1 } else { 1 }
}

/// Returns the place at which the search begins.
fn start_of(alloc: Global, flags: &[Value], text: &[u8]) -> Result<usize, Complaint>
    ensures { Says result (start_of flags.now text.now) }
{
    let place = index_behind(alloc, text.len(), start_word(flags))?;
    Ok(before(place, text.len()))
}

/// Returns the pattern, and the place at which the search begins.
pub(crate) fn sought(
    alloc: Global,
    patterns: &mut Compiled,
    flags: &[Value],
    pattern: &[u8],
    text: &[u8],
) -> Result<(Regular, usize), Complaint>
    ensures { Says result (sought flags.now pattern.now text.now) }
{
    let start = start_of(alloc, flags, text)?;
    let nocase = has_flag(flags, b"-nocase");
    let lines = has_flag(flags, b"-lineanchor");
    let regular = pattern_of(alloc, patterns, pattern, nocase, lines)?;
    Ok((regular, start))
}

/// Returns the bytes of a text from one index to another.
pub(crate) fn between(text: &[u8], from: usize, to: usize) -> &[u8]
    ensures { result.now ≡ drop from (take to text.now) }
{
    after(front(text, to), from)
}

/// Returns the part of a text between two bounds. It is empty without bounds.
pub(crate) fn part(span: Option<(usize, usize)>, text: &[u8]) -> &[u8]
    ensures { result.now ≡ part span text.now }
{
    match span {
        Some((from, to)) => between(text, from, to),
        None => &[],
    }
}
