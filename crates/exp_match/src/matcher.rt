//! Searches for a regular pattern.

ghost use Rattle.std.specs.Prelude.{◌≡◌, ℕ, ◌<◌, false, Some, None, IsTrue, IfOk, IfSome, length, option_map, take};
ghost use Rattle.std.specs.Bool.{then_some};
ghost use Rattle.std.specs.List.{slice_get};
ghost use Rattle.regex.specs.Bytes.{captures_span, match_span, matcher_pattern};
ghost use Rattle.regex.specs.Patterns.{find};
ghost use Rattle.exp_match.specs.Reach.{IsBounded};
ghost use Rattle.exp_match.specs.Written.{AreWithin, FindsAsWritten, FindsFrom, Shows, find_from, find_written, seen_of};

use crate::reach::start_behind;
use crate::regular::Regular;
use regex::bytes::{Captures, Match, Matcher};
use std::alloc::{AllocError, Global};
use std::marker::Model;

/// The spans of a match and of its groups 1 to 9: start and exclusive end, or `None`.
pub type Spans = [Option<(usize, usize)>; 10];

/// The state of searches for a pattern, which later searches reuse. A contract sees the pattern.
#[derive(Drop)]
pub struct Searcher<'r> {
    /// The text of the pattern.
    source: &'r [u8],
    /// Whether letters match in either case.
    nocase: bool,
    /// Whether `^` and `$` hold at the start and the end of each line.
    lines: bool,
    /// The number of bytes that decide whether a match begins at an index, if it is known.
    opening: Option<usize>,
    /// The matcher of `regex`.
    matcher: Matcher<'r>,
}

impl<'r> Model for Searcher<'r> {
    ghost use Rattle.std.specs.Prelude.{IfSome};
    ghost use Rattle.regex.specs.Bytes.{matcher_pattern};
    ghost use Rattle.exp_match.specs.Reach.{Opens};
    ghost use Rattle.exp_match.specs.Written.{Written, IsReadAs};

    ghost Value = { Written };

    ghost view = { λ m. record { source = m.source.now; nocase = m.nocase; lines = m.lines } };

    ghost invariant = { λ m. IsReadAs (record { source = m.source.now; nocase = m.nocase; lines = m.lines }) (matcher_pattern m.matcher) × IfSome m.opening (Opens (record { source = m.source.now; nocase = m.nocase; lines = m.lines })) };
}

impl<'r> Searcher<'r> {
    /// Creates a searcher for this pattern.
    pub fn new(alloc: Global, regular: &'r Regular) -> Result<Searcher<'r>, AllocError>
        ensures { IfOk result (λ m. m ≡ regular.now) }
    {
        Ok(Searcher {
            source: regular.source(),
            nocase: regular.nocase(),
            lines: regular.lines(),
            opening: regular.opening(),
            matcher: regular.regex().matcher(alloc)?,
        })
    }

    /// Returns true only if this is a searcher for the pattern.
    pub(crate) fn is_for(&self, regular: &Regular) -> bool
        ensures { IsTrue result → self.now ≡ regular.now }
    {
        self.nocase == regular.nocase()
            && self.lines == regular.lines()
            && self.source == regular.source()
    }

    /// Returns whether a match begins at or after index `start`, and writes the spans of the first
    /// one, leftmost-first. Anchors see the bytes before `start`.
    ///
    /// If `start` is past the end of the bytes, nothing is found.
    pub fn find_from(&mut self, bytes: &[u8], start: usize, spans: &mut Spans) -> bool
        ensures written { FindsFrom self.old bytes.now start (then_some result spans.new) }
        ensures found { then_some result spans.new ≡ find_from self.old bytes.now start }
        ensures within { IfSome (then_some result spans.new) (AreWithin start (length bytes.now)) }
        ensures kept { result ≡ false → spans.new ≡ spans.old }
        ensures same { self.new ≡ self.old }
    {
        first_match(&mut self.matcher, bytes, start, spans)
    }

    /// Returns whether there is a match in these bytes, and writes the spans of the first one,
    /// leftmost-first.
    ///
    /// A pattern with a bounded opening must have no match in `bytes[..sought]`. Pass 0 if unknown.
    /// It reads no more of these bytes again than its opening has.
    pub(crate) fn find(&mut self, bytes: &[u8], sought: usize, spans: &mut Spans) -> bool
        requires { 0 < sought → IsBounded self.old → FindsAsWritten self.old (take sought bytes.now) None }
        ensures written { FindsAsWritten self.old bytes.now (then_some result spans.new) }
        ensures value { then_some result spans.new ≡ find_written self.old bytes.now }
        ensures same { self.new ≡ self.old }
    {
        let from = start_behind(self.opening, sought);
        first_match(&mut self.matcher, bytes, from, spans)
    }
}

/// Returns whether a match begins at or after index `start`, and writes the spans of the first one,
/// leftmost-first.
fn first_match(matcher: &mut Matcher, bytes: &[u8], start: usize, spans: &mut Spans) -> bool
    ensures shows { Shows (option_map seen_of (find (matcher_pattern matcher.old) bytes.now start)) (then_some result spans.new) }
    ensures ten { IfSome (then_some result spans.new) (λ s. length s ≡ 10) }
    ensures within { IfSome (then_some result spans.new) (AreWithin start (length bytes.now)) }
    ensures kept { result ≡ false → spans.new ≡ spans.old }
    ensures same { matcher_pattern matcher.new ≡ matcher_pattern matcher.old }
{
    match matcher.captures_at(bytes, start) {
        Some(captures) => {
            *spans = spans_of(&captures);
            true
        }
        None => false,
    }
}

/// Returns the spans of the groups 0 to 9.
fn spans_of(captures: &Captures) -> Spans
    ensures ten { length result ≡ 10 }
    ensures are { (n : ℕ) → n < 10 → slice_get result n ≡ Some (captures_span captures.now n) }
{
    let mut spans = [None; 10];
    for n in 0..10 {
        spans[n] = span_of(captures.get(n));
    }
    spans
}

/// Returns the start and the end of a match.
fn span_of(found: Option<Match>) -> Option<(usize, usize)>
    ensures { result ≡ option_map match_span found.entry }
{
    match found {
        Some(m) => Some((m.start(), m.end())),
        None => None,
    }
}
