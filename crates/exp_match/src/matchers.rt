//! The searchers for the regular patterns in a list, kept from one test to the next.

ghost use Rattle.std.specs.Prelude.{◌≡◌, ◌<◌, Some, None, IfOk, IfSome, length, take};
ghost use Rattle.std.specs.Bool.{then_some};
ghost use Rattle.std.specs.List.{slice_get};
ghost use Rattle.exp_match.specs.Reach.{IsBounded};
ghost use Rattle.exp_match.specs.Written.{FindsAsWritten, find_written};

use crate::matcher::{Searcher, Spans};
use crate::regular::Regular;
use std::alloc::{AllocError, Global};
use std::marker::Model;

/// Searchers for regular patterns. Each is made at the first search for its pattern and then kept.
///
/// A contract sees nothing of them: results are the same with and without them.
#[derive(Drop)]
pub struct Matchers<'l> {
    /// One searcher per pattern that was searched for.
    list: Vec<Searcher<'l>>,
}

impl<'l> Model for Matchers<'l> {
    ghost use Rattle.std.specs.Prelude.{⊤};

    ghost Value = { ⊤ };

    ghost view = { λ _. tt };
}

/// Returns the index of the searcher for a pattern.
fn position(searchers: &[Searcher], regular: &Regular) -> Option<usize>
    ensures { IfSome result (λ n. (n < length searchers.now) × (slice_get searchers.now n ≡ Some regular.now)) }
{
    for (n, searcher) in searchers.iter().enumerate() {
        if searcher.is_for(regular) {
            return Some(n);
        }
    }
    None
}

impl<'l> Matchers<'l> {
    /// Creates an empty list without allocating.
    pub fn new(alloc: Global) -> Matchers<'l> {
        Matchers {
            list: Vec::new(alloc),
        }
    }

    /// Returns whether a pattern matches in these bytes, and writes the spans of its first match. A
    /// pattern with a bounded opening must have no match in `bytes[..sought]`. Pass 0 if unknown.
    ///
    /// Neither this function nor `find_newly` is inlined. A function pays at entry for the size of
    /// its locals, which are large here, and tests of other patterns don't need them.
    #[inline(never)]
    pub(crate) fn find(
        &mut self,
        alloc: Global,
        regular: &'l Regular,
        bytes: &[u8],
        sought: usize,
        spans: &mut Spans,
    ) -> Result<bool, AllocError>
        requires { 0 < sought → IsBounded regular.now → FindsAsWritten regular.now (take sought bytes.now) None }
        ensures written { IfOk result (λ found. FindsAsWritten regular.now bytes.now (then_some found spans.new)) }
        ensures value { IfOk result (λ found. then_some found spans.new ≡ find_written regular.now bytes.now) }
    {
        match position(self.list.as_slice(), regular) {
            Some(n) => Ok(self.list[n].find(bytes, sought, spans)),
            None => self.find_newly(alloc, regular, bytes, sought, spans),
        }
    }

    /// Like `find`, for a pattern without a searcher yet.
    #[inline(never)]
    fn find_newly(
        &mut self,
        alloc: Global,
        regular: &'l Regular,
        bytes: &[u8],
        sought: usize,
        spans: &mut Spans,
    ) -> Result<bool, AllocError>
        requires { 0 < sought → IsBounded regular.now → FindsAsWritten regular.now (take sought bytes.now) None }
        ensures written { IfOk result (λ found. FindsAsWritten regular.now bytes.now (then_some found spans.new)) }
        ensures value { IfOk result (λ found. then_some found spans.new ≡ find_written regular.now bytes.now) }
    {
        let mut searcher = Searcher::new(alloc, regular)?;
        let found = searcher.find(bytes, sought, spans);
        self.list.push(searcher)?;
        Ok(found)
    }
}
