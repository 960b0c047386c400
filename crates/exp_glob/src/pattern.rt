//! Glob patterns and their search.

ghost use Rattle.std.specs.Prelude.{◌≡◌, ◌≤◌, ◌+◌, ◌<◌, ℕ, true, false, take, length, None, IfOk, IfSome};
ghost use Rattle.exp_glob.specs.Elements.{glob_of};
ghost use Rattle.exp_glob.specs.Endings.{CouldEndBefore};
ghost use Rattle.exp_glob.specs.Search.{first_span};
ghost use Rattle.exp_glob.specs.Spans.{GlobSpan, FindsFirst};
ghost use Rattle.exp_glob.specs.Stars.{behind_star};

use crate::element::Elements;
use crate::ending::lacks_end;
use crate::literal::{lacks_literal, later_literals};
use crate::places::after;
use crate::plan::SearchElements;
use crate::reading::elements;
use crate::runs::{least_run, longest, run_end, star_end};
use std::alloc::{AllocError, Global};

/// A parsed glob pattern.
#[derive(Drop)]
pub struct Glob {
    /// The pattern began with `^`: it matches only at the start of the text.
    pub anchored: bool,
    /// The elements, without that `^`.
    pub elements: SearchElements,
}

impl Glob {
    /// Parses a pattern. Every text is a pattern. Searches with this `nocase` are fast.
    pub fn new(alloc: Global, pattern: &[u8], nocase: bool) -> Result<Glob, AllocError>
        ensures { IfOk result (λ g. g ≡ glob_of pattern.now) }
    {
        match pattern {
            [] => {
                let elements = SearchElements::new(alloc, Elements::new(alloc), nocase)?;
                Ok(Glob {
                    anchored: false,
                    elements,
                })
            }
            [first, rest @ ..] => {
                if *first == b'^' {
                    let elements = SearchElements::new(alloc, elements(alloc, rest)?, nocase)?;
                    return Ok(Glob {
                        anchored: true,
                        elements,
                    });
                }
                let elements = SearchElements::new(alloc, elements(alloc, pattern)?, nocase)?;
                Ok(Glob {
                    anchored: false,
                    elements,
                })
            }
        }
    }

    /// Returns a copy. Searches with this `nocase` are fast.
    pub fn copied(&self, alloc: Global, nocase: bool) -> Result<Glob, AllocError>
        ensures { IfOk result (λ g. g ≡ self.now) }
    {
        Ok(Glob {
            anchored: self.anchored,
            elements: self.elements.copied(alloc, nocase)?,
        })
    }

    /// Returns a bound: a match may start at each index below it.
    fn starts(&self, text: &[u8]) -> usize
        ensures anchored { self.now.anchored ≡ true → result ≡ 1 }
        ensures free { self.now.anchored ≡ false → result ≡ length text.now + 1 }
    {
        if self.anchored { 1 } else { text.len() + 1 }
    }

    /// Returns whether an anchored pattern's first run matches at the start. True if the pattern is
    /// not anchored.
    fn can_begin(&self, text: &[u8], nocase: bool) -> bool {
        !self.anchored || run_end(self.elements.as_slice(), text, 0, nocase).is_some()
    }

    /// Finds the match that starts first, and the longest one from there. Returns the index of its
    /// start, and the index after its end.
    ///
    /// Under `nocase`, ASCII letters are compared without case. It does not allocate. Time is at
    /// most the product of both lengths.
    pub fn find(&self, text: &[u8], nocase: bool) -> Option<(usize, usize)>
        ensures first { FindsFirst self.now nocase text.now result }
        ensures value { result ≡ first_span self.now nocase text.now }
        ensures within { IfSome result (λ r. (r.0 ≤ r.1) × (r.1 ≤ length text.now)) }
    {
        let elements = self.elements.as_slice();
        let literals = self.elements.literals(nocase);
        if self.can_begin(text, nocase) && lacks_literal(literals, text) {
            return None;
        }
        let runs = literals.runs.as_slice();
        let bound = self.starts(text);
        let Some((start, end)) = least_run(elements, runs, text, 0, bound, nocase) else {
            return None;
        };
        let Some(n) = star_end(elements) else {
            return Some((start, end));
        };
        let later = later_literals(runs);
        let Some(end) = longest(after(elements, n), later, text, end, nocase) else {
            return None;
        };
        Some((start, end))
    }

    /// Like `find`, given that `text[..sought]` holds no match. Pass 0 if unknown.
    ///
    /// The search is shorter than that of `find`. A pattern that ends with `$` is searched only if
    /// the last bytes of the text fit it. A pattern without a star that isn't anchored is searched
    /// from a few bytes before `sought` on. Any other pattern that isn't anchored is searched only
    /// if the new bytes contain what a match ends with.
    pub fn find_on(&self, text: &[u8], sought: usize, nocase: bool) -> Option<(usize, usize)>
        requires { self.now.anchored ≡ false → 0 < sought → FindsFirst self.now nocase (take sought text.now) None }
        ensures first { FindsFirst self.now nocase text.now result }
        ensures value { result ≡ first_span self.now nocase text.now }
        ensures within { IfSome result (λ r. (r.0 ≤ r.1) × (r.1 ≤ length text.now)) }
    {
        let elements = self.elements.as_slice();
        if lacks_end(elements, text, nocase) {
            return None;
        }
        if !self.anchored && star_end(elements).is_none() {
            return self.find_run(text, sought.saturating_sub(elements.len()), nocase);
        }
        if self.has_none_behind(text, sought, nocase) {
            return None;
        }
        self.find(text, nocase)
    }

    /// Finds the match of a pattern without a star, given that no match begins before `from`.
    fn find_run(&self, text: &[u8], from: usize, nocase: bool) -> Option<(usize, usize)>
        requires anywhere { self.now.anchored ≡ false }
        requires one_run { behind_star self.now.elements ≡ None }
        requires none_before { (a b : ℕ) → a < from → ¬ GlobSpan self.now nocase text.now a b }
        ensures first { FindsFirst self.now nocase text.now result }
        ensures value { result ≡ first_span self.now nocase text.now }
        ensures within { IfSome result (λ r. (r.0 ≤ r.1) × (r.1 ≤ length text.now)) }
    {
        let runs = self.elements.literals(nocase).runs.as_slice();
        least_run(
            self.elements.as_slice(),
            runs,
            text,
            from,
            text.len() + 1,
            nocase,
        )
    }

    /// Returns true only if no match has to end after index `place`.
    fn has_none_behind(&self, text: &[u8], place: usize, nocase: bool) -> bool
        ensures { result ≡ true → (self.now.anchored ≡ false) × (0 < place) × (place < length text.now) × CouldEndBefore self.now.elements nocase text.now place }
    {
        if self.anchored || place == 0 {
            return false;
        }
        let literals = self.elements.literals(nocase);
        literals.ending.is_missing(text, place)
    }
}
