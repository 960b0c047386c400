//! Computes how many bytes decide whether a match of a regular pattern begins at an index.

ghost use Rattle.std.specs.Prelude.{◌≡◌, ℕ, ◌-◌, Bool, false, List, map, Option, IfSome, MatchOption};
ghost use Rattle.regex.specs.Patterns.{Re, empty, cat, alt, repeat, cat_all, alt_all};
ghost use Rattle.regex_hir.specs.Meaning.{copies, meaning};
ghost use Rattle.exp_match.specs.Reach.{IsExtent, IsReach, Opens, beginning, is_nullable, look_reach};
ghost use Rattle.exp_match.specs.Unbuilt.{IsGivenFor};
ghost use Rattle.exp_match.specs.Written.{config_of};

use regex_hir::{Hir, Look};
use regex_syntax::{Config, Flags, parse};
use std::alloc::Global;

/// Returns how many bytes decide whether a match of a pattern begins at an index, if earlier bytes
/// don't matter. `None` if this isn't known. `given` is the text that `regex` gets for the pattern.
///
/// It parses that text once more, because a compiled pattern doesn't contain this. Without memory
/// for that, the result is `None`.
pub(crate) fn opening_of_text(
    alloc: Global,
    given: &str,
    nocase: bool,
    lines: bool,
) -> Option<usize>
    ensures { (source : List ℕ) → IsGivenFor source given.now → IfSome result (Opens (record { source = source; nocase = nocase; lines = lines })) }
{
    let parsed = parse(alloc, given, &config(nocase, lines)).ok()?;
    let known = extent_of(&parsed.hir);
    drop(parsed);
    known.opening
}

/// Returns the settings with which `Regular` parses its text.
fn config(nocase: bool, lines: bool) -> Config
    ensures { result ≡ config_of nocase lines }
{
    let defaults = Config::default();
    Config {
        flags: Flags {
            dot_matches_new_line: true,
            case_insensitive: nocase,
            multi_line: lines,
            ..defaults.flags
        },
        utf8: false,
        ..defaults
    }
}

/// Returns the index from which a search starts if the first `sought` bytes hold no match.
pub(crate) fn start_behind(opening: Option<usize>, sought: usize) -> usize
    ensures { MatchOption opening (result ≡ 0) (λ m. result ≡ sought - (m - 1)) }
{
    match opening {
        Some(opening) => sought.saturating_sub(opening.saturating_sub(1)),
        None => 0,
    }
}

/// What is known of a pattern.
#[derive(Clone, Copy)]
struct Extent {
    /// It matches the empty text at every index.
    is_nullable: bool,
    /// The most bytes that a match takes. `None` if this isn't known: there is no such number, it
    /// is too great, or a part without one is repeated zero times.
    reach: Option<usize>,
    /// The number of bytes that decide whether a match begins: the reach of its beginning. `None`
    /// if this isn't known.
    opening: Option<usize>,
}

impl Extent {
    /// Returns the extent of a pattern that is its own beginning and doesn't match the empty text
    /// everywhere.
    fn of(reach: Option<usize>) -> Extent
        ensures { (a : Re) → IsReach reach a → is_nullable a ≡ false → beginning a ≡ a → IsExtent result a }
    {
        Extent {
            is_nullable: false,
            reach,
            opening: reach,
        }
    }

    /// Returns the extent of the empty pattern.
    fn empty() -> Extent
        ensures { IsExtent result empty }
    {
        Extent {
            is_nullable: true,
            reach: Some(0),
            opening: Some(0),
        }
    }

    /// Returns the extent of a sequence of two patterns.
    fn followed_by(self, next: Extent) -> Extent
        ensures { (a b : Re) → IsExtent self a → IsExtent next b → IsExtent result (cat a b) }
    {
        Extent {
            is_nullable: self.is_nullable && next.is_nullable,
            reach: sum(self.reach, next.reach),
            opening: self.opening_before(next),
        }
    }

    /// Returns the opening of a sequence of two patterns.
    fn opening_before(self, next: Extent) -> Option<usize>
        ensures { (a b : Re) → IsExtent self a → IsExtent next b → IsReach result (beginning (cat a b)) }
    {
        if next.is_nullable {
            self.opening
        } else {
            sum(self.reach, next.opening)
        }
    }

    /// Returns the extent of two alternatives.
    fn or(self, other: Extent) -> Extent
        ensures { (a b : Re) → IsExtent self a → IsExtent other b → IsExtent result (alt a b) }
    {
        Extent {
            is_nullable: self.is_nullable || other.is_nullable,
            reach: greater(self.reach, other.reach),
            opening: greater(self.opening, other.opening),
        }
    }

    /// Returns the extent of a repetition.
    fn repeated(self, min: u32, max: Option<u32>) -> Extent
        ensures { (greedy : Bool) (a : Re) → IsExtent self a → IsExtent result (repeat min max greedy a) }
    {
        Extent {
            is_nullable: self.is_nullable_repeated(min),
            reach: repeated(self.reach, min, max),
            opening: self.opening_repeated(min),
        }
    }

    /// Returns whether a repetition matches the empty text at every index.
    fn is_nullable_repeated(self, min: u32) -> bool
        ensures { (max : Option ℕ) (greedy : Bool) (a : Re) → IsExtent self a → result ≡ is_nullable (repeat min max greedy a) }
    {
        if min == 0 {
            return true;
        }
        self.is_nullable
    }

    /// Returns the opening of a repetition whose pattern takes at least one byte. All required
    /// rounds but the last are complete.
    fn opening_repeated(self, min: u32) -> Option<usize>
        ensures { (max : Option ℕ) (greedy : Bool) (a : Re) → IsExtent self a → IsReach result (beginning (repeat min max greedy a)) }
    {
        if self.is_nullable {
            return None;
        }
        let before = min.checked_sub(1)?;
        behind_rounds(self.reach, before, self.opening)
    }
}

/// Returns what is known of a pattern.
#[cycle(extent_of)]
fn extent_of(hir: &Hir) -> Extent
    ensures { IsExtent result (meaning hir.now) }
{
    match hir {
        Hir::Empty => Extent::empty(),
        Hir::Literal(bytes) => Extent::of(Some(bytes.len())),
        Hir::Bytes(_) => Extent::of(Some(1)),
        Hir::Chars(_) => Extent::of(Some(4)),
        Hir::Look(look) => Extent::of(reach_of_look(*look)),
        Hir::Repetition { min, max, sub, .. } => extent_of(sub).repeated(*min, *max),
        Hir::Capture { sub, .. } => extent_of(sub),
        Hir::Concat(subs) => extent_of_all(subs),
        Hir::Alternation(subs) => extent_of_any(subs),
    }
}

/// Returns the reach of an assertion. Only the end of the bytes has one: the start of the bytes and
/// the start and the end of a line depend on the byte before or behind.
fn reach_of_look(look: Look) -> Option<usize>
    ensures { result ≡ look_reach look }
{
    match look {
        Look::End => Some(0),
        _ => None,
    }
}

/// Returns the extent of a sequence. The loop runs from the last pattern to the first, as `cat_all`
/// is built.
#[cycle(extent_of)]
fn extent_of_all(subs: &[Hir]) -> Extent
    ensures { IsExtent result (cat_all (map meaning subs.now)) }
{
    let mut rest = Extent::empty();
    for i in (0..subs.len()).rev() {
        rest = extent_of(&subs[i]).followed_by(rest);
    }
    rest
}

/// Returns the extent of a choice. The loop runs from the last pattern to the first, as `alt_all`
/// is built, which ends with an empty class.
#[cycle(extent_of)]
fn extent_of_any(subs: &[Hir]) -> Extent
    ensures { IsExtent result (alt_all (map meaning subs.now)) }
{
    let mut others = Extent::of(Some(1));
    for i in (0..subs.len()).rev() {
        others = extent_of(&subs[i]).or(others);
    }
    others
}

/// Returns the reach of a sequence of two patterns.
fn sum(first: Option<usize>, second: Option<usize>) -> Option<usize>
    ensures { (a b : Re) → IsReach first a → IsReach second b → IsReach result (cat a b) }
{
    first?.checked_add(second?)
}

/// Returns the reach of two alternatives.
fn greater(first: Option<usize>, second: Option<usize>) -> Option<usize>
    ensures { (a b : Re) → IsReach first a → IsReach second b → IsReach result (alt a b) }
{
    Some(first?.max(second?))
}

/// Returns the reach of a repetition.
fn repeated(once: Option<usize>, min: u32, max: Option<u32>) -> Option<usize>
    ensures { (greedy : Bool) (a : Re) → IsReach once a → IsReach result (repeat min max greedy a) }
{
    let rounds = min.max(max?);
    once?.checked_mul(rounds as usize)
}

/// Returns the reach of a number of copies of a pattern, followed by another pattern.
fn behind_rounds(once: Option<usize>, rounds: u32, last: Option<usize>) -> Option<usize>
    ensures { (a b : Re) → IsReach once a → IsReach last b → IsReach result (copies rounds a b) }
{
    if rounds == 0 {
        return last;
    }
    once?.checked_mul(rounds as usize)?.checked_add(last?)
}
