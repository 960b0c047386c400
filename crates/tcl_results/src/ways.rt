//! How a text is compared with a pattern.

ghost use Rattle.std.specs.Prelude.{◌≡◌, IfOk};
ghost use Rattle.exp_glob.specs.Whole.{matches};
ghost use Rattle.exp_match.specs.Written.{finds};
ghost use Rattle.tcl_results.specs.Ways.{pattern_of, no_match};
ghost use Rattle.tcl_results.specs.Says.{Says};

use crate::complaint::Complaint;
use crate::texts::bad_regular;
use exp_glob::Glob;
use exp_match::{Compiled, Regular, RegularFault, Searcher, Spans};
use std::alloc::{AllocError, Global};

/// How a text is compared with a pattern.
#[derive(Clone, Copy)]
pub enum Way {
    /// They are equal.
    Exact,
    /// A glob matches the whole text.
    Glob,
    /// A regular pattern matches in the text.
    Regular,
}

/// Returns whether a pattern matches a whole text.
pub fn matches(alloc: Global, nocase: bool, pattern: &[u8], text: &[u8]) -> Result<bool, AllocError>
    ensures { IfOk result (λ t. t ≡ matches nocase pattern.now text.now) }
{
    let glob = Glob::whole(alloc, pattern, nocase)?;
    Ok(glob.is_found(text, nocase))
}

/// Compiles a pattern, or takes it from the cache. The error is `bad regular expression` if the
/// text is no pattern.
pub fn pattern_of(
    alloc: Global,
    patterns: &mut Compiled,
    text: &[u8],
    nocase: bool,
    lines: bool,
) -> Result<Regular, Complaint>
    ensures { Says result (pattern_of nocase lines text.now) }
{
    match patterns.regular(alloc, text, nocase, lines) {
        Ok(regular) => Ok(regular),
        Err(RegularFault::NoPattern) => Err(Complaint::Said(bad_regular(alloc, text)?)),
        Err(RegularFault::Refused) => Err(Complaint::Memory),
        Err(RegularFault::Memory) => Err(Complaint::Memory),
    }
}

/// Returns bounds before any match.
pub fn no_match() -> Spans
    ensures { result ≡ no_match }
{
    [None; 10]
}

/// Returns whether a pattern matches in a text.
#[inline(never)]
pub fn finds(alloc: Global, regular: &Regular, text: &[u8]) -> Result<bool, AllocError>
    ensures { IfOk result (λ found. found ≡ finds regular.now text.now) }
{
    let mut searcher = Searcher::new(alloc, regular)?;
    Ok(searcher.find_from(text, 0, &mut no_match()))
}
