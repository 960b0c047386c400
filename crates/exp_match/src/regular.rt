//! Compiled regular patterns.

ghost use Rattle.std.specs.Prelude.{◌≡◌, ℕ, List, true, IsTrue, IfErr, IfOk, IfSome};
ghost use Rattle.regex.specs.Bytes.{IsReadFromSource, regex_config, regex_pattern, regex_source};
ghost use Rattle.exp_match.specs.Reach.{Opens};
ghost use Rattle.exp_match.specs.Scan.{is_pattern};
ghost use Rattle.exp_match.specs.Unbuilt.{IsGivenFor, IsOfRegular, refusal_of};
ghost use Rattle.exp_match.specs.Written.{IsReadAs, config_of};

use crate::faults::RegularFault;
use crate::reach::opening_of_text;
use crate::translation::translated;
use regex::bytes::Regex;
use regex::{Error, RegexBuilder};
use std::alloc::{AllocError, Global};
use std::marker::Model;
use std::rc::Rc;

/// A compiled pattern with its text.
#[derive(Drop)]
struct Kept {
    /// The text of the pattern.
    source: String,
    /// The compiled pattern. Its text is the translated one.
    regex: Regex,
}

/// A compiled regular pattern, possibly with several owners. A contract sees its text, whether case
/// is ignored, and whether anchors hold at lines.
#[derive(Drop)]
pub struct Regular {
    /// The compiled pattern.
    kept: Rc<Kept>,
    /// Whether letters match in either case.
    nocase: bool,
    /// Whether `^` and `$` hold at the start and the end of each line.
    lines: bool,
    /// The number of bytes that decide whether a match begins at an index, if it is known.
    opening: Option<usize>,
}

impl Model for Regular {
    ghost use Rattle.std.specs.Prelude.{◌≡◌, true, IfSome};
    ghost use Rattle.std.specs.String.{string_bytes};
    ghost use Rattle.regex.specs.Bytes.{regex_pattern};
    ghost use Rattle.exp_match.specs.Reach.{Opens};
    ghost use Rattle.exp_match.specs.Scan.{is_pattern};
    ghost use Rattle.exp_match.specs.Written.{Written, IsReadAs};

    ghost Value = { Written };

    ghost view = { λ r. record { source = string_bytes r.kept.value.source; nocase = r.nocase; lines = r.lines } };

    ghost invariant = { λ r. IsReadAs (record { source = string_bytes r.kept.value.source; nocase = r.nocase; lines = r.lines }) (regex_pattern r.kept.value.regex) × (is_pattern (string_bytes r.kept.value.source) ≡ true) × IfSome r.opening (Opens (record { source = string_bytes r.kept.value.source; nocase = r.nocase; lines = r.lines })) };
}

/// Returns the meaning of a compile error.
fn refusal_for(error: &Error) -> RegularFault
    ensures { result ≡ refusal_of error.now }
{
    match error {
        Error::CompiledTooBig | Error::Syntax(_) => RegularFault::Refused,
        Error::OutOfMemory | Error::Internal => RegularFault::Memory,
    }
}

/// Compiles a text that `regex` gets for a pattern.
fn regex_of(alloc: Global, given: &str, nocase: bool, lines: bool) -> Result<Regex, RegularFault>
    ensures built { IfOk result (λ r. (regex_config r ≡ config_of nocase lines) × IsReadFromSource r × (regex_source r ≡ given.now)) }
    ensures refused { IfErr result (λ e. (source : List ℕ) → is_pattern source ≡ true → IsGivenFor source given.now → IsOfRegular (record { source = source; nocase = nocase; lines = lines }) e) }
{
    let builder = RegexBuilder::new(given)
        .dot_matches_new_line(true)
        .case_insensitive(nocase)
        .multi_line(lines);
    match builder.build_bytes(alloc) {
        Ok(regex) => Ok(regex),
        Err(error) => Err(refusal_for(&error)),
    }
}

impl Regular {
    /// Compiles a text of the grammar. `.` matches a newline too. With `lines`, `^` also holds after
    /// each newline and `$` before each.
    ///
    /// `Refused` means that `regex` doesn't compile it, for example because its program would be
    /// too big.
    #[tactic(auto, using(crate::proofs::Shown::read_as))]
    pub(crate) fn build(
        alloc: Global,
        source: &str,
        nocase: bool,
        lines: bool,
    ) -> Result<Regular, RegularFault>
        requires { is_pattern source.now ≡ true }
        ensures built { IfOk result (λ r. r ≡ record { source = source.now; nocase = nocase; lines = lines }) }
        ensures refused { IfErr result (IsOfRegular (record { source = source.now; nocase = nocase; lines = lines })) }
    {
        let text = translated(alloc, source)?;
        let given = text.as_str();
        let regex = regex_of(alloc, given, nocase, lines)?;
        let opening = opening_of_text(alloc, given, nocase, lines);
        Ok(Regular::owned(alloc, source, regex, nocase, lines, opening)?)
    }

    /// Wraps a compiled pattern for its first owner.
    fn owned(
        alloc: Global,
        source: &str,
        regex: Regex,
        nocase: bool,
        lines: bool,
        opening: Option<usize>,
    ) -> Result<Regular, AllocError>
        requires read { IsReadAs (record { source = source.now; nocase = nocase; lines = lines }) (regex_pattern regex) }
        requires pattern { is_pattern source.now ≡ true }
        requires opening { IfSome opening (Opens (record { source = source.now; nocase = nocase; lines = lines })) }
        ensures { IfOk result (λ r. r ≡ record { source = source.now; nocase = nocase; lines = lines }) }
    {
        let source = String::from_str(alloc, source)?;
        Ok(Regular {
            kept: Rc::new(alloc, Kept { source, regex })?,
            nocase,
            lines,
            opening,
        })
    }

    /// Returns the same pattern for another owner, without copying it.
    pub(crate) fn shared(&self) -> Result<Regular, AllocError>
        ensures { IfOk result (λ r. r ≡ self.now) }
    {
        Ok(Regular {
            kept: self.kept.clone()?,
            nocase: self.nocase,
            lines: self.lines,
            opening: self.opening,
        })
    }

    /// Returns the text of the pattern.
    pub fn source(&self) -> &[u8]
        ensures { result.now ≡ self.now.source }
    {
        self.kept.source.as_bytes()
    }

    /// Returns true only if the pattern has this text, case and anchors. The text is then one of
    /// the grammar.
    pub(crate) fn is(&self, text: &[u8], nocase: bool, lines: bool) -> bool
        ensures { IsTrue result → (is_pattern text.now ≡ true) × (self.now ≡ record { source = text.now; nocase = nocase; lines = lines }) }
    {
        self.nocase == nocase && self.lines == lines && self.source() == text
    }

    /// Returns the compiled pattern.
    pub(crate) fn regex(&self) -> &Regex
        ensures { IsReadAs self.now (regex_pattern result.now) }
    {
        &self.kept.regex
    }

    /// Returns whether letters match in either case.
    pub fn nocase(&self) -> bool
        ensures { result ≡ self.now.nocase }
    {
        self.nocase
    }

    /// Returns whether `^` and `$` hold at the start and the end of each line.
    pub(crate) fn lines(&self) -> bool
        ensures { result ≡ self.now.lines }
    {
        self.lines
    }

    /// Returns how many bytes decide whether a match begins at an index, if earlier bytes don't
    /// matter. `None` if this isn't known.
    pub(crate) fn opening(&self) -> Option<usize>
        ensures { IfSome result (Opens self.now) }
    {
        self.opening
    }
}
