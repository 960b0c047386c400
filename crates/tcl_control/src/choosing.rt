//! Chooses the body that a `switch` evaluates.

ghost use Rattle.std.specs.Prelude.{◌≡◌, ◌+◌, drop, length, slice_index_or, [], IfOk};
ghost use Rattle.tcl_control.specs.Choosing.{is_dash, are_cases, body, matches_in, fits_text, is_taken, chosen, chosen_of, switched, way_by, way_of, body_of_switch, case_words};
ghost use Rattle.tcl_results.specs.Says.{Says};

use command_table::{Switches, is};
use exp_match::Compiled;
use std::alloc::{AllocError, Global};
use tcl_results::front::front;
use tcl_results::given::{arg, before, behind};
use tcl_results::indices::element;
use tcl_results::{Complaint, Way, finds, list_of, matches, pattern_of, wrong};
use tcl_values::{Elements, Value};

/// The patterns and bodies, in turn.
#[derive(Drop)]
pub(crate) enum Cases<'a> {
    /// The elements of one argument.
    Listed(Elements),
    /// The arguments themselves.
    Words(&'a [Value]),
}

impl Cases<'_> {
    /// Returns the number of words.
    fn len(&self) -> usize
        ensures { result ≡ length (case_words self.now) }
    {
        match self {
            Cases::Listed(elements) => elements.len(),
            Cases::Words(words) => words.len(),
        }
    }

    /// Returns the word at an index, or an empty text if there is none.
    fn word(&self, at: usize) -> &[u8]
        ensures { result.now ≡ slice_index_or (case_words self.now) at [] }
    {
        match self {
            Cases::Listed(elements) => element(elements, at),
            Cases::Words(words) => arg(words, at),
        }
    }

    /// Returns the word at an index as a value, or an empty value if there is none.
    fn value(&self, alloc: Global, at: usize) -> Result<Value, AllocError>
        ensures { IfOk result (λ v. v ≡ slice_index_or (case_words self.now) at []) }
    {
        match self {
            Cases::Listed(elements) => element_value(alloc, elements, at),
            Cases::Words(words) => word_value(alloc, words, at),
        }
    }
}

/// Returns the element at an index, or an empty value if there is none.
fn element_value(alloc: Global, elements: &Elements, at: usize) -> Result<Value, AllocError>
    ensures { IfOk result (λ v. v ≡ slice_index_or elements.now at []) }
{
    match elements.value(alloc, at)? {
        None => Ok(Value::new(alloc)),
        Some(value) => Ok(value),
    }
}

/// Returns the value at an index, or an empty value if there is none.
fn word_value(alloc: Global, words: &[Value], at: usize) -> Result<Value, AllocError>
    ensures { IfOk result (λ v. v ≡ slice_index_or words.now at []) }
{
    match words.get(at) {
        None => Ok(Value::new(alloc)),
        Some(value) => value.shared(alloc),
    }
}

/// Returns whether a body stands for the next one.
fn is_dash(body: &[u8]) -> bool
    ensures { result ≡ is_dash body.now }
{
    is(body, b"-")
}

/// Returns whether there are patterns and bodies in turn, and the last body isn't `-`.
fn are_cases(cases: &Cases) -> bool
    ensures { result ≡ are_cases (case_words cases.now) }
{
    let count = cases.len();
    0 < count && count % 2 == 0 && !is_dash(cases.word(count - 1))
}

/// Returns the body at index `from + 1`, or the next one that isn't `-`.
#[tactic(auto, using(crate::proofs::Chosen::body_on, crate::proofs::Chosen::body_at, crate::proofs::Chosen::body_end))]
fn body(alloc: Global, cases: &Cases, from: usize) -> Result<Option<Value>, AllocError>
    ensures { IfOk result (λ b. b ≡ body (drop from (case_words cases.now))) }
{
    let mut at = from;
    while 1 < cases.len().saturating_sub(at) {
        if !is_dash(cases.word(at + 1)) {
            return Ok(Some(cases.value(alloc, at + 1)?));
        }
        at += 2;
    }
    Ok(None)
}

/// Returns whether a regular pattern matches in a text.
fn matches_in(
    alloc: Global,
    patterns: &mut Compiled,
    text: &[u8],
    pattern: &[u8],
) -> Result<bool, Complaint>
    ensures { Says result (matches_in text.now pattern.now) }
{
    let regular = pattern_of(alloc, patterns, pattern, false, false)?;
    Ok(finds(alloc, &regular, text)?)
}

/// Returns whether a text has a pattern: it is equal, a glob matches it as a whole, or a regular
/// pattern matches in it.
fn fits_text(
    alloc: Global,
    patterns: &mut Compiled,
    way: Way,
    text: &[u8],
    pattern: &[u8],
) -> Result<bool, Complaint>
    ensures { Says result (fits_text way text.now pattern.now) }
{
    match way {
        Way::Exact => Ok(is(pattern, text)),
        Way::Glob => Ok(matches(alloc, false, pattern, text)?),
        Way::Regular => matches_in(alloc, patterns, text, pattern),
    }
}

/// Returns whether a text has a pattern. Every text has a last pattern `default`.
fn is_taken(
    alloc: Global,
    patterns: &mut Compiled,
    way: Way,
    text: &[u8],
    pattern: &[u8],
    last: bool,
) -> Result<bool, Complaint>
    ensures { Says result (is_taken way text.now pattern.now last) }
{
    if last && is(pattern, b"default") {
        return Ok(true);
    }
    fits_text(alloc, patterns, way, text, pattern)
}

/// Returns the body of the first pattern that a text has. It is an error if a pattern up to there
/// is no regular pattern, but has to be one.
#[tactic(auto, using(crate::proofs::Chosen::case_on, crate::proofs::Chosen::case_at, crate::proofs::Chosen::case_bad, crate::proofs::Chosen::case_end))]
fn chosen(
    alloc: Global,
    patterns: &mut Compiled,
    way: Way,
    text: &[u8],
    cases: &Cases,
) -> Result<Option<Value>, Complaint>
    ensures { Says result (chosen way text.now (case_words cases.now)) }
{
    let mut at = 0;
    while 1 < cases.len().saturating_sub(at) {
        let last = cases.len() <= at + 2;
        match is_taken(alloc, patterns, way, text, cases.word(at), last) {
            Err(complaint) => return Err(complaint),
            Ok(taken) => {
                if taken {
                    return Ok(body(alloc, cases, at)?);
                }
                at += 2;
            }
        }
    }
    Ok(None)
}

/// Returns the chosen body. It is an error if there are no patterns and bodies in turn.
#[tactic(auto, unfolding(crate::specs::Choosing::chosen_of))]
fn chosen_of(
    alloc: Global,
    patterns: &mut Compiled,
    command: &[u8],
    way: Way,
    text: &[u8],
    cases: &Cases,
) -> Result<Option<Value>, Complaint>
    ensures { Says result (chosen_of command.now way text.now (case_words cases.now)) }
{
    if are_cases(cases) {
        return chosen(alloc, patterns, way, text, cases);
    }
    Err(wrong(alloc, command))
}

/// Returns the chosen body, given the text and what follows it.
fn switched(
    alloc: Global,
    patterns: &mut Compiled,
    command: &[u8],
    way: Way,
    words: &[Value],
) -> Result<Option<Value>, Complaint>
    ensures { Says result (switched command.now way words.now) }
{
    match words {
        [] => Err(wrong(alloc, command)),
        [_] => Err(wrong(alloc, command)),
        [text, list] => {
            let cases = Cases::Listed(list_of(alloc, list)?);
            chosen_of(alloc, patterns, command, way, text.as_slice(), &cases)
        }
        [text, cases @ ..] => {
            let cases = Cases::Words(cases);
            chosen_of(alloc, patterns, command, way, text.as_slice(), &cases)
        }
    }
}

/// Returns how a flag of `switch` has texts compared.
fn way_by(flag: &[u8]) -> Way
    ensures { result ≡ way_by flag.now }
{
    if is(flag, b"-glob") {
        Way::Glob
    } else if is(flag, b"-regexp") {
        Way::Regular
    } else {
        Way::Exact
    }
}

/// Returns how texts are compared. The last flag decides.
fn way_of(flags: &[Value]) -> Way
    ensures { result ≡ way_of flags.now }
{
    way_by(arg(flags, flags.len().saturating_sub(1)))
}

/// Returns the body that a `switch` evaluates, or `None` if no pattern fits (switch(n)). `patterns`
/// is a cache.
pub fn body_of_switch(
    alloc: Global,
    patterns: &mut Compiled,
    command: &[u8],
    args: &[Value],
) -> Result<Option<Value>, Complaint>
    ensures { Says result (body_of_switch command.now args.now) }
{
    let (count, from) = front(alloc, Switches::Choice, 2, args)?;
    let way = way_of(before(args, count));
    switched(alloc, patterns, command, way, behind(args, from))
}
