//! Searches with regular patterns (`regexp`).

ghost use Rattle.std.specs.Prelude.{◌≡◌, IfOk};
ghost use Rattle.tcl_patterns.specs.Matches.{in_turn};
ghost use Rattle.tcl_patterns.specs.Regexps.{counted, found, named, answered, named_by, matched, regexp};
ghost use Rattle.tcl_results.specs.Says.{Says};
ghost use Rattle.tcl_patterns.specs.Shown.{shown};

use crate::inlining::inlined;
use crate::matches::{group, most, next_match, sought};
use crate::shown::shown;
use command_table::Switches;
use exp_match::{Compiled, Searcher, Spans};
use std::alloc::{AllocError, Global};
use tcl_results::front::{front_of, has_flag};
use tcl_results::given::{arg, before, behind};
use tcl_results::{Code, Complaint, count_text, error, no_match, not_set, said, told};
use tcl_subst::Vars;
use tcl_values::Value;

/// Returns the number of matches in turn, at most `most`, and the last one.
#[tactic(auto, using(crate::proofs::Turns::counted_none, crate::proofs::Turns::counted_over, crate::proofs::Turns::last_next, crate::proofs::Turns::count_next))]
fn count_matches(searcher: &mut Searcher, most: usize, text: &[u8], start: usize) -> (usize, Spans)
    ensures { result ≡ counted (in_turn most searcher.old text.now start) }
{
    let mut spans = no_match();
    let mut at = start;
    let mut turn = 0;
    while turn < most {
        let Some(next) = next_match(searcher, text, at, &mut spans) else {
            return (turn, spans);
        };
        at = next;
        turn += 1;
    }
    (turn, spans)
}

/// Returns the number of matches, and the last one.
#[inline(never)]
fn found(
    alloc: Global,
    patterns: &mut Compiled,
    flags: &[Value],
    pattern: &[u8],
    text: &[u8],
) -> Result<(usize, Spans), Complaint>
    ensures { Says result (found flags.now pattern.now text.now) }
{
    let (regular, start) = sought(alloc, patterns, flags, pattern, text)?;
    let most = most(has_flag(flags, b"-all"), text);
    let mut searcher = Searcher::new(alloc, &regular)?;
    Ok(count_matches(&mut searcher, most, text, start))
}

/// Sets names to groups, in order, up to the first that can't be set. Returns `answer` if all were
/// set.
fn name_groups(
    alloc: Global,
    answer: Value,
    indexed: bool,
    text: &[u8],
    spans: &[Option<(usize, usize)>],
    names: &[Value],
    vars: &mut Vars,
) -> Result<(Code, Value), AllocError>
    ensures { IfOk result (λ r. named answer (shown indexed text.now) spans.now 0 names.now vars.old ≡ (r.0, r.1, vars.new)) }
{
    let mut rest = names;
    let mut n = 0;
    while let [name, more @ ..] = rest {
        let name = name.as_slice();
        let value = shown(alloc, indexed, text, group(spans, n))?;
        if let Err(fault) = vars.set(name, value) {
            return error(alloc, not_set(alloc, name, fault)?);
        }
        rest = more;
        n += 1;
    }
    Ok((Code::Ok, answer))
}

/// Sets names to the last match and its groups. Returns the number of matches.
fn answered(
    alloc: Global,
    indexed: bool,
    text: &[u8],
    names: &[Value],
    count: usize,
    spans: &[Option<(usize, usize)>],
    vars: &mut Vars,
) -> Result<(Code, Value), AllocError>
    ensures { IfOk result (λ r. answered indexed text.now names.now count spans.now vars.old ≡ (r.0, r.1, vars.new)) }
{
    let answer = count_text(alloc, count)?;
    if count == 0 {
        return Ok((Code::Ok, answer));
    }
    name_groups(alloc, answer, indexed, text, spans, names, vars)
}

/// Searches, and sets names. Returns the number of matches.
fn named_by(
    alloc: Global,
    patterns: &mut Compiled,
    flags: &[Value],
    words: &[Value],
    vars: &mut Vars,
) -> Result<(Code, Value), AllocError>
    ensures { IfOk result (λ r. named_by flags.now words.now vars.old ≡ (r.0, r.1, vars.new)) }
{
    let text = arg(words, 1);
    match said(alloc, found(alloc, patterns, flags, arg(words, 0), text))? {
        Err(fault) => Ok((Code::Error, fault)),
        Ok(found) => {
            let count = found.0;
            let spans = found.1;
            let indexed = has_flag(flags, b"-indices");
            answered(alloc, indexed, text, behind(words, 2), count, &spans, vars)
        }
    }
}

/// Runs `regexp`, given its flags and the words after them.
fn matched(
    alloc: Global,
    patterns: &mut Compiled,
    flags: &[Value],
    words: &[Value],
    vars: &mut Vars,
) -> Result<(Code, Value), AllocError>
    ensures { IfOk result (λ r. matched flags.now words.now vars.old ≡ (r.0, r.1, vars.new)) }
{
    if has_flag(flags, b"-inline") {
        return told(alloc, inlined(alloc, patterns, flags, words));
    }
    named_by(alloc, patterns, flags, words, vars)
}

/// Runs `regexp ?flags? pattern text ?name ..?`.
pub fn regexp(
    alloc: Global,
    patterns: &mut Compiled,
    command: &[u8],
    args: &[Value],
    vars: &mut Vars,
) -> Result<(Code, Value), AllocError>
    ensures { IfOk result (λ r. regexp command.now args.now vars.old ≡ (r.0, r.1, vars.new)) }
{
    match front_of(alloc, Switches::Match, command, args) {
        Ok((count, from)) => {
            let flags = before(args, count);
            matched(alloc, patterns, flags, behind(args, from), vars)
        }
        Err(Complaint::Said(text)) => error(alloc, text),
        Err(Complaint::Memory) => Err(AllocError),
    }
}
