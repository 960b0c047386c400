//! Lists matches (`regexp -inline`).

ghost use Rattle.std.specs.Prelude.{◌≡◌, ◌++◌, take, map, IfOk, OnOk};
ghost use Rattle.std.specs.List.{flat_map};
ghost use Rattle.tcl_patterns.specs.Inlining.{groups_shown, listed, inlined, names_refused};
ghost use Rattle.tcl_patterns.specs.Matches.{in_turn};
ghost use Rattle.tcl_results.specs.Says.{Says, Complains};
ghost use Rattle.tcl_patterns.specs.Shown.{shown};

use crate::matches::{most, next_match, sought};
use crate::parens::group_count;
use crate::shown::shown;
use exp_match::{Compiled, Searcher};
use std::alloc::{AllocError, Global};
use tcl_results::front::has_flag;
use tcl_results::given::arg;
use tcl_results::{Complaint, list_text, no_match};
use tcl_values::Value;
use tcl_words::{Packed, Text};

/// Returns the first spans.
fn first_spans(spans: &[Option<(usize, usize)>], count: usize) -> &[Option<(usize, usize)>]
    ensures { result.now ≡ take count spans.now }
{
    if spans.len() <= count {
        return spans;
    }
    spans.split_at(count).0
}

/// Appends a match and its groups, as many as `count` in all.
fn push_groups(
    alloc: Global,
    indexed: bool,
    text: &[u8],
    count: usize,
    spans: &[Option<(usize, usize)>],
    made: &mut Packed,
) -> Result<(), AllocError>
    ensures { OnOk result (made.new ≡ made.old ++ groups_shown indexed text.now count spans.now) }
{
    let some = first_spans(spans, count);
    for n in 0..some.len() {
        made.push(shown(alloc, indexed, text, some[n])?.as_slice())?;
    }
    Ok(())
}

/// Returns the matches in turn, at most `most`, each with its groups.
#[tactic(auto, using(crate::proofs::Inlined::list_none, crate::proofs::Inlined::list_over, crate::proofs::Inlined::list_next))]
fn matches(
    alloc: Global,
    searcher: &mut Searcher,
    most: usize,
    text: &[u8],
    start: usize,
    indexed: bool,
    count: usize,
) -> Result<Packed, AllocError>
    ensures { IfOk result (λ p. p ≡ flat_map (groups_shown indexed text.now count) (in_turn most searcher.old text.now start)) }
{
    let mut made = Packed::new(alloc);
    let mut spans = no_match();
    let mut at = start;
    let mut turn = 0;
    while turn < most {
        let Some(next) = next_match(searcher, text, at, &mut spans) else {
            return Ok(made);
        };
        push_groups(alloc, indexed, text, count, &spans, &mut made)?;
        at = next;
        turn += 1;
    }
    Ok(made)
}

/// Returns the list of the matches of a pattern, each with its groups.
#[inline(never)]
fn listed(
    alloc: Global,
    patterns: &mut Compiled,
    flags: &[Value],
    pattern: &[u8],
    text: &[u8],
) -> Result<Value, Complaint>
    ensures { Says result (listed flags.now pattern.now text.now) }
{
    let (regular, start) = sought(alloc, patterns, flags, pattern, text)?;
    let most = most(has_flag(flags, b"-all"), text);
    let indexed = has_flag(flags, b"-indices");
    let count = group_count(pattern) + 1;
    let mut searcher = Searcher::new(alloc, &regular)?;
    let made = matches(alloc, &mut searcher, most, text, start, indexed, count)?;
    list_text(alloc, made)
}

/// Returns the error that there are names.
fn refused(alloc: Global) -> Complaint
    ensures { Complains result names_refused }
{
    match Text::from_slice(
        alloc,
        b"regexp match variables not allowed when using -inline",
    ) {
        Ok(text) => Complaint::Said(text),
        Err(_) => Complaint::Memory,
    }
}

/// Returns the value of `regexp -inline`, given its flags and the words after them.
pub(crate) fn inlined(
    alloc: Global,
    patterns: &mut Compiled,
    flags: &[Value],
    words: &[Value],
) -> Result<Value, Complaint>
    ensures { Says result (inlined flags.now words.now) }
{
    if 2 < words.len() {
        return Err(refused(alloc));
    }
    listed(alloc, patterns, flags, arg(words, 0), arg(words, 1))
}
