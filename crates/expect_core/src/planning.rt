//! The arguments of an `expect` (expect(1)).

ghost use Rattle.std.specs.Prelude.{◌≡◌, [], slice_index_or, IfOk};
ghost use Rattle.tcl_results.specs.Says.{Says};
ghost use Rattle.exp_match.specs.Arguments.{patterns_of as patterns_meant};
ghost use Rattle.expect_core.specs.Expecting.{is_list as is_list_of, listed as listed_of, patterns_by, span_by as span_by_of, span_or_ten as span_or_ten_of, span_in as span_meant, plan_by as plan_by_of, plan_of as plan_meant, standing_by as standing_by_of, standing_of as standing_meant};
ghost use Rattle.expect_core.specs.Heard.{span_of as span_told};
ghost use Rattle.expect_core.specs.Sides.{takes_current as takes_current_of, id_named as id_meant, ids_named as ids_meant, some_named as some_meant, ids_in as ids_in_word, ids_in_each as ids_in_words, current_ids as current_meant, asked_by as asked_meant};
ghost use Rattle.expect_core.specs.Standing.{is_for_current as is_for_current_of};

use crate::bodies::Bodies;
use crate::ids::{if_open, known, open_to};
use crate::own::{Own, deadline_from};
use crate::plan::{Plan, Span};
use crate::scoped::optional;
use crate::served::{Id, Served, ServedGroups};
use crate::standing::StandingList;
use crate::texts::{bad_expect_flag, bad_regular, no_such_id};
use exp_match::{PatternFault, PatternList};
use std::alloc::{AllocError, Global};
use tcl_results::{Complaint, as_number, list_of};
use tcl_subst::Vars;
use tcl_values::Value;
use tcl_words::{Text, is_white};

/// Returns whether a newline comes before the first byte that is not white space.
fn is_list(text: &[u8]) -> bool
    ensures { result ≡ is_list_of text.now }
{
    'bytes: for b in text {
        if *b == b'\n' {
            return true;
        }
        if !is_white(*b) {
            return false;
        }
    }
    false
}

/// Returns the only argument, if it is a list of all arguments.
pub(crate) fn listed(alloc: Global, args: &[Value]) -> Result<Option<Value>, AllocError>
    ensures { IfOk result (λ r. r ≡ listed_of args.now) }
{
    match args {
        [text] if is_list(text.as_slice()) => Ok(Some(text.shared(alloc)?)),
        _ => Ok(None),
    }
}

/// Returns the argument at an index, or no bytes if there is none.
fn arg_at(args: &[Value], at: usize) -> &[u8]
    ensures { result.now ≡ slice_index_or args.now at [] }
{
    if at < args.len() {
        args[at].as_slice()
    } else {
        &[]
    }
}

/// Reads the patterns and keywords in arguments.
fn patterns_of(alloc: Global, bodies: &mut Bodies, args: &[Value]) -> Result<PatternList, Complaint>
    ensures same { bodies.new ≡ bodies.old }
    ensures said { Says result (patterns_by args.now (patterns_meant args.now)) }
{
    match bodies.patterns(alloc, args) {
        Ok(list) => Ok(list),
        Err(PatternFault::BadFlag(at)) => Err(Complaint::Said(bad_expect_flag(
            alloc,
            arg_at(args, at),
        )?)),
        Err(PatternFault::BadRegex(at)) => {
            Err(Complaint::Said(bad_regular(alloc, arg_at(args, at))?))
        }
        Err(PatternFault::Refused) => Err(Complaint::Memory),
        Err(PatternFault::Memory) => Err(Complaint::Memory),
    }
}

/// Returns whether the child of the variable `spawn_id` takes part.
fn takes_current(list: &PatternList) -> bool
    ensures { result ≡ takes_current_of list.now }
{
    if list.ids.as_slice().is_empty() {
        return true;
    }
    list.serves(0)
}

/// Returns the id that a name means: `any`, or that of a child, which must be open.
fn id_named(alloc: Global, name: &[u8], own: &Own) -> Result<Id, Complaint>
    ensures { Says result (id_meant name.now own.now) }
{
    if name == b"any".as_slice() {
        return Ok(Id::Any);
    }
    let i = if_open(alloc, known(alloc, name, own)?, own)?;
    Ok(Id::One(i))
}

/// Appends the ids with these names, in their order.
fn ids_named(alloc: Global, mut ids: Served, names: &[Text], own: &Own) -> Result<Served, Complaint>
    ensures { Says result (ids_meant ids names.now own.now) }
{
    'names: for name in names {
        let id = id_named(alloc, name.as_slice(), own)?;
        ids.push(id)?;
    }
    Ok(ids)
}

/// Returns the ids with these names. There must be one.
fn some_named(alloc: Global, names: &[Text], own: &Own) -> Result<Served, Complaint>
    ensures { Says result (some_meant names.now own.now) }
{
    match names {
        [] => Err(Complaint::Said(no_such_id(alloc, b"")?)),
        [_, ..] => ids_named(alloc, Served::new(alloc), names, own),
    }
}

/// Returns the ids of the list after an `-i`.
fn ids_in(alloc: Global, word: &Text, own: &Own) -> Result<Served, Complaint>
    ensures { Says result (ids_in_word word.now own.now) }
{
    let word = Value::from_slice(alloc, word.as_slice())?;
    let names = list_of(alloc, &word)?.texts(alloc)?;
    some_named(alloc, names.as_slice(), own)
}

/// Appends the ids after each `-i`.
fn ids_in_each(
    alloc: Global,
    mut groups: ServedGroups,
    words: &[Text],
    own: &Own,
) -> Result<ServedGroups, Complaint>
    ensures { Says result (ids_in_words groups words.now own.now) }
{
    'words: for word in words {
        let ids = ids_in(alloc, word, own)?;
        groups.push(ids)?;
    }
    Ok(groups)
}

/// Returns the ids of group 0: the child of the variable `spawn_id`, if it takes part.
fn current_ids(alloc: Global, takes: bool, vars: &Vars, own: &Own) -> Result<Served, Complaint>
    ensures { Says result (current_meant takes vars.now own.now) }
{
    let mut ids = Served::new(alloc);
    if !takes {
        return Ok(ids);
    }
    let i = open_to(alloc, &None, vars, own)?;
    ids.push(Id::One(i))?;
    Ok(ids)
}

/// Returns the ids of each group, in the order of the arguments. `takes` says whether the child of
/// the variable `spawn_id` takes part.
fn asked_by(
    alloc: Global,
    takes: bool,
    list: &PatternList,
    vars: &Vars,
    own: &Own,
) -> Result<ServedGroups, Complaint>
    ensures { Says result (asked_meant takes list.now vars.now own.now) }
{
    let ids = current_ids(alloc, takes, vars, own)?;
    let groups = ServedGroups::one(alloc, ids)?;
    ids_in_each(alloc, groups, list.ids.as_slice(), own)
}

/// Returns the timeout of a number of seconds. It never comes if the number is negative or above
/// 9,000,000,000,000.
fn span_of(seconds: i64) -> Span
    ensures { result ≡ span_told seconds }
{
    if seconds < 0 || 9_000_000_000_000 < seconds {
        Span::Never
    } else {
        Span::Seconds(seconds as u64)
    }
}

/// Reads a timeout in seconds.
fn span_by(alloc: Global, text: &[u8]) -> Result<Span, Complaint>
    ensures { Says result (span_by_of text.now) }
{
    Ok(span_of(as_number(alloc, text)?))
}

/// Reads a timeout in seconds. Without a text it is ten seconds.
fn span_or_ten(alloc: Global, text: Option<Value>) -> Result<Span, Complaint>
    ensures { Says result (span_or_ten_of text) }
{
    match text {
        Some(text) => span_by(alloc, text.as_slice()),
        None => Ok(Span::Seconds(10)),
    }
}

/// Returns the timeout of an `expect`: that of `-timeout`, or else of the variable `timeout`.
fn span_in(alloc: Global, timeout: &Option<Text>, vars: &Vars) -> Result<Span, Complaint>
    ensures { Says result (span_meant timeout.now vars.now) }
{
    match timeout {
        Some(text) => span_by(alloc, text.as_slice()),
        None => span_or_ten(alloc, optional(alloc, vars, b"timeout")?),
    }
}

/// Returns what an `expect` for these patterns waits for.
fn plan_by(alloc: Global, list: PatternList, vars: &Vars, own: &Own) -> Result<Plan, Complaint>
    ensures { Says result (plan_by_of list vars.now own.now) }
{
    let groups = asked_by(alloc, takes_current(&list), &list, vars, own)?;
    let span = span_in(alloc, &list.timeout, vars)?;
    let deadline = deadline_from(own.clock, span);
    let plan = Plan::new(alloc, list, groups, span, deadline, own)?;
    Ok(plan)
}

/// Returns what an `expect` with these arguments waits for.
pub(crate) fn plan_of(
    alloc: Global,
    args: &[Value],
    vars: &Vars,
    own: &mut Own,
) -> Result<Plan, Complaint>
    ensures same { own.new ≡ own.old }
    ensures said { Says result (plan_meant args.now vars.now own.old) }
{
    let list = patterns_of(alloc, &mut own.bodies, args)?;
    plan_by(alloc, list, vars, own)
}

/// Returns whether standing patterns are for the child of the variable `spawn_id`.
fn is_for_current(list: &PatternList) -> bool
    ensures { result ≡ is_for_current_of list.now }
{
    if list.ids.as_slice().is_empty() {
        return true;
    }
    list.has_group(0)
}

/// Returns the ids that standing patterns name, and their entries.
fn standing_by(
    alloc: Global,
    list: PatternList,
    vars: &Vars,
    own: &Own,
) -> Result<(Served, StandingList), Complaint>
    ensures { Says result (standing_by_of list vars.now own.now) }
{
    let groups = asked_by(alloc, is_for_current(&list), &list, vars, own)?;
    let ids = groups.all_ids(alloc)?;
    let entries = StandingList::of(alloc, &groups, list.entries)?;
    Ok((ids, entries))
}

/// Returns the ids that the arguments of `expect_before` or `expect_after` name, and their entries.
pub(crate) fn standing_of(
    alloc: Global,
    args: &[Value],
    vars: &Vars,
    own: &mut Own,
) -> Result<(Served, StandingList), Complaint>
    ensures same { own.new ≡ own.old }
    ensures said { Says result (standing_meant args.now vars.now own.old) }
{
    let list = patterns_of(alloc, &mut own.bodies, args)?;
    standing_by(alloc, list, vars, own)
}
