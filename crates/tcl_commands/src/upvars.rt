//! Links to variables of scopes further out.

ghost use Rattle.std.specs.Prelude.{◌≡◌, length, Some, IfOk, OnErr};
ghost use Rattle.tcl_commands.specs.Upvars.{calls_of, counted, bad_name, link_pair, link_pairs, link_at, upvar};
ghost use Rattle.tcl_results.specs.Says.{Binds};
ghost use Rattle.tcl_results.specs.Texts.{quoted};

use command_table::is;
use std::alloc::{AllocError, Global};
use tcl_expr::read_number;
use tcl_results::given::{arg, others};
use tcl_results::{Code, Complaint, error, not_set, quoted};
use tcl_subst::{Vars, is_element};
use tcl_values::Value;
use tcl_words::Text;

/// Returns a number as one of calls, if so many are under way.
fn counted(number: i64, depth: usize) -> Option<usize>
    ensures { result ≡ counted depth (Some number) }
{
    let Ok(calls) = usize::try_from(number) else {
        return None;
    };
    if calls < 1 {
        return None;
    }
    if depth < calls {
        return None;
    }
    Some(calls)
}

/// Returns how many calls further out a level is: a number, or all for `#0`.
fn calls_of(level: &[u8], depth: usize) -> Option<usize>
    ensures { result ≡ calls_of level.now depth }
{
    if is(level, b"#0") {
        if depth < 1 {
            return None;
        }
        return Some(depth);
    }
    match read_number(level) {
        None => None,
        Some(number) => counted(number, depth),
    }
}

fn bad_name(alloc: Global, name: &[u8]) -> Result<Text, AllocError>
    ensures { IfOk result (λ t. t ≡ bad_name name.now) }
{
    quoted(alloc, b"bad variable name ", name)
}

/// Links a name of the current scope to a variable of the scope so many calls further out.
fn link_pair(
    alloc: Global,
    calls: usize,
    other: &[u8],
    my: &[u8],
    vars: &mut Vars,
) -> Result<(), Complaint>
    ensures linked { Binds result (link_pair calls other.now my.now vars.old) vars.new }
    ensures kept { OnErr result (vars.new ≡ vars.old) }
{
    if is_element(my) {
        return Err(Complaint::Said(bad_name(alloc, my)?));
    }
    if is_element(other) {
        return Err(Complaint::Said(bad_name(alloc, other)?));
    }
    match vars.link_up(calls, other, my) {
        Ok(()) => Ok(()),
        Err(fault) => Err(Complaint::Said(not_set(alloc, my, fault)?)),
    }
}

/// Links names in order, up to the first that can't be linked.
#[tactic(auto, using(crate::proofs::Linked::linked_on, crate::proofs::Linked::linked_fails, crate::proofs::Linked::linked_end))]
fn link_pairs(
    alloc: Global,
    calls: usize,
    names: &[Value],
    vars: &mut Vars,
) -> Result<(Code, Value), AllocError>
    ensures { IfOk result (λ r. link_pairs calls names.now vars.old ≡ (r.0, r.1, vars.new)) }
{
    for pair in 0..names.len() / 2 {
        let other = arg(names, 2 * pair);
        let my = arg(names, 2 * pair + 1);
        match link_pair(alloc, calls, other, my, vars) {
            Ok(()) => {}
            Err(Complaint::Said(text)) => return error(alloc, text),
            Err(Complaint::Memory) => return Err(AllocError),
        }
    }
    Ok((Code::Ok, Value::new(alloc)))
}

fn link_at(
    alloc: Global,
    level: &[u8],
    names: &[Value],
    vars: &mut Vars,
) -> Result<(Code, Value), AllocError>
    ensures { IfOk result (λ r. link_at level.now (calls_of level.now (length vars.old.locals)) names.now vars.old ≡ (r.0, r.1, vars.new)) }
{
    match calls_of(level, vars.calls()) {
        None => error(alloc, quoted(alloc, b"bad level ", level)?),
        Some(calls) => link_pairs(alloc, calls, names, vars),
    }
}

/// Runs `upvar ?level? other my ?other my ..?`.
pub(crate) fn upvar(
    alloc: Global,
    args: &[Value],
    vars: &mut Vars,
) -> Result<(Code, Value), AllocError>
    ensures { IfOk result (λ r. upvar args.now vars.old ≡ (r.0, r.1, vars.new)) }
{
    if args.len() % 2 == 0 {
        return link_at(alloc, b"1", args, vars);
    }
    link_at(alloc, arg(args, 0), others(args), vars)
}
