//! The iterations of `foreach`.

ghost use Rattle.std.specs.Prelude.{◌≡◌, ◌==◌, ◌*◌, ◌%◌, ◌∷◌, drop, length, true, false, IfOk, MatchOption, ◌<◌};
ghost use Rattle.tcl_results.specs.Setting.{assigned, first};
ghost use Rattle.tcl_control.specs.Groups.{each_of, turned, behind, names_of, pair_of, all_names, taken_in, values_in, turns_for, is_set};
ghost use Rattle.tcl_results.specs.Says.{Says};

use std::alloc::{AllocError, Global};
use std::marker::Model;
use tcl_results::setting::assign_all;
use tcl_results::{Code, Complaint, list_of, no_list, wrong};
use tcl_subst::Vars;
use tcl_values::{Elements, Value};
use tcl_words::Texts;

/// A list of names and the list of their elements.
#[derive(Drop)]
pub(crate) struct Pair {
    /// The names, at least one.
    names: Texts,
    /// The elements of all iterations.
    elements: Elements,
}

/// The names of a `foreach`, and the elements of the remaining iterations. A contract sees the
/// elements of each iteration.
#[derive(Drop)]
pub struct Groups {
    /// The first list.
    first: Pair,
    /// The other lists. A `foreach` of one list allocates nothing for them.
    more: Vec<Pair>,
    /// The number of all iterations.
    count: usize,
    /// The number of iterations that have begun.
    begun: usize,
}

impl Model for Groups {
    ghost use Rattle.std.specs.Prelude.{◌≡◌, ◌∷◌, drop};
    ghost use Rattle.tcl_control.specs.Groups.{Turns, all_names, all_turns, turn_count};

    ghost Value = { Turns };

    ghost view = { λ g. record { names = all_names (g.first ∷ g.more.items); left = drop g.begun (all_turns (g.first ∷ g.more.items)) } };

    ghost invariant = { λ g. g.count ≡ turn_count (g.first ∷ g.more.items) };
}

impl Groups {
    /// Returns whether no iteration is left.
    pub fn is_done(&self) -> bool
        ensures { result ≡ (length self.now.left == 0) }
    {
        self.count <= self.begun
    }

    /// Sets the names for the next iteration, up to the first that can't be set. A missing element
    /// is empty. Does nothing if no iteration is left.
    pub fn assign(&mut self, alloc: Global, vars: &mut Vars) -> Result<(Code, Value), AllocError>
        ensures set { IfOk result (λ r. turned self.old vars.old ≡ (r.0, r.1, vars.new)) }
        ensures left { self.new ≡ behind self.old }
    {
        let turn = self.begun;
        if self.count <= turn {
            return Ok((Code::Ok, Value::new(alloc)));
        }
        self.begun = turn + 1;
        assign_pairs(alloc, &self.first, self.more.as_slice(), turn, vars)
    }
}

/// Sets the names of each list to their elements of an iteration, up to the first that can't be
/// set.
#[tactic(auto, using(crate::proofs::Grouped::pair_set, crate::proofs::Grouped::pair_not_set))]
fn assign_pairs(
    alloc: Global,
    first: &Pair,
    more: &[Pair],
    turn: usize,
    vars: &mut Vars,
) -> Result<(Code, Value), AllocError>
    ensures { IfOk result (λ r. assigned (all_names (first.now ∷ more.now)) (values_in (first.now ∷ more.now) turn) vars.old ≡ (r.0, r.1, vars.new)) }
{
    if let Some(ended) = if_unset(assign_pair(alloc, first, turn, vars)?) {
        return Ok(ended);
    }
    assign_more(alloc, more, turn, vars)
}

/// Returns how the names were set, if one wasn't.
fn if_unset(ended: (Code, Value)) -> Option<(Code, Value)>
    ensures { MatchOption result (is_set ended.0 ≡ true) (λ o. (o ≡ ended) × (is_set ended.0 ≡ false)) }
{
    match ended.0 {
        Code::Ok => None,
        _ => Some(ended),
    }
}

#[tactic(auto, using(crate::proofs::Grouped::pair_not_set))]
fn assign_more(
    alloc: Global,
    pairs: &[Pair],
    turn: usize,
    vars: &mut Vars,
) -> Result<(Code, Value), AllocError>
    ensures { IfOk result (λ r. assigned (all_names pairs.now) (values_in pairs.now turn) vars.old ≡ (r.0, r.1, vars.new)) }
{
    let mut rest = pairs;
    while let [pair, more @ ..] = rest {
        if let Some(ended) = if_unset(assign_pair(alloc, pair, turn, vars)?) {
            return Ok(ended);
        }
        rest = more;
    }
    Ok((Code::Ok, Value::new(alloc)))
}

/// Sets the names of a list to their elements of an iteration, up to the first that can't be set.
fn assign_pair(
    alloc: Global,
    pair: &Pair,
    turn: usize,
    vars: &mut Vars,
) -> Result<(Code, Value), AllocError>
    ensures { IfOk result (λ r. assigned pair.now.names (taken_in turn pair.now) vars.old ≡ (r.0, r.1, vars.new)) }
{
    let size = pair.names.len();
    let from = start_of(turn, size, &pair.elements);
    assign_all(alloc, pair.names.as_slice(), &pair.elements, from, vars)
}

/// Returns the index of the first element that `size` names take in an iteration.
fn start_of(turn: usize, size: usize, elements: &Elements) -> usize
    ensures { drop result elements.now ≡ drop (turn * size) elements.now }
{
    turn.saturating_mul(size).min(elements.len())
}

/// Parses a list of names. The error is `bad list`, also if there is no name.
fn names_of(alloc: Global, text: &Value) -> Result<Texts, Complaint>
    ensures said { Says result (names_of text.now) }
    ensures some { IfOk result (λ ns. 0 < length ns) }
{
    let names = list_of(alloc, text)?;
    if names.len() == 0 {
        return Err(no_list(alloc));
    }
    Ok(names.texts(alloc)?)
}

/// Parses a list of names, and then the list of their elements. The error is `bad list`.
fn pair_of(alloc: Global, names: &Value, list: &Value) -> Result<Pair, Complaint>
    ensures said { Says result (pair_of names.now list.now) }
    ensures some { IfOk result (λ p. 0 < length p.names) }
{
    let names = names_of(alloc, names)?;
    let elements = list_of(alloc, list)?;
    Ok(Pair { names, elements })
}

/// Returns the number of iterations that take all elements of a list.
fn turns_for(pair: &Pair) -> usize
    requires { 0 < length pair.now.names }
    ensures { result ≡ turns_for pair.now }
{
    pair.elements.len().div_ceil(pair.names.len())
}

/// Returns the next list of names, its list and the arguments after it. `None` if fewer than two
/// arguments are left.
fn next_list(words: &[Value]) -> Option<(&Value, &Value, &[Value])>
    ensures { MatchOption result (length words.now < 2) (λ x. words.now ≡ x.0.now ∷ x.1.now ∷ x.2.now) }
{
    match words {
        [] => None,
        [_] => None,
        [names, list, behind @ ..] => Some((names, list, behind)),
    }
}

/// Returns the iterations and the body of `foreach names list ?names list ..? body` (foreach(n)).
/// Lists are parsed from the left, and only if the number of arguments is right.
#[tactic(auto, using(crate::proofs::Grouped::each_even, crate::proofs::Grouped::first_read, crate::proofs::Grouped::first_fails, crate::proofs::Grouped::list_fails))]
pub fn each_of(alloc: Global, command: &[u8], args: &[Value]) -> Result<(Groups, Value), Complaint>
    ensures { Says result (each_of command.now args.now) }
{
    if args.len() % 2 == 0 {
        return Err(wrong(alloc, command));
    }
    let Some((names, list, words)) = next_list(args) else {
        return Err(wrong(alloc, command));
    };
    let first = pair_of(alloc, names, list)?;
    let mut count = turns_for(&first);
    let mut more = Vec::new(alloc);
    let mut rest = words;
    'lists: while let Some((names, list, behind)) = next_list(rest) {
        let pair = pair_of(alloc, names, list)?;
        count = count.max(turns_for(&pair));
        more.push(pair)?;
        rest = behind;
    }
    let body = rest[0].shared(alloc)?;
    let groups = Groups {
        first,
        more,
        count,
        begun: 0,
    };
    Ok((groups, body))
}
