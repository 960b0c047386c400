//! Sorts lists (`lsort`).

ghost use Rattle.std.specs.Prelude.{◌≡◌, ◌++◌, ◌∷◌, [], IfOk, OnOk};
ghost use Rattle.std.specs.List.Sorted.{ties};
ghost use Rattle.std.specs.Ordering.{is_lt};
ghost use Rattle.tcl_results.specs.Cases.{folded};
ghost use Rattle.tcl_results.specs.Indices.{at_place};
ghost use Rattle.tcl_results.specs.Says.{Says};

use command_table::Switches;
use std::alloc::{AllocError, Global};
use std::cmp::Ordering;
use std::marker::Model;
use tcl_results::given::{arg, behind};
use tcl_results::indices::{element, index_of};
use tcl_results::switches::{Given, flags_of};
use tcl_results::{Complaint, as_number, bad_index, list_of, list_text, lower};
use tcl_values::{Elements, Value};
use tcl_words::{Packed, Text};

/// An element with its sort key.
#[derive(Drop)]
pub(crate) struct Entry {
    /// The key, in lower case if case is ignored.
    key: Text,
    /// The number that the key is if numbers are compared, otherwise 0.
    number: i64,
    /// The index of the element.
    place: usize,
}

/// Entries. A contract sees the list of them.
#[derive(Drop)]
pub(crate) struct Entries {
    list: Vec<Entry>,
}

impl Model for Entries {
    ghost use Rattle.std.specs.Prelude.{List};
    ghost use Rattle.tcl_lists.specs.declared.sorting.Entry.{Entry};

    ghost Value = { List Entry };

    ghost view = { λ e. e.list.items };
}

ghost use Rattle.tcl_lists.specs.Sorting.{in_order, is_lower, comes_before, is_left_out, chosen, some_element, part_of, key_of, number_by, entry_of, entries_from, elements_at, list_sorted, lsort};

impl Entries {
    /// Appends an entry.
    fn push(&mut self, entry: Entry) -> Result<(), AllocError>
        ensures { OnOk result (self.new ≡ self.old ++ entry ∷ []) }
    {
        self.list.push(entry)?;
        Ok(())
    }

    /// Returns the entries, in order.
    fn as_slice(&self) -> &[Entry]
        ensures { result.now ≡ self.now }
    {
        self.list.as_slice()
    }
}

/// Compares two entries in increasing order.
fn rising(given: Given, a: &Entry, b: &Entry) -> Ordering
    ensures { is_lt result ≡ is_lower given a.now b.now }
{
    if given.integer {
        return a.number.cmp(&b.number);
    }
    a.key.as_slice().cmp(&b.key.as_slice())
}

/// Compares two entries in the order that the flags ask for.
fn order(given: Given, a: &Entry, b: &Entry) -> Ordering
    ensures { is_lt result ≡ comes_before given a.now b.now }
{
    if given.decreasing {
        return rising(given, b, a);
    }
    rising(given, a, b)
}

/// Returns whether two entries compare as equal.
fn do_tie(given: Given, a: &Entry, b: &Entry) -> bool
    ensures { result ≡ ties (comes_before given) a.now b.now }
{
    !order(given, a, b).is_lt() && !order(given, b, a).is_lt()
}

/// Sorts entries. Equal ones keep their order. Time is O(n log n).
fn sort(given: Given, entries: &mut Entries) -> Result<(), AllocError>
    ensures { OnOk result (entries.new ≡ in_order (comes_before given) entries.old) }
{
    entries.list.sort_by(|a, b| order(given, a, b))?;
    Ok(())
}

/// Returns whether `-unique` drops an entry because it is equal to the next one.
fn is_left_out(given: Given, entry: &Entry, others: &[Entry]) -> bool
    ensures { result ≡ is_left_out given entry.now others.now }
{
    match others {
        [] => false,
        [next, ..] => given.unique && do_tie(given, entry, next),
    }
}

/// Returns the elements of the entries that aren't dropped.
#[tactic(auto, using(crate::proofs::Ordered::chosen_on, crate::proofs::Ordered::chosen_at))]
fn elements_at(
    alloc: Global,
    given: Given,
    entries: &[Entry],
    elements: &Elements,
) -> Result<Packed, AllocError>
    ensures { IfOk result (λ p. p ≡ elements_at elements.now (chosen given entries.now)) }
{
    let mut made = Packed::new(alloc);
    let mut rest = entries;
    while let [entry, others @ ..] = rest {
        rest = others;
        if is_left_out(given, entry, others) {
            continue;
        }
        made.push(element(elements, entry.place))?;
    }
    Ok(made)
}

/// Returns the element at a position. The error is `bad index` if there is none.
fn part_at(alloc: Global, index: &[u8], place: i128, elements: &Elements) -> Result<Text, Complaint>
    ensures { Says result (some_element index.now (at_place place elements.now)) }
{
    if place < 0 || elements.len() as i128 <= place {
        return Err(Complaint::Said(bad_index(alloc, index)?));
    }
    match elements.get(place as usize) {
        None => Err(Complaint::Said(bad_index(alloc, index)?)),
        Some(part) => Ok(Text::from_slice(alloc, part)?),
    }
}

/// Parses an element as a list, and returns the element at an index.
fn part_of(alloc: Global, index: &[u8], element: &[u8]) -> Result<Text, Complaint>
    ensures { Says result (part_of index.now element.now) }
{
    let list = Value::from_slice(alloc, element)?;
    let elements = list_of(alloc, &list)?;
    let place = index_of(alloc, elements.len(), index)?;
    part_at(alloc, index, place, &elements)
}

/// Returns the sort key of an element: the element itself, or the part that `-index` denotes.
fn key_of(
    alloc: Global,
    index: Option<usize>,
    args: &[Value],
    element: &[u8],
) -> Result<Text, Complaint>
    ensures { Says result (key_of index args.now element.now) }
{
    match index {
        None => Ok(Text::from_slice(alloc, element)?),
        Some(at) => part_of(alloc, arg(args, at), element),
    }
}

fn number_by(alloc: Global, integer: bool, key: &[u8]) -> Result<i64, Complaint>
    ensures { Says result (number_by integer key.now) }
{
    if integer {
        return as_number(alloc, key);
    }
    Ok(0)
}

/// Returns a key, in lower case if case is ignored.
fn folded(alloc: Global, nocase: bool, key: Text) -> Result<Text, AllocError>
    ensures { IfOk result (λ t. t ≡ folded nocase key) }
{
    if nocase {
        return lower(alloc, key.as_slice());
    }
    Ok(key)
}

/// Returns the entry of an element.
fn entry_of(
    alloc: Global,
    given: Given,
    args: &[Value],
    place: usize,
    element: &[u8],
) -> Result<Entry, Complaint>
    ensures { Says result (entry_of given args.now place element.now) }
{
    let key = key_of(alloc, given.index, args, element)?;
    let number = number_by(alloc, given.integer, key.as_slice())?;
    let key = folded(alloc, given.nocase, key)?;
    Ok(Entry { key, number, place })
}

/// Returns the entries of all elements, in order. Fails at the first invalid key.
#[tactic(auto, using(crate::proofs::Ordered::entries_on, crate::proofs::Ordered::entries_fail, crate::proofs::Ordered::entries_end, crate::proofs::Ordered::entries_start))]
fn entries_of(
    alloc: Global,
    given: Given,
    args: &[Value],
    elements: &Elements,
) -> Result<Entries, Complaint>
    ensures { Says result (entries_from given args.now 0 elements.now) }
{
    let mut made = Entries {
        list: Vec::new(alloc),
    };
    for at in 0..elements.len() {
        match entry_of(alloc, given, args, at, element(elements, at)) {
            Err(complaint) => return Err(complaint),
            Ok(entry) => made.push(entry)?,
        }
    }
    Ok(made)
}

/// Returns the value of `lsort ?flags? list`.
pub fn lsort(alloc: Global, command: &[u8], args: &[Value]) -> Result<Value, Complaint>
    ensures { Says result (lsort command.now args.now) }
{
    let (given, count) = flags_of(alloc, Switches::Sort, 1, command, args)?;
    match behind(args, count) {
        [] => list_sorted(alloc, given, args, &Value::new(alloc)),
        [list, ..] => list_sorted(alloc, given, args, list),
    }
}

fn list_sorted(
    alloc: Global,
    given: Given,
    args: &[Value],
    list: &Value,
) -> Result<Value, Complaint>
    ensures { Says result (list_sorted given args.now list.now) }
{
    let elements = list_of(alloc, list)?;
    let mut entries = entries_of(alloc, given, args, &elements)?;
    sort(given, &mut entries)?;
    let made = elements_at(alloc, given, entries.as_slice(), &elements)?;
    list_text(alloc, made)
}
