//! Searches lists (`lsearch`).

ghost use Rattle.std.specs.Prelude.{◌≡◌, [], drop, filter, find, map, min, unwrap_or, length, IfOk};
ghost use Rattle.std.specs.List.{position_from};
ghost use Rattle.tcl_results.specs.Indices.{before};
ghost use Rattle.tcl_results.specs.Says.{Says};
ghost use Rattle.tcl_lists.specs.Searching.{IsTestOf, fits_pattern, is_sought, places_from, first_found, all_found, found, found_by, start_of, searched, lsearch};
ghost use Rattle.tcl_results.specs.Values.{count_text};

use command_table::Switches;
use exp_glob::Glob;
use exp_match::{Compiled, Searcher};
use std::alloc::{AllocError, Global};
use tcl_results::given::{arg, behind};
use tcl_results::indices::{before, element, index_of};
use tcl_results::switches::{Given, flags_of};
use tcl_results::{
    Complaint, Way, are_same, count_text, list_of, list_text, no_match, pattern_of, place_text,
};
use tcl_values::{Elements, Value};
use tcl_words::Packed;

/// What elements are tested with.
#[derive(Drop)]
pub(crate) enum Test<'r> {
    /// The pattern's text.
    Exact,
    /// The pattern as a glob.
    Glob(Glob),
    /// A search for the pattern as a regular pattern.
    Regular(Searcher<'r>),
}

/// Returns whether an element matches the pattern.
#[tactic(auto, using(exp_glob::proofs::Wholes::whole_is))]
fn fits_pattern(given: Given, test: &mut Test, pattern: &[u8], element: &[u8]) -> bool
    requires { IsTestOf given pattern.now test.old }
    ensures found { result ≡ fits_pattern given pattern.now element.now }
    ensures same { test.new ≡ test.old }
{
    match test {
        Test::Exact => are_same(given.nocase, element, pattern),
        Test::Glob(glob) => glob.is_found(element, given.nocase),
        Test::Regular(searcher) => searcher.find_from(element, 0, &mut no_match()),
    }
}

/// Returns whether the search accepts an element. `-not` inverts the match.
fn is_sought(given: Given, test: &mut Test, pattern: &[u8], element: &[u8]) -> bool
    requires { IsTestOf given pattern.now test.old }
    ensures found { result ≡ is_sought given pattern.now element.now }
    ensures same { test.new ≡ test.old }
{
    if given.not {
        return !fits_pattern(given, test, pattern, element);
    }
    fits_pattern(given, test, pattern, element)
}

/// Returns the index of the first accepted element, from an index on.
#[tactic(auto, using(crate::proofs::Found::place_on, crate::proofs::Found::place_at, crate::proofs::Found::place_end))]
fn first_place(
    given: Given,
    test: &mut Test,
    pattern: &[u8],
    from: usize,
    elements: &Elements,
) -> Option<usize>
    requires { IsTestOf given pattern.now test.old }
    ensures { result ≡ position_from (is_sought given pattern.now) from (drop from elements.now) }
{
    for at in from..elements.len() {
        if is_sought(given, test, pattern, element(elements, at)) {
            return Some(at);
        }
    }
    None
}

/// Returns the indexes of all accepted elements from an index on, as texts.
#[tactic(auto, using(crate::proofs::Found::places_on, crate::proofs::Found::places_at, crate::proofs::Found::places_end))]
fn all_places(
    alloc: Global,
    given: Given,
    test: &mut Test,
    pattern: &[u8],
    from: usize,
    elements: &Elements,
) -> Result<Packed, AllocError>
    requires { IsTestOf given pattern.now test.old }
    ensures { IfOk result (λ p. p ≡ map count_text (places_from (is_sought given pattern.now) from (drop from elements.now))) }
{
    let mut made = Packed::new(alloc);
    for at in from..elements.len() {
        if !is_sought(given, test, pattern, element(elements, at)) {
            continue;
        }
        made.push(count_text(alloc, at)?.as_slice())?;
    }
    Ok(made)
}

/// Returns all accepted elements from an index on.
#[tactic(auto, using(crate::proofs::Found::elements_on, crate::proofs::Found::elements_at, crate::proofs::Found::elements_end))]
fn all_elements(
    alloc: Global,
    given: Given,
    test: &mut Test,
    pattern: &[u8],
    from: usize,
    elements: &Elements,
) -> Result<Packed, AllocError>
    requires { IsTestOf given pattern.now test.old }
    ensures { IfOk result (λ p. p ≡ filter (is_sought given pattern.now) (drop from elements.now)) }
{
    let mut made = Packed::new(alloc);
    for at in from..elements.len() {
        let element = element(elements, at);
        if !is_sought(given, test, pattern, element) {
            continue;
        }
        made.push(element)?;
    }
    Ok(made)
}

/// Returns the first accepted element, or its index: -1 if there is none.
fn first_found(
    alloc: Global,
    inline: bool,
    place: Option<usize>,
    elements: &Elements,
) -> Result<Value, AllocError>
    ensures { IfOk result (λ v. v ≡ first_found inline place elements.now) }
{
    if !inline {
        return place_text(alloc, place);
    }
    match place {
        None => Ok(Value::new(alloc)),
        Some(at) => match elements.value(alloc, at)? {
            None => Ok(Value::new(alloc)),
            Some(element) => Ok(element),
        },
    }
}

/// Returns the list of all accepted elements from an index on, or of their indexes.
fn all_found(
    alloc: Global,
    given: Given,
    test: &mut Test,
    pattern: &[u8],
    from: usize,
    elements: &Elements,
) -> Result<Value, Complaint>
    requires { IsTestOf given pattern.now test.old }
    ensures { Says result (all_found given.inline (is_sought given pattern.now) from elements.now) }
{
    if given.inline {
        return list_text(
            alloc,
            all_elements(alloc, given, test, pattern, from, elements)?,
        );
    }
    list_text(
        alloc,
        all_places(alloc, given, test, pattern, from, elements)?,
    )
}

/// Returns the result of the search from an index on, with this test.
fn found(
    alloc: Global,
    given: Given,
    test: &mut Test,
    pattern: &[u8],
    from: usize,
    elements: &Elements,
) -> Result<Value, Complaint>
    requires { IsTestOf given pattern.now test.old }
    ensures { Says result (found given (is_sought given pattern.now) from elements.now) }
{
    if given.all {
        return all_found(alloc, given, test, pattern, from, elements);
    }
    let place = first_place(given, test, pattern, from, elements);
    Ok(first_found(alloc, given.inline, place, elements)?)
}

/// Returns the result of the search for a glob.
fn found_by_glob(
    alloc: Global,
    given: Given,
    pattern: &[u8],
    from: usize,
    elements: &Elements,
) -> Result<Value, Complaint>
    requires { given.way ≡ Way.Glob }
    ensures { Says result (found given (is_sought given pattern.now) from elements.now) }
{
    let mut test = Test::Glob(Glob::whole(alloc, pattern, given.nocase)?);
    found(alloc, given, &mut test, pattern, from, elements)
}

/// Returns the result of the search for a regular pattern.
#[inline(never)]
fn found_by_regular(
    alloc: Global,
    patterns: &mut Compiled,
    given: Given,
    pattern: &[u8],
    from: usize,
    elements: &Elements,
) -> Result<Value, Complaint>
    requires { given.way ≡ Way.Regular }
    ensures { Says result (found_by Way.Regular given pattern.now from elements.now) }
{
    let regular = pattern_of(alloc, patterns, pattern, given.nocase, false)?;
    let mut test = Test::Regular(Searcher::new(alloc, &regular)?);
    found(alloc, given, &mut test, pattern, from, elements)
}

/// Returns the result of the search from an index on.
fn found_by_way(
    alloc: Global,
    patterns: &mut Compiled,
    given: Given,
    pattern: &[u8],
    from: usize,
    elements: &Elements,
) -> Result<Value, Complaint>
    ensures { Says result (found_by given.way given pattern.now from elements.now) }
{
    match given.way {
        Way::Exact => found(alloc, given, &mut Test::Exact, pattern, from, elements),
        Way::Glob => found_by_glob(alloc, given, pattern, from, elements),
        Way::Regular => found_by_regular(alloc, patterns, given, pattern, from, elements),
    }
}

/// Returns the index at which a search begins, at most `count`.
fn start_of(
    alloc: Global,
    start: Option<usize>,
    args: &[Value],
    count: usize,
) -> Result<usize, Complaint>
    ensures { Says result (start_of start args.now count) }
{
    match start {
        None => Ok(0),
        Some(at) => {
            let place = index_of(alloc, count, arg(args, at))?;
            Ok(before(place, count))
        }
    }
}

/// Returns the value of `lsearch ?flags? list pattern`.
pub fn lsearch(
    alloc: Global,
    patterns: &mut Compiled,
    command: &[u8],
    args: &[Value],
) -> Result<Value, Complaint>
    ensures { Says result (lsearch command.now args.now) }
{
    let (given, count) = flags_of(alloc, Switches::Search, 2, command, args)?;
    let words = behind(args, count);
    match words {
        [] => searched(alloc, patterns, given, args, &Value::new(alloc), &[]),
        [list, ..] => searched(alloc, patterns, given, args, list, arg(words, 1)),
    }
}

fn searched(
    alloc: Global,
    patterns: &mut Compiled,
    given: Given,
    args: &[Value],
    list: &Value,
    pattern: &[u8],
) -> Result<Value, Complaint>
    ensures { Says result (searched given args.now list.now pattern.now) }
{
    let elements = list_of(alloc, list)?;
    let from = start_of(alloc, given.start, args, elements.len())?;
    found_by_way(alloc, patterns, given, pattern, from, &elements)
}
