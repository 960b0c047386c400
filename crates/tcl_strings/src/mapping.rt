//! Replaces keys in texts (`string map`).

ghost use Rattle.std.specs.Prelude.{◌≡◌, ◌≢◌, ◌<◌, ◌++◌, false, drop, length, None, Some, Err, IfOk, IfErr, OnOk, MatchOption};
ghost use Rattle.tcl_strings.specs.Mapping.{stands, first_pair, mapped_from, pairs_of, mapped_by, mapped};
ghost use Rattle.tcl_results.specs.Said.{limited};
ghost use Rattle.tcl_results.specs.Says.{Says, text_of};
ghost use Rattle.tcl_subst.specs.Faults.{is_too_long};

use command_table::Switches;
use std::alloc::Global;
use tcl_results::given::{arg, behind};
use tcl_results::indices::element;
use tcl_results::parts::{after, front};
use tcl_results::switches::flags_of;
use tcl_results::{Complaint, are_same, extend_limited, list_of, no_list};
use tcl_values::{Elements, Value};
use tcl_words::Text;

/// Returns whether a text begins with a key. The empty key never matches.
fn stands(nocase: bool, key: &[u8], text: &[u8]) -> bool
    ensures { result ≡ stands nocase key.now text.now }
{
    0 < key.len() && are_same(nocase, front(text, key.len()), key)
}

/// Returns the first key that a text begins with, and its replacement.
#[tactic(auto, using(crate::proofs::Mapped::pair_on, crate::proofs::Mapped::pair_at, crate::proofs::Mapped::pair_none))]
fn first_pair<'a>(nocase: bool, elements: &'a Elements, text: &[u8]) -> Option<(&'a [u8], &'a [u8])>
    ensures { MatchOption result (first_pair nocase elements.now text.now ≡ None) (λ p. first_pair nocase elements.now text.now ≡ Some (p.0.now, p.1.now)) }
{
    for pair in 0..elements.len() / 2 {
        let key = element(elements, 2 * pair);
        if stands(nocase, key, text) {
            return Some((key, element(elements, 2 * pair + 1)));
        }
    }
    None
}

/// Returns the value of `string map ?-nocase? mapping text`.
pub(crate) fn mapped(alloc: Global, command: &[u8], args: &[Value]) -> Result<Value, Complaint>
    ensures { Says result (mapped command.now args.now) }
{
    let (given, count) = flags_of(alloc, Switches::Case, 2, command, args)?;
    let texts = behind(args, count);
    match texts {
        [] => mapped_by(alloc, given.nocase, &Value::new(alloc), &[]),
        [mapping, ..] => mapped_by(alloc, given.nocase, mapping, arg(texts, 1)),
    }
}

/// Returns the elements of a list of pairs. The error is `bad list` if their number is odd.
pub fn pairs_of(alloc: Global, list: &Value) -> Result<Elements, Complaint>
    ensures { Says result (pairs_of list.now) }
{
    let elements = list_of(alloc, list)?;
    if elements.len() % 2 == 1 {
        return Err(no_list(alloc));
    }
    Ok(elements)
}

fn mapped_by(alloc: Global, nocase: bool, mapping: &Value, text: &[u8]) -> Result<Value, Complaint>
    ensures { Says result (mapped_by nocase mapping.now text.now) }
{
    let elements = pairs_of(alloc, mapping)?;
    let made = mapped_text(alloc, nocase, &elements, text)?;
    Ok(Value::from_text(alloc, made)?)
}

/// Appends the replacement of the key that `rest` begins with, or else its first byte. Returns the
/// number of bytes read from `rest`.
fn push_mapped(
    alloc: Global,
    nocase: bool,
    elements: &Elements,
    rest: &[u8],
    made: &mut Text,
) -> Result<usize, Complaint>
    requires { 0 < length rest.now }
    ensures mapped { IfOk result (λ n. made.old ++ mapped_from nocase elements.now 0 rest.now ≡ made.new ++ mapped_from nocase elements.now 0 (drop n rest.now)) }
    ensures some { IfOk result (λ n. 0 < n) }
    ensures short { OnOk result (is_too_long (length made.new) ≡ false) }
    ensures long { IfErr result (λ c. c ≢ Complaint.Memory → limited (made.old ++ mapped_from nocase elements.now 0 rest.now) ≡ Err (text_of c)) }
{
    match first_pair(nocase, elements, rest) {
        None => match extend_limited(alloc, made, &[], front(rest, 1)) {
            Err(complaint) => Err(complaint),
            Ok(()) => Ok(1),
        },
        Some((key, value)) => match extend_limited(alloc, made, &[], value) {
            Err(complaint) => Err(complaint),
            Ok(()) => Ok(key.len()),
        },
    }
}

/// Returns a text with its keys replaced from left to right. It is an error if the result is too
/// long.
fn mapped_text(
    alloc: Global,
    nocase: bool,
    elements: &Elements,
    text: &[u8],
) -> Result<Text, Complaint>
    ensures { Says result (limited (mapped_from nocase elements.now 0 text.now)) }
{
    let mut made = Text::new(alloc);
    let mut rest = text;
    while !rest.is_empty() {
        match push_mapped(alloc, nocase, elements, rest, &mut made) {
            Err(complaint) => return Err(complaint),
            Ok(count) => rest = after(rest, count),
        }
    }
    Ok(made)
}
