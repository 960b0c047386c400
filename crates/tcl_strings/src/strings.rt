//! The command `string`.

ghost use Rattle.std.specs.Prelude.{◌≡◌, map, reverse, IfOk};
ghost use Rattle.std.specs.Char.{to_ascii_lowercase, to_ascii_uppercase};
ghost use Rattle.tcl_results.specs.Says.{Says};
ghost use Rattle.tcl_strings.specs.Strings.{byte_at, bytes_between, equal, compared, matched, trimmed_left, trimmed_right, repeated, string_by, string, order_text, first_place, last_place};

use crate::classes::classed;
use crate::mapping::mapped;
use crate::trimming::{trimmed_left, trimmed_right};
use command_table::{StringOption, Switches, fits, string_count, string_option};
use memchr::memmem;
use std::alloc::{AllocError, Global};
use std::cmp::Ordering;
use tcl_results::given::{arg, arg_or, behind, others};
use tcl_results::indices::{between, index_of};
use tcl_results::switches::flags_of;
use tcl_results::{
    ByteSet, Complaint, are_same, as_number, bad_option, bit_text, count_text, is_too_long, lower,
    matches, order, over_limit, place_text, wrong,
};
use tcl_values::Value;
use tcl_words::Text;

/// The bytes that are trimmed by default.
const BLANKS: &[u8] = b" \t\n\x0b\x0c\r";

/// Returns the value of `string option arg ..`.
pub fn string(alloc: Global, command: &[u8], args: &[Value]) -> Result<Value, Complaint>
    ensures { Says result (string command.now args.now) }
{
    match string_option(arg(args, 0)) {
        None => Err(Complaint::Said(bad_option(alloc, arg(args, 0))?)),
        Some(option) => {
            let texts = others(args);
            if fits(string_count(option), texts.len()) {
                return string_by(alloc, option, command, texts);
            }
            Err(wrong(alloc, command))
        }
    }
}

/// Runs an option of `string` with the arguments after it.
fn string_by(
    alloc: Global,
    option: StringOption,
    command: &[u8],
    args: &[Value],
) -> Result<Value, Complaint>
    ensures { Says result (string_by option command.now args.now) }
{
    let a = arg(args, 0);
    let b = arg(args, 1);
    match option {
        StringOption::Length => Ok(count_text(alloc, a.len())?),
        StringOption::Index => byte_at(alloc, a, b),
        StringOption::Range => bytes_between(alloc, a, b, arg(args, 2)),
        StringOption::Equal => equal(alloc, command, args),
        StringOption::Compare => compared(alloc, command, args),
        StringOption::First => Ok(place_text(alloc, first_place(a, b))?),
        StringOption::Last => Ok(place_text(alloc, last_place(a, b))?),
        StringOption::ToLower => Ok(lowered(alloc, a)?),
        StringOption::ToUpper => Ok(upper(alloc, a)?),
        StringOption::Trim => Ok(trimmed(alloc, arg_or(args, 1, BLANKS), a)?),
        StringOption::TrimLeft => Ok(without_front(alloc, arg_or(args, 1, BLANKS), a)?),
        StringOption::TrimRight => Ok(without_end(alloc, arg_or(args, 1, BLANKS), a)?),
        StringOption::Match => matched(alloc, command, args),
        StringOption::Map => mapped(alloc, command, args),
        StringOption::Is => is_in_class(alloc, command, args),
        StringOption::Reverse => Ok(reversed(alloc, a)?),
        StringOption::Repeat => repeated(alloc, a, as_number(alloc, b)?),
    }
}

/// Returns the value of `string equal ?-nocase? text text`.
fn equal(alloc: Global, command: &[u8], args: &[Value]) -> Result<Value, Complaint>
    ensures { Says result (equal command.now args.now) }
{
    let (given, count) = flags_of(alloc, Switches::Case, 2, command, args)?;
    let texts = behind(args, count);
    let same = are_same(given.nocase, arg(texts, 0), arg(texts, 1));
    Ok(bit_text(alloc, same)?)
}

/// Returns the value of `string compare ?-nocase? text text`.
fn compared(alloc: Global, command: &[u8], args: &[Value]) -> Result<Value, Complaint>
    ensures { Says result (compared command.now args.now) }
{
    let (given, count) = flags_of(alloc, Switches::Case, 2, command, args)?;
    let texts = behind(args, count);
    let found = order(alloc, given.nocase, arg(texts, 0), arg(texts, 1))?;
    Ok(order_text(alloc, found)?)
}

/// Returns the value of `string match ?-nocase? pattern text`.
fn matched(alloc: Global, command: &[u8], args: &[Value]) -> Result<Value, Complaint>
    ensures { Says result (matched command.now args.now) }
{
    let (given, count) = flags_of(alloc, Switches::Case, 2, command, args)?;
    let texts = behind(args, count);
    let found = matches(alloc, given.nocase, arg(texts, 0), arg(texts, 1))?;
    Ok(bit_text(alloc, found)?)
}

/// Returns the value of `string is class ?-strict? text`.
fn is_in_class(alloc: Global, command: &[u8], args: &[Value]) -> Result<Value, Complaint>
    ensures { Says result (string_by StringOption.Is command.now args.now) }
{
    let is_in = classed(alloc, command, args)?;
    Ok(bit_text(alloc, is_in)?)
}

fn trimmed(alloc: Global, chars: &[u8], text: &[u8]) -> Result<Value, AllocError>
    ensures { IfOk result (λ v. v ≡ trimmed_right chars.now (trimmed_left chars.now text.now)) }
{
    let set = ByteSet::new(chars);
    let text = trimmed_right(&set, trimmed_left(&set, text));
    Value::from_slice(alloc, text)
}

fn without_front(alloc: Global, chars: &[u8], text: &[u8]) -> Result<Value, AllocError>
    ensures { IfOk result (λ v. v ≡ trimmed_left chars.now text.now) }
{
    Value::from_slice(alloc, trimmed_left(&ByteSet::new(chars), text))
}

fn without_end(alloc: Global, chars: &[u8], text: &[u8]) -> Result<Value, AllocError>
    ensures { IfOk result (λ v. v ≡ trimmed_right chars.now text.now) }
{
    Value::from_slice(alloc, trimmed_right(&ByteSet::new(chars), text))
}

fn reversed(alloc: Global, text: &[u8]) -> Result<Value, AllocError>
    ensures { IfOk result (λ v. v ≡ reverse text.now) }
{
    let bytes = text.iter().rev().copied().collect(alloc)?;
    Value::from_text(alloc, Text { bytes })
}

/// Returns a text, repeated this often. A negative number counts as 0. It is an error if the result
/// is too long.
#[tactic(auto, using(crate::proofs::Repeated::text_over, crate::proofs::Repeated::text_fits))]
fn repeated(alloc: Global, text: &[u8], number: i64) -> Result<Value, Complaint>
    ensures { Says result (repeated text.now number) }
{
    if number < 0 {
        return Ok(Value::new(alloc));
    }
    let times = number as usize;
    if is_too_long(text.len().saturating_mul(times)) {
        return Err(over_limit(alloc));
    }
    let bytes = text.repeat(alloc, times)?;
    Ok(Value::from_text(alloc, Text { bytes })?)
}

fn byte_at(alloc: Global, text: &[u8], index: &[u8]) -> Result<Value, Complaint>
    ensures { Says result (byte_at text.now index.now) }
{
    let place = index_of(alloc, text.len(), index)?;
    Ok(Value::from_slice(alloc, between(place, place, text))?)
}

fn bytes_between(alloc: Global, text: &[u8], from: &[u8], to: &[u8]) -> Result<Value, Complaint>
    ensures { Says result (bytes_between text.now from.now to.now) }
{
    let from = index_of(alloc, text.len(), from)?;
    let to = index_of(alloc, text.len(), to)?;
    Ok(Value::from_slice(alloc, between(from, to, text))?)
}

fn lowered(alloc: Global, text: &[u8]) -> Result<Value, AllocError>
    ensures { IfOk result (λ v. v ≡ map to_ascii_lowercase text.now) }
{
    Value::from_text(alloc, lower(alloc, text)?)
}

fn upper(alloc: Global, text: &[u8]) -> Result<Value, AllocError>
    ensures { IfOk result (λ v. v ≡ map to_ascii_uppercase text.now) }
{
    Value::from_text(
        alloc,
        Text {
            bytes: text.to_ascii_uppercase(alloc)?,
        },
    )
}

fn order_text(alloc: Global, order: Ordering) -> Result<Value, AllocError>
    ensures { IfOk result (λ v. v ≡ order_text order) }
{
    match order {
        Ordering::Less => Value::from_slice(alloc, b"-1"),
        Ordering::Equal => Value::from_slice(alloc, b"0"),
        Ordering::Greater => Value::from_slice(alloc, b"1"),
    }
}

/// Returns the first index of a text in another. Linear time.
fn first_place(text: &[u8], bytes: &[u8]) -> Option<usize>
    ensures { result ≡ first_place text.now bytes.now }
{
    memmem::find(bytes, text)
}

/// Returns the last index of a text in another. Linear time.
fn last_place(text: &[u8], bytes: &[u8]) -> Option<usize>
    ensures { result ≡ last_place text.now bytes.now }
{
    memmem::rfind(bytes, text)
}
