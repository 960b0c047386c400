//! The fields of `format`: values in the form that a specifier asks for.

ghost use Rattle.std.specs.Prelude.{◌≡◌, ◌+◌, ◌-◌, ◌≤◌, ◌<◌, ◌^◌, false, true, length, min, unwrap_or, encode_utf8, IfOk};
ghost use Rattle.std.specs.Fmt.{decimal, digits};
ghost use Rattle.tcl_results.specs.Says.{Says};

use crate::templates::{Conversion, MOST_SIZE, Spec};
use std::alloc::{AllocError, Global};
use tcl_results::given::behind;
use tcl_results::parts::front;
use tcl_results::{Complaint, as_number, wrong};
use tcl_values::Value;
use tcl_words::Text;

/// A value in the form that a specifier asks for.
#[derive(Drop)]
pub(crate) struct Field {
    /// The number of spaces at the front.
    pub(crate) before: usize,
    /// Whether a minus follows.
    pub(crate) negative: bool,
    /// The number of zeros after it.
    pub(crate) zeros: usize,
    pub(crate) body: Text,
    /// The number of spaces at the end.
    pub(crate) after: usize,
}

ghost use Rattle.tcl_formats.specs.Formats.{sign, character, numeral, has_sign, is_text, is_bytes, leading_zeros, fill, has_zeros, field_with, cut, with_width, first_number, starred, field_of, first_field, converted, plain_field};

/// Returns the decimal digits of a number.
fn decimal(alloc: Global, n: u64) -> Result<Text, AllocError>
    ensures { IfOk result (λ t. t ≡ decimal n) }
{
    Ok(Text {
        bytes: format!(in alloc; "{n}")?.into_bytes(),
    })
}

/// Returns the octal digits of a number.
fn octal(alloc: Global, n: u64) -> Result<Text, AllocError>
    ensures { IfOk result (λ t. t ≡ digits 8 false n) }
{
    Ok(Text {
        bytes: format!(in alloc; "{n:o}")?.into_bytes(),
    })
}

/// Returns the hexadecimal digits of a number in lower case.
fn lower_hex(alloc: Global, n: u64) -> Result<Text, AllocError>
    ensures { IfOk result (λ t. t ≡ digits 16 false n) }
{
    Ok(Text {
        bytes: format!(in alloc; "{n:x}")?.into_bytes(),
    })
}

/// Returns the hexadecimal digits of a number in upper case.
fn upper_hex(alloc: Global, n: u64) -> Result<Text, AllocError>
    ensures { IfOk result (λ t. t ≡ digits 16 true n) }
{
    Ok(Text {
        bytes: format!(in alloc; "{n:X}")?.into_bytes(),
    })
}

/// Returns the UTF-8 bytes of a number. Surrogates are no exception.
#[tactic(auto, unfolding(std::specs::Prelude::encode_utf8))]
fn encoded(alloc: Global, n: u16) -> Result<Text, AllocError>
    ensures { IfOk result (λ t. t ≡ encode_utf8 n) }
{
    if n < 0x80 {
        return Text::from_slice(alloc, &[n as u8]);
    }
    if n < 0x800 {
        return Text::from_slice(alloc, &[0xc0 + (n / 64) as u8, 0x80 + (n % 64) as u8]);
    }
    let bytes = [
        0xe0 + (n / 4096) as u8,
        0x80 + (n / 64 % 64) as u8,
        0x80 + (n % 64) as u8,
    ];
    Text::from_slice(alloc, &bytes)
}

/// Returns the UTF-8 of the character with a number. A number below 0 or above FFFF counts as FFFD.
fn character(alloc: Global, number: i64) -> Result<Text, AllocError>
    ensures { IfOk result (λ t. t ≡ character number) }
{
    if number < 0 {
        return encoded(alloc, 0xfffd);
    }
    if 0xffff < number {
        return encoded(alloc, 0xfffd);
    }
    encoded(alloc, number as u16)
}

/// Returns what a conversion makes of a number, without its sign.
#[tactic(auto, unfolding(crate::specs::Formats::numeral))]
fn numeral(alloc: Global, conversion: Conversion, number: i64) -> Result<Text, AllocError>
    ensures { IfOk result (λ t. t ≡ numeral conversion number) }
{
    match conversion {
        Conversion::Bytes => Ok(Text::new(alloc)),
        Conversion::Character => character(alloc, number),
        Conversion::Decimal => decimal(alloc, number.unsigned_abs()),
        Conversion::Unsigned => decimal(alloc, number.cast_unsigned()),
        Conversion::Octal => octal(alloc, number.cast_unsigned()),
        Conversion::LowerHex => lower_hex(alloc, number.cast_unsigned()),
        Conversion::UpperHex => upper_hex(alloc, number.cast_unsigned()),
    }
}

/// Returns whether a conversion writes a minus.
fn has_sign(conversion: Conversion, number: i64) -> bool
    ensures { result ≡ has_sign conversion number }
{
    match conversion {
        Conversion::Decimal => number.is_negative(),
        _ => false,
    }
}

fn is_bytes(conversion: Conversion) -> bool
    ensures { result ≡ is_bytes conversion }
{
    match conversion {
        Conversion::Bytes => true,
        _ => false,
    }
}

fn is_text(conversion: Conversion) -> bool
    ensures { result ≡ is_text conversion }
{
    match conversion {
        Conversion::Bytes => true,
        Conversion::Character => true,
        _ => false,
    }
}

pub(crate) fn or_zero(size: Option<usize>) -> usize
    ensures { result ≡ unwrap_or size 0 }
{
    match size {
        None => 0,
        Some(n) => n,
    }
}

/// Returns the number of zeros that bring digits to the precision.
#[tactic(auto, unfolding(crate::specs::Formats::leading_zeros))]
fn leading_zeros(spec: Spec, body: &[u8]) -> usize
    ensures { result ≡ leading_zeros spec body.now }
{
    if is_text(spec.conversion) {
        return 0;
    }
    or_zero(spec.precision).saturating_sub(body.len())
}

/// Returns the number of bytes of a sign.
fn sign_len(negative: bool) -> usize
    ensures { result ≡ length (sign negative) }
{
    if negative { 1 } else { 0 }
}

/// Returns how many bytes the field is short of its width.
#[tactic(auto, unfolding(crate::specs::Formats::fill))]
fn fill(spec: Spec, negative: bool, zeros: usize, body: &[u8]) -> usize
    ensures value { result ≡ fill spec negative zeros body.now }
    ensures room { zeros + result < 2 ^ 64 }
{
    or_zero(spec.width)
        .saturating_sub(sign_len(negative))
        .saturating_sub(zeros)
        .saturating_sub(body.len())
}

/// Returns whether zeros fill the field.
fn has_zeros(spec: Spec) -> bool
    ensures { result ≡ has_zeros spec.precision spec }
{
    match spec.precision {
        None => spec.zero_filled,
        Some(_) => spec.zero_filled && is_text(spec.conversion),
    }
}

/// Returns a field, brought to its width.
#[tactic(auto, unfolding(crate::specs::Formats::field_with))]
fn field_with(spec: Spec, negative: bool, body: Text) -> Field
    ensures { result ≡ field_with spec negative body }
{
    let zeros = leading_zeros(spec, body.as_slice());
    let fill = fill(spec, negative, zeros, body.as_slice());
    if spec.left {
        return Field {
            before: 0,
            negative,
            zeros,
            body,
            after: fill,
        };
    }
    if has_zeros(spec) {
        return Field {
            before: 0,
            negative,
            zeros: zeros + fill,
            body,
            after: 0,
        };
    }
    Field {
        before: fill,
        negative,
        zeros,
        body,
        after: 0,
    }
}

/// Returns the first bytes of a value, as many as the precision says.
fn cut(precision: Option<usize>, value: &[u8]) -> &[u8]
    ensures { result.now ≡ cut precision value.now }
{
    match precision {
        None => value,
        Some(n) => front(value, n),
    }
}

/// Returns the field of a value.
#[tactic(auto, unfolding(crate::specs::Formats::field_of))]
fn field_of(alloc: Global, spec: Spec, value: &[u8]) -> Result<Field, Complaint>
    ensures { Says result (field_of spec value.now) }
{
    if is_bytes(spec.conversion) {
        let body = Text::from_slice(alloc, cut(spec.precision, value))?;
        return Ok(field_with(spec, false, body));
    }
    let number = as_number(alloc, value)?;
    let body = numeral(alloc, spec.conversion, number)?;
    Ok(field_with(spec, has_sign(spec.conversion, number), body))
}

/// Returns a specifier whose width is a number. A negative one means `-`.
fn with_width(spec: Spec, number: i64) -> Spec
    ensures { result ≡ with_width spec number }
{
    Spec {
        left: spec.left || number.is_negative(),
        width: Some(number.unsigned_abs().min(MOST_SIZE) as usize),
        ..spec
    }
}

/// Returns the number that the first value is.
fn first_number(alloc: Global, command: &[u8], values: &[Value]) -> Result<i64, Complaint>
    ensures { Says result (first_number command.now values.now) }
{
    match values {
        [] => Err(wrong(alloc, command)),
        [value, ..] => as_number(alloc, value.as_slice()),
    }
}

/// Returns a specifier with the width that is a value, and how many values that takes.
fn starred(
    alloc: Global,
    command: &[u8],
    spec: Spec,
    values: &[Value],
) -> Result<(Spec, usize), Complaint>
    ensures said { Says result (starred command.now spec values.now) }
    ensures few { IfOk result (λ t. t.1 ≤ 1) }
{
    match spec.width {
        Some(_) => Ok((spec, 0)),
        None => {
            let number = first_number(alloc, command, values)?;
            Ok((with_width(spec, number), 1))
        }
    }
}

/// Returns the field of the first value.
fn first_field(
    alloc: Global,
    command: &[u8],
    spec: Spec,
    values: &[Value],
) -> Result<Field, Complaint>
    ensures { Says result (first_field command.now spec values.now) }
{
    match values {
        [] => Err(wrong(alloc, command)),
        [value, ..] => field_of(alloc, spec, value.as_slice()),
    }
}

/// Returns the field of a specifier, and how many values it takes.
#[tactic(auto, unfolding(crate::specs::Formats::converted))]
pub(crate) fn converted(
    alloc: Global,
    command: &[u8],
    spec: Spec,
    values: &[Value],
) -> Result<(Field, usize), Complaint>
    ensures { Says result (converted command.now spec values.now) }
{
    let (spec, count) = starred(alloc, command, spec, values)?;
    let field = first_field(alloc, command, spec, behind(values, count))?;
    Ok((field, count + 1))
}

/// Returns the field of bytes that stay as they are.
pub(crate) fn plain_field(body: Text) -> Field
    ensures { result ≡ plain_field body }
{
    Field {
        before: 0,
        negative: false,
        zeros: 0,
        body,
        after: 0,
    }
}
