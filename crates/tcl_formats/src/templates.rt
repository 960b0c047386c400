//! The template of `format`.

ghost use Rattle.std.specs.Prelude.{◌≡◌, ◌≤◌, ◌<◌, ◌+◌, ◌^◌, length, IfOk, IfSome};
ghost use Rattle.std.specs.List.{prefix_len};
ghost use Rattle.tcl_formats.specs.Parts.{parts_from};
ghost use Rattle.tcl_results.specs.Says.{Says};
ghost use Rattle.tcl_results.specs.Sets.{is_one_of};

use crate::digits::{digits_at, number_up_to};
use std::alloc::{AllocError, Global};
use std::marker::Model;
use tcl_results::parts::{after, front};
use tcl_results::{Complaint, bad_format};
use tcl_words::Text;

/// One more than `VALUE_LIMIT`. Greater widths and precisions count as this.
pub(crate) const MOST_SIZE: u64 = 1_048_577;

/// What a specifier makes of a value.
#[derive(Clone, Copy)]
pub(crate) enum Conversion {
    /// `s`
    Bytes,
    /// `c`
    Character,
    /// `d`
    Decimal,
    /// `u`
    Unsigned,
    /// `o`
    Octal,
    /// `x`
    LowerHex,
    /// `X`
    UpperHex,
}

/// A conversion specifier.
#[derive(Clone, Copy)]
pub(crate) struct Spec {
    /// Whether the field is filled after the value.
    pub(crate) left: bool,
    /// Whether the field is filled with zeros.
    pub(crate) zero_filled: bool,
    /// The width, or 0. `None`: it is a value.
    pub(crate) width: Option<usize>,
    pub(crate) precision: Option<usize>,
    pub(crate) conversion: Conversion,
}

/// A part of a template.
#[derive(Drop)]
pub(crate) enum Piece {
    /// Bytes that stay as they are.
    Plain(Text),
    /// What a specifier makes of the next value.
    Converted(Spec),
}

/// The parts of a template. A contract sees the list of them.
#[derive(Drop)]
pub(crate) struct Pieces {
    list: Vec<Piece>,
}

impl Model for Pieces {
    ghost use Rattle.std.specs.Prelude.{List};
    ghost use Rattle.tcl_formats.specs.declared.templates.Piece.{Piece};

    ghost Value = { List Piece };

    ghost view = { λ p. p.list.items };
}

ghost use Rattle.tcl_formats.specs.Templates.{is_flag, is_plain, size_at, width_at, precision_at, long_at, conversion_of, conversion_at, spec_of, from_long, from_precision, from_width, spec_at, percent_at, piece_at, parsed};

impl Pieces {
    /// Returns the parts, in order.
    pub(crate) fn as_slice(&self) -> &[Piece]
        ensures { result.now ≡ self.now }
    {
        self.list.as_slice()
    }
}

/// Returns the number of flags at the front of a text.
fn flags_at(text: &[u8]) -> usize
    ensures value { result ≡ prefix_len is_flag text.now }
    ensures within { result ≤ length text.now }
{
    text.iter()
        .take_while(|b| **b == b'-' || **b == b'0')
        .count()
}

/// Returns the number of bytes before the first `%`.
fn plain_at(text: &[u8]) -> usize
    ensures value { result ≡ prefix_len is_plain text.now }
    ensures within { result ≤ length text.now }
{
    text.iter().take_while(|b| **b != b'%').count()
}

/// Returns the number that the first digits of a text write, at most `MOST_SIZE`, and how many
/// digits there are.
fn size_at(text: &[u8]) -> (usize, usize)
    ensures value { result ≡ size_at text.now }
    ensures within { result.1 ≤ length text.now }
{
    let count = digits_at(text);
    let size = number_up_to(front(text, count), MOST_SIZE);
    (size as usize, count)
}

/// Returns the width at the front of a text, and how many bytes write it. `None` is `*`.
fn width_at(text: &[u8]) -> (Option<usize>, usize)
    ensures value { result ≡ width_at text.now }
    ensures within { result.1 ≤ length text.now }
{
    match text {
        [] => (Some(0), 0),
        [b'*', ..] => (None, 1),
        [_, ..] => {
            let (size, count) = size_at(text);
            (Some(size), count)
        }
    }
}

/// Returns the precision at the front of a text, and how many bytes write it.
fn precision_at(text: &[u8]) -> (Option<usize>, usize)
    ensures value { result ≡ precision_at text.now }
    ensures within { result.1 ≤ length text.now }
{
    match text {
        [] => (None, 0),
        [b'.', digits @ ..] => {
            let (size, count) = size_at(digits);
            (Some(size), count + 1)
        }
        [_, ..] => (None, 0),
    }
}

/// Returns the number of bytes of an `l` at the front of a text.
fn long_at(text: &[u8]) -> usize
    ensures value { result ≡ long_at text.now }
    ensures within { result ≤ length text.now }
{
    match text {
        [] => 0,
        [b'l', ..] => 1,
        [_, ..] => 0,
    }
}

/// Returns the conversion that a letter names, or `None`.
fn conversion_of(letter: u8) -> Option<Conversion>
    ensures { result ≡ conversion_of letter }
{
    match letter {
        b's' => Some(Conversion::Bytes),
        b'c' => Some(Conversion::Character),
        b'd' => Some(Conversion::Decimal),
        b'u' => Some(Conversion::Unsigned),
        b'o' => Some(Conversion::Octal),
        b'x' => Some(Conversion::LowerHex),
        b'X' => Some(Conversion::UpperHex),
        _ => None,
    }
}

/// Returns the conversion at the front of a text, or `None`.
fn conversion_at(text: &[u8]) -> Option<Conversion>
    ensures value { result ≡ conversion_at text.now }
    ensures some { IfSome result (λ _. 0 < length text.now) }
{
    match text {
        [] => None,
        [letter, ..] => conversion_of(*letter),
    }
}

/// Returns whether flags contain a flag.
fn has_flag(flags: &[u8], flag: u8) -> bool
    ensures { result ≡ is_one_of flags.now flag }
{
    flags.contains(&flag)
}

fn spec_of(
    flags: &[u8],
    width: Option<usize>,
    precision: Option<usize>,
    conversion: Conversion,
) -> Spec
    ensures { result ≡ spec_of flags.now width precision conversion }
{
    Spec {
        left: has_flag(flags, b'-'),
        zero_filled: has_flag(flags, b'0'),
        width,
        precision,
        conversion,
    }
}

/// Returns the specifier that ends with an optional `l` and a conversion, and how many bytes write
/// it. `count` bytes of it stand before the text.
#[tactic(auto, unfolding(crate::specs::Templates::from_long))]
fn from_long(
    flags: &[u8],
    width: Option<usize>,
    precision: Option<usize>,
    count: usize,
    text: &[u8],
) -> Option<(Spec, usize)>
    requires { count + length text.now < 2 ^ 64 }
    ensures { result ≡ from_long flags.now width precision count text.now }
{
    let long = long_at(text);
    match conversion_at(after(text, long)) {
        None => None,
        Some(conversion) => Some((
            spec_of(flags, width, precision, conversion),
            count + long + 1,
        )),
    }
}

/// Returns the specifier that ends with an optional precision and what follows it, and how many
/// bytes write it. `count` bytes of it stand before the text.
#[tactic(auto, unfolding(crate::specs::Templates::from_precision))]
fn from_precision(
    flags: &[u8],
    width: Option<usize>,
    count: usize,
    text: &[u8],
) -> Option<(Spec, usize)>
    requires { count + length text.now < 2 ^ 64 }
    ensures { result ≡ from_precision flags.now width count text.now }
{
    let (precision, read) = precision_at(text);
    from_long(flags, width, precision, count + read, after(text, read))
}

/// Returns the specifier that ends with an optional width and what follows it, and how many bytes
/// write it. `count` bytes of it stand before the text.
#[tactic(auto, unfolding(crate::specs::Templates::from_width))]
fn from_width(flags: &[u8], count: usize, text: &[u8]) -> Option<(Spec, usize)>
    requires { count + length text.now < 2 ^ 64 }
    ensures { result ≡ from_width flags.now count text.now }
{
    let (width, read) = width_at(text);
    from_precision(flags, width, count + read, after(text, read))
}

/// Returns the specifier at the front of a text, and how many bytes write it. `None` if there is
/// none.
#[tactic(auto, unfolding(crate::specs::Templates::spec_at))]
fn spec_at(text: &[u8]) -> Option<(Spec, usize)>
    ensures { result ≡ spec_at text.now }
{
    let count = flags_at(text);
    let (flags, rest) = text.split_at(count);
    from_width(flags, count, rest)
}

/// Returns the part of a template that begins with `%`, and how many bytes write it after the `%`.
fn percent_at(alloc: Global, text: &[u8]) -> Result<Option<(Piece, usize)>, AllocError>
    ensures { IfOk result (λ o. o ≡ percent_at text.now) }
{
    match text {
        [] => Ok(None),
        [b'%', ..] => Ok(Some((Piece::Plain(Text::from_slice(alloc, b"%")?), 1))),
        [_, ..] => match spec_at(text) {
            None => Ok(None),
            Some((spec, count)) => Ok(Some((Piece::Converted(spec), count))),
        },
    }
}

/// Returns the part of a template that begins with a byte, and how many bytes after that byte belong
/// to it. `None` if there is no such part.
#[tactic(auto, unfolding(crate::specs::Templates::piece_at))]
fn piece_at(alloc: Global, byte: u8, text: &[u8]) -> Result<Option<(Piece, usize)>, AllocError>
    ensures { IfOk result (λ o. o ≡ piece_at byte text.now) }
{
    if byte == b'%' {
        return percent_at(alloc, text);
    }
    let count = plain_at(text);
    let mut plain = Text::from_slice(alloc, &[byte])?;
    plain.extend(front(text, count))?;
    Ok(Some((Piece::Plain(plain), count)))
}

/// Returns the parts of a template. `None` if it has another form.
#[tactic(auto, using(crate::proofs::Parts::parts_none))]
fn read_pieces(alloc: Global, template: &[u8]) -> Result<Option<Pieces>, AllocError>
    ensures { IfOk result (λ o. o ≡ parts_from piece_at 0 template.now) }
{
    let mut list = Vec::new(alloc);
    let mut rest = template;
    while !rest.is_empty() {
        let text = after(rest, 1);
        let Some((piece, count)) = piece_at(alloc, rest[0], text)? else {
            return Ok(None);
        };
        list.push(piece)?;
        rest = after(text, count);
    }
    Ok(Some(Pieces { list }))
}

/// Parses a template. The error is `bad format` if it has another form.
pub(crate) fn parsed(alloc: Global, template: &[u8]) -> Result<Pieces, Complaint>
    ensures { Says result (parsed template.now) }
{
    match read_pieces(alloc, template)? {
        None => Err(Complaint::Said(bad_format(alloc, template)?)),
        Some(pieces) => Ok(pieces),
    }
}
