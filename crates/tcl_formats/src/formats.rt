//! The command `format`.

ghost use Rattle.std.specs.Prelude.{◌≡◌, ◌++◌, flat_map, replicate, IfOk, OnOk};
ghost use Rattle.std.specs.List.{list_any};
ghost use Rattle.tcl_formats.specs.Formats.{sign, field_text, piece_field, all_fields, is_wide, formatted, format};
ghost use Rattle.tcl_results.specs.Said.{limited};
ghost use Rattle.tcl_results.specs.Says.{Says};

use crate::fields::{Field, converted, or_zero, plain_field};
use crate::templates::{Piece, parsed};
use std::alloc::{AllocError, Global};
use std::marker::Model;
use tcl_results::given::{arg, behind, others};
use tcl_results::{Complaint, is_too_long, limited, over_limit};
use tcl_values::Value;
use tcl_words::Text;

/// Fields. A contract sees the list of them.
#[derive(Drop)]
struct Fields {
    list: Vec<Field>,
}

impl Model for Fields {
    ghost use Rattle.std.specs.Prelude.{List};
    ghost use Rattle.tcl_formats.specs.declared.fields.Field.{Field};

    ghost Value = { List Field };

    ghost view = { λ f. f.list.items };
}

impl Fields {
    fn as_slice(&self) -> &[Field]
        ensures { result.now ≡ self.now }
    {
        self.list.as_slice()
    }
}

/// Returns the field of a part of the template, and how many values it takes.
#[tactic(auto, unfolding(crate::specs::Formats::piece_field))]
fn piece_field(
    alloc: Global,
    command: &[u8],
    piece: &Piece,
    values: &[Value],
) -> Result<(Field, usize), Complaint>
    ensures { Says result (piece_field command.now piece.now values.now) }
{
    match piece {
        Piece::Plain(text) => Ok((plain_field(text.copied(alloc)?), 0)),
        Piece::Converted(spec) => converted(alloc, command, *spec, values),
    }
}

/// Returns the fields of the parts of a template. Values are taken from left to right.
#[tactic(auto, using(crate::proofs::Fielded::fields_on, crate::proofs::Fielded::fields_fail, crate::proofs::Fielded::onto_nothing))]
fn all_fields(
    alloc: Global,
    command: &[u8],
    pieces: &[Piece],
    values: &[Value],
) -> Result<Fields, Complaint>
    ensures { Says result (all_fields command.now pieces.now values.now) }
{
    let mut list = Vec::new(alloc);
    let mut rest = pieces;
    let mut left = values;
    while let [piece, more @ ..] = rest {
        match piece_field(alloc, command, piece, left) {
            Err(complaint) => return Err(complaint),
            Ok((field, count)) => {
                list.push(field)?;
                left = behind(left, count);
            }
        }
        rest = more;
    }
    Ok(Fields { list })
}

/// Returns whether the precision of a part is above the limit of values.
fn is_wide(piece: &Piece) -> bool
    ensures { result ≡ is_wide piece.now }
{
    match piece {
        Piece::Plain(_) => false,
        Piece::Converted(spec) => is_too_long(or_zero(spec.precision)),
    }
}

fn are_wide(pieces: &[Piece]) -> bool
    ensures { result ≡ list_any is_wide pieces.now }
{
    pieces.iter().any(|piece| is_wide(piece))
}

/// Appends a byte several times.
#[tactic(auto, using(crate::proofs::Fielded::times_more))]
fn push_times(text: &mut Text, count: usize, byte: u8) -> Result<(), AllocError>
    ensures { OnOk result (text.new ≡ text.old ++ replicate count byte) }
{
    for turn in 0..count {
        text.push(byte)?;
    }
    Ok(())
}

/// Appends a minus to a text if the number is negative.
fn push_sign(text: &mut Text, negative: bool) -> Result<(), AllocError>
    ensures { OnOk result (text.new ≡ text.old ++ sign negative) }
{
    if negative {
        return text.push(b'-');
    }
    Ok(())
}

/// Appends the text of a field.
fn push_field(text: &mut Text, field: &Field) -> Result<(), AllocError>
    ensures { OnOk result (text.new ≡ text.old ++ field_text field.now) }
{
    push_times(text, field.before, b' ')?;
    push_sign(text, field.negative)?;
    push_times(text, field.zeros, b'0')?;
    text.extend(field.body.as_slice())?;
    push_times(text, field.after, b' ')?;
    Ok(())
}

/// Returns the text of fields. It is an error if it is too long.
#[tactic(auto, using(crate::proofs::Fielded::fields_over))]
fn fields_text(alloc: Global, fields: &[Field]) -> Result<Value, Complaint>
    ensures { Says result (limited (flat_map field_text fields.now)) }
{
    let mut text = Text::new(alloc);
    for field in fields {
        push_field(&mut text, field)?;
        if is_too_long(text.len()) {
            return Err(over_limit(alloc));
        }
    }
    limited(alloc, Value::from_text(alloc, text)?)
}

/// Returns the text of fields, unless it or a precision is too long.
fn formatted(alloc: Global, pieces: &[Piece], fields: &[Field]) -> Result<Value, Complaint>
    ensures { Says result (formatted pieces.now fields.now) }
{
    if are_wide(pieces) {
        return Err(over_limit(alloc));
    }
    fields_text(alloc, fields)
}

/// Returns the value of `format template value ..`.
pub fn format(alloc: Global, command: &[u8], args: &[Value]) -> Result<Value, Complaint>
    ensures { Says result (format command.now args.now) }
{
    let pieces = parsed(alloc, arg(args, 0))?;
    let fields = all_fields(alloc, command, pieces.as_slice(), others(args))?;
    formatted(alloc, pieces.as_slice(), fields.as_slice())
}
