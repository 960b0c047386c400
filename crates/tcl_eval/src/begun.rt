//! Words after the first step of their substitution.

ghost use Rattle.std.specs.Prelude.{◌≡◌, [], IfOk, IfSome};
ghost use Rattle.tcl_words.specs.Pieces.{Spelled, script, no_pieces, piece, part_view, word_view};
ghost use Rattle.tcl_subst.specs.Filling.{fill};
ghost use Rattle.tcl_subst.specs.Recipes.{IsOnward, begun, steps_onto};
ghost use Rattle.tcl_subst.specs.Rests.{rest, told};
ghost use Rattle.tcl_eval.specs.Advanced.{Fills, begun_fill};
ghost use Rattle.tcl_eval.specs.Alone.{WaitsAlone, asks_alone};
ghost use Rattle.tcl_subst.specs.Variables.{Variables};

use crate::read_texts::ReadTexts;
use std::alloc::{AllocError, Global};
use std::rc::Rc;
use tcl_scripts::Script;
use tcl_subst::{FillStep, Filler, Recipe, SubstFault, Vars, filling_is_fill, plain_value};
use tcl_values::Value;
use tcl_words::{Part, Text, Word};

/// A word after the first step of its substitution.
#[derive(Drop)]
pub(crate) enum Begun {
    /// The value of the word.
    Full(Value),
    /// The word is exactly one command substitution, and the value of this script is needed.
    Alone(Script),
    /// The value of a script is needed. The number is that of the filler's step.
    Script(Box<Filler>, usize),
    /// The substitution failed.
    Failed(Box<Filler>, SubstFault),
}

/// Begins the substitution of an expression's operand.
pub(crate) fn begin_operand(
    alloc: Global,
    word: &Word,
    read: &mut ReadTexts,
    vars: &mut Vars,
) -> Result<Begun, AllocError>
    ensures told { IfOk result (λ b. begun_fill b ≡ fill (word_view word.now).pieces vars.old) }
    ensures same { vars.new ≡ vars.old }
{
    if let Some(value) = plain_value(alloc, word, vars)? {
        return Ok(Begun::Full(value));
    }
    if let Some(text) = script_alone(word) {
        return Ok(Begun::Alone(read.script(alloc, text.as_slice())?));
    }
    let filler = operand_filler(alloc, word)?;
    let begun = begin(alloc, filler, vars)?;
    Ok(begun)
}

/// Returns the script if the word is exactly one command substitution.
fn script_alone(word: &Word) -> Option<&Text>
    ensures { IfSome result (λ text. (word_view word.now).pieces ≡ piece (script text.now) no_pieces) }
{
    match word.parts.as_slice() {
        [part] => part_script(part),
        _ => None,
    }
}

/// Returns the script if the part is a command substitution.
fn part_script(part: &Part) -> Option<&Text>
    ensures { IfSome result (λ text. part_view part.now ≡ script text.now) }
{
    match part {
        Part::Lit(_) => None,
        Part::Var(_, _) => None,
        Part::Script(text) => Some(text),
    }
}

/// Returns a filler for a word that is exactly one command substitution. It waits for the value of
/// the script.
#[cold]
pub(crate) fn waiting(alloc: Global, alone: &Script, vars: &mut Vars) -> Result<Filler, AllocError>
    ensures waits { IfOk result (λ f. WaitsAlone f) }
    ensures same { vars.new ≡ vars.old }
{
    let mut filler = alone_filler(alloc, alone)?;
    match advanced(alloc, &mut filler, vars)? {
        FillStep::NeedScript(_) => Ok(filler),
        FillStep::Value(_) => Err(AllocError),
        FillStep::Fault(_) => Err(AllocError),
    }
}

/// Returns a filler at the first step of such a word.
fn alone_filler(alloc: Global, alone: &Script) -> Result<Filler, AllocError>
    ensures { IfOk result (λ f. (vars : Variables) → rest f vars ≡ asks_alone alone.now) }
{
    let mut parts = Vec::new(alloc);
    parts.push(Part::Script(Text::from_slice(alloc, alone.text())?))?;
    let word = Word {
        expand: false,
        parts,
    };
    let filler = operand_filler(alloc, &word)?;
    Ok(filler)
}

/// Returns a filler at the first step of an operand.
fn operand_filler(alloc: Global, word: &Word) -> Result<Filler, AllocError>
    ensures { IfOk result (λ f. Fills f (word_view word.now)) }
{
    let recipe = Recipe::of(alloc, word)?;
    let filler = Filler::new(alloc, Rc::new(alloc, recipe)?);
    Ok(first(filler))
}

/// Runs the first step of a filler.
fn begin(alloc: Global, mut filler: Filler, vars: &mut Vars) -> Result<Begun, AllocError>
    ensures told { IfOk result (λ b. begun_fill b ≡ rest filler vars.old) }
    ensures same { vars.new ≡ vars.old }
{
    match advanced(alloc, &mut filler, vars)? {
        FillStep::Value(value) => Ok(Begun::Full(value)),
        FillStep::NeedScript(number) => Ok(Begun::Script(Box::new(alloc, filler)?, number)),
        FillStep::Fault(fault) => Ok(Begun::Failed(Box::new(alloc, filler)?, fault)),
    }
}

/// Returns the same filler. The contract states that it performs the substitution of its word.
pub(crate) fn first(filler: Filler) -> Filler
    ensures { (w : Spelled) → filler ≡ begun (steps_onto w.pieces []) → Fills result w }
{
    filling_is_fill();
    filler
}

/// Runs a filler up to its next result.
pub(crate) fn advanced(
    alloc: Global,
    filler: &mut Filler,
    vars: &mut Vars,
) -> Result<FillStep, AllocError>
    ensures told { IfOk result (λ s. told (s, filler.new) ≡ rest filler.old vars.old) }
    ensures onward { IfOk result (λ s. IsOnward filler.old (s, filler.new)) }
    ensures same { vars.new ≡ vars.old }
{
    filling_is_fill();
    match filler.advance(alloc, vars) {
        FillStep::Fault(SubstFault::Memory) => Err(AllocError),
        step => Ok(step),
    }
}
