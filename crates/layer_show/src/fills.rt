//! Shows the values of words.

ghost use Rattle.std.specs.Prelude.{◌≡◌, ◌↔◌, [], None, Err, unwrap_or, IfOk, OnOk};
ghost use Rattle.tcl_words.specs.Pieces.{word_view};
ghost use Rattle.tcl_subst.specs.Filling.{fill};
ghost use Rattle.tcl_subst.specs.Recipes.{begun, given, script_at, steps_onto};
ghost use Rattle.tcl_subst.specs.Rests.{rest};
ghost use Rattle.layer_show.specs.Spoken.{spoken, Fills};

use crate::complaint::Complaint;
use crate::spell::{fault_name, push_labelled};
use std::alloc::{AllocError, Global};
use std::rc::Rc;
use tcl_subst::{FillStep, Filler, Recipe, SubstFault, Vars, filling_is_fill};
use tcl_values::Value;
use tcl_words::{Command, Text, Word, WordFault, next_command};

/// The result of a text as the only word of a command.
#[derive(Drop)]
pub enum Filling {
    /// The value of the word.
    Value(Value),
    /// Why the text is not a command.
    Malformed(WordFault),
    /// Why the word has no value, and the variable that the error concerns.
    Refused(SubstFault, Text),
}

/// Returns the name of an error. `None` for `Memory`, which is not an error of a variable.
pub fn refusal_name(fault: SubstFault) -> Option<&'static [u8]>
    ensures { result ≡ None ↔ (fault ≡ SubstFault.Memory) }
{
    match fault {
        SubstFault::NoVariable => Some(b"NoVariable"),
        SubstFault::IsArray => Some(b"IsArray"),
        SubstFault::NotArray => Some(b"NotArray"),
        SubstFault::TooLong => Some(b"TooLong"),
        SubstFault::Memory => None,
        SubstFault::Exists => Some(b"Exists"),
        SubstFault::BadList => Some(b"BadList"),
    }
}

/// Gives a script's own text as its value.
fn give_text(alloc: Global, filler: &mut Filler, number: usize) -> Result<(), AllocError>
    ensures { OnOk result (filler.new ≡ given (unwrap_or (script_at number filler.old.steps) []) filler.old) }
{
    let value = match filler.recipe().script(number) {
        None => Value::new(alloc),
        Some(script) => Value::from_slice(alloc, script.as_slice())?,
    };
    filler.give(alloc, value)
}

/// Continues with the scripts' own texts. Each script is a step, and is requested once.
fn filled_by(alloc: Global, filler: &mut Filler, vars: &mut Vars) -> Result<Filling, Complaint>
    ensures { IfOk result (λ f. Fills f (spoken (rest filler.old vars.old) vars.old)) }
{
    filling_is_fill();
    let most = filler.recipe().steps.len();
    'scripts: for _ in 0..=most {
        match filler.advance(alloc, vars) {
            FillStep::Value(value) => return Ok(Filling::Value(value)),
            FillStep::NeedScript(number) => give_text(alloc, filler, number)?,
            FillStep::Fault(fault) => {
                return Ok(Filling::Refused(fault, Text::from_slice(alloc, filler.name())?));
            }
        }
    }
    Err(Complaint::Call)
}

fn filler_of(alloc: Global, word: &Word) -> Result<Filler, AllocError>
    ensures { IfOk result (λ f. f ≡ begun (steps_onto (word_view word.now).pieces [])) }
{
    let recipe = Rc::new(alloc, Recipe::of(alloc, word)?)?;
    Ok(Filler::new(alloc, recipe))
}

/// Returns the value of a word, given that each script in it returns its own text.
fn filled_word(alloc: Global, vars: &mut Vars, word: &Word) -> Result<Filling, Complaint>
    ensures { IfOk result (λ f. Fills f (spoken (fill (word_view word.now).pieces vars.old) vars.old)) }
{
    filling_is_fill();
    filled_by(alloc, &mut filler_of(alloc, word)?, vars)
}

/// Returns the value of the only word of a command.
fn filled_command(alloc: Global, vars: &mut Vars, command: &Command) -> Result<Filling, Complaint> {
    match command.words.as_slice() {
        [word] => filled_word(alloc, vars, word),
        _ => Err(Complaint::Call),
    }
}

/// Returns the value of a text that is a command of one word.
pub fn filled(alloc: Global, vars: &mut Vars, src: &[u8]) -> Result<Filling, Complaint> {
    match next_command(alloc, src, 0) {
        Ok(Some((command, _))) => filled_command(alloc, vars, &command),
        Ok(None) => Err(Complaint::Call),
        Err(fault) => Ok(Filling::Malformed(fault)),
    }
}

/// Appends an error, unless it is `Memory`.
pub fn push_refusal(text: &mut Text, fault: SubstFault) -> Result<(), Complaint>
    ensures { fault ≡ SubstFault.Memory → result ≡ Err Complaint.Memory }
{
    match refusal_name(fault) {
        None => Err(Complaint::Memory),
        Some(name) => Ok(text.extend(name)?),
    }
}

/// Appends a word's value, or the error and the variable that it concerns.
pub fn push_filled(text: &mut Text, filled: &Filling) -> Result<(), Complaint> {
    match filled {
        Filling::Value(value) => push_labelled(text, b"value ", value.as_slice())?,
        Filling::Malformed(fault) => match fault_name(*fault) {
            None => return Err(Complaint::Memory),
            Some(name) => text.extend(name)?,
        },
        Filling::Refused(fault, name) => {
            push_refusal(text, *fault)?;
            push_labelled(text, b" ", name.as_slice())?;
        }
    }
    Ok(())
}
