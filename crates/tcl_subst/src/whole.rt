//! The substitution of a whole word at once.

ghost use Rattle.std.specs.Prelude.{◌≡◌, ◌≢◌, [], IfOk};
ghost use Rattle.tcl_words.specs.Pieces.{word_view};
ghost use Rattle.tcl_subst.specs.Filled.{filled};
ghost use Rattle.tcl_subst.specs.Filling.{fill};
ghost use Rattle.tcl_subst.specs.Recipes.{begun, steps_onto};
ghost use Rattle.tcl_subst.specs.Rests.{told};

use crate::faults::SubstFault;
use crate::fill_step::FillStep;
use crate::filler::Filler;
use crate::recipe::Recipe;
use crate::vars::Vars;
use std::alloc::{AllocError, Global};
use std::rc::Rc;
use tcl_values::Value;
use tcl_words::{Text, Word};

/// The result of a substitution that evaluates no script.
#[derive(Drop)]
pub enum Filled {
    /// The value.
    Value(Value),
    /// A variable with this name can't be read, or the value would be too long. The name is then
    /// empty.
    Fault(SubstFault, Text),
    /// The value of a script is needed.
    Script,
}

/// Substitutes a word up to its first script. A refusal of memory is an `AllocError`.
#[tactic(auto, using(crate::proofs::Begun::begun_told))]
pub fn fill_word(alloc: Global, word: &Word, vars: &mut Vars) -> Result<Filled, AllocError>
    ensures value { IfOk result (λ r. r ≡ filled (fill (word_view word.now).pieces vars.old)) }
    ensures same { vars.new ≡ vars.old }
{
    let mut filler = filler_of(alloc, word)?;
    let step = filler.advance(alloc, vars);
    let filled = told(alloc, step, &filler)?;
    Ok(filled)
}

/// Returns a filler at the first step of a word.
fn filler_of(alloc: Global, word: &Word) -> Result<Filler, AllocError>
    ensures { IfOk result (λ f. f ≡ begun (steps_onto (word_view word.now).pieces [])) }
{
    let recipe = Recipe::of(alloc, word)?;
    let filler = Filler::new(alloc, Rc::new(alloc, recipe)?);
    Ok(filler)
}

/// Returns the result that a filler gave.
#[tactic(auto, using(crate::proofs::Begun::failure_is))]
fn told(alloc: Global, step: FillStep, filler: &Filler) -> Result<Filled, AllocError>
    ensures value { IfOk result (λ r. r ≡ filled (told (step, filler.now))) }
    ensures memory { IfOk result (λ _. step ≢ FillStep.Fault SubstFault.Memory) }
{
    match step {
        FillStep::Value(value) => Ok(Filled::Value(value)),
        FillStep::NeedScript(_) => Ok(Filled::Script),
        FillStep::Fault(SubstFault::Memory) => Err(AllocError),
        FillStep::Fault(fault) => {
            let name = Text::from_slice(alloc, filler.name())?;
            Ok(Filled::Fault(fault, name))
        }
    }
}
