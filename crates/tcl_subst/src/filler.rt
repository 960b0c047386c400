//! The substitution of a word.

ghost use Rattle.std.specs.Prelude.{◌≡◌, ◌≢◌, false, option_map, Some, None, IfOk, IfSome, OnOk, OnErr};
ghost use Rattle.tcl_subst.specs.Recipes.{Steps, Runs, is_fault, begun, filling, failed, fault_of, given, nothing, refused_name};

use crate::faults::SubstFault;
use crate::fill_step::FillStep;
use crate::joined::{Joined, Refusal};
use crate::recipe::Recipe;
use crate::vars::Vars;
use std::alloc::{AllocError, Global};
use std::marker::Model;
use std::mem;
use std::rc::Rc;
use tcl_values::Value;

/// Substitutes a word: joins the values of its parts in order, and asks for the value of each
/// script when it is reached.
#[derive(Drop)]
pub struct Filler {
    recipe: Rc<Recipe>,
    /// The number of steps taken.
    at: usize,
    joined: Joined,
    /// The error that ended the substitution, if there is one.
    fault: Option<Refusal>,
}

impl Model for Filler {
    ghost use Rattle.tcl_subst.specs.Recipes.{Filling};

    ghost Value = { Filling };

    ghost view = { λ f. record { steps = f.recipe.value.steps.items; at = f.at; joined = f.joined; fault = f.fault } };
}

impl Filler {
    /// Creates a filler at the first step, without allocating.
    pub fn new(alloc: Global, recipe: Rc<Recipe>) -> Filler
        ensures { result ≡ begun recipe.value.steps.items }
    {
        Filler {
            recipe,
            at: 0,
            joined: Joined::new(alloc),
            fault: None,
        }
    }

    /// Returns the steps of the word.
    pub fn recipe(&self) -> &Rc<Recipe>
        ensures { result.now.value.steps.items ≡ self.now.steps }
    {
        &self.recipe
    }

    /// Returns the name of the variable that caused the last error; for an element `array(index)`.
    /// Empty if no variable did.
    pub fn name(&self) -> &[u8]
        ensures { result.now ≡ refused_name self.now.fault }
    {
        match &self.fault {
            None => &[],
            Some(refusal) => refusal.name(),
        }
    }

    /// Continues to the next script, the value, or an error. After an error it returns the same
    /// error again.
    #[tactic(auto, unfolding(crate::specs::Recipes::filling))]
    pub fn advance(&mut self, alloc: Global, vars: &mut Vars) -> FillStep
        ensures told { result ≢ FillStep.Fault SubstFault.Memory → (result, self.new) ≡ filling self.old vars.old }
        ensures vars { vars.new ≡ vars.old }
        ensures again { (r : Refusal) → self.old.fault ≡ Some r → result ≡ FillStep.Fault (fault_of r) }
        ensures same { (r : Refusal) → self.old.fault ≡ Some r → self.new ≡ self.old }
        ensures stays { (f : SubstFault) → result ≡ FillStep.Fault f → option_map fault_of self.new.fault ≡ Some f }
    {
        if let Some(refusal) = &self.fault {
            return FillStep::Fault(refusal.fault());
        }
        match self.run(alloc, vars) {
            Ok(step) => step,
            Err(refusal) => self.fail(alloc, refusal),
        }
    }

    /// Appends the value of the script that was asked for. On `AllocError` the state is unchanged,
    /// so the value can be given again.
    pub fn give(&mut self, alloc: Global, value: Value) -> Result<(), AllocError>
        ensures given { OnOk result (self.new ≡ given value self.old) }
        ensures kept { OnErr result (self.new ≡ self.old) }
    {
        if self.fault.is_some() {
            return Ok(());
        }
        match self.joined.join(alloc, value) {
            Ok(()) => Ok(()),
            Err(Refusal::Memory) => Err(AllocError),
            Err(refusal) => {
                self.fail(alloc, refusal);
                Ok(())
            }
        }
    }

    fn fail(&mut self, alloc: Global, refusal: Refusal) -> FillStep
        ensures { (result, self.new) ≡ failed self.old.steps self.old.at refusal }
    {
        let fault = refusal.fault();
        self.joined = Joined::new(alloc);
        self.fault = Some(refusal);
        FillStep::Fault(fault)
    }

    /// Runs steps up to a result.
    fn run(&mut self, alloc: Global, vars: &mut Vars) -> Result<FillStep, Refusal>
        requires { self.old.fault ≡ None }
        ensures ran { Runs result self.old self.new vars.old }
        ensures same { vars.new ≡ vars.old }
        ensures going { IfOk result (λ s. is_fault s ≡ false) }
    {
        'steps: loop {
            if let Some(step) = self.step(alloc, vars)? {
                return Ok(step);
            }
        }
    }

    /// Runs one step. Returns a result if the step or the end of the steps gives one.
    fn step(&mut self, alloc: Global, vars: &mut Vars) -> Result<Option<FillStep>, Refusal>
        requires { self.old.fault ≡ None }
        ensures ran { Steps result self.old self.new vars.old }
        ensures same { vars.new ≡ vars.old }
        ensures going { IfOk result (λ o. IfSome o (λ s. is_fault s ≡ false)) }
    {
        let at = self.at;
        let Some(step) = self.recipe.steps.get(at) else {
            return Ok(Some(FillStep::Value(self.finish(alloc))));
        };
        if step.is_script() {
            self.at = at + 1;
            return Ok(Some(FillStep::NeedScript(at)));
        }
        self.joined.take(alloc, step, vars)?;
        self.at = at + 1;
        Ok(None)
    }

    /// Returns the value of the word.
    fn finish(&mut self, alloc: Global) -> Value
        ensures value { result ≡ self.old.joined.current }
        ensures left { self.new ≡ record self.old { joined = nothing } }
    {
        let Joined { current, outer: _ } = mem::replace(&mut self.joined, Joined::new(alloc));
        current
    }
}
