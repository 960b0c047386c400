//! A word as a list of steps.

ghost use Rattle.std.specs.Prelude.{◌≡◌, ◌++◌, [], IfOk, IfSome, IsTrue, OnOk};
ghost use Rattle.std.specs.List.{list_any};
ghost use Rattle.std.specs.Option.{option_copied};
ghost use Rattle.tcl_words.specs.Pieces.{Pieces, script, no_pieces, piece, part_view, parts_view, word_view};
ghost use Rattle.tcl_subst.specs.Filling.{Fill, fill, Full};
ghost use Rattle.tcl_subst.specs.Variables.{Variables};
ghost use Rattle.tcl_subst.specs.Plain.{is_plain, TellsValue};
ghost use Rattle.tcl_subst.specs.Recipes.{piece_onto, steps_onto, script_at, is_script, nothing};
ghost use Rattle.tcl_subst.specs.Rests.{rest_of_step, rest_of_steps};

use crate::joined::{Joined, Refusal};
use crate::plain::{literal_value, variable_value};
use crate::vars::Vars;
use std::alloc::{AllocError, Global};
use tcl_values::Value;
use tcl_words::{ListFault, Part, Text, Word};

/// The least length, in bytes, of a literal that is parsed as a list together with its word. For a
/// shorter literal, the list is found again by comparing these few bytes. That is cheap, while
/// keeping the elements of every short literal would waste memory.
const LONG: usize = 256;

/// A step of the substitution of a word.
#[derive(Drop)]
pub enum Step {
    /// Bytes that stand for themselves.
    Text(Value),
    /// A variable, given by its name.
    Variable(Text),
    /// A script, given by its text.
    Script(Text),
    /// The start of an array's index.
    Open,
    /// The end of an array's index, with the array's name.
    Close(Text),
}

impl Step {
    /// Returns whether the step is a script.
    pub fn is_script(&self) -> bool
        ensures { result ≡ is_script self.now }
    {
        match self {
            Step::Text(_) => false,
            Step::Variable(_) => false,
            Step::Script(_) => true,
            Step::Open => false,
            Step::Close(_) => false,
        }
    }
}

/// The steps of the substitution of a word. They are computed once per word.
#[derive(Drop)]
pub struct Recipe {
    /// The steps, in order.
    pub steps: Vec<Step>,
}

impl Recipe {
    /// Returns the steps of a word.
    pub fn of(alloc: Global, word: &Word) -> Result<Recipe, AllocError>
        ensures { IfOk result (λ r. r.steps.items ≡ steps_onto (word_view word.now).pieces []) }
    {
        recipe_of(alloc, word, false)
    }

    /// Returns the steps of a word whose literal is also parsed as a list. A long literal then has
    /// its elements available at each use.
    pub fn of_list(alloc: Global, word: &Word) -> Result<Recipe, AllocError>
        ensures { IfOk result (λ r. r.steps.items ≡ steps_onto (word_view word.now).pieces []) }
    {
        recipe_of(alloc, word, true)
    }

    /// Returns the value of a word without a script. `None` if there is a script, and if the
    /// substitution fails.
    pub fn plain_value(&self, alloc: Global, vars: &mut Vars) -> Result<Option<Value>, AllocError>
        ensures value { (ps : Pieces) → self.now.steps.items ≡ steps_onto ps [] → IfOk result (λ o. TellsValue o (is_plain ps) (fill ps vars.old)) }
        ensures same { vars.new ≡ vars.old }
    {
        let steps = self.steps.as_slice();
        if steps.len() != 1 {
            return joined_value(alloc, steps, vars);
        }
        let step = &steps[0];
        match step {
            Step::Text(text) => Ok(literal_value(text.shared(alloc)?)),
            Step::Variable(name) => variable_value(name.as_slice(), vars),
            Step::Script(_) => Ok(None),
            Step::Open => Ok(None),
            Step::Close(_) => Ok(None),
        }
    }

    /// Returns the value of a word that is one literal. `None` for other words, and if the literal
    /// is too long.
    pub fn literal(&self, alloc: Global) -> Result<Option<Value>, AllocError>
        ensures { (ps : Pieces) → self.now.steps.items ≡ steps_onto ps [] → IfOk result (λ o. IfSome o (λ value. (vars : Variables) → fill ps vars ≡ Full value)) }
    {
        let [step] = self.steps.as_slice() else {
            return Ok(None);
        };
        match step {
            Step::Text(text) => Ok(literal_value(text.shared(alloc)?)),
            Step::Variable(_) => Ok(None),
            Step::Script(_) => Ok(None),
            Step::Open => Ok(None),
            Step::Close(_) => Ok(None),
        }
    }

    /// Returns the script of a word that is exactly one command substitution. `None` for other
    /// words.
    pub fn only_script(&self) -> Option<&Text>
        ensures { (ps : Pieces) → self.now.steps.items ≡ steps_onto ps [] → IfSome result (λ text. (vars : Variables) → fill ps vars ≡ fill (piece (script text.now) no_pieces) vars) }
    {
        let [step] = self.steps.as_slice() else {
            return None;
        };
        match step {
            Step::Text(_) => None,
            Step::Variable(_) => None,
            Step::Script(text) => Some(text),
            Step::Open => None,
            Step::Close(_) => None,
        }
    }

    /// Returns the text of the script at a step. `None` for other steps.
    pub fn script(&self, number: usize) -> Option<&Text>
        ensures { option_copied result ≡ script_at number self.now.steps.items }
    {
        match self.steps.get(number) {
            None => None,
            Some(Step::Text(_)) => None,
            Some(Step::Variable(_)) => None,
            Some(Step::Script(text)) => Some(text),
            Some(Step::Open) => None,
            Some(Step::Close(_)) => None,
        }
    }
}

/// Returns the value of a word with these steps, joined part by part. `None` if one of them is a
/// script, and if the substitution fails.
fn joined_value(alloc: Global, steps: &[Step], vars: &mut Vars) -> Result<Option<Value>, AllocError>
    ensures value { IfOk result (λ o. IfSome o (λ value. rest_of_steps steps.now nothing vars.old ≡ Full value)) }
    ensures same { vars.new ≡ vars.old }
{
    if has_script(steps) {
        return Ok(None);
    }
    let mut joined = Joined::new(alloc);
    for step in steps {
        if !joins(&mut joined, alloc, step, vars)? {
            return Ok(None);
        }
    }
    let Joined { current, outer: _ } = joined;
    Ok(Some(current))
}

/// Returns whether one of the steps is a script.
fn has_script(steps: &[Step]) -> bool
    ensures { result ≡ list_any is_script steps.now }
{
    for step in steps {
        if step.is_script() {
            return true;
        }
    }
    false
}

/// Runs a step if it is no script and succeeds. Returns whether it did.
fn joins(
    joined: &mut Joined,
    alloc: Global,
    step: &Step,
    vars: &mut Vars,
) -> Result<bool, AllocError>
    ensures taken { IfOk result (λ b. IsTrue b → (k : Joined → Variables → Fill) → rest_of_step step.now joined.old k vars.old ≡ k joined.new vars.old) }
    ensures same { vars.new ≡ vars.old }
{
    if step.is_script() {
        return Ok(false);
    }
    match joined.take(alloc, step, vars) {
        Ok(()) => Ok(true),
        Err(Refusal::Memory) => Err(AllocError),
        Err(Refusal::TooLong) => Ok(false),
        Err(Refusal::Unread(_, _)) => Ok(false),
    }
}

/// Returns the steps of a word. `as_list` affects only the running time.
fn recipe_of(alloc: Global, word: &Word, as_list: bool) -> Result<Recipe, AllocError>
    ensures { IfOk result (λ r. r.steps.items ≡ steps_onto (word_view word.now).pieces []) }
{
    let mut steps = Vec::new(alloc);
    push_parts(&mut steps, alloc, word.parts.as_slice(), as_list)?;
    Ok(Recipe { steps })
}

/// Returns the value of a literal. It is also parsed as a list if `as_list` is true.
fn literal(alloc: Global, text: &[u8], as_list: bool) -> Result<Value, AllocError>
    ensures { IfOk result (λ v. v ≡ text.now) }
{
    if as_list {
        return listed_literal(alloc, text);
    }
    Value::from_slice(alloc, text)
}

/// Returns the value of a literal that is used as a list. A long literal that is a list keeps its
/// elements.
fn listed_literal(alloc: Global, text: &[u8]) -> Result<Value, AllocError>
    ensures { IfOk result (λ v. v ≡ text.now) }
{
    let mut value = Value::from_slice(alloc, text)?;
    if text.len() < LONG {
        return Ok(value);
    }
    match value.listed(alloc) {
        Ok(()) => Ok(value),
        Err(ListFault::BadList) => Ok(value),
        Err(ListFault::Memory) => Err(AllocError),
    }
}

/// Appends the steps of a part. A literal in an array's index is not parsed as a list.
#[cycle(push)]
fn push_part(
    steps: &mut Vec<Step>,
    alloc: Global,
    part: &Part,
    as_list: bool,
) -> Result<(), AllocError>
    ensures { OnOk result (steps.new.items ≡ steps.old.items ++ piece_onto (part_view part.now) []) }
{
    match part {
        Part::Lit(text) => steps.push(Step::Text(literal(alloc, text.as_slice(), as_list)?))?,
        Part::Var(name, index) => match index {
            None => steps.push(Step::Variable(name.copied(alloc)?))?,
            Some(index) => {
                steps.push(Step::Open)?;
                push_parts(steps, alloc, index.as_slice(), false)?;
                steps.push(Step::Close(name.copied(alloc)?))?;
            }
        },
        Part::Script(text) => steps.push(Step::Script(text.copied(alloc)?))?,
    }
    Ok(())
}

/// Appends the steps of parts, in order.
#[cycle(push)]
fn push_parts(
    steps: &mut Vec<Step>,
    alloc: Global,
    parts: &[Part],
    as_list: bool,
) -> Result<(), AllocError>
    ensures { OnOk result (steps.new.items ≡ steps.old.items ++ steps_onto (parts_view parts.now) []) }
{
    for part in parts {
        push_part(steps, alloc, part, as_list)?;
    }
    Ok(())
}
