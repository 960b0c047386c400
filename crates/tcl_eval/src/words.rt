//! Substitutes words.

ghost use Rattle.std.specs.Prelude.{◌≡◌, ℕ, ◌+◌, ◌≤◌, List, [], drop, unwrap_or, IfOk};
ghost use Rattle.tcl_subst.specs.Recipes.{IsOnward, given, script_at, refused_name};
ghost use Rattle.tcl_subst.specs.Rests.{rest, told};
ghost use Rattle.tcl_results.specs.Texts.{not_read};
ghost use Rattle.tcl_eval.specs.Alone.{alone, asks_alone};
ghost use Rattle.tcl_eval.specs.Tree.{State, Tree};
ghost use Rattle.tcl_eval.specs.Meaning.{Next, Eval, eval, fill_word, fill_words, fill_parts, on_ok, on_said, spread};
ghost use Rattle.tcl_eval.specs.Native.{Comes, Known, Knows, Spent, WordIs, flow, left, leave_weight, owed, then_so};
ghost use Rattle.tcl_eval.specs.Rest.{frame_rest, onward_rest, then_rest};
ghost use Rattle.tcl_eval.specs.Potential.{then_weight};

use crate::begun::{advanced, first, waiting};
use crate::engine::Engine;
use crate::frame::{Frame, Onward, Then};
use crate::out::{Exception, Leave};
use crate::read_texts::ReadTexts;
use crate::stops::{below, onward_below};
use std::alloc::{AllocError, Global};
use std::mem;
use tcl_host::Values;
use tcl_results::{bad_list, not_read};
use tcl_scripts::{KeptWord, Script, Words};
use tcl_subst::{FillStep, Filler, SubstFault, VALUE_LIMIT, Vars};
use tcl_values::Value;
use tcl_words::ListFault;

impl Engine {
    /// Continues the substitution of a word after a filler's result.
    #[cycle(native)]
    #[inline(never)]
    pub(crate) fn fill_on(
        &mut self,
        mut filler: Filler,
        first: FillStep,
        depth: u32,
    ) -> Result<Value, Leave>
        ensures measures { Spent self.old self.new 0 (owed 0 result) }
        ensures rest { WordIs self.old result self.new (λ k go st. fill_word (eval depth) (told (first, filler)) k go st) }
    {
        let mut step = first;
        'scripts: loop {
            match step {
                FillStep::Value(value) => return Ok(value),
                FillStep::Fault(fault) => {
                    let text = unfilled(self.alloc, &filler, fault)?;
                    return Err(Leave::Gone(Exception::Error, text));
                }
                FillStep::NeedScript(number) => {
                    let script = script_of(&mut self.read, self.alloc, &filler, number)?;
                    match self.script(&script, depth) {
                        Ok(value) => {
                            step = resumed(self.alloc, value, &mut filler, &mut self.vars)?;
                        }
                        Err(leave) => {
                            return Err(onward_below(leave, Onward::Word { filler, depth }));
                        }
                    }
                }
            }
        }
    }

    /// Substitutes a word, step by step.
    #[cycle(native)]
    #[inline(never)]
    fn word(&mut self, word: &KeptWord, depth: u32) -> Result<Value, Leave>
        ensures measures { Spent self.old self.new 0 (owed 0 result) }
        ensures rest { WordIs self.old result self.new (λ k go st. fill_parts (eval depth) word.now k go st) }
    {
        if let Some(text) = word.only_script() {
            let script = self.read.script(self.alloc, text.as_slice())?;
            return self.alone_script(&script, depth);
        }
        let mut filler = first(word.filler(self.alloc)?);
        let step = advanced(self.alloc, &mut filler, &mut self.vars)?;
        self.fill_on(filler, step, depth)
    }

    /// Evaluates the script that a word is, and returns its value as that of the word. A filler is
    /// created only if the script stops.
    #[cycle(native)]
    pub(crate) fn alone_script(&mut self, script: &Script, depth: u32) -> Result<Value, Leave>
        ensures measures { Spent self.old self.new 0 (owed 0 result) }
        ensures rest { WordIs self.old result self.new (λ k go st. fill_word (eval depth) (asks_alone script.now) k go st) }
    {
        match self.script(script, depth) {
            Ok(value) => alone(self.alloc, value),
            Err(leave) => Err(self.alone_below(leave, script, depth)),
        }
    }

    /// Adds what follows the script that a word is to a stop.
    #[cold]
    fn alone_below(&mut self, leave: Leave, script: &Script, depth: u32) -> Leave
        ensures same { self.new ≡ self.old }
        ensures known { Knows result → Knows leave }
        ensures rest { Knows result → (k : Next) (go : List ℕ → State → Tree) (st : State) → left result st (on_ok go k) ≡ left leave st (on_ok (λ v st. fill_word (eval depth) (alone v) k go st) k) }
        ensures weight { leave_weight result ≤ leave_weight leave }
    {
        match leave {
            Leave::Stopped(stop) => match waiting(self.alloc, script, &mut self.vars) {
                Ok(filler) => below(stop, Frame::Onward(Onward::Word { filler, depth })),
                Err(_) => Leave::Memory,
            },
            leave => leave,
        }
    }

    /// Substitutes words from an index on, and appends their values to the finished ones.
    #[cycle(native)]
    pub(crate) fn words(
        &mut self,
        words: &Words,
        start: usize,
        done: &mut Values,
        then: Then,
        depth: u32,
    ) -> Result<(), Leave>
        ensures measures { Spent self.old self.new (then_weight then) (owed (then_weight then) result) }
        ensures rest { Comes self.old result self.new (then_so (λ k st. then_rest depth then k done.new st)) (λ k st. fill_words (eval depth) (drop start words.now) done.old k (then_rest depth then k) st) }
    {
        let mut next = start;
        'words: loop {
            let Some((word, to)) = words.next(next) else {
                return Ok(());
            };
            match self.next_word(words, word, to, done, then, depth) {
                Ok(()) => next = to,
                Err(leave) => return Err(leave),
            }
        }
    }

    /// Substitutes a word, and appends its value to the finished ones.
    #[cycle(native)]
    #[tactic(auto, unfolding(crate::specs::Rest::onward_rest))]
    fn next_word(
        &mut self,
        words: &Words,
        word: &KeptWord,
        to: usize,
        done: &mut Values,
        then: Then,
        depth: u32,
    ) -> Result<(), Leave>
        ensures measures { Spent self.old self.new (then_weight then) (owed (then_weight then) result) }
        ensures rest { Comes self.old result self.new (then_so (λ k st. fill_words (eval depth) (drop to words.now) done.new k (then_rest depth then k) st)) (λ k st. fill_parts (eval depth) word.now k (onward_rest (Onward.Fill words.now to word.now.expand done.old then depth) k) st) }
    {
        let expand = word.is_expanded();
        if let Some(value) = word.plain_value(self.alloc, &mut self.vars)? {
            return spread_onto(self.alloc, expand, value, done);
        }
        match self.word(word, depth) {
            Ok(value) => spread_onto(self.alloc, expand, value, done),
            Err(leave) => {
                Err(fill_below(self.alloc, leave, words, to, expand, done, then, depth))
            }
        }
    }
}

/// Returns the value of a word that is exactly one command substitution, given the value of the
/// script.
#[tactic(auto, unfolding(tcl_subst::specs::Faults::is_too_long))]
fn alone(alloc: Global, value: Value) -> Result<Value, Leave>
    ensures rest { Known result → (ev : Eval) (k : Next) (go : List ℕ → State → Tree) (st : State) → flow result st (on_ok go k) go ≡ fill_word ev (alone value) k go st }
    ensures weight { owed 0 result ≡ 0 }
{
    if VALUE_LIMIT < value.len() {
        let text = Value::from_text(alloc, not_read(alloc, b"", SubstFault::TooLong)?)?;
        return Err(Leave::Gone(Exception::Error, text));
    }
    Ok(value)
}

/// Adds what follows a script of a word, and the later words, to a stop.
#[cold]
#[tactic(auto, using(crate::proofs::Natives::code_passes), unfolding(crate::specs::Rest::frame_rest))]
fn fill_below(
    alloc: Global,
    leave: Leave,
    words: &Words,
    next: usize,
    expand: bool,
    done: &mut Values,
    then: Then,
    depth: u32,
) -> Leave
    ensures known { Knows result → Knows leave }
    ensures rest { Knows result → (k : Next) (st : State) → left result st k ≡ left leave st (on_ok (onward_rest (Onward.Fill words.now next expand done.old then depth) k) k) }
    ensures weight { leave_weight result ≤ then_weight then + leave_weight leave }
{
    let Leave::Stopped(stop) = leave else {
        return leave;
    };
    let Ok(words) = words.shared() else {
        return Leave::Memory;
    };
    let done = mem::replace(done, Values::new(alloc));
    let onward = Onward::Fill {
        words,
        next,
        expand,
        done,
        then,
        depth,
    };
    below(stop, Frame::Onward(onward))
}

/// Appends a word's value to the finished ones, or the elements of its list if the word stands
/// after `{*}`.
#[inline(always)]
pub(crate) fn spread_onto(
    alloc: Global,
    expand: bool,
    value: Value,
    done: &mut Values,
) -> Result<(), Leave>
    ensures rest { Known result → (k : Next) (go : List (List ℕ) → State → Tree) (st : State) → flow result st k (λ _ st. go done.new st) ≡ on_said (spread expand value done.old) k go st }
    ensures weight { (n : ℕ) → owed n result ≤ n }
    ensures none { owed 0 result ≡ 0 }
{
    if !expand {
        done.push(value)?;
        return Ok(());
    }
    match value.elements(alloc) {
        Ok(elements) => {
            done.push_all(alloc, &elements)?;
            Ok(())
        }
        Err(ListFault::BadList) => {
            let text = Value::from_slice(alloc, bad_list())?;
            Err(Leave::Gone(Exception::Error, text))
        }
        Err(ListFault::Memory) => Err(Leave::Memory),
    }
}

/// Returns the error of a failed substitution.
pub(crate) fn unfilled(
    alloc: Global,
    filler: &Filler,
    fault: SubstFault,
) -> Result<Value, AllocError>
    ensures { IfOk result (λ text. text ≡ not_read (refused_name filler.now.fault) fault) }
{
    Value::from_text(alloc, not_read(alloc, filler.name(), fault)?)
}

/// Continues a filler up to its next result, given the value of its script.
pub(crate) fn resumed(
    alloc: Global,
    value: Value,
    filler: &mut Filler,
    vars: &mut Vars,
) -> Result<FillStep, AllocError>
    ensures told { IfOk result (λ s. told (s, filler.new) ≡ rest (given value filler.old) vars.old) }
    ensures onward { IfOk result (λ s. IsOnward (given value filler.old) (s, filler.new)) }
    ensures same { vars.new ≡ vars.old }
{
    filler.give(alloc, value)?;
    let step = advanced(alloc, filler, vars)?;
    Ok(step)
}

/// Returns the script that a filler needs.
pub(crate) fn script_of(
    read: &mut ReadTexts,
    alloc: Global,
    filler: &Filler,
    number: usize,
) -> Result<Script, AllocError>
    ensures { IfOk result (λ s. s ≡ unwrap_or (script_at number filler.now.steps) []) }
{
    match filler.recipe().script(number) {
        None => read.script(alloc, &[]),
        Some(text) => read.script(alloc, text.as_slice()),
    }
}
