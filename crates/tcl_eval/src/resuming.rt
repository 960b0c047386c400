//! Passes the outcome of a script or a command to the frames above it.

ghost use Rattle.std.specs.Prelude.{◌≡◌, ◌+◌, ◌≤◌, ◌*◌, [], drop, IfOk};
ghost use Rattle.tcl_eval.specs.Asked.{IsSettled};
ghost use Rattle.tcl_eval.specs.Meaning.{Next, eval, fill_words};
ghost use Rattle.tcl_eval.specs.Native.{ended, left, leave_weight, owed, CameIs, Known, Knows, Spent};
ghost use Rattle.tcl_eval.specs.Rest.{frame_rest, frames_rest, now_of, onward_rest, rest_of, then_rest};
ghost use Rattle.tcl_eval.specs.Potential.{bodies, frame_weight, onward_weight, potential, then_weight};
ghost use Rattle.tcl_eval.specs.Tree.{State};

use crate::engine::Engine;
use crate::evaluation::Evaluation;
use crate::exprs::truth_of;
use crate::frame::{Call, End, Frame, Mode, Onward, Then, Turning};
use crate::loops::each_end;
use crate::out::{Exception, Leave, came};
use crate::stops::{below, onward_below, stopped};
use crate::values::Handed;
use crate::words::{resumed, spread_onto};
use std::alloc::{AllocError, Global};
use tcl_host::Values;
use tcl_results::{Code, word_fault};
use tcl_scripts::Words;
use tcl_subst::Filler;
use tcl_values::Value;

impl Engine {
    /// Passes the outcome of a script or a command to the frames, one after another, until the run
    /// stops.
    pub(crate) fn settle_by(&mut self, out: Result<Value, Leave>) -> Result<Mode, AllocError>
        ensures rest { IfOk result (λ mode. Known out × (rest_of self.new mode ≡ ended out (now_of self.old) (frames_rest self.old.stack))) }
        ensures potential { IfOk result (λ mode. potential self.new mode ≤ 8 * self.old.left + bodies self.old.stack + owed 0 out) }
        ensures settled { IfOk result IsSettled }
        ensures less { self.new.left ≤ self.old.left }
    {
        let mut now = out;
        'frames: loop {
            let (code, value) = match now {
                Ok(value) => (Code::Ok, value),
                Err(Leave::Gone(exception, value)) => (exception.code(), value),
                Err(Leave::Stopped(stop)) => return self.lay(stop),
                Err(Leave::Memory) => return Err(AllocError),
            };
            let Some(frame) = self.stack.pop() else {
                return Ok(Mode::Ended(End::Finished(code, value)));
            };
            now = self.resume(frame, came(code, value));
        }
    }

    /// Passes the outcome of a script or a command to a frame. Returns the frame's outcome.
    pub(crate) fn resume(&mut self, frame: Frame, out: Result<Value, Leave>) -> Result<Value, Leave>
        ensures measures { Spent self.old self.new (frame_weight frame + owed 0 out) (owed 0 result) }
        ensures known { Known result → Known out }
        ensures rest { CameIs self.old result self.new (λ k st. ended out st (frame_rest frame k)) }
    {
        match frame {
            Frame::Sequence {
                script,
                at,
                next,
                depth,
            } => {
                let value = self.behind_command(out, &script, at, next, depth)?;
                self.sequence(&script, next, depth, value)
            }
            Frame::Onward(onward) => self.resume_onward(onward, out),
            Frame::Catch { name } => self.caught_as(name, out),
            Frame::Turn { turning, depth } => {
                if self.turn_end(out, &turning, depth)? {
                    return self.turns(turning, depth);
                }
                Ok(Value::new(self.alloc))
            }
            Frame::Each {
                groups,
                body,
                depth,
            } => match each_end(out, groups, &body, depth)? {
                Some(groups) => self.each_turns(groups, &body, depth),
                None => Ok(Value::new(self.alloc)),
            },
            Frame::Scope { words } => self.leave_scope(words, out),
            Frame::HostBody { bound, depth } => Err(told_host(self.alloc, out, bound, depth)),
        }
    }

    /// Continues with the value of an outcome. Passes on the reason why there is none.
    #[tactic(auto, unfolding(crate::specs::Rest::frame_rest))]
    fn resume_onward(&mut self, onward: Onward, out: Result<Value, Leave>) -> Result<Value, Leave>
        ensures measures { Spent self.old self.new (onward_weight onward + owed 0 out) (owed 0 result) }
        ensures known { Known result → Known out }
        ensures rest { CameIs self.old result self.new (λ k st. ended out st (frame_rest (Frame.Onward onward) k)) }
    {
        match out {
            Ok(value) => self.onward_with(onward, value),
            Err(leave) => Err(onward_below(leave, onward)),
        }
    }

    /// Continues after the code `Ok`, with its value.
    #[tactic(auto, unfolding(crate::specs::Rest::onward_rest))]
    fn onward_with(&mut self, onward: Onward, value: Value) -> Result<Value, Leave>
        ensures measures { Spent self.old self.new (onward_weight onward) (owed 0 result) }
        ensures rest { CameIs self.old result self.new (λ k st. onward_rest onward k value st) }
    {
        match onward {
            Onward::Word { filler, depth } => self.word_with(filler, value, depth),
            Onward::Fill {
                words,
                next,
                expand,
                done,
                then: to,
                depth,
            } => self.words_with(&words, next, expand, value, done, to, depth),
            Onward::Operand { evaluation, depth } => { self.operand_with(evaluation, value, depth) }
            Onward::Test { turning, depth } => self.test_with(turning, &value, depth),
            Onward::Arm { body, arms, depth } => {
                if truth_of(self.alloc, &value)? {
                    return self.text(&body, depth);
                }
                self.choose(arms, depth)
            }
            Onward::Next { turning, depth } => self.turns(turning, depth),
            Onward::Start {
                test,
                next,
                body,
                depth,
            } => self.started(&test, &next, &body, depth),
        }
    }

    /// Continues the substitution of a word, given the value of its script.
    #[tactic(auto, unfolding(crate::specs::Rest::onward_rest))]
    fn word_with(&mut self, mut filler: Filler, value: Value, depth: u32) -> Result<Value, Leave>
        ensures measures { Spent self.old self.new 0 (owed 0 result) }
        ensures rest { CameIs self.old result self.new (λ k st. onward_rest (Onward.Word filler depth) k value st) }
    {
        let step = resumed(self.alloc, value, &mut filler, &mut self.vars)?;
        self.fill_on(filler, step, depth)
    }

    /// Continues the substitution of words, given the value of the current one, and then continues
    /// after them.
    #[tactic(auto, unfolding(crate::specs::Rest::onward_rest))]
    fn words_with(
        &mut self,
        words: &Words,
        next: usize,
        expand: bool,
        value: Value,
        mut done: Values,
        to: Then,
        depth: u32,
    ) -> Result<Value, Leave>
        ensures measures { Spent self.old self.new (then_weight to) (owed 0 result) }
        ensures rest { CameIs self.old result self.new (λ k st. onward_rest (Onward.Fill words.now next expand done to depth) k value st) }
    {
        spread_onto(self.alloc, expand, value, &mut done)?;
        self.words_from(words, next, done, to, depth)
    }

    /// Substitutes words from an index on, and continues after them.
    pub(crate) fn words_from(
        &mut self,
        words: &Words,
        start: usize,
        mut done: Values,
        to: Then,
        depth: u32,
    ) -> Result<Value, Leave>
        ensures measures { Spent self.old self.new (then_weight to) (owed 0 result) }
        ensures rest { CameIs self.old result self.new (λ k st. fill_words (eval depth) (drop start words.now) done k (then_rest depth to k) st) }
    {
        self.words(words, start, &mut done, to, depth)?;
        self.words_done(done, to, depth)
    }

    /// Continues after the substitution of words.
    fn words_done(&mut self, done: Values, to: Then, depth: u32) -> Result<Value, Leave>
        ensures measures { Spent self.old self.new (then_weight to) (owed 0 result) }
        ensures rest { CameIs self.old result self.new (λ k st. then_rest depth to k done st) }
    {
        match to {
            Then::Command => self.begun(Handed::Own(done), depth),
            Then::List(Some(fault)) => {
                let text = self.value(word_fault(fault))?;
                Err(Leave::Gone(Exception::Error, text))
            }
            Then::List(None) => {
                let at = Mode::Call {
                    call: Call::AfterWords(done),
                    depth,
                    resumed: false,
                };
                Err(stopped(self.alloc, at))
            }
        }
    }

    /// Continues the evaluation of an expression, given the value of an operand.
    #[tactic(auto, unfolding(crate::specs::Rest::onward_rest))]
    fn operand_with(
        &mut self,
        mut evaluation: Evaluation,
        value: Value,
        depth: u32,
    ) -> Result<Value, Leave>
        ensures measures { Spent self.old self.new 0 (owed 0 result) }
        ensures rest { CameIs self.old result self.new (λ k st. onward_rest (Onward.Operand evaluation depth) k value st) }
    {
        evaluation.give(value)?;
        self.worth(evaluation, depth)
    }

    /// Evaluates the turns of a loop that are left, given the value of its condition.
    #[tactic(auto, unfolding(crate::specs::Rest::onward_rest))]
    fn test_with(&mut self, mut turning: Turning, value: &Value, depth: u32) -> Result<Value, Leave>
        ensures measures { Spent self.old self.new 0 (owed 0 result) }
        ensures rest { CameIs self.old result self.new (λ k st. onward_rest (Onward.Test turning depth) k value.now st) }
    {
        let holds = truth_of(self.alloc, value)?;
        if self.turn_if(holds, &mut turning, depth)? {
            return self.turns(turning, depth);
        }
        Ok(Value::new(self.alloc))
    }
}

/// Stops the run to pass the outcome of a script to the host. `bound` is the number of further
/// scripts that the host may ask for.
#[tactic(auto, unfolding(crate::specs::Rest::frame_rest))]
fn told_host(alloc: Global, out: Result<Value, Leave>, bound: u64, depth: u32) -> Leave
    ensures known { Knows result → Known out }
    ensures rest { Knows result → (k : Next) (st : State) → left result st k ≡ ended out st (frame_rest (Frame.HostBody bound depth) k) }
    ensures weight { leave_weight result ≤ 3 + owed 0 out }
{
    let (code, value) = match out {
        Ok(value) => (Code::Ok, value),
        Err(Leave::Gone(exception, value)) => (exception.code(), value),
        Err(Leave::Stopped(stop)) => return below(stop, Frame::HostBody { bound, depth }),
        Err(Leave::Memory) => return Leave::Memory,
    };
    let at = Mode::Call {
        call: Call::AfterBody { code, value, bound },
        depth,
        resumed: false,
    };
    stopped(alloc, at)
}
