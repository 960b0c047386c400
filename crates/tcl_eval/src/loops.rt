//! Evaluates loops: `while`, `for` and `foreach`.

ghost use Rattle.std.specs.Prelude.{◌≡◌, ◌<◌, ◌≤◌, ℕ, List, true, Ok, Some};
ghost use Rattle.tcl_eval.specs.Tree.{State};
ghost use Rattle.tcl_eval.specs.Meaning.{Next, eval, on_ok, on_said, advanced, loop as loop_of, each, tree_of};
ghost use Rattle.tcl_eval.specs.Native.{CameIs, Comes, Known, Knows, Spent, each_begun, each_on, ended, flow, left, leave_weight, owed, turn_on};
ghost use Rattle.tcl_eval.specs.Rest.{frame_rest, looped, onward_rest, turns_left};

use crate::engine::Engine;
use crate::frame::{End, Frame, Mode, Onward, Turning};
use crate::out::{Exception, Leave, came};
use crate::stops::{below, stopped};
use tcl_control::Groups;
use tcl_scripts::Script;
use tcl_values::Value;

impl Engine {
    /// Evaluates a loop, beginning with its condition.
    #[cycle(native)]
    pub(crate) fn turns(&mut self, turning: Turning, depth: u32) -> Result<Value, Leave>
        ensures measures { Spent self.old self.new 0 (owed 0 result) }
        ensures rest { CameIs self.old result self.new (λ k st. looped depth turning k st) }
    {
        let mut now = turning;
        'turns: loop {
            if !self.turn_once(&mut now, depth)? {
                return Ok(Value::new(self.alloc));
            }
        }
    }

    /// Evaluates a turn of a loop, beginning with its condition. Returns whether another turn
    /// follows.
    #[cycle(native)]
    #[tactic(auto, unfolding(crate::specs::Rest::onward_rest))]
    fn turn_once(&mut self, turning: &mut Turning, depth: u32) -> Result<bool, Leave>
        ensures measures { Spent self.old self.new 0 (owed 0 result) }
        ensures steps { result ≡ Ok true → self.new.left < self.old.left }
        ensures rest { Comes self.old result self.new (turn_on depth turning.new) (λ k st. looped depth turning.old k st) }
    {
        let test = turning.test.shared()?;
        match self.truth(test, depth) {
            Ok(holds) => self.turn_if(holds, turning, depth),
            Err(leave) => Err(test_below(leave, turning, depth)),
        }
    }

    /// Evaluates a turn of a loop if its condition is true. Returns whether another turn follows.
    #[cycle(native)]
    #[tactic(auto, unfolding(crate::specs::Rest::frame_rest))]
    pub(crate) fn turn_if(
        &mut self,
        holds: bool,
        turning: &mut Turning,
        depth: u32,
    ) -> Result<bool, Leave>
        ensures measures { Spent self.old self.new 0 (owed 0 result) }
        ensures steps { result ≡ Ok true → self.new.left < self.old.left }
        ensures rest { Comes self.old result self.new (turn_on depth turning.new) (λ k st. turns_left depth turning.old k holds st) }
    {
        if !holds {
            return Ok(false);
        }
        if !self.begin() {
            return Err(stopped(self.alloc, Mode::Ended(End::StepLimit)));
        }
        if turning.bound == 0 {
            return Err(stopped(self.alloc, Mode::Ended(End::StepLimit)));
        }
        turning.bound -= 1;
        self.turn_body(turning, depth)
    }

    /// Evaluates the body of a turn and the script after it.
    #[cycle(native)]
    #[tactic(auto, unfolding(crate::specs::Rest::frame_rest))]
    fn turn_body(&mut self, turning: &Turning, depth: u32) -> Result<bool, Leave>
        ensures measures { Spent self.old self.new 0 (owed 0 result) }
        ensures rest { Comes self.old result self.new (turn_on depth turning.now) (λ k st. eval depth turning.now.body (frame_rest (Frame.Turn turning.now depth) k) st) }
    {
        let out = self.script(&turning.body, depth);
        self.turn_end(out, turning, depth)
    }

    /// Continues after the body of a turn. Returns whether another turn follows.
    #[cycle(native)]
    #[tactic(auto, unfolding(crate::specs::Rest::frame_rest))]
    pub(crate) fn turn_end(
        &mut self,
        out: Result<Value, Leave>,
        turning: &Turning,
        depth: u32,
    ) -> Result<bool, Leave>
        ensures measures { Spent self.old self.new (owed 0 out) (owed 0 result) }
        ensures known { Known result → Known out }
        ensures rest { Comes self.old result self.new (turn_on depth turning.now) (λ k st. ended out st (frame_rest (Frame.Turn turning.now depth) k)) }
    {
        match out {
            Ok(_) | Err(Leave::Gone(Exception::Continue, _)) => self.turn_next(turning, depth),
            Err(Leave::Gone(Exception::Break, _)) => Ok(false),
            Err(Leave::Stopped(stop)) => {
                let turning = turning.shared()?;
                Err(below(stop, Frame::Turn { turning, depth }))
            }
            Err(leave) => Err(leave),
        }
    }

    /// Evaluates the script after a turn, if there is one.
    #[cycle(native)]
    #[tactic(auto, unfolding(crate::specs::Rest::onward_rest))]
    fn turn_next(&mut self, turning: &Turning, depth: u32) -> Result<bool, Leave>
        ensures measures { Spent self.old self.new 0 (owed 0 result) }
        ensures rest { Comes self.old result self.new (turn_on depth turning.now) (λ k st. advanced (eval depth) turning.now.next k (λ st. looped depth turning.now k st) st) }
    {
        let Some(next) = &turning.next else {
            return Ok(true);
        };
        match self.script(next, depth) {
            Ok(_) => Ok(true),
            Err(leave) => Err(next_below(leave, turning, depth)),
        }
    }

    /// Evaluates the loop of a `for` after its start.
    #[cycle(native)]
    pub(crate) fn started(
        &mut self,
        test: &Value,
        next: &Value,
        body: &Value,
        depth: u32,
    ) -> Result<Value, Leave>
        ensures measures { Spent self.old self.new 0 (owed 0 result) }
        ensures rest { CameIs self.old result self.new (λ k st. on_said (tree_of test.now) k (λ t st. loop_of (eval depth) t body.now (Some next.now) k st) st) }
    {
        let test = self.test(test)?;
        let body = self.read.script_of(self.alloc, body)?;
        let next = self.read.script_of(self.alloc, next)?;
        let turning = Turning {
            test,
            body,
            next: Some(next),
            bound: self.left,
        };
        self.turns(turning, depth)
    }

    /// Evaluates the turns of `foreach` that are left.
    #[cycle(native)]
    pub(crate) fn each_turns(
        &mut self,
        groups: Groups,
        body: &Script,
        depth: u32,
    ) -> Result<Value, Leave>
        ensures measures { Spent self.old self.new 0 (owed 0 result) }
        ensures rest { CameIs self.old result self.new (λ k st. each (eval depth) groups.names groups.left body.now k st) }
    {
        let mut left = groups;
        'turns: loop {
            if !self.each_begin(&mut left)? {
                return Ok(Value::new(self.alloc));
            }
            let out = self.script(body, depth);
            let Some(more) = each_end(out, left, body, depth)? else {
                return Ok(Value::new(self.alloc));
            };
            left = more;
        }
    }

    /// Begins a turn of `foreach` if one is left: sets its variables to their elements. Returns
    /// whether one was left.
    #[tactic(auto, unfolding(crate::specs::Rest::frame_rest))]
    fn each_begin(&mut self, groups: &mut Groups) -> Result<bool, Leave>
        ensures measures { Spent self.old self.new 0 (owed 0 result) }
        ensures steps { result ≡ Ok true → self.new.left < self.old.left }
        ensures rest { (depth : ℕ) (body : List ℕ) → Comes self.old result self.new (each_begun depth body groups.new) (λ k st. each (eval depth) groups.old.names groups.old.left body k st) }
    {
        if groups.is_done() {
            return Ok(false);
        }
        if !self.begin() {
            return Err(stopped(self.alloc, Mode::Ended(End::StepLimit)));
        }
        let (code, value) = groups.assign(self.alloc, &mut self.vars)?;
        came(code, value)?;
        Ok(true)
    }
}

/// Continues after the body of a turn of `foreach`. Returns the turns that follow.
#[tactic(auto, unfolding(crate::specs::Rest::frame_rest))]
pub(crate) fn each_end(
    out: Result<Value, Leave>,
    groups: Groups,
    body: &Script,
    depth: u32,
) -> Result<Option<Groups>, Leave>
    ensures known { Known result → Known out }
    ensures rest { Known result → (k : Next) (st : State) → flow result st k (each_on depth body.now k) ≡ ended out st (frame_rest (Frame.Each groups body.now depth) k) }
    ensures weight { owed 0 result ≤ owed 0 out }
{
    match out {
        Ok(_) | Err(Leave::Gone(Exception::Continue, _)) => Ok(Some(groups)),
        Err(Leave::Gone(Exception::Break, _)) => Ok(None),
        Err(Leave::Stopped(stop)) => {
            let body = body.shared()?;
            let frame = Frame::Each {
                groups,
                body,
                depth,
            };
            Err(below(stop, frame))
        }
        Err(leave) => Err(leave),
    }
}

/// Adds what follows a script in a loop's condition to a stop.
#[cold]
#[tactic(auto, using(crate::proofs::Natives::code_passes), unfolding(crate::specs::Rest::frame_rest))]
fn test_below(leave: Leave, turning: &Turning, depth: u32) -> Leave
    ensures known { Knows result → Knows leave }
    ensures rest { Knows result → (k : Next) (st : State) → left result st k ≡ left leave st (on_ok (onward_rest (Onward.Test turning.now depth) k) k) }
    ensures weight { leave_weight result ≤ leave_weight leave }
{
    match leave {
        Leave::Stopped(stop) => match turning.shared() {
            Ok(turning) => below(stop, Frame::Onward(Onward::Test { turning, depth })),
            Err(_) => Leave::Memory,
        },
        leave => leave,
    }
}

/// Adds what follows the script after a turn to a stop.
#[cold]
#[tactic(auto, using(crate::proofs::Natives::code_passes), unfolding(crate::specs::Rest::frame_rest))]
fn next_below(leave: Leave, turning: &Turning, depth: u32) -> Leave
    ensures known { Knows result → Knows leave }
    ensures rest { Knows result → (k : Next) (st : State) → left result st k ≡ left leave st (on_ok (onward_rest (Onward.Next turning.now depth) k) k) }
    ensures weight { leave_weight result ≤ leave_weight leave }
{
    match leave {
        Leave::Stopped(stop) => match turning.shared() {
            Ok(turning) => below(stop, Frame::Onward(Onward::Next { turning, depth })),
            Err(_) => Leave::Memory,
        },
        leave => leave,
    }
}
