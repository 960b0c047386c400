//! Stops a run and saves its frames.

ghost use Rattle.std.specs.Prelude.{◌≡◌, ◌+◌, ◌≤◌, IfOk, OnOk};
ghost use Rattle.tcl_eval.specs.Asked.{IsSettled};
ghost use Rattle.tcl_eval.specs.Tree.{State};
ghost use Rattle.tcl_eval.specs.Meaning.{Next, on_ok};
ghost use Rattle.tcl_eval.specs.Native.{Knows, left, laid_rest, stop_rest, leave_weight, stop_weight};
ghost use Rattle.tcl_eval.specs.Rest.{frame_rest, frames_rest, mode_rest, now_of, onward_rest, rest_of};
ghost use Rattle.tcl_eval.specs.Potential.{bodies, credit, frame_weight, onward_weight};

use crate::engine::Engine;
use crate::frame::{Frame, Mode, Onward};
use crate::out::Leave;
use crate::stop::Stop;
use std::alloc::{AllocError, Global};
use tcl_host::Pile;

/// Stops a run, with no saved frames yet.
#[cold]
#[tactic(auto, unfolding(crate::specs::Native::stop_rest))]
pub(crate) fn stop(alloc: Global, at: Mode) -> Result<Box<Stop>, AllocError>
    requires { IsSettled at }
    ensures rest { IfOk result (λ s. (k : Next) (st : State) → stop_rest s.value k st ≡ mode_rest at k st) }
    ensures weight { IfOk result (λ s. stop_weight s.value ≡ credit at) }
{
    let stop = Box::new(
        alloc,
        Stop {
            at,
            laid: Pile::new(alloc),
        },
    )?;
    Ok(stop)
}

/// Returns a stop as the outcome of a script or a command. `Memory` if memory was refused.
#[cold]
pub(crate) fn stopped(alloc: Global, at: Mode) -> Leave
    requires { IsSettled at }
    ensures rest { Knows result → (k : Next) (st : State) → left result st k ≡ mode_rest at k st }
    ensures weight { leave_weight result ≤ credit at }
{
    match stop(alloc, at) {
        Ok(stop) => Leave::Stopped(stop),
        Err(_) => Leave::Memory,
    }
}

/// Saves one more frame, outside the others.
#[cold]
#[tactic(auto, unfolding(crate::specs::Native::stop_rest))]
pub(crate) fn laid_on(stop: Box<Stop>, frame: Frame) -> Result<Box<Stop>, AllocError>
    ensures rest { IfOk result (λ s. (k : Next) (st : State) → stop_rest s.value k st ≡ stop_rest stop.value (frame_rest frame k) st) }
    ensures weight { IfOk result (λ s. stop_weight s.value ≡ frame_weight frame + stop_weight stop.value) }
{
    let mut stop = stop;
    stop.laid.push(frame)?;
    Ok(stop)
}

/// Adds a frame to a stop. Returns `Memory` if memory was refused.
#[cold]
pub(crate) fn below(stop: Box<Stop>, frame: Frame) -> Leave
    ensures rest { Knows result → (k : Next) (st : State) → left result st k ≡ stop_rest stop.value (frame_rest frame k) st }
    ensures weight { leave_weight result ≤ frame_weight frame + stop_weight stop.value }
{
    match laid_on(stop, frame) {
        Ok(stop) => Leave::Stopped(stop),
        Err(_) => Leave::Memory,
    }
}

/// Adds what follows the code `Ok` to a stop. Other reasons are unchanged.
#[cold]
#[tactic(auto, using(crate::proofs::Natives::code_passes), unfolding(crate::specs::Rest::frame_rest))]
pub(crate) fn onward_below(leave: Leave, onward: Onward) -> Leave
    ensures known { Knows result → Knows leave }
    ensures rest { Knows result → (k : Next) (st : State) → left result st k ≡ left leave st (on_ok (onward_rest onward k) k) }
    ensures weight { leave_weight result ≤ onward_weight onward + leave_weight leave }
{
    match leave {
        Leave::Stopped(stop) => below(stop, Frame::Onward(onward)),
        leave => leave,
    }
}

/// Moves saved frames to a stack. The outermost one is moved first.
fn lay_on(stack: &mut Pile<Frame>, laid: Pile<Frame>) -> Result<(), AllocError>
    ensures rest { OnOk result (frames_rest stack.new ≡ laid_rest laid (frames_rest stack.old)) }
    ensures even { OnOk result (bodies stack.new ≡ bodies laid + bodies stack.old) }
{
    let mut laid = laid;
    'frames: while let Some(frame) = laid.pop() {
        stack.push(frame)?;
    }
    Ok(())
}

impl Engine {
    /// Moves the saved frames to the stack of the run, and returns what is done next.
    #[tactic(auto, unfolding(crate::specs::Native::stop_rest))]
    pub(crate) fn lay(&mut self, stop: Box<Stop>) -> Result<Mode, AllocError>
        ensures rest { IfOk result (λ mode. rest_of self.new mode ≡ stop_rest stop.value (frames_rest self.old.stack) (now_of self.old)) }
        ensures potential { IfOk result (λ mode. bodies self.new.stack + credit mode ≡ bodies self.old.stack + stop_weight stop.value) }
        ensures settled { IfOk result IsSettled }
        ensures less { self.new.left ≡ self.old.left }
    {
        let Stop { at, laid } = Box::into_inner(stop);
        lay_on(&mut self.stack, laid)?;
        Ok(at)
    }
}
