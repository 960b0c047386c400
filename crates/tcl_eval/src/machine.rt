//! Machines that can be suspended and resumed.

ghost use Rattle.std.specs.Prelude.{◌≡◌, ◌≢◌, ◌↔◌, ℕ, ◌+◌, List, IfOk, IsTrue, option_map, []};
ghost use Rattle.tcl_eval.specs.Meaning.{eval};
ghost use Rattle.tcl_eval.specs.Rest.{engine_rest};
ghost use Rattle.tcl_eval.specs.Steps.{left_of};
ghost use Rattle.tcl_eval.specs.Suspended.{IsPauseOf, IsShownBy, IsOver, at_the_end, end_of};
ghost use Rattle.tcl_host.specs.Calls.{Reply};
ghost use Rattle.tcl_eval.specs.Tree.{Leads, left_at};

use crate::engine::Engine;
use crate::frame::{End, Mode};
use crate::meter::Meter;
use crate::read_texts::ReadTexts;
use crate::trail::{Origin, Trail};
use exp_match::Compiled;
use std::alloc::{AllocError, Global};
use std::mem;
use tcl_host::{Ending, Host, Pile};
use tcl_results::Code;
use tcl_scripts::Script;
use tcl_subst::{Names, Vars};
use tcl_values::Value;

/// The most scripts that may be under evaluation at once.
pub const DEEPEST: u32 = 200;

/// Why a run paused.
#[derive(Drop)]
pub enum Pause {
    /// The script ended with a code and a value.
    Finished(Code, Value),
    /// The host waits.
    Waits,
    /// A command ended the script.
    Stopped(Ending),
    /// The limit on steps was reached.
    StepLimit,
    /// Memory was refused.
    Memory,
}

/// The evaluation of a script. It can be suspended, and resumed with any host that continues to
/// answer like the one before.
#[derive(Drop)]
pub struct Machine {
    /// The state.
    engine: Engine,
    /// What is done next.
    mode: Mode,
}

/// Creates a machine for a source, with this number of levels of scripts.
fn begin(alloc: Global, source: &[u8], vars: Vars, depth: u32) -> Result<Machine, AllocError>
    ensures { IfOk result (λ m. (left : ℕ) → engine_rest m.engine left m.mode ≡ eval depth source.now at_the_end (record { vars = vars; procs = []; left = left; trail = [] })) }
{
    let script = Script::read(alloc, Value::from_slice(alloc, source)?)?;
    Ok(Machine {
        engine: Engine {
            alloc,
            stack: Pile::new(alloc),
            vars,
            procs: Names::new(alloc),
            trail: Trail::new(alloc),
            read: ReadTexts::new(alloc),
            patterns: Compiled::new(alloc),
            left: 0,
        },
        mode: Mode::Run { script, depth },
    })
}

impl Machine {
    /// Creates a machine for a source, with these variables and no procedures.
    pub fn new(alloc: Global, source: &[u8], vars: Vars) -> Result<Machine, AllocError>
        ensures { IfOk result (λ m. (left : ℕ) → engine_rest m.engine left m.mode ≡ eval 200 source.now at_the_end (record { vars = vars; procs = []; left = left; trail = [] })) }
    {
        begin(alloc, source, vars, DEEPEST)
    }

    /// Returns the current variables.
    pub fn vars(&self) -> &Vars
        ensures { result.now ≡ self.now.engine.vars }
    {
        &self.engine.vars
    }

    /// Returns the trail of the current error, the innermost origin first. After a script ended by
    /// an error, it tells the error's origin.
    pub fn trail(&self) -> &[Origin]
        ensures { result.now ≡ self.now.engine.trail }
    {
        self.engine.trail.as_slice()
    }

    /// Returns the end state, or `None` while the script is running.
    pub fn end(&self) -> Option<&End>
        ensures { option_map (λ e. e.now) result ≡ end_of self.now.mode }
    {
        match &self.mode {
            Mode::Ended(end) => Some(end),
            _ => None,
        }
    }

    /// Returns whether the run has ended.
    pub fn is_over(&self) -> bool
        ensures { IsTrue result ↔ IsOver self.now.mode }
    {
        matches!(&self.mode, Mode::Ended(_))
    }

    /// Returns the pause of a machine that is suspended or has ended. `Memory` if the copy of a
    /// value was refused.
    fn pause(&self) -> Pause
        ensures { IsShownBy result self.now.mode }
    {
        match &self.mode {
            Mode::Ended(End::Finished(code, value)) => match value.shared(self.engine.alloc) {
                Ok(value) => Pause::Finished(*code, value),
                Err(_) => Pause::Memory,
            },
            Mode::Ended(End::Stopped(ending)) => Pause::Stopped(*ending),
            Mode::Ended(End::StepLimit) => Pause::StepLimit,
            Mode::Ended(End::Memory) => Pause::Memory,
            _ => Pause::Waits,
        }
    }

    /// Runs until the script has ended or the host waits. The meter keeps its bound.
    ///
    /// Unless the result is `Memory`, the host is called exactly as the meaning prescribes.
    /// Afterwards the machine denotes the rest of the run. The meter counts exactly the steps that
    /// the meaning begins.
    ///
    /// A run that has ended is unchanged and shows the same pause again, or `Memory` if the copy of
    /// its value was refused. After `Memory` the run has ended.
    pub fn run<H: Host>(&mut self, host: &mut H, meter: &mut Meter) -> Pause
        ensures leads { result ≢ Pause.Memory → (replies : List Reply) × Leads H.answers replies (engine_rest self.old.engine (left_of meter.old) self.old.mode) host.old (engine_rest self.new.engine (left_of meter.new) self.new.mode) host.new × IsPauseOf result self.new.mode replies }
        ensures shown { IsShownBy result self.new.mode }
        ensures over { IsOver self.old.mode → self.new ≡ self.old }
        ensures host { IsOver self.old.mode → host.new ≡ host.old }
        ensures meter { IsOver self.old.mode → meter.new ≡ meter.old }
        ensures bound { meter.new.bound ≡ meter.old.bound }
        ensures counted { result ≢ Pause.Memory → meter.new.count + left_at (engine_rest self.new.engine (left_of meter.new) self.new.mode) ≡ meter.old.count + left_of meter.old }
    {
        if self.is_over() {
            return self.pause();
        }
        let mode = mem::replace(&mut self.mode, Mode::Ended(End::Memory));
        self.engine.left = meter.left();
        let asked = self.engine.go(host, mode);
        meter.go_down(self.engine.left);
        match asked {
            Err(_) => Pause::Memory,
            Ok(asked) => {
                drop(mem::replace(&mut self.mode, asked.mode));
                self.pause()
            }
        }
    }
}
