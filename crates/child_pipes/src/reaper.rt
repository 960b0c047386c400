//! All children of a run, until none of their processes is left.

use crate::guard::Guard;
use crate::held::{Held, Name};
use crate::processes::{Process, group_of, learn};
use crate::programs::Programs;
use crate::stage::Stage;
use std::alloc::{AllocError, Global};
use std::sync::{Arc, Mutex, Wait};

/// When children are ended.
#[derive(Clone, Copy)]
pub struct Terms {
    /// The grace period, in milliseconds: how long a child may take to end by itself after its
    /// script has ended.
    pub grace: u64,
    /// Whether the grace period also begins when the script closes the child.
    pub hangs_up: bool,
}

/// A child, and the processes that it is known to have started.
#[derive(Drop)]
struct Ward {
    held: Arc<Held>,
    stage: Stage,
    known: Vec<Process>,
}

#[derive(Drop)]
struct Shared {
    terms: Terms,
    wards: Mutex<Vec<Ward>>,
    guard: Mutex<Option<Guard>>,
}

/// The children of a run. Each is kept until it and all processes that it started have ended. It
/// can have several owners.
#[derive(Drop)]
pub struct Reaper {
    alloc: Global,
    shared: Arc<Shared>,
}

/// The result of a check of all children: the system's processes, once they were read, and the
/// numbers of those to be sent SIGHUP and SIGKILL.
#[derive(Drop)]
struct Found {
    alloc: Global,
    all: Option<Vec<Process>>,
    hangs: Vec<u32>,
    kills: Vec<u32>,
}

impl Found {
    fn new(alloc: Global) -> Found {
        Found {
            alloc,
            all: None,
            hangs: Vec::new(alloc),
            kills: Vec::new(alloc),
        }
    }

    /// Returns the processes left of a child.
    fn group_of<R: Programs>(&mut self, rt: &R, ward: &Ward) -> Result<Vec<Process>, AllocError> {
        let all = match self.all.take() {
            Some(all) => all,
            None => rt.processes(self.alloc)?,
        };
        let group = group_of(
            self.alloc,
            all.as_slice(),
            ward.held.id,
            ward.known.as_slice(),
        );
        self.all = Some(all);
        group
    }

    /// Schedules the signal of a stage for processes.
    fn condemn(&mut self, stage: Stage, group: &[Process]) -> Result<(), AllocError> {
        let ids = match stage {
            Stage::HungUp { .. } => &mut self.hangs,
            Stage::Killed { .. } => &mut self.kills,
            Stage::Kept | Stage::LetGo { .. } => return Ok(()),
        };
        for process in group {
            ids.push(process.id)?;
        }
        Ok(())
    }

    /// Sends the signals.
    fn send<R: Programs>(&self, rt: &R) {
        for (name, ids) in [("HUP", &self.hangs), ("KILL", &self.kills)] {
            if !ids.is_empty() {
                rt.signal(self.alloc, name, ids.as_slice());
            }
        }
    }
}

impl Ward {
    /// Notes the processes of a child among all of the system.
    fn note(&mut self, alloc: Global, all: &[Process]) -> Result<(), AllocError> {
        let group = group_of(alloc, all, self.held.id, self.known.as_slice())?;
        learn(&mut self.known, group.as_slice())
    }

    /// Advances the stage of a child, if it must end. The processes left by a child that has ended
    /// get no grace period. Returns whether any process is left.
    fn advance<R: Programs + Wait>(
        &mut self,
        rt: &R,
        terms: Terms,
        moment: u64,
        found: &mut Found,
    ) -> Result<bool, AllocError> {
        if !self.held.is_over() && !(terms.hangs_up && self.held.is_closed()) {
            return Ok(true);
        }
        let lives = self.held.is_alive(rt);
        let stage = self
            .stage
            .after(if lives { terms.grace } else { 0 }, moment);
        if lives && stage == self.stage {
            return Ok(true);
        }
        let group = found.group_of(rt, self)?;
        if !lives && group.is_empty() {
            return Ok(false);
        }
        if stage != self.stage {
            found.condemn(stage, group.as_slice())?;
            if matches!(stage, Stage::Killed { .. }) {
                self.held.kill(rt);
            }
        }
        self.stage = stage;
        learn(&mut self.known, group.as_slice())?;
        Ok(true)
    }
}

impl Reaper {
    /// Creates an empty collection. New children are reported to the guard, if there is one.
    pub fn new(alloc: Global, terms: Terms, guard: Option<Guard>) -> Result<Reaper, AllocError> {
        let shared = Shared {
            terms,
            wards: Mutex::new(Vec::new(alloc)),
            guard: Mutex::new(guard),
        };
        Ok(Reaper {
            alloc,
            shared: Arc::new(alloc, shared)?,
        })
    }

    /// Returns the same collection for another owner.
    pub fn shared(&self) -> Result<Reaper, AllocError> {
        Ok(Reaper {
            alloc: self.alloc,
            shared: Arc::try_clone(&self.shared)?,
        })
    }

    pub(crate) fn terms(&self) -> Terms {
        self.shared.terms
    }

    /// Adds a child that was started.
    pub(crate) fn adopt(&self, rt: &impl Wait, held: Arc<Held>) -> Result<(), AllocError> {
        self.tell_guard(rt, '+', held.id);
        let ward = Ward {
            held,
            stage: Stage::Kept,
            known: Vec::new(self.alloc),
        };
        let mut wards = self.shared.wards.lock(rt);
        let Ok(()) = wards.push(ward) else {
            return Err(AllocError);
        };
        Ok(())
    }

    /// Notes the processes of a child, so that they are found when it has ended. If memory is
    /// refused, some are not.
    pub(crate) fn note<R: Programs + Wait>(&self, rt: &R, child: u32) {
        let Ok(all) = rt.processes(self.alloc) else {
            return;
        };
        let mut wards = self.shared.wards.lock(rt);
        for ward in &mut *wards {
            if ward.held.id == child {
                let _ = ward.note(self.alloc, all.as_slice());
            }
        }
    }

    fn tell_guard(&self, rt: &impl Wait, mark: char, id: u32) {
        let mut guard = self.shared.guard.lock(rt);
        if let Some(guard) = &mut *guard {
            guard.tell(self.alloc, mark, id);
        }
    }

    /// Returns the children that still run, or whose processes still run.
    pub(crate) fn left(&self, rt: &impl Wait) -> Result<Vec<Name>, AllocError> {
        let mut left = Vec::new(self.alloc);
        let wards = self.shared.wards.lock(rt);
        for ward in &*wards {
            left.push(ward.held.name)?;
        }
        Ok(left)
    }

    /// Returns whether no process is left of any child.
    pub(crate) fn is_empty(&self, rt: &impl Wait) -> bool {
        self.shared.wards.lock(rt).is_empty()
    }

    /// Checks each child, at a time in milliseconds. Ends those whose grace period is over, and
    /// removes those without processes. If memory is refused, a child is unchanged until the next
    /// check.
    pub(crate) fn sweep<R: Programs + Wait>(&self, rt: &R, terms: Terms, moment: u64) {
        let mut found = Found::new(self.alloc);
        let mut wards = self.shared.wards.lock(rt);
        wards.retain_mut(|ward| {
            let is_left = ward.advance(rt, terms, moment, &mut found).unwrap_or(true);
            if !is_left {
                self.tell_guard(rt, '-', ward.held.id);
            }
            is_left
        });
        drop(wards);
        found.send(rt);
    }
}
