//! A child that was started.

use crate::cancellation::Cancellation;
use std::io::ErrorKind;
use std::process::{Child, SystemProcess};
use std::sync::atomic::{AtomicBool, Ordering};
use std::sync::{Arc, Mutex, Wait};

/// The identity of a child in a run.
#[derive(Clone, Copy)]
pub(crate) struct Name {
    /// The number of its script, from 1.
    pub(crate) script: u64,
    /// Its number among the children of its script.
    pub(crate) child: u8,
}

/// A child that was started, shared by its keeper, the reader of its output and the reaper.
#[derive(Drop)]
pub(crate) struct Held {
    pub(crate) id: u32,
    pub(crate) name: Name,
    pub(crate) process: Mutex<Child<SystemProcess>>,
    /// Whether its script closed it. Its later output is dropped.
    is_closed: AtomicBool,
    /// Whether its script has ended.
    pub(crate) cancellation: Arc<Cancellation>,
}

impl Held {
    pub(crate) fn new(
        name: Name,
        process: Child<SystemProcess>,
        cancellation: Arc<Cancellation>,
    ) -> Held {
        Held {
            id: process.id(),
            name,
            process: Mutex::new(process),
            is_closed: AtomicBool::new(false),
            cancellation,
        }
    }

    pub(crate) fn is_closed(&self) -> bool {
        self.is_closed.load(Ordering::SeqCst)
    }

    pub(crate) fn close(&self) {
        self.is_closed.store(true, Ordering::SeqCst);
    }

    pub(crate) fn is_over(&self) -> bool {
        self.cancellation.is_cancelled()
    }

    /// Returns whether it is running. False if the system doesn't know.
    pub(crate) fn is_alive(&self, rt: &impl Wait) -> bool {
        match self.process.lock(rt).try_wait() {
            Ok(status) => status.is_none(),
            Err(e) => e.kind() == ErrorKind::Interrupted,
        }
    }

    /// Sends SIGKILL only to the child itself.
    pub(crate) fn kill(&self, rt: &impl Wait) {
        let _ = self.process.lock(rt).kill();
    }
}
