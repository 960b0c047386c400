//! The standard errors of children that have their own.

use std::alloc::{AllocError, Global};
use std::mem;
use std::process::ChildStderr;
use std::sync::{Arc, Mutex, Wait};

/// The standard error of a child: a pipe to be read.
#[derive(Drop)]
pub struct ErrorPipe {
    /// The number of the child's script, from 1.
    pub script: u64,
    pub out: ChildStderr,
}

/// The standard errors of started children, until they are taken. It can have several owners.
#[derive(Drop)]
pub struct ErrorPipes {
    alloc: Global,
    held: Arc<Mutex<Vec<ErrorPipe>>>,
}

impl ErrorPipes {
    /// Creates an empty list.
    pub fn new(alloc: Global) -> Result<ErrorPipes, AllocError> {
        let held = Arc::new(alloc, Mutex::new(Vec::new(alloc)))?;
        Ok(ErrorPipes { alloc, held })
    }

    /// Returns the same list for another owner.
    pub fn shared(&self) -> Result<ErrorPipes, AllocError> {
        Ok(ErrorPipes {
            alloc: self.alloc,
            held: Arc::try_clone(&self.held)?,
        })
    }

    /// Keeps a pipe until it is taken. If memory is refused, the pipe is closed.
    pub(crate) fn put(&self, rt: &impl Wait, pipe: ErrorPipe) -> Result<(), AllocError> {
        let mut held = self.held.lock(rt);
        let Ok(()) = held.push(pipe) else {
            return Err(AllocError);
        };
        Ok(())
    }

    /// Takes the pipes that were added since the last call, in order.
    pub fn take(&self, rt: &impl Wait) -> Vec<ErrorPipe> {
        let mut held = self.held.lock(rt);
        mem::replace(&mut *held, Vec::new(self.alloc))
    }
}
