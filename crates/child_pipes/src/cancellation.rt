//! Notifies the threads of a script that the script has ended.

use libc::net::POLLIN;
use libc::types::pollfd;
use std::io::{self, PipeReader, PipeWriter};
use std::os::fd::{AsRawFd, RawFd};
use std::rt::Files;
use std::sync::atomic::{AtomicBool, Ordering};

/// Whether a script has ended. Once it has, a pipe becomes readable, which wakes the threads that
/// wait for their own descriptors.
#[derive(Drop)]
pub struct Cancellation {
    is_cancelled: AtomicBool,
    /// Without a pipe, threads check once a second.
    pipe: Option<(PipeReader, PipeWriter)>,
}

impl Cancellation {
    /// Creates the state of a script that is running.
    pub fn new(rt: &impl Files) -> Cancellation {
        Cancellation {
            is_cancelled: AtomicBool::new(false),
            pipe: io::pipe(rt).ok(),
        }
    }

    /// Marks the script as ended. Its children must end, and no thread waits for them any longer.
    pub fn cancel(&self) {
        self.is_cancelled.store(true, Ordering::SeqCst);
        if let Some((_, input)) = &self.pipe {
            let _ = libc::write(input.as_raw_fd(), b"!".as_slice());
        }
    }

    pub(crate) fn is_cancelled(&self) -> bool {
        self.is_cancelled.load(Ordering::SeqCst)
    }

    /// Returns the entry for poll(2) that becomes ready once the script has ended.
    pub(crate) fn asked(&self) -> pollfd {
        let fd: RawFd = match &self.pipe {
            Some((output, _)) => output.as_raw_fd(),
            None => -1,
        };
        pollfd {
            fd,
            events: POLLIN,
            revents: 0,
        }
    }
}
