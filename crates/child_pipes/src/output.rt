//! The output of a child.

use crate::held::Held;
use crate::ready::is_ready;
use libc::net::POLLIN;
use std::io;
use std::io::{ErrorKind, Read};
use std::os::fd::AsRawFd;
use std::process::ChildStdout;
use std::sync::Arc;

/// The number of pieces of a closed child's output that are read and dropped, so that the child can
/// end by itself. After that its output is closed.
const DROPPED: u8 = 16;

/// The output of a child. Once the child's script has ended, reads fail, including one that waits.
/// A reader therefore never outlives its script. The output of a child that its script closed is
/// read and dropped.
#[derive(Drop)]
pub struct Output {
    out: ChildStdout,
    held: Arc<Held>,
    dropped: u8,
}

impl Output {
    pub(crate) fn new(out: ChildStdout, held: Arc<Held>) -> Output {
        Output {
            out,
            held,
            dropped: 0,
        }
    }
}

impl Read for Output {
    fn read(&mut self, buf: &mut [u8]) -> io::Result<usize> {
        for _ in 0..u64::MAX {
            if self.held.is_over() || self.dropped >= DROPPED {
                break;
            }
            if !is_ready(self.out.as_raw_fd(), POLLIN, &self.held.cancellation) {
                continue;
            }
            let count = self.out.read(buf)?;
            if count == 0 || !self.held.is_closed() {
                return Ok(count);
            }
            self.dropped += 1;
        }
        Err(io::Error::from(ErrorKind::Other))
    }
}
