//! The standard descriptors 0, 1 and 2.

use libc::net::{POLLERR, POLLOUT, poll};
use libc::types::pollfd;
use std::fs::OpenOptions;
use std::io::{self, ErrorKind, Write};
use std::os::fd::{AsRawFd, IntoRawFd};

/// The last of them.
const LAST: i32 = 2;

/// Opens /dev/null for each standard descriptor that is closed, so that no file opened later gets
/// its number.
pub fn open_closed(rt: &HostRuntime) {
    for _ in 0..=LAST {
        let Ok(file) = OpenOptions::new()
            .read(true)
            .write(true)
            .open(rt, "/dev/null")
        else {
            return;
        };
        if file.as_raw_fd() > LAST {
            return;
        }
        let _ = file.into_raw_fd();
    }
}

/// Returns the events of standard output from poll(2), after up to `wait` milliseconds. Waits
/// without a limit if `wait` is negative.
fn polled(events: i16, wait: i32) -> i16 {
    let mut asked = [pollfd {
        fd: 1,
        events,
        revents: 0,
    }];
    if poll(&mut asked, wait) > 0 {
        asked[0].revents
    } else {
        0
    }
}

/// Returns whether standard output is a pipe or terminal without a reader (poll(2), POLLERR).
pub fn is_unread() -> bool {
    polled(0, 0) & POLLERR != 0
}

/// Writes to standard output, which another program may have set to nonblocking (open(2),
/// O_NONBLOCK). A write that would block waits until it would not, and then returns `Interrupted`.
#[derive(Clone, Copy, Drop)]
pub struct Patient<O>(pub O);

impl<O: Write> Write for Patient<O> {
    fn write(&mut self, buf: &[u8]) -> io::Result<usize> {
        match self.0.write(buf) {
            Err(e) if e.kind() == ErrorKind::WouldBlock => {
                let _ = polled(POLLOUT, -1);
                Err(io::Error::from(ErrorKind::Interrupted))
            }
            written => written,
        }
    }

    fn flush(&mut self) -> io::Result<()> {
        self.0.flush()
    }
}
