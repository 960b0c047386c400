//! Waits for a pipe while its script is running.

use crate::cancellation::Cancellation;
use libc::net::poll;
use libc::types::pollfd;
use std::os::fd::RawFd;

/// The most milliseconds that a thread waits before it checks again whether its script has ended.
const LOOK: i32 = 1_000;

/// Waits until a descriptor is ready for these events, until the script has ended, or for `LOOK`
/// milliseconds. Returns whether it may be ready. An error shows at the next read or write.
pub(crate) fn is_ready(fd: RawFd, events: i16, cancellation: &Cancellation) -> bool {
    let mut asked = [
        pollfd {
            fd,
            events,
            revents: 0,
        },
        cancellation.asked(),
    ];
    let count = poll(&mut asked, LOOK);
    count < 0 || asked[0].revents != 0
}
