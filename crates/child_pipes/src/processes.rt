//! The processes of the system, as in proc(5).

use std::alloc::{AllocError, Global};

/// A process that has not ended. Two processes with the same number differ in their start.
#[derive(Clone, Copy)]
pub struct Process {
    pub(crate) id: u32,
    parent: u32,
    session: u32,
    /// The start time, in clock ticks of the system since its boot.
    start: u64,
}

impl Process {
    /// Parses the text of /proc/N/stat. `None` for a zombie or a dead process. The name is the
    /// second field, in parentheses, and may contain any byte.
    pub(crate) fn of_stat(text: &[u8]) -> Option<Process> {
        let name = memchr::memrchr(b')', text)?;
        let mut fields = text[name..].split(|b| *b == b' ').skip(1);
        if matches!(fields.next()?, [b'Z' | b'X']) {
            return None;
        }
        let parent = id(fields.next()?)?;
        let session = id(fields.nth(1)?)?;
        let start = number(fields.nth(15)?)?;
        let id = id(text.split(|b| *b == b' ').next()?)?;
        Some(Process {
            id,
            parent,
            session,
            start,
        })
    }

    fn is(self, other: Process) -> bool {
        self.id == other.id && self.start == other.start
    }
}

/// Returns the number in a field of decimal digits.
fn number(field: &[u8]) -> Option<u64> {
    std::str::from_utf8(field).ok()?.parse::<u64>().ok()
}

fn id(field: &[u8]) -> Option<u32> {
    u32::try_from(number(field)?).ok()
}

/// Returns whether a process is in the list.
fn is_among(process: Process, list: &[Process]) -> bool {
    for other in list {
        if process.is(*other) {
            return true;
        }
    }
    false
}

/// Returns whether a process was started by one of these. The session of one of these also counts,
/// unless it is this process's own session.
fn is_of(process: Process, list: &[Process], own_session: Option<u32>) -> bool {
    for other in list {
        let is_apart = own_session.is_some_and(|own| own != process.session);
        if process.parent == other.id || is_apart && process.session == other.session {
            return true;
        }
    }
    false
}

/// Returns the session of the process with this number.
fn session_of(id: u32, all: &[Process]) -> Option<u32> {
    for process in all {
        if process.id == id {
            return Some(process.session);
        }
    }
    None
}

/// Returns the processes that belong to a child: the child, its session, the processes known
/// before, what these started, and their sessions.
pub(crate) fn group_of(
    alloc: Global,
    all: &[Process],
    child: u32,
    known: &[Process],
) -> Result<Vec<Process>, AllocError> {
    let own_session = session_of(libc::getpid().cast_unsigned(), all);
    let mut group = Vec::new(alloc);
    for process in all {
        let is_first = process.id == child || process.session == child;
        if is_first || is_among(*process, known) || is_of(*process, known, own_session) {
            group.push(*process)?;
        }
    }
    for _ in 0..all.len() {
        let count = group.len();
        for process in all {
            let is_new = !is_among(*process, group.as_slice());
            if is_new && is_of(*process, group.as_slice(), own_session) {
                group.push(*process)?;
            }
        }
        if group.len() == count {
            break;
        }
    }
    Ok(group)
}

/// Adds processes to the known ones.
pub(crate) fn learn(known: &mut Vec<Process>, group: &[Process]) -> Result<(), AllocError> {
    for process in group {
        if !is_among(*process, known.as_slice()) {
            known.push(*process)?;
        }
    }
    Ok(())
}
