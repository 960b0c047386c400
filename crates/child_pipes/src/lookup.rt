//! Decides which programs are started in a session of their own.

use std::alloc::Global;
use std::io::{self, Read};
use std::os::unix::fs::PermissionsExt;
use std::{env, fs, str};

/// The program that starts a new session and then becomes another program.
pub(crate) const SETSID: &str = "/usr/bin/setsid";

/// The mode bits for execution by anyone, and by at least someone.
const ANYBODY: u32 = 0o001;

const SOMEBODY: u32 = 0o111;

/// How the system treats a file to be executed.
#[derive(Clone, Copy, PartialEq, Eq)]
enum Kind {
    /// There is no such file, or it can't be executed.
    Missing,
    /// It is executed.
    Program,
    /// The system refuses it, while setsid(1) would pass it to a shell. Or its interpreter is
    /// missing.
    Otherwise,
}

/// Returns whether a file may be executed.
fn is_executable(rt: &HostRuntime, path: &str, bits: u32) -> bool {
    match fs::metadata(rt, path) {
        Ok(found) => found.is_file() && found.permissions().mode() & bits != 0,
        Err(_) => false,
    }
}

/// Returns the interpreter that a script's first line names after `#!`.
fn interpreter_of(line: &[u8]) -> Option<&str> {
    let mut words = line
        .split(|b| matches!(*b, b' ' | b'\t' | b'\n'))
        .filter(|word| !word.is_empty());
    str::from_utf8(words.next()?).ok()
}

/// Returns how the system treats a file to be executed.
fn kind_of(rt: &HostRuntime, path: &str) -> Kind {
    if !is_executable(rt, path, SOMEBODY) {
        return Kind::Missing;
    }
    let mut front = [0u8; 256];
    let count = match fs::open(rt, path) {
        Ok(mut file) => file.read(&mut front).unwrap_or(0),
        Err(_) if is_executable(rt, path, ANYBODY) => return Kind::Program,
        Err(_) => return Kind::Missing,
    };
    match front.get(..count) {
        Some([0x7f, b'E', b'L', b'F', ..]) => Kind::Program,
        Some([b'#', b'!', line @ ..]) => match interpreter_of(line) {
            Some(interpreter) if is_executable(rt, interpreter, SOMEBODY) => Kind::Program,
            _ => Kind::Otherwise,
        },
        _ => Kind::Otherwise,
    }
}

/// Returns whether a program starts a session by itself. setsid(1) would start a second process for
/// it if it led one already.
pub(crate) fn starts_session(program: &str) -> bool {
    program == "setsid"
}

/// Returns whether a program can be started through setsid(1): the system executes the file that
/// execvp(3) would find. Any other program is started without it, so that the system reports the
/// error.
pub(crate) fn is_led_by_setsid(rt: &HostRuntime, alloc: Global, program: &str) -> io::Result<bool> {
    if kind_of(rt, SETSID) != Kind::Program {
        return Ok(false);
    }
    if program.contains('/') {
        return Ok(kind_of(rt, program) == Kind::Program);
    }
    let Ok(folders) = env::var(rt, "PATH") else {
        return Ok(false);
    };
    for folder in folders.as_str().split(':') {
        let path = match folder {
            "" => format!(in alloc; "./{program}")?,
            _ => format!(in alloc; "{folder}/{program}")?,
        };
        match kind_of(rt, path.as_str()) {
            Kind::Missing => {}
            kind => return Ok(kind == Kind::Program),
        }
    }
    Ok(false)
}
