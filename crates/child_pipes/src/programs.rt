//! Starts programs, lists processes and sends signals.

use crate::guard::{GUARD, Guard};
use crate::lookup::{SETSID, is_led_by_setsid, starts_session};
use crate::processes::Process;
use std::alloc::{AllocError, Global};
use std::io::{ErrorKind, PipeWriter};
use std::process::{Child, Command, Stdio, SystemProcess};
use std::{fs, io};
use tcl_words::Text;

/// A program that was started, and the pipe to its input.
#[derive(Drop)]
pub struct Started {
    /// The pipe to its input.
    pub input: PipeWriter,
    /// The program. Its output is a pipe.
    pub child: Child<SystemProcess>,
}

/// The system's programs and processes.
pub trait Programs {
    /// Starts a program in a session of its own, with pipes for its input and output. Its standard
    /// error is a pipe too, or that of this process. It is searched in the folders of `PATH` if its
    /// name contains no slash. Arguments that aren't UTF-8 are passed through sh(1). Without
    /// setsid(1) they are an error.
    fn start(
        &self,
        alloc: Global,
        program: &str,
        words: &[Text],
        has_error_pipe: bool,
    ) -> io::Result<Started>;

    /// Starts a guard, which ends children if this process is killed.
    fn start_guard(&self, alloc: Global) -> io::Result<Guard>;

    /// Returns the processes of the system. Empty without /proc.
    fn processes(&self, alloc: Global) -> Result<Vec<Process>, AllocError>;

    /// Returns the text of /proc/self/status (proc(5)), if it can be read.
    fn own_status(&self) -> Option<String>;

    /// Sends a signal to processes, with the built-in `kill` of sh(1). Without sh(1), none is sent.
    fn signal(&self, alloc: Global, signal: &str, ids: &[u32]);
}

/// Returns the command that runs a program in a session of its own: the program itself if it or
/// what it becomes starts one, or setsid(1), which becomes it.
fn command_of(
    rt: &HostRuntime,
    alloc: Global,
    program: &str,
    becomes: &str,
) -> io::Result<Command> {
    if starts_session(becomes) || !is_led_by_setsid(rt, alloc, program)? {
        return Ok(Command::new(alloc, program)?);
    }
    let mut command = Command::new(alloc, SETSID)?;
    command.arg("--")?;
    command.arg(program)?;
    Ok(command)
}

/// A script for sh(1). It decodes arguments that are encoded for `%b` of printf(1), and becomes the
/// program with these arguments.
const DECODE: &str = "\
    exprun_left=$#
    while [ \"$exprun_left\" -gt 0 ]; do
        exprun_word=$(printf '%b.' \"$1\")
        shift
        set -- \"$@\" \"${exprun_word%.}\"
        exprun_left=$((exprun_left - 1))
    done
    exec \"$0\" \"$@\"";

/// Encodes the bytes of an argument for `%b` of printf(1).
fn encoded(alloc: Global, word: &[u8]) -> Result<String, AllocError> {
    let mut text = String::new(alloc);
    for byte in word {
        text.push_str("\\0")?;
        for shift in [6, 3, 0] {
            text.push(char::from(b'0' + (byte >> shift & 7)))?;
        }
    }
    Ok(text)
}

/// Returns whether all arguments are UTF-8, which a command requires.
fn are_texts(words: &[Text]) -> bool {
    for word in words {
        if std::str::from_utf8(word.as_slice()).is_err() {
            return false;
        }
    }
    true
}

/// Returns the command that runs a program with arguments of any bytes, through sh(1).
fn command_by_shell(
    rt: &HostRuntime,
    alloc: Global,
    program: &str,
    words: &[Text],
) -> io::Result<Command> {
    if !is_led_by_setsid(rt, alloc, program)? {
        return Err(io::Error::from(ErrorKind::InvalidInput));
    }
    let mut command = command_of(rt, alloc, "/bin/sh", program)?;
    command.arg("-c")?;
    command.arg(DECODE)?;
    command.arg(program)?;
    for word in words {
        if word.as_slice().contains(&0) {
            return Err(io::Error::from(ErrorKind::InvalidInput));
        }
        let text = encoded(alloc, word.as_slice())?;
        command.arg(text.as_str())?;
    }
    Ok(command)
}

/// Returns the command that runs a program with these arguments.
fn command_with(
    rt: &HostRuntime,
    alloc: Global,
    program: &str,
    words: &[Text],
) -> io::Result<Command> {
    if !are_texts(words) {
        return command_by_shell(rt, alloc, program, words);
    }
    let mut command = command_of(rt, alloc, program, program)?;
    for word in words {
        command.arg(std::str::from_utf8(word.as_slice()).unwrap_or(""))?;
    }
    Ok(command)
}

/// Starts a command with a pipe for its input that is created here. A write to it is one system
/// call, while a write to a `ChildStdin` is four.
fn start_with_input(rt: &HostRuntime, mut command: Command) -> io::Result<Started> {
    let (theirs, input) = io::pipe(rt)?;
    command.stdin(theirs);
    let child = command.spawn(rt)?;
    Ok(Started { input, child })
}

/// Sends a signal to processes with a command of sh(1).
fn kill(rt: &HostRuntime, alloc: Global, signal: &str, ids: &[u32]) -> io::Result<()> {
    let mut command = Command::new(alloc, "/bin/sh")?;
    command.arg("-c")?;
    command.arg("kill -s \"$0\" \"$@\"")?;
    command.arg(signal)?;
    for id in ids {
        let word = format!(in alloc; "{id}")?;
        command.arg(word.as_str())?;
    }
    command.stdin(Stdio::null());
    command.stdout(Stdio::null());
    command.stderr(Stdio::null());
    let _ = command.status(rt)?;
    Ok(())
}

impl Programs for HostRuntime {
    fn start(
        &self,
        alloc: Global,
        program: &str,
        words: &[Text],
        has_error_pipe: bool,
    ) -> io::Result<Started> {
        let mut command = command_with(self, alloc, program, words)?;
        command.stdout(Stdio::piped());
        if has_error_pipe {
            command.stderr(Stdio::piped());
        }
        start_with_input(self, command)
    }

    fn start_guard(&self, alloc: Global) -> io::Result<Guard> {
        let mut command = command_of(self, alloc, "/bin/sh", "/bin/sh")?;
        command.arg("-c")?;
        command.arg(GUARD)?;
        command.stdout(Stdio::null());
        command.stderr(Stdio::null());
        let Started { input, child } = start_with_input(self, command)?;
        Ok(Guard::new(input, child))
    }

    fn processes(&self, alloc: Global) -> Result<Vec<Process>, AllocError> {
        let mut all = Vec::new(alloc);
        let Ok(entries) = fs::read_dir(self, "/proc") else {
            return Ok(all);
        };
        for entry in entries {
            let Ok(entry) = entry else {
                continue;
            };
            let Ok(id) = entry.file_name().parse::<u32>() else {
                continue;
            };
            let path = format!(in alloc; "/proc/{id}/stat")?;
            let Ok(text) = fs::read(self, path.as_str()) else {
                continue;
            };
            if let Some(process) = Process::of_stat(text.as_slice()) {
                all.push(process)?;
            }
        }
        Ok(all)
    }

    fn own_status(&self) -> Option<String> {
        fs::read_to_string(self, "/proc/self/status").ok()
    }

    fn signal(&self, alloc: Global, signal: &str, ids: &[u32]) {
        let _ = kill(self, alloc, signal, ids);
    }
}
