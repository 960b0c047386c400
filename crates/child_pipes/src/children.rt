//! The children of one script, over pipes.

use crate::cancellation::Cancellation;
use crate::errors::{ErrorPipe, ErrorPipes};
use crate::held::{Held, Name};
use crate::lookup::starts_session;
use crate::output::Output;
use crate::programs::{Programs, Started};
use crate::ready::is_ready;
use crate::reaper::Reaper;
use child_events::{Answer, Cause};
use libc::net::POLLOUT;
use std::alloc::{AllocError, Global};
use std::io::{ErrorKind, PipeWriter, Write};
use std::os::fd::AsRawFd;
use std::process::{Child, ChildStderr, ExitStatus, SystemProcess};
use std::sync::{Arc, Wait};
use std::time::{Clock, Duration};
use std::{io, mem, thread};
use tcl_words::{Text, Texts};

/// The most children of a script.
const CHILDREN: usize = 16;

/// The most bytes that a pipe accepts at once when it is ready (PIPE_BUF).
const ROOM: usize = 4_096;

/// The shortest and the longest pause between two checks of a child that is waited for, in
/// microseconds.
const PAUSE: u64 = 50;

const LONGEST_PAUSE: u64 = 20_000;

/// A child that was started.
#[derive(Drop)]
struct RunningChild {
    input: Option<PipeWriter>,
    held: Arc<Held>,
    /// Whether it starts sessions by itself.
    starts_session: bool,
}

impl RunningChild {
    /// Ends its input. One that starts sessions may end at once, and then nothing tells which
    /// processes it started. So these are noted before.
    fn end<R: Programs + Wait>(&mut self, rt: &R, reaper: &Reaper) {
        if self.starts_session && self.input.is_some() {
            reaper.note(rt, self.held.id);
        }
        self.input = None;
    }

    /// Writes bytes to the child. Gives up once its script has ended.
    fn write(&mut self, bytes: &[u8]) -> Result<(), Cause> {
        let Some(input) = &mut self.input else {
            return Err(Cause::Broken);
        };
        let mut left = bytes;
        for _ in 0..u64::MAX {
            if left.is_empty() {
                return Ok(());
            }
            if self.held.is_over() {
                return Err(Cause::Broken);
            }
            if !is_ready(input.as_raw_fd(), POLLOUT, &self.held.cancellation) {
                continue;
            }
            let count = left.len().min(ROOM);
            match input.write(&left[..count]) {
                Ok(0) => return Err(Cause::Other),
                Ok(written) => left = &left[written.min(count)..],
                Err(e) if e.kind() == ErrorKind::Interrupted => {}
                Err(e) => return Err(cause_of(&e)),
            }
        }
        Err(Cause::Other)
    }
}

/// The children of one script. When they are dropped, the script counts as ended.
pub(crate) struct Children<R: Programs + Wait + Clock + Drop> {
    rt: R,
    alloc: Global,
    /// The number of the script.
    script: u64,
    children: Vec<Option<RunningChild>>,
    reaper: Reaper,
    /// Takes the standard errors of children, if each child has its own.
    errors: Option<ErrorPipes>,
    cancellation: Arc<Cancellation>,
}

/// Returns the cause for an error of the system.
fn cause_of(error: &io::Error) -> Cause {
    match error.kind() {
        ErrorKind::NotFound => Cause::NotFound,
        ErrorKind::PermissionDenied => Cause::Denied,
        ErrorKind::BrokenPipe => Cause::Broken,
        ErrorKind::OutOfMemory => Cause::Memory,
        _ => Cause::Other,
    }
}

/// Returns the answer for an exit status.
fn answer_of(status: ExitStatus) -> Answer {
    match status.code() {
        Some(code) => Answer::Exit(u8::try_from(code).unwrap_or(u8::MAX)),
        None => Answer::Killed,
    }
}

/// Splits a program and its arguments. `None` if the program's name is not UTF-8.
fn split(argv: &Texts) -> Option<(&str, &[Text])> {
    let (program, words) = argv.as_slice().split_first()?;
    let program = std::str::from_utf8(program.as_slice()).ok()?;
    Some((program, words))
}

impl<R: Programs + Wait + Clock + Drop> Children<R> {
    /// Creates the children of a script: none yet. `script` is its number.
    pub(crate) fn new(
        rt: R,
        alloc: Global,
        script: u64,
        reaper: Reaper,
        errors: Option<ErrorPipes>,
        cancellation: Arc<Cancellation>,
    ) -> Result<Children<R>, AllocError> {
        let mut children = Vec::with_capacity(alloc, CHILDREN)?;
        for _ in 0..CHILDREN {
            children.push(None)?;
        }
        Ok(Children {
            rt,
            alloc,
            script,
            children,
            reaper,
            errors,
            cancellation,
        })
    }

    fn running(&mut self, child: u8) -> Option<&mut RunningChild> {
        let running = self.children.get_mut(usize::from(child).checked_sub(1)?)?;
        running.as_mut()
    }

    /// Shares a started program between its keeper, its reader and the reaper. Kills it if memory is refused.
    fn share(
        &self,
        child: u8,
        process: Child<SystemProcess>,
    ) -> Result<(Arc<Held>, Arc<Held>), AllocError> {
        let name = Name {
            script: self.script,
            child,
        };
        let cancellation = Arc::try_clone(&self.cancellation)?;
        let held = match Arc::new(self.alloc, Held::new(name, process, cancellation)) {
            Ok(held) => held,
            Err(failed) => {
                failed.value.kill(&self.rt);
                return Err(AllocError);
            }
        };
        let theirs = Arc::try_clone(&held)?;
        if self.reaper.adopt(&self.rt, Arc::try_clone(&held)?).is_err() {
            held.kill(&self.rt);
            return Err(AllocError);
        }
        Ok((held, theirs))
    }

    /// Keeps a child's standard error until it is taken, if the child has its own.
    fn put_errors(&self, out: Option<ChildStderr>) -> Result<(), AllocError> {
        let (Some(errors), Some(out)) = (&self.errors, out) else {
            return Ok(());
        };
        let script = self.script;
        errors.put(&self.rt, ErrorPipe { script, out })
    }

    /// Starts a child with this program and its arguments.
    pub(crate) fn start(&mut self, child: u8, argv: &Texts) -> Result<Output, Cause> {
        let Some((program, words)) = split(argv) else {
            return Err(Cause::Other);
        };
        let Some(index) = usize::from(child).checked_sub(1) else {
            return Err(Cause::Other);
        };
        if index >= self.children.len() {
            return Err(Cause::Other);
        }
        let started = match self
            .rt
            .start(self.alloc, program, words, self.errors.is_some())
        {
            Ok(started) => started,
            Err(e) => return Err(cause_of(&e)),
        };
        let Started {
            input,
            child: mut process,
        } = started;
        let Some(out) = process.stdout.take() else {
            return Err(Cause::Other);
        };
        let errors = process.stderr.take();
        let Ok((held, theirs)) = self.share(child, process) else {
            return Err(Cause::Memory);
        };
        if self.put_errors(errors).is_err() {
            held.kill(&self.rt);
            return Err(Cause::Memory);
        }
        let child = RunningChild {
            input: Some(input),
            held,
            starts_session: starts_session(program),
        };
        drop(mem::replace(&mut self.children[index], Some(child)));
        Ok(Output::new(out, theirs))
    }

    /// Writes bytes to a child.
    pub(crate) fn write(&mut self, child: u8, bytes: &[u8]) -> Result<(), Cause> {
        match self.running(child) {
            Some(running) => running.write(bytes),
            None => Err(Cause::Other),
        }
    }

    /// Ends the input of a child.
    pub(crate) fn end(&mut self, child: u8) -> Result<(), Cause> {
        let at = usize::from(child).checked_sub(1);
        let Some(Some(running)) = at.and_then(|at| self.children.get_mut(at)) else {
            return Err(Cause::Other);
        };
        running.end(&self.rt, &self.reaper);
        Ok(())
    }

    /// Ends the input of a child, and drops its later output.
    pub(crate) fn close(&mut self, child: u8) -> Result<(), Cause> {
        self.end(child)?;
        let Some(running) = self.running(child) else {
            return Err(Cause::Other);
        };
        running.held.close();
        Ok(())
    }

    /// Waits for a child to end. Gives up once its script has ended.
    pub(crate) fn wait(&mut self, child: u8) -> Answer {
        let running = usize::from(child)
            .checked_sub(1)
            .and_then(|at| self.children.get(at));
        match running {
            Some(Some(running)) => wait_for(&self.rt, &running.held),
            _ => Answer::Fail(Cause::Other),
        }
    }
}

/// Waits for a child to end. Gives up once its script has ended.
fn wait_for<R: Wait + Clock>(rt: &R, held: &Held) -> Answer {
    let mut pause = PAUSE;
    for _ in rt.forever() {
        let status = held.process.lock(rt).try_wait();
        match status {
            Ok(Some(status)) => return answer_of(status),
            Ok(None) => {}
            Err(e) if e.kind() == ErrorKind::Interrupted => {}
            Err(e) => return Answer::Fail(cause_of(&e)),
        }
        if held.is_over() {
            return Answer::Fail(Cause::Other);
        }
        thread::sleep(rt, Duration::from_micros(pause));
        pause = pause.saturating_mul(2).min(LONGEST_PAUSE);
    }
    unreachable!()
}

impl<R: Programs + Wait + Clock + Drop> Drop for Children<R> {
    fn drop(self) {
        let Children {
            rt,
            alloc: _,
            script: _,
            mut children,
            reaper,
            errors: _,
            cancellation,
        } = self;
        for child in children.as_mut_slice() {
            if let Some(running) = child {
                running.end(&rt, &reaper);
            }
        }
        cancellation.cancel();
    }
}
