//! Prints what children write to their own standard errors, by lines, each with the number of its
//! script.

use crate::following::{Manner, Tale};
use crate::teller::{Post, Tells};
use crate::voice::Voice;
use child_hands::Clock;
use child_pipes::{ErrorPipe, ErrorPipes, Wall};
use libc::net::{POLLIN, poll};
use libc::types::pollfd;
use secret_words::{Secrets, masker_of};
use std::alloc::{AllocError, Global};
use std::io::{ErrorKind, Read};
use std::os::fd::AsRawFd;
use std::process::ChildStderr;
use std::sync::Wait;
use std::time::Clock as SystemClock;

/// The greatest time until the pipe of a new child is noticed, in milliseconds.
const LOOK: i32 = 50;

/// The number of bytes read from a pipe at once.
const PIECE: usize = 4_096;

/// The greatest time for which pipes are read once all scripts have ended, in milliseconds. A
/// program that was left running may go on writing.
const LAST: u64 = 1_000;

/// The standard error of a child.
#[derive(Drop)]
struct Source {
    out: ChildStderr,
    tale: Tale,
}

impl Source {
    /// Reads a piece and prints its lines. Returns whether more may follow.
    fn read<R: Wait + Copy + Drop>(
        &mut self,
        alloc: Global,
        voice: &Voice<R>,
        moment: u64,
    ) -> bool {
        let mut piece = [0u8; PIECE];
        match self.out.read(&mut piece) {
            Ok(0) => {
                self.tale.end(alloc, voice);
                false
            }
            Ok(count) => {
                let bytes = piece.get(..count).unwrap_or(&[]);
                self.tale.hear(alloc, voice, bytes, moment);
                true
            }
            Err(e) => e.kind() == ErrorKind::Interrupted,
        }
    }
}

/// Reads the standard errors of children and prints their lines. Output is skipped if memory for it
/// is refused.
#[derive(Drop)]
pub struct Listener<R: SystemClock + Drop> {
    rt: R,
    alloc: Global,
    wall: Wall<R>,
    voice: Voice<R>,
    secrets: Secrets,
    pipes: ErrorPipes,
    sources: Vec<Source>,
    /// The moment at which reading stops, once all scripts have ended.
    end: Option<u64>,
}

impl<R: Wait + SystemClock + Copy + Drop> Listener<R> {
    /// Creates a listener for children that are started later.
    pub fn new(
        rt: R,
        alloc: Global,
        voice: Voice<R>,
        secrets: Secrets,
        pipes: ErrorPipes,
    ) -> Listener<R> {
        Listener {
            rt,
            alloc,
            wall: Wall::new(rt),
            voice,
            secrets,
            pipes,
            sources: Vec::new(alloc),
            end: None,
        }
    }

    /// Takes the pipes of new children.
    fn take_new(&mut self) {
        for pipe in self.pipes.take(&self.rt) {
            let ErrorPipe { script, out } = pipe;
            let number = u8::try_from(script).unwrap_or(u8::MAX);
            if let Ok(masker) = masker_of(self.alloc, &self.secrets) {
                let tale = Tale::new(self.alloc, Manner::Numbered(number), masker);
                let _ = self.sources.push(Source { out, tale });
            }
        }
    }

    /// Waits up to `wait` milliseconds until a pipe can be read. Returns the answers of poll(2).
    fn polled(&self, wait: i32) -> Result<Vec<pollfd>, AllocError> {
        let mut asked = Vec::new(self.alloc);
        for source in &self.sources {
            let Ok(()) = asked.push(pollfd {
                fd: source.out.as_raw_fd(),
                events: POLLIN,
                revents: 0,
            }) else {
                return Err(AllocError);
            };
        }
        let _ = poll(asked.as_mut_slice(), wait);
        Ok(asked)
    }

    /// Reads a piece from each pipe that is ready, and prints held bytes that are due. Returns
    /// whether any pipe was ready.
    fn read_all(&mut self, asked: &[pollfd]) -> bool {
        let moment = self.wall.now();
        let Listener {
            alloc,
            voice,
            sources,
            ..
        } = self;
        let mut at: usize = 0;
        let mut has_read = false;
        sources.retain_mut(|source| {
            let is_ready = asked.get(at).is_some_and(|it| it.revents != 0);
            at = at.saturating_add(1);
            has_read |= is_ready;
            if is_ready {
                return source.read(*alloc, voice, moment);
            }
            source.tale.look(*alloc, voice, moment);
            true
        });
        has_read
    }

    /// Waits for output once, for up to `wait` milliseconds. Returns whether there was any.
    fn listen(&mut self, wait: i32) -> bool {
        self.take_new();
        match self.polled(wait) {
            Ok(asked) => self.read_all(asked.as_slice()),
            Err(_) => false,
        }
    }

    /// Returns whether reading stops now, given that all scripts have ended.
    fn is_due(&mut self) -> bool {
        let now = self.wall.now();
        match self.end {
            Some(end) => end <= now,
            None => {
                self.end = Some(now.saturating_add(LAST));
                false
            }
        }
    }

    /// Prints all held bytes.
    fn tell_held(&mut self) {
        for source in &mut self.sources {
            source.tale.end(self.alloc, &self.voice);
        }
    }
}

impl<R: Wait + SystemClock + Copy + Drop> Tells<()> for Listener<R> {
    fn tell_next<W: Wait + SystemClock>(&mut self, _rt: &W, post: &Post<()>) -> bool {
        if !post.is_over() {
            self.listen(LOOK);
            return true;
        }
        if !self.is_due() && self.listen(0) {
            return true;
        }
        self.tell_held();
        false
    }
}
