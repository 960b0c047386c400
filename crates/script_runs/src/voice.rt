//! What is printed on standard error while scripts run. A separate thread writes it, so that no
//! dialogue waits for a reader.

ghost use Rattle.std.specs.Prelude.{◌≡◌, ◌↔◌, IsTrue, IfOk, OnOk, IsErr};
ghost use Rattle.script_runs.specs.Voice.{HasRoom, Drops, Keeps, notice as notice_of};

use crate::driving::DriveFault;
use crate::teller::{Post, Teller, Tells};
use report_texts::push_labelled;
use std::alloc::{AllocError, Global};
use std::io::{ErrorKind, Write};
use std::sync::atomic::{AtomicU64, Ordering};
use std::sync::{Arc, Wait};
use std::thread;
use std::thread::Threads;
use std::time::{Clock, Duration};
use tcl_words::Text;

/// The greatest length of the kept text, in bytes, at which more is kept.
const MOST: usize = 262_144;

/// The greatest number of bytes written at once.
const PIECE: usize = 4_096;

/// How long the end of a run waits for a reader that reads nothing, in milliseconds.
const PATIENCE: u64 = 1_000;

/// The greatest pause between two checks whether everything is written, in milliseconds.
const PAUSE: u64 = 16;

/// Stands for a reader that was never given up.
const NEVER: u64 = u64::MAX;

/// What is not written yet.
#[derive(Drop)]
pub struct Speech {
    /// What scripts show.
    text: Text,
    /// The number of bytes from scripts that were dropped after it.
    lost: u64,
    /// The new line of the run, if it changed.
    line: Option<Text>,
    /// Whether everything is written.
    is_told: bool,
}

impl Speech {
    /// Creates an empty state.
    fn new(alloc: Global) -> Speech {
        Speech {
            text: Text::new(alloc),
            lost: 0,
            line: None,
            is_told: true,
        }
    }

    /// Returns whether there is room for more: the kept text is not too long, and no bytes were
    /// dropped after it.
    fn has_room(&self) -> bool
        ensures { IsTrue result ↔ HasRoom self.now }
    {
        self.lost == 0 && self.text.len() <= MOST
    }

    /// Counts dropped bytes.
    fn drop_bytes(&mut self, shown: usize)
        ensures { Drops self.old shown self.new }
    {
        self.lost = self.lost.saturating_add(shown as u64);
    }

    /// Keeps the text of `shown` bytes from a script if there is room. Otherwise, or if memory is
    /// refused, drops it and counts the bytes.
    fn keep(&mut self, text: &[u8], shown: usize) -> Result<(), AllocError>
        ensures kept { OnOk result (Keeps self.old text.now shown self.new) }
        ensures refused { IsErr result → HasRoom self.old × Drops self.old shown self.new }
    {
        self.is_told = false;
        if !self.has_room() {
            self.drop_bytes(shown);
            return Ok(());
        }
        let Ok(()) = self.text.extend(text) else {
            self.drop_bytes(shown);
            return Err(AllocError);
        };
        Ok(())
    }

    /// Keeps the line of the run, in place of an earlier one.
    fn put_line(&mut self, line: Text) {
        self.is_told = false;
        self.line = Some(line);
    }

    /// Takes everything. `None` if everything is written.
    fn take(&mut self, alloc: Global) -> Option<Speech> {
        if self.text.len() == 0 && self.lost == 0 && self.line.is_none() {
            self.is_told = true;
            return None;
        }
        let mut taken = Speech::new(alloc);
        taken.is_told = false;
        Some(std::mem::replace(self, taken))
    }
}

/// Returns the line that says how many bytes were dropped.
#[tactic(auto, unfolding(crate::specs::Voice::notice))]
fn notice(alloc: Global, lost: u64) -> Result<Text, AllocError>
    ensures { IfOk result (λ text. text ≡ notice_of lost) }
{
    let mut text = Text::new(alloc);
    push_labelled(alloc, &mut text, b"exprun: ", u128::from(lost))?;
    text.extend(b" bytes of what scripts showed were not told, since nobody read them\n")?;
    Ok(text)
}

/// Writes what scripts show.
#[derive(Drop)]
pub struct Speaker<E: Drop> {
    alloc: Global,
    to: E,
    /// The number of bytes written.
    written: Arc<AtomicU64>,
    /// Whether the last text ended a line.
    is_line: bool,
}

impl<E: Write + Drop> Speaker<E> {
    /// Writes bytes. Gives up after a failed write. A write that was interrupted or would block is
    /// tried again.
    fn write<R: Wait + Clock>(&mut self, rt: &R, bytes: &[u8]) {
        let mut from: usize = 0;
        for _ in rt.forever() {
            if bytes.len() <= from {
                return;
            }
            let till = from.saturating_add(PIECE).min(bytes.len());
            match self.to.write(&bytes[from..till]) {
                Ok(0) => return,
                Ok(count) => {
                    from = from.saturating_add(count);
                    self.written.fetch_add(count as u64, Ordering::SeqCst);
                }
                Err(e) => match e.kind() {
                    ErrorKind::Interrupted => {}
                    ErrorKind::WouldBlock => thread::sleep(rt, Duration::from_millis(PAUSE)),
                    _ => return,
                },
            }
        }
    }

    /// Writes a text of scripts.
    fn write_text<R: Wait + Clock>(&mut self, rt: &R, text: &[u8]) {
        self.write(rt, text);
        if let [.., last] = text {
            self.is_line = *last == b'\n';
        }
    }

    /// Writes how many bytes were dropped, on a separate line.
    fn write_lost<R: Wait + Clock>(&mut self, rt: &R, lost: u64) {
        if lost == 0 {
            return;
        }
        if !self.is_line {
            self.write_text(rt, b"\n");
        }
        if let Ok(line) = notice(self.alloc, lost) {
            self.write_text(rt, line.as_slice());
        }
    }
}

impl<E: Write + Drop> Tells<Speech> for Speaker<E> {
    fn tell_next<R: Wait + Clock>(&mut self, rt: &R, post: &Post<Speech>) -> bool {
        let mut held = post.held.lock(rt);
        let taken = held.take(self.alloc);
        drop(held);
        let Some(
            Speech {
                text,
                lost,
                line,
                ..
            },
        ) = taken
        else {
            return false;
        };
        self.write_text(rt, text.as_slice());
        self.write_lost(rt, lost);
        if let Some(line) = line {
            self.write(rt, line.as_slice());
        }
        true
    }
}

/// Passes on what is to be written. Only `await_told` waits for a reader.
#[derive(Drop)]
pub struct Voice<R: Drop> {
    rt: R,
    post: Arc<Post<Speech>>,
    /// The number of bytes written.
    written: Arc<AtomicU64>,
    /// The number of bytes written when a reader was last given up.
    given_up: Arc<AtomicU64>,
}

impl<R: Copy + Drop> Voice<R> {
    /// Returns the same voice, for another holder.
    pub fn shared(&self) -> Result<Voice<R>, AllocError> {
        Ok(Voice {
            rt: self.rt,
            post: Arc::try_clone(&self.post)?,
            written: Arc::try_clone(&self.written)?,
            given_up: Arc::try_clone(&self.given_up)?,
        })
    }
}

impl<R: Wait + Copy + Drop> Voice<R> {
    /// Passes on the text of `shown` bytes from a script. If there is no room or no memory for it,
    /// drops it and counts the bytes.
    pub fn tell(&self, text: &[u8], shown: usize) {
        if text.is_empty() {
            return;
        }
        let mut held = self.post.held.lock(&self.rt);
        let _ = held.keep(text, shown);
        drop(held);
        self.post.ring();
    }

    /// Passes on the line of the run. An earlier line that is not written yet is dropped.
    pub fn put_line(&self, line: Text) {
        let mut held = self.post.held.lock(&self.rt);
        held.put_line(line);
        drop(held);
        self.post.ring();
    }

    fn is_told(&self) -> bool {
        let held = self.post.held.lock(&self.rt);
        held.is_told
    }
}

impl<R: Wait + Clock + Copy + Drop> Voice<R> {
    /// Waits until everything is written, unless nothing is read for a second. Returns whether
    /// everything is written.
    pub fn await_told(&self) -> bool {
        let mut seen = self.written.load(Ordering::SeqCst);
        let mut still: u64 = 0;
        let mut pause = 1;
        for _ in self.rt.forever() {
            if self.is_told() {
                return true;
            }
            if still >= PATIENCE || self.given_up.load(Ordering::SeqCst) == seen {
                self.given_up.store(seen, Ordering::SeqCst);
                return false;
            }
            thread::sleep(&self.rt, Duration::from_millis(pause));
            still = still.saturating_add(pause);
            pause = pause.saturating_mul(2).min(PAUSE);
            let now = self.written.load(Ordering::SeqCst);
            if now != seen {
                seen = now;
                still = 0;
            }
        }
        unreachable!()
    }
}

/// Creates a number that several threads share.
fn shared_number(alloc: Global, number: u64) -> Result<Arc<AtomicU64>, AllocError> {
    Ok(Arc::new(alloc, AtomicU64::new(number))?)
}

/// The thread that writes.
#[derive(Drop)]
pub struct Speaking<R: Drop, E: Drop> {
    pub voice: Voice<R>,
    teller: Teller<Speech, Speaker<E>>,
}

impl<
    R: Threads + Wait + Clock + Copy + Send + Drop + 'static,
    E: Write + Send + Drop + 'static,
> Speaking<R, E> {
    /// Starts a thread that writes on `to`.
    pub fn start(rt: R, alloc: Global, to: E) -> Result<Speaking<R, E>, DriveFault> {
        let written = shared_number(alloc, 0)?;
        let speaker = Speaker {
            alloc,
            to,
            written: Arc::try_clone(&written)?,
            is_line: true,
        };
        let teller = Teller::start(rt, alloc, Speech::new(alloc), speaker)?;
        let voice = Voice {
            rt,
            post: Arc::try_clone(&teller.post)?,
            written,
            given_up: shared_number(alloc, NEVER)?,
        };
        Ok(Speaking { voice, teller })
    }

    /// Waits until everything is written, but not for a reader that reads nothing for a second. In
    /// that case the thread is left running.
    pub fn end(self, rt: &R) {
        let Speaking { voice, teller } = self;
        if voice.await_told() {
            drop(teller.end(rt));
        }
    }
}
