//! A keeper whose children write a line, and a gate that refuses.

ghost use Rattle.std.specs.Prelude.{◌≡◌, ◌+◌, ◌^◌, ◌<◌, ◌≤◌, ⊤, length, IfOk};

use child_events::{Answer, Cause};
use child_hands::{Gate, Keeper};
use std::alloc::{AllocError, Global};
use std::io::Read;
use std::sync::atomic::{AtomicU64, Ordering};
use std::time::Duration;
use std::{io, thread};
use tcl_words::{Text, Texts};

/// The output of each child.
pub const LINE: &[u8] = b"hi\n";

/// Gives the line and then the end. With `pause`, gives the end after a second, and no line.
#[derive(Drop)]
pub struct LineDevice {
    pause: Option<HostRuntime>,
    over: bool,
}

impl LineDevice {
    /// Creates a device, with a pause or without.
    pub fn new(pause: Option<HostRuntime>) -> LineDevice {
        LineDevice { pause, over: false }
    }
}

impl Read for LineDevice {
    fn read(&mut self, buf: &mut [u8]) -> io::Result<usize> {
        if self.over || buf.len() < LINE.len() {
            return Ok(0);
        }
        self.over = true;
        if let Some(rt) = &self.pause {
            thread::sleep(rt, Duration::from_secs(1));
            return Ok(0);
        }
        buf[..LINE.len()].copy_from_slice(LINE);
        Ok(LINE.len())
    }
}

/// A keeper that starts no programs. Writes to its children succeed or fail, as `takes` says. They
/// exit with status 5.
#[derive(Drop)]
pub struct Liner {
    pause: Option<HostRuntime>,
    takes: bool,
    calls: u64,
    failures: u64,
    ghost fewer: { failures ≤ calls },
}

/// Creates `count` keepers to whose children writes succeed.
pub fn liners(alloc: Global, count: usize) -> Result<Vec<Liner>, AllocError>
    ensures { IfOk result (λ keepers. length keepers.items ≡ count) }
{
    let mut keepers = Vec::new(alloc);
    for _ in 0..count {
        let Ok(()) = keepers.push(Liner::new(None, true)) else {
            return Err(AllocError);
        };
    }
    Ok(keepers)
}

impl Liner {
    /// Creates a keeper. Its children give what a [`Line`] with this pause gives. Writes succeed if
    /// `takes`.
    pub fn new(pause: Option<HostRuntime>, takes: bool) -> Liner
        ensures { result.calls ≡ 0 }
    {
        Liner {
            pause,
            takes,
            calls: 0,
            failures: 0,
        }
    }

    fn count(&mut self)
        requires { self.old.calls < 2 ^ 63 }
        ensures { (self.new.calls ≡ self.old.calls + 1) × (self.new.failures ≡ self.old.failures) }
    {
        self.calls += 1;
    }

    fn count_failed(&mut self)
        requires { self.old.calls < 2 ^ 63 }
        ensures { (self.new.calls ≡ self.old.calls + 1) × (self.new.failures ≡ self.old.failures + 1) }
    {
        self.calls += 1;
        self.failures += 1;
    }
}

impl Keeper for Liner {
    type Out = LineDevice;

    ghost named = { λ _. 7 };

    ghost made = { λ k. k.calls };

    ghost failed = { λ k. k.failures };

    ghost told = { λ _ _ _ _. ⊤ };

    ghost gives = { λ _ _ _. ⊤ };

    fn spawn(&mut self, _child: u8, _argv: &Texts) -> Result<LineDevice, Cause> {
        self.count();
        Ok(LineDevice::new(self.pause))
    }

    fn write(&mut self, _child: u8, _bytes: &Text) -> Result<(), Cause> {
        if self.takes {
            self.count();
            return Ok(());
        }
        self.count_failed();
        Err(Cause::Broken)
    }

    fn end(&mut self, _child: u8) -> Result<(), Cause> {
        self.count();
        Ok(())
    }

    fn close(&mut self, _child: u8) -> Result<(), Cause> {
        self.count();
        Ok(())
    }

    fn wait(&mut self, _child: u8) -> Answer {
        self.count();
        Answer::Exit(5)
    }

    fn name(&self) -> u64 {
        7
    }

    fn calls(&self) -> u64 {
        self.calls
    }

    fn failures(&self) -> u64 {
        self.failures
    }
}

/// Refuses each request to child 1 three times, and requests to other children always.
#[derive(Drop)]
pub struct Turnstile {
    asked: AtomicU64,
}

impl Turnstile {
    /// Creates a gate that was never asked.
    pub fn new() -> Turnstile {
        Turnstile {
            asked: AtomicU64::new(0),
        }
    }

    /// Returns the number of calls of `pass`.
    pub fn asked(&self) -> u64 {
        self.asked.load(Ordering::SeqCst)
    }
}

impl Gate for Turnstile {
    fn pass(&self, _script: u8, child: u8, turn: u64) -> bool {
        self.asked.fetch_add(1, Ordering::SeqCst);
        child == 1 && turn == 3
    }
}
