//! A device that counts its calls and the calls that failed.

ghost use Rattle.std.specs.Prelude.{◌≡◌, ◌+◌, ◌^◌, ◌<◌};
ghost use Rattle.std.specs.Io.{ReadsAtMost, WritesAtMost};
ghost use Rattle.std.specs.Io.KnownBytes.{ReadConsumes, WriteAppends};
ghost use Rattle.child_events.specs.Counting.{CountsFailure};

use std::io;
use std::io::{ErrorKind, Read, Write};

/// A device with its counts. Every error except `Interrupted` is a failure.
#[derive(Drop)]
pub struct Counted<T> {
    pub device: T,
    /// The number of calls that failed.
    pub failures: u64,
    /// The number of calls.
    pub calls: u64,
}

impl<T> Counted<T> {
    /// Wraps a device, with both counts at 0.
    pub fn new(device: T) -> Self
        ensures device { result.device ≡ device }
        ensures failures { result.failures ≡ 0 }
        ensures calls { result.calls ≡ 0 }
    {
        Counted {
            device,
            failures: 0,
            calls: 0,
        }
    }

    /// Returns the number of calls that failed.
    pub fn failures(&self) -> u64
        ensures { result ≡ self.now.failures }
    {
        self.failures
    }

    /// Returns the number of calls.
    pub fn calls(&self) -> u64
        ensures { result ≡ self.now.calls }
    {
        self.calls
    }

    /// Counts a call of the device that returned `answer`.
    fn count(&mut self, answer: &io::Result<usize>)
        requires failures { self.old.failures < 2 ^ 63 }
        requires calls { self.old.calls < 2 ^ 63 }
        ensures device { self.new.device ≡ self.old.device }
        ensures calls { self.new.calls ≡ self.old.calls + 1 }
        ensures failures { CountsFailure answer.now self.old.failures self.new.failures }
    {
        let Counted {
            failures,
            calls,
            ..
        } = self;
        *calls += 1;
        if let Err(e) = answer {
            if e.kind() != ErrorKind::Interrupted {
                *failures += 1;
            }
        }
    }
}

impl<T: Read> Counted<T> {
    /// Reads once from the device and returns the device's result. Counts the call.
    pub fn read(&mut self, buf: &mut [u8]) -> io::Result<usize>
        requires failures { self.old.failures < 2 ^ 63 }
        requires calls { self.old.calls < 2 ^ 63 }
        ensures bound { ReadsAtMost result buf.new }
        ensures bytes { ReadConsumes (T.remaining self.old.device) (T.remaining self.new.device) result buf.new }
        ensures calls { self.new.calls ≡ self.old.calls + 1 }
        ensures failures { CountsFailure result self.old.failures self.new.failures }
    {
        let answer = self.device.read(buf);
        self.count(&answer);
        answer
    }
}

impl<T: Write> Counted<T> {
    /// Writes once to the device and returns the device's result. Counts the call.
    pub fn write(&mut self, buf: &[u8]) -> io::Result<usize>
        requires failures { self.old.failures < 2 ^ 63 }
        requires calls { self.old.calls < 2 ^ 63 }
        ensures bound { WritesAtMost result buf.now }
        ensures bytes { WriteAppends (T.contents self.old.device) (T.contents self.new.device) result buf.now }
        ensures calls { self.new.calls ≡ self.old.calls + 1 }
        ensures failures { CountsFailure result self.old.failures self.new.failures }
    {
        let answer = self.device.write(buf);
        self.count(&answer);
        answer
    }
}
