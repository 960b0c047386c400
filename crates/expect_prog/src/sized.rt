//! Logs of a bounded size.

use std::io::{self, ErrorKind, Read};

/// The greatest size of a log that is read, 4 GiB. About 2 GB of output make a log of this size.
pub const LONGEST_LOG: u64 = 4_294_967_296;

/// The greatest length of a log's line, in bytes.
const LONGEST_LINE: u64 = 8_219;

/// Reads a device up to `LONGEST_LOG` bytes. A read past that fails.
///
/// If lines are bounded too, reading ends in the first line that is too long for a log. The text
/// after that line doesn't change the log's error.
#[derive(Drop)]
pub struct Bounded<D: Drop> {
    device: D,
    /// The number of bytes that may still be read.
    left: u64,
    is_over: bool,
    /// The number of bytes read of the last line, if lines are bounded.
    line: Option<u64>,
}

/// Returns the length of the last line after `line` of its bytes and then `bytes`.
fn line_behind(line: u64, bytes: &[u8]) -> u64 {
    let mut line = line;
    for byte in bytes {
        line = if *byte == b'\n' {
            0
        } else {
            line.saturating_add(1)
        };
    }
    line
}

impl<D: Drop> Bounded<D> {
    /// Bounds what is read of a device. With `has_lines` its lines are counted.
    pub fn new(device: D, has_lines: bool) -> Bounded<D> {
        Bounded {
            device,
            left: LONGEST_LOG,
            is_over: false,
            line: if has_lines { Some(0) } else { None },
        }
    }

    /// Returns whether a read went past the bound.
    pub fn is_over(&self) -> bool {
        self.is_over
    }
}

impl<D: Read + Drop> Read for Bounded<D> {
    fn read(&mut self, buf: &mut [u8]) -> io::Result<usize> {
        if matches!(self.line, Some(line) if line > LONGEST_LINE) {
            return Ok(0);
        }
        let count = self.device.read(buf)?;
        if count as u64 > self.left {
            self.is_over = true;
            return Err(io::Error::from(ErrorKind::FileTooLarge));
        }
        self.left = self.left.saturating_sub(count as u64);
        if let Some(line) = self.line {
            self.line = Some(line_behind(line, &buf[..count]));
        }
        Ok(count)
    }
}
