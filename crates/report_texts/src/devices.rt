//! Reads and writes whole texts.

ghost use Rattle.std.specs.Prelude.{◌≡◌, ◌≢◌, ◌<◌, ◌≤◌, IfOk, IfSome, Err, vec_len};
ghost use Rattle.report_texts.specs.Devices.{Writes, GaveUp};

use child_events::Counted;
use std::alloc::{AllocError, Global};
use std::io::{Read, Write};
use tcl_words::Text;

/// The most reads or writes of a device before it is given up.
pub const MOST_CALLS: u64 = 1_099_511_627_776;

/// The most bytes in one read.
const PIECE: usize = 16_384;

/// Why a device can't be read.
#[derive(Clone, Copy, PartialEq, Eq)]
pub enum ReadFault {
    /// A read failed, or `MOST_CALLS` reads didn't reach the end.
    Failed,
    /// Memory was refused.
    Memory,
}

impl From<AllocError> for ReadFault {
    ghost use Rattle.std.specs.Prelude.{◌≡◌};
    ghost use Rattle.report_texts.specs.declared.devices.ReadFault.TheVariants.{Memory};

    ghost from_gives = { λ _ e. e ≡ Memory };

    fn from(_e: AllocError) -> ReadFault {
        ReadFault::Memory
    }
}

/// A device that didn't take a whole text. A write failed, or `MOST_CALLS` writes were not enough.
#[derive(Clone, Copy, PartialEq, Eq)]
pub struct Unwritten;

/// Creates a buffer for one read.
fn buffer(alloc: Global) -> Result<Vec<u8>, AllocError>
    ensures { IfOk result (λ bytes. 0 < vec_len bytes) }
{
    vec![in alloc; 0; PIECE]
}

/// Reads all remaining bytes of a device. An interrupted read is tried again.
pub fn read_all<R: Read>(alloc: Global, reader: &mut Counted<R>) -> Result<Text, ReadFault>
    requires failures { reader.old.failures ≡ 0 }
    requires calls { reader.old.calls ≡ 0 }
    ensures bytes { IfOk result (λ text. IfSome (R.remaining reader.old.device) (λ bytes. text ≡ bytes)) }
    ensures failed { result ≡ Err ReadFault.Failed → GaveUp reader.new.failures reader.new.calls }
    ensures unfailed { result ≢ Err ReadFault.Failed → reader.new.failures ≡ 0 }
{
    let mut text = Text::new(alloc);
    let mut buffer = buffer(alloc)?;
    'reads: for _ in 0..MOST_CALLS {
        let Ok(count) = reader.read(&mut buffer) else {
            if reader.failures() > 0 {
                return Err(ReadFault::Failed);
            }
            continue;
        };
        if count == 0 {
            return Ok(text);
        }
        text.extend(&buffer[..count])?;
    }
    Err(ReadFault::Failed)
}

/// Writes a whole text. An interrupted write is tried again. Earlier calls count towards the limit.
pub fn write_all<W: Write>(writer: &mut Counted<W>, text: &[u8]) -> Result<(), Unwritten>
    requires failures { writer.old.failures ≡ 0 }
    requires calls { writer.old.calls ≤ MOST_CALLS }
    ensures { Writes text.now (W.contents writer.old.device) (W.contents writer.new.device) writer.new.failures writer.new.calls result }
{
    let mut done = 0;
    'writes: for _ in writer.calls()..MOST_CALLS {
        if done == text.len() {
            return Ok(());
        }
        let Ok(count) = writer.write(&text[done..]) else {
            if writer.failures() > 0 {
                return Err(Unwritten);
            }
            continue;
        };
        done += count;
    }
    Err(Unwritten)
}
