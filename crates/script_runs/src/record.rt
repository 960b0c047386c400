//! Where the record of a run goes.

ghost use Rattle.std.specs.Prelude.{◌≡◌, OnSome, None};
ghost use Rattle.std.specs.Io.{WritesAtMost};
ghost use Rattle.std.specs.Io.KnownBytes as known;
ghost use Rattle.script_runs.specs.Record.{Keeps, KeepsTaken, contents_of};

use std::io::{self, Write};
use tcl_words::Text;

/// Takes a record. Passes it on to a file, if there is one, and keeps it, if that is requested.
#[derive(Drop)]
pub struct Record<F: Drop> {
    file: Option<F>,
    /// The bytes taken. `None` if they are not requested, or if memory for them was refused.
    kept: Option<Text>,
}

/// Appends bytes to those that are kept. If memory for them is refused, nothing is kept from then
/// on.
fn keep(kept: &mut Option<Text>, bytes: &[u8])
    ensures { Keeps kept.old bytes.now kept.new }
{
    let Some(text) = kept else {
        return;
    };
    if text.extend(bytes).is_err() {
        *kept = None;
    }
}

impl<F: Drop> Record<F> {
    /// Creates a taker of a record. The record is appended to the text in `kept`.
    pub fn new(file: Option<F>, kept: Option<Text>) -> Record<F>
        ensures file { result.file ≡ file }
        ensures kept { result.kept ≡ kept }
    {
        Record { file, kept }
    }

    /// Returns the file, and the kept text, if memory for it was never refused.
    pub fn into_parts(self) -> (Option<F>, Option<Text>)
        ensures file { result.0 ≡ self.file }
        ensures kept { result.1 ≡ self.kept }
    {
        let Record { file, kept } = self;
        (file, kept)
    }
}

impl<F: Write + Drop> Write for Record<F> {
    ghost contents = { λ r. contents_of F.contents r.file };

    fn write(&mut self, buf: &[u8]) -> io::Result<usize>
        ensures bound { WritesAtMost result buf.now }
        ensures bytes { known.WriteAppends (contents_of F.contents self.old.file) (contents_of F.contents self.new.file) result buf.now }
        ensures kept { KeepsTaken self.old.kept buf.now result self.new.kept }
    {
        let taken = match &mut self.file {
            Some(file) => file.write(buf)?,
            None => buf.len(),
        };
        keep(&mut self.kept, &buf[..taken]);
        Ok(taken)
    }

    fn flush(&mut self) -> io::Result<()>
        ensures bytes { known.Keeps (contents_of F.contents self.old.file) (contents_of F.contents self.new.file) }
        ensures kept { self.new.kept ≡ self.old.kept }
    {
        match &mut self.file {
            Some(file) => file.flush(),
            None => Ok(()),
        }
    }
}
