//! Counts scripts by their endings.

ghost use Rattle.std.specs.Prelude.{◌≡◌, ◌≤◌, ◌++◌, ◌∷◌, [], length};
ghost use Rattle.std.specs.Fmt.{decimal};
ghost use Rattle.report_texts.specs.Devices.{Writes};
ghost use Rattle.report_texts.specs.Report.{labelled};
ghost use Rattle.report_texts.specs.Line.{is_of as is_of_kind, how_many as how_many_are, kind_label, kinds_text, counts_line};

use crate::devices::{Unwritten, write_all};
use crate::texts::is_done;
use child_events::Counted;
use itoa::Buffer;
use session::Ending;
use std::io::Write;

/// The kinds of endings that a summary counts.
#[derive(Clone, Copy)]
pub enum Kind {
    /// With status 0.
    Well,
    /// With any status.
    Exit,
    Error,
    StepLimit,
    TimeLimit,
    Memory,
    Waiting,
}

/// Returns whether an ending is of a kind.
fn is_of(kind: Kind, ending: Ending) -> bool
    ensures { result ≡ is_of_kind kind ending }
{
    match kind {
        Kind::Well => is_done(ending),
        Kind::Exit => matches!(&ending, Ending::Exit(_)),
        Kind::Error => matches!(&ending, Ending::Error),
        Kind::StepLimit => matches!(&ending, Ending::StepLimit),
        Kind::TimeLimit => matches!(&ending, Ending::TimeLimit),
        Kind::Memory => matches!(&ending, Ending::Memory),
        Kind::Waiting => matches!(&ending, Ending::Waiting),
    }
}

/// Returns the number of endings of a kind.
fn how_many(kind: Kind, endings: &[Ending]) -> usize
    ensures { result ≡ how_many_are kind endings.now }
{
    let mut count = 0;
    for ending in endings {
        if is_of(kind, *ending) {
            count += 1;
        }
    }
    count
}

/// Returns the label before the count of a kind.
fn label(kind: Kind) -> &'static [u8]
    ensures { result.now ≡ kind_label kind }
{
    match kind {
        Kind::Well => b" well=",
        Kind::Exit => b" exit=",
        Kind::Error => b" error=",
        Kind::StepLimit => b" steplimit=",
        Kind::TimeLimit => b" timelimit=",
        Kind::Memory => b" memory=",
        Kind::Waiting => b" waiting=",
    }
}

/// Writes a label and a number. It does not allocate.
#[tactic(auto, unfolding(crate::specs::Report::labelled))]
fn write_labelled<W: Write>(
    label: &[u8],
    number: usize,
    out: &mut Counted<W>,
) -> Result<(), Unwritten>
    requires failures { out.old.failures ≡ 0 }
    requires calls { out.old.calls ≤ 1099511627776 }
    ensures { Writes (labelled label.now number) (W.contents out.old.device) (W.contents out.new.device) out.new.failures out.new.calls result }
{
    let mut digits = Buffer::new();
    let Ok(()) = write_all(out, label) else {
        return Err(Unwritten);
    };
    write_all(out, digits.format(number).as_bytes())
}

/// Writes the number of endings of a kind.
fn write_kind<W: Write>(
    kind: Kind,
    endings: &[Ending],
    out: &mut Counted<W>,
) -> Result<(), Unwritten>
    requires failures { out.old.failures ≡ 0 }
    requires calls { out.old.calls ≤ 1099511627776 }
    ensures { Writes (labelled (kind_label kind) (how_many_are kind endings.now)) (W.contents out.old.device) (W.contents out.new.device) out.new.failures out.new.calls result }
{
    write_labelled(label(kind), how_many(kind, endings), out)
}

/// Writes the number of endings for each of these kinds.
fn write_kinds<W: Write>(
    kinds: &[Kind],
    endings: &[Ending],
    out: &mut Counted<W>,
) -> Result<(), Unwritten>
    requires failures { out.old.failures ≡ 0 }
    requires calls { out.old.calls ≤ 1099511627776 }
    ensures { Writes (kinds_text kinds.now endings.now) (W.contents out.old.device) (W.contents out.new.device) out.new.failures out.new.calls result }
{
    for i in 0..kinds.len() {
        let Ok(()) = write_kind(kinds[i], endings, out) else {
            return Err(Unwritten);
        };
    }
    Ok(())
}

/// Writes the line of counts of scripts with these endings. It does not allocate.
pub fn write_counts<W: Write>(endings: &[Ending], out: &mut Counted<W>) -> Result<(), Unwritten>
    requires failures { out.old.failures ≡ 0 }
    requires calls { out.old.calls ≤ 1099511627776 }
    ensures { Writes (counts_line endings.now) (W.contents out.old.device) (W.contents out.new.device) out.new.failures out.new.calls result }
{
    let kinds = [
        Kind::Well,
        Kind::Exit,
        Kind::Error,
        Kind::StepLimit,
        Kind::TimeLimit,
        Kind::Memory,
        Kind::Waiting,
    ];
    let Ok(()) = write_labelled(b"scripts=", endings.len(), out) else {
        return Err(Unwritten);
    };
    let Ok(()) = write_kinds(&kinds, endings, out) else {
        return Err(Unwritten);
    };
    write_all(out, b"\n")
}
