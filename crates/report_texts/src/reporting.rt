//! Writes reports one by one, so that memory refused to one report doesn't affect others.

ghost use Rattle.std.specs.Prelude.{◌≡◌, ◌≤◌, ◌++◌, ◌&&◌, [], length, vec_capacity, IfOk};
ghost use Rattle.session.specs.Spent.{memory_report};
ghost use Rattle.report_texts.specs.Devices.{Writes};
ghost use Rattle.report_texts.specs.Form.{part_bytes, middle as middle_of, closing};
ghost use Rattle.report_texts.specs.Written.{AreParts, AreSpares, WritesOne, WritesParts, WritesAll};

use crate::devices::{Unwritten, write_all};
use crate::form::{Form, Format, Spares};
use crate::tally::write_counts;
use crate::texts::{head_text, is_done, tail_text};
use child_events::Counted;
use session::{Ending, Report};
use std::alloc::{AllocError, Global};
use std::io::Write;
use tcl_words::Text;

/// The texts before and after the transcript in a report's part. An unchanged transcript is written
/// without copying it.
#[derive(Drop)]
struct Around {
    head: Text,
    tail: Text,
}

/// Returns the bytes of a transcript that are written without copying it: all of it in whole
/// reports that aren't for terminals, otherwise none.
fn middle(format: Format, transcript: &[u8]) -> &[u8]
    ensures { result.now ≡ middle_of format transcript.now }
{
    match format {
        Format::Text => transcript,
        Format::Bare => &transcript[..0],
        Format::Escaped => &transcript[..0],
        Format::Summary => &transcript[..0],
        Format::Json => &transcript[..0],
        Format::JsonLines => &transcript[..0],
        Format::Tap => &transcript[..0],
    }
}

impl Around {
    /// Returns the texts for the report of script `number`.
    fn of(alloc: Global, form: &Form, number: usize, report: &Report) -> Result<Around, AllocError>
        ensures { IfOk result (λ a. a.head ++ middle_of form.now.format report.now.transcript ++ a.tail ≡ part_bytes form.now number report.now) }
    {
        match form.format {
            Format::Text => Ok(Around {
                head: head_text(alloc, number, report)?,
                tail: tail_text(alloc, form.shown, report.fault.as_slice(), report)?,
            }),
            Format::Bare
            | Format::Escaped
            | Format::Summary
            | Format::Json
            | Format::JsonLines
            | Format::Tap => Ok(Around {
                head: form.part(alloc, number, report)?,
                tail: Text::new(alloc),
            }),
        }
    }

    /// Writes both texts, with `middle` between them.
    fn write<W: Write>(&self, middle: &[u8], out: &mut Counted<W>) -> Result<(), Unwritten>
        requires failures { out.old.failures ≡ 0 }
        requires calls { out.old.calls ≤ 1099511627776 }
        ensures { Writes (self.now.head ++ middle.now ++ self.now.tail) (W.contents out.old.device) (W.contents out.new.device) out.new.failures out.new.calls result }
    {
        let Ok(()) = write_all(out, self.head.as_slice()) else {
            return Err(Unwritten);
        };
        let Ok(()) = write_all(out, middle) else {
            return Err(Unwritten);
        };
        write_all(out, self.tail.as_slice())
    }
}

/// Writes the part of script `number`'s report, and returns the ending that was written. If the
/// part is refused memory, writes the spare part: that of a script that was refused memory.
fn write_report<W: Write>(
    alloc: Global,
    form: &Form,
    number: usize,
    report: &Report,
    spare: &[u8],
    out: &mut Counted<W>,
) -> Result<Ending, Unwritten>
    requires spare { spare.now ≡ part_bytes form.now number memory_report }
    requires failures { out.old.failures ≡ 0 }
    requires calls { out.old.calls ≤ 1099511627776 }
    ensures { WritesOne form.now number report.now (W.contents out.old.device) (W.contents out.new.device) out.new.failures out.new.calls result }
{
    match Around::of(alloc, form, number, report) {
        Ok(around) => match around.write(middle(form.format, report.transcript.as_slice()), out) {
            Ok(()) => Ok(report.ending),
            Err(_) => Err(Unwritten),
        },
        Err(_) => match write_all(out, spare) {
            Ok(()) => Ok(Ending::Memory),
            Err(_) => Err(Unwritten),
        },
    }
}

fn both(first: bool, second: bool) -> bool
    ensures { result ≡ (first && second) }
{
    first && second
}

/// Writes the parts of reports in order, beginning with script 1. If a part is refused memory,
/// writes the spare part of its script instead. Returns whether all written endings are status 0.
fn write_parts<W: Write>(
    alloc: Global,
    form: &Form,
    reports: &[Report],
    parts: &[Text],
    endings: &mut Vec<Ending>,
    out: &mut Counted<W>,
) -> Result<bool, Unwritten>
    requires parts { AreParts form.now (length reports.now) parts.now }
    requires none { endings.old.items ≡ [] }
    requires room { length reports.now ≤ vec_capacity endings.old }
    requires failures { out.old.failures ≡ 0 }
    requires calls { out.old.calls ≤ 1099511627776 }
    ensures { WritesParts form.now reports.now (W.contents out.old.device) (W.contents out.new.device) out.new.failures out.new.calls endings.new.items result }
{
    let mut well = true;
    for i in 0..reports.len() {
        let spare = parts[i].as_slice();
        let Ok(ending) = write_report(alloc, form, i + 1, &reports[i], spare, out) else {
            return Err(Unwritten);
        };
        well = both(well, is_done(ending));
        endings.push_reserved(ending);
    }
    Ok(well)
}

/// Writes the text after the parts of reports with these endings. It does not allocate.
fn write_closing<W: Write>(
    format: Format,
    endings: &[Ending],
    out: &mut Counted<W>,
) -> Result<(), Unwritten>
    requires failures { out.old.failures ≡ 0 }
    requires calls { out.old.calls ≤ 1099511627776 }
    ensures { Writes (closing format endings.now) (W.contents out.old.device) (W.contents out.new.device) out.new.failures out.new.calls result }
{
    match format {
        Format::Text => write_all(out, b""),
        Format::Bare => write_all(out, b""),
        Format::Escaped => write_all(out, b""),
        Format::Summary => write_counts(endings, out),
        Format::Json => write_all(out, b"\n]\n"),
        Format::JsonLines => write_all(out, b""),
        Format::Tap => write_all(out, b""),
    }
}

/// Writes reports in a form, in order, beginning with script 1. If a part is refused memory, writes
/// the spare part of its script instead. Returns whether all written endings are status 0.
pub fn write_reports<W: Write>(
    alloc: Global,
    form: &Form,
    reports: &[Report],
    spares: Spares,
    out: &mut Counted<W>,
) -> Result<bool, Unwritten>
    requires spares { AreSpares form.now (length reports.now) spares }
    requires failures { out.old.failures ≡ 0 }
    requires calls { out.old.calls ≡ 0 }
    ensures { WritesAll form.now reports.now (W.contents out.old.device) (W.contents out.new.device) out.new.failures out.new.calls result }
{
    let Spares {
        opening,
        parts,
        mut endings,
    } = spares;
    let Ok(()) = write_all(out, opening.as_slice()) else {
        return Err(Unwritten);
    };
    let Ok(well) = write_parts(alloc, form, reports, parts.as_slice(), &mut endings, out) else {
        return Err(Unwritten);
    };
    let Ok(()) = write_closing(form.format, endings.as_slice(), out) else {
        return Err(Unwritten);
    };
    Ok(well)
}
