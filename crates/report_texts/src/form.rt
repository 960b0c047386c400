//! The forms of reports.

ghost use Rattle.std.specs.Prelude.{◌≡◌, ◌≤◌, [], vec_capacity, length, IfOk};
ghost use Rattle.session.specs.Spent.{memory_report};
ghost use Rattle.report_texts.specs.Form.{file_of, part_bytes, opening};
ghost use Rattle.report_texts.specs.Written.{AreParts, AreSpares};

use crate::json::{item_text, line_text};
use crate::line::summary_text;
use crate::tap::{plan_text, test_text};
use crate::texts::{Shown, bare_text, escaped_text, report_text};
use secret_words::Secrets;
use session::{Ending, Report};
use std::alloc::{AllocError, Global};
use tcl_words::{Text, Texts};

/// The form of reports.
#[derive(Clone, Copy)]
pub enum Format {
    /// Whole reports.
    Text,
    /// Reports without the transcripts, which were shown before.
    Bare,
    /// Reports for terminals: characters that have an effect there, or aren't visible, are escaped.
    Escaped,
    /// The first line of each report, with its script's file, and a last line of counts.
    Summary,
    /// A JSON array, with one object per script, each on its own line.
    Json,
    /// JSON Lines: one object per script and line.
    JsonLines,
    /// One test of the Test Anything Protocol per script.
    Tap,
}

/// The form of reports, with its options.
#[derive(Drop)]
pub struct Form {
    pub format: Format,
    /// The optional parts of whole reports and of objects.
    pub shown: Shown,
    /// The names of the scripts' files, beginning with that of script 1.
    pub files: Texts,
    /// The secrets of the scripts. Reports show their names.
    pub secrets: Secrets,
}

impl Form {
    /// Returns a copy.
    pub fn copied(&self, alloc: Global) -> Result<Form, AllocError>
        ensures { IfOk result (λ f. f ≡ self.now) }
    {
        Ok(Form {
            format: self.format,
            shown: self.shown,
            files: self.files.copied(alloc)?,
            secrets: self.secrets.copied(alloc)?,
        })
    }

    /// Returns the file of a script, by its number from 1. Empty if there is none.
    fn file(&self, number: usize) -> &[u8]
        ensures { result.now ≡ file_of self.now.files number }
    {
        match self.files.as_slice().get(number.saturating_sub(1)) {
            Some(file) => file.as_slice(),
            None => b"",
        }
    }

    /// Returns the part of script `number`'s report.
    pub fn part(&self, alloc: Global, number: usize, report: &Report) -> Result<Text, AllocError>
        ensures { IfOk result (λ t. t ≡ part_bytes self.now number report.now) }
    {
        match self.format {
            Format::Text => report_text(alloc, self.shown, number, report),
            Format::Bare => bare_text(alloc, self.shown, number, report),
            Format::Escaped => escaped_text(alloc, self.shown, number, report),
            Format::Summary => summary_text(alloc, self.file(number), number, report),
            Format::Json => item_text(alloc, self.shown, self.file(number), number, report),
            Format::JsonLines => line_text(alloc, self.shown, self.file(number), number, report),
            Format::Tap => test_text(alloc, self.file(number), number, report),
        }
    }
}

/// Texts prepared before the first byte of reports is written.
#[derive(Drop)]
pub struct Spares {
    /// The text before the parts of the reports.
    pub opening: Text,
    /// For each script, the part of its report if the script were refused memory.
    pub parts: Vec<Text>,
    /// Room for the endings of the scripts.
    pub endings: Vec<Ending>,
}

/// Returns the text before the parts of this number of reports.
fn opening_text(alloc: Global, format: Format, count: usize) -> Result<Text, AllocError>
    ensures { IfOk result (λ t. t ≡ opening format count) }
{
    match format {
        Format::Text => Ok(Text::new(alloc)),
        Format::Bare => Ok(Text::new(alloc)),
        Format::Escaped => Ok(Text::new(alloc)),
        Format::Summary => Ok(Text::new(alloc)),
        Format::Json => Text::from_slice(alloc, b"["),
        Format::JsonLines => Ok(Text::new(alloc)),
        Format::Tap => plan_text(alloc, count),
    }
}

/// Returns the part of script `number`'s report if the script were refused memory.
fn memory_part(alloc: Global, form: &Form, number: usize) -> Result<Text, AllocError>
    ensures { IfOk result (λ t. t ≡ part_bytes form.now number memory_report) }
{
    let report = Report::of_memory(alloc);
    form.part(alloc, number, &report)
}

/// Returns the parts of this number of scripts if each were refused memory.
fn spare_parts(alloc: Global, form: &Form, count: usize) -> Result<Vec<Text>, AllocError>
    ensures { IfOk result (λ ts. AreParts form.now count ts.items) }
{
    let mut parts = Vec::with_capacity(alloc, count)?;
    for i in 0..count {
        parts.push_reserved(memory_part(alloc, form, i + 1)?);
    }
    Ok(parts)
}

/// Prepares the texts for the reports of this number of scripts.
pub fn made_spares(alloc: Global, form: &Form, count: usize) -> Result<Spares, AllocError>
    ensures { IfOk result (λ s. AreSpares form.now count s) }
{
    Ok(Spares {
        opening: opening_text(alloc, form.format, count)?,
        parts: spare_parts(alloc, form, count)?,
        endings: Vec::with_capacity(alloc, count)?,
    })
}
