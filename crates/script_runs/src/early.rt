//! Writes reports and transcripts as scripts end, in a separate thread. No dialogue waits for their
//! reader.

use crate::driving::DriveFault;
use crate::shelf::Shelf;
use crate::teller::{Post, Teller, Tells};
use child_events::Counted;
use report_texts::{Form, Spares, Unwritten, is_done, made_spares, masked_report, write_all};
use secret_words::Secrets;
use session::Report;
use std::alloc::{AllocError, Global};
use std::io::Write;
use std::sync::{Arc, Wait};
use std::thread::Threads;
use std::time::Clock;
use tcl_words::Text;

/// A script that has ended.
#[derive(Drop)]
struct Ended {
    number: usize,
    report: Report,
}

/// Takes the first of the ended scripts that are not yet written.
fn next(post: &Post<Vec<Ended>>, rt: &impl Wait) -> Option<Ended> {
    let mut ended = post.held.lock(rt);
    if ended.is_empty() {
        return None;
    }
    Some(ended.remove(0))
}

/// The lines of reports.
#[derive(Drop)]
struct Lines<O: Drop> {
    form: Form,
    /// The line for each script if it were refused memory.
    spares: Vec<Text>,
    out: O,
    /// Whether all scripts written so far ended with status 0, or why a write failed.
    outcome: Result<bool, Unwritten>,
}

impl<O: Write + Copy + Drop> Lines<O> {
    /// Creates the state for `count` scripts, with no line written.
    fn new(alloc: Global, form: &Form, count: usize, out: O) -> Result<Lines<O>, AllocError> {
        let form = form.copied(alloc)?;
        let Spares { parts, .. } = made_spares(alloc, &form, count)?;
        Ok(Lines {
            form,
            spares: parts,
            out,
            outcome: Ok(true),
        })
    }

    /// Writes the line of a script, or its spare line if memory is refused. Returns whether the
    /// written line says status 0.
    fn written(&self, alloc: Global, ended: &Ended) -> Result<bool, Unwritten> {
        let mut out = Counted::new(self.out);
        if let Ok(line) = self.form.part(alloc, ended.number, &ended.report) {
            write_all(&mut out, line.as_slice())?;
            return Ok(is_done(ended.report.ending));
        }
        if let Some(spare) = self.spares.get(ended.number.saturating_sub(1)) {
            write_all(&mut out, spare.as_slice())?;
        }
        Ok(false)
    }

    /// Writes the line of a script, unless an earlier write failed.
    fn write(&mut self, alloc: Global, ended: &Ended) {
        if let Ok(well) = self.outcome {
            self.outcome = match self.written(alloc, ended) {
                Ok(is_well) => Ok(well && is_well),
                Err(fault) => Err(fault),
            };
        }
    }
}

/// Writes reports and keeps transcripts, if they are requested.
#[derive(Drop)]
struct Writer<O: Drop, S: Drop> {
    alloc: Global,
    secrets: Secrets,
    lines: Option<Lines<O>>,
    shelf: Option<S>,
}

impl<O: Write + Copy + Drop, S: Shelf + Drop> Writer<O, S> {
    /// Writes the report and keeps the transcript of a script that has ended, with names in place of
    /// secrets.
    fn tell(&mut self, ended: Ended) {
        let Ended { number, report } = ended;
        let report = masked_report(self.alloc, self.secrets.as_slice(), report);
        let ended = Ended { number, report };
        if let Some(shelf) = &mut self.shelf {
            shelf.keep(ended.number, ended.report.transcript.as_slice());
        }
        if let Some(lines) = &mut self.lines {
            lines.write(self.alloc, &ended);
        }
    }
}

impl<O: Write + Copy + Drop, S: Shelf + Drop> Tells<Vec<Ended>> for Writer<O, S> {
    fn tell_next<R: Wait + Clock>(&mut self, rt: &R, post: &Post<Vec<Ended>>) -> bool {
        match next(post, rt) {
            Some(ended) => {
                self.tell(ended);
                true
            }
            None => false,
        }
    }
}

/// Takes the reports of a worker's scripts as they end.
#[derive(Drop)]
pub struct Ends<R: Drop> {
    rt: R,
    /// The numbers of the scripts, by their places.
    numbers: Vec<u8>,
    /// Whether reports or transcripts are requested.
    are_told: bool,
    post: Arc<Post<Vec<Ended>>>,
}

impl<R: Wait + Drop> Ends<R> {
    /// Returns whether reports or transcripts are requested.
    pub fn are_told(&self) -> bool {
        self.are_told
    }

    /// Takes the report of the script at a place, which has ended.
    pub fn put(&self, place: usize, report: Option<Report>) {
        let (Some(number), Some(report)) = (self.numbers.get(place), report) else {
            return;
        };
        let number = usize::from(*number);
        let mut ended = self.post.held.lock(&self.rt);
        // there is room for all scripts
        let _ = ended.push(Ended { number, report });
        drop(ended);
        self.post.ring();
    }
}

/// The outcome of what a run wrote as its scripts ended.
#[derive(Drop)]
pub struct Told<S: Drop> {
    /// Whether each script ended with status 0, or why a write failed.
    pub outcome: Result<bool, Unwritten>,
    /// The shelf that kept the transcripts.
    pub shelf: Option<S>,
}

/// The thread that writes reports and keeps transcripts as scripts end.
#[derive(Drop)]
pub struct Early<O: Drop, S: Drop> {
    are_told: bool,
    teller: Teller<Vec<Ended>, Writer<O, S>>,
}

impl<O: Write + Copy + Send + Drop + 'static, S: Shelf + Send + Drop + 'static> Early<O, S> {
    /// Starts a thread that takes up to `count` scripts as they end. With a form, it writes their
    /// reports to `out`. With a shelf, it passes their transcripts to the shelf. In both, names stand
    /// in place of secrets.
    pub fn start<R: Threads + Wait + Clock + Copy + Send + Drop + 'static>(
        rt: R,
        alloc: Global,
        count: usize,
        secrets: &Secrets,
        form: Option<&Form>,
        out: O,
        shelf: Option<S>,
    ) -> Result<Early<O, S>, DriveFault> {
        let are_told = form.is_some() || shelf.is_some();
        let lines = match form {
            Some(form) => Some(Lines::new(alloc, form, count, out)?),
            None => None,
        };
        let writer = Writer {
            alloc,
            secrets: secrets.copied(alloc)?,
            lines,
            shelf,
        };
        let ended = Vec::with_capacity(alloc, count)?;
        let teller = Teller::start(rt, alloc, ended, writer)?;
        Ok(Early { are_told, teller })
    }

    /// Returns the taker of reports for a worker whose scripts have these numbers.
    pub fn ends<R: Wait + Drop>(
        &self,
        rt: R,
        alloc: Global,
        numbers: &[u8],
    ) -> Result<Ends<R>, AllocError> {
        let mut own = Vec::with_capacity(alloc, numbers.len())?;
        for number in numbers {
            own.push(*number)?;
        }
        Ok(Ends {
            rt,
            numbers: own,
            are_told: self.are_told,
            post: Arc::try_clone(&self.teller.post)?,
        })
    }

    /// Waits until everything is written, and returns the outcome.
    pub fn end<R: Threads>(self, rt: &R) -> Told<S> {
        let Writer { lines, shelf, .. } = self.teller.end(rt);
        let outcome = match lines {
            Some(lines) => lines.outcome,
            None => Ok(true),
        };
        Told { outcome, shelf }
    }
}
