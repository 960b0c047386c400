//! Shows a run's progress on one line of a terminal. The line is erased once the run has ended.

ghost use Rattle.std.specs.Prelude.{◌≡◌, ◌++◌, ◌-◌, ◌/◌, None, OnOk, IfOk};
ghost use Rattle.script_runs.specs.Progress.{quieter as quieter_of, quietest as quietest_of, quiet_of, over_among, failed_among, quietest_among, quiet_words, quiet_part, progress_line};

use crate::voice::Voice;
use report_texts::{push_labelled, total};
use std::alloc::{AllocError, Global};
use std::sync::{Arc, Mutex, Wait};
use std::time::Clock;
use tcl_words::Text;

/// Moves to the start of a terminal's line and erases the line (ECMA-48, EL).
const ERASED: &[u8] = b"\r\x1b[K";

/// The time from the run's start until its line is written first, in milliseconds.
const FIRST: u64 = 1_000;

/// The least time between two changes of the line, in milliseconds.
const PAUSE: u64 = 250;

/// A script that has not ended.
#[derive(Clone, Copy)]
pub struct Quiet {
    /// The script's number.
    pub number: u8,
    /// The moment of its last output, or the run's start, in milliseconds.
    pub since: u64,
}

/// Returns the script that has shown nothing for longer, of two.
fn quieter(one: Option<Quiet>, other: Option<Quiet>) -> Option<Quiet>
    ensures { result ≡ quieter_of one other }
{
    let Some(q) = other else {
        return one;
    };
    let Some(p) = one else {
        return other;
    };
    Some(if q.since < p.since { q } else { p })
}

/// Returns the script that has shown nothing for longest, among those of several workers.
fn quietest_of_all(scripts: &[Option<Quiet>]) -> Option<Quiet>
    ensures { result ≡ quietest_of None scripts.now }
{
    let mut found = None;
    for script in scripts {
        found = quieter(found, *script);
    }
    found
}

/// A script, and its progress.
#[derive(Clone, Copy)]
struct Course {
    number: u8,
    /// The moment of its last output.
    since: u64,
    /// Whether it ended with status 0. `None` while it is running.
    end: Option<bool>,
}

/// Returns the number of scripts that have ended.
fn over(scripts: &[Course]) -> usize
    ensures { result ≡ over_among scripts.now }
{
    let mut count = 0;
    for script in scripts {
        if script.end.is_some() {
            count += 1;
        }
    }
    count
}

/// Returns the number of scripts that have ended with a status other than 0.
fn failed(scripts: &[Course]) -> usize
    ensures { result ≡ failed_among scripts.now }
{
    let mut count = 0;
    for script in scripts {
        if matches!(script.end, Some(false)) {
            count += 1;
        }
    }
    count
}

/// Returns since when a script has shown nothing. `None` if it has ended.
fn quiet_for(script: Course) -> Option<Quiet>
    ensures { result ≡ quiet_of script }
{
    if script.end.is_some() {
        return None;
    }
    Some(Quiet {
        number: script.number,
        since: script.since,
    })
}

/// Returns the script that has shown nothing for longest, among those that have not ended.
fn quietest(scripts: &[Course]) -> Option<Quiet>
    ensures { result ≡ quietest_among None scripts.now }
{
    let mut found = None;
    for script in scripts {
        found = quieter(found, quiet_for(*script));
    }
    found
}

/// The progress of one worker's scripts.
#[derive(Clone, Copy)]
struct Standing {
    /// The number of scripts that have ended.
    over: u64,
    /// The number of scripts that have ended with a status other than 0.
    failed: u64,
    /// The script that has shown nothing for longest.
    quiet: Option<Quiet>,
}

/// Returns the progress of scripts.
fn standing_of(scripts: &[Course]) -> Standing
    ensures over { result.over ≡ over_among scripts.now }
    ensures failed { result.failed ≡ failed_among scripts.now }
    ensures quiet { result.quiet ≡ quietest_among None scripts.now }
{
    Standing {
        over: over(scripts) as u64,
        failed: failed(scripts) as u64,
        quiet: quietest(scripts),
    }
}

/// Returns the number of whole seconds between two moments in milliseconds. 0 if `moment` is
/// earlier.
fn seconds_between(since: u64, moment: u64) -> u64
    ensures { result ≡ (moment - since) / 1000 }
{
    moment.saturating_sub(since) / 1000
}

/// Appends a script, and for how long it has shown nothing at a moment.
#[tactic(auto, unfolding(crate::specs::Progress::quiet_words))]
fn push_script(alloc: Global, text: &mut Text, moment: u64, script: Quiet) -> Result<(), AllocError>
    ensures { OnOk result (text.new ≡ text.old ++ quiet_words moment script) }
{
    let seconds = seconds_between(script.since, moment);
    push_labelled(alloc, text, b"; script ", u128::from(script.number))?;
    push_labelled(alloc, text, b" quiet for ", u128::from(seconds))?;
    text.extend(b" s")
}

/// Appends a script, if there is one, and for how long it has shown nothing at a moment.
fn push_quiet(
    alloc: Global,
    text: &mut Text,
    moment: u64,
    quiet: Option<Quiet>,
) -> Result<(), AllocError>
    ensures { OnOk result (text.new ≡ text.old ++ quiet_part moment quiet) }
{
    match quiet {
        Some(script) => push_script(alloc, text, moment, script),
        None => Ok(()),
    }
}

/// Returns the line of a run at a moment: the number of scripts that have ended, the number of
/// scripts, the number that failed, and the script that is quiet for longest.
#[tactic(auto, unfolding(crate::specs::Progress::progress_line))]
fn line_of(
    alloc: Global,
    over: u128,
    all: u128,
    failed: u128,
    moment: u64,
    quiet: Option<Quiet>,
) -> Result<Text, AllocError>
    ensures { IfOk result (λ text. text ≡ progress_line over all failed moment quiet) }
{
    let mut text = Text::new(alloc);
    text.extend(ERASED)?;
    push_labelled(alloc, &mut text, b"exprun: ", over)?;
    push_labelled(alloc, &mut text, b" of ", all)?;
    push_labelled(alloc, &mut text, b" over, ", failed)?;
    text.extend(b" failed")?;
    push_quiet(alloc, &mut text, moment, quiet)?;
    Ok(text)
}

/// The progress of each worker's scripts.
#[derive(Drop)]
struct Board {
    /// The number of scripts.
    all: usize,
    /// The number of scripts that have ended, by worker.
    over: Vec<u64>,
    /// The number of scripts that have ended with a status other than 0, by worker.
    failed: Vec<u64>,
    /// The script that has shown nothing for longest, by worker.
    quiet: Vec<Option<Quiet>>,
    /// The moment from which on the line may be written again.
    next: u64,
    /// The line that was written last.
    last: Text,
}

impl Board {
    /// Creates the state for `all` scripts and `workers` workers, with no progress.
    fn new(alloc: Global, all: usize, workers: u8) -> Result<Board, AllocError> {
        let mut board = Board {
            all,
            over: Vec::new(alloc),
            failed: Vec::new(alloc),
            quiet: Vec::new(alloc),
            next: FIRST,
            last: Text::new(alloc),
        };
        for _ in 0..workers {
            board.over.push(0)?;
            board.failed.push(0)?;
            board.quiet.push(None)?;
        }
        Ok(board)
    }

    /// Stores the progress of a worker's scripts.
    fn note(&mut self, worker: usize, standing: Standing) {
        if let Some(over) = self.over.get_mut(worker) {
            *over = standing.over;
        }
        if let Some(failed) = self.failed.get_mut(worker) {
            *failed = standing.failed;
        }
        if let Some(quiet) = self.quiet.get_mut(worker) {
            *quiet = standing.quiet;
        }
    }

    /// Returns the line at a moment.
    fn line(&self, alloc: Global, moment: u64) -> Result<Text, AllocError> {
        let over = total(self.over.as_slice());
        let failed = total(self.failed.as_slice());
        let quiet = quietest_of_all(self.quiet.as_slice());
        line_of(alloc, over, self.all as u128, failed, moment, quiet)
    }

    /// Returns the line at a moment. `None` if it equals the last line, if it may not be written
    /// yet, or if memory is refused.
    fn next_line(&mut self, alloc: Global, moment: u64) -> Option<Text> {
        if moment < self.next {
            return None;
        }
        self.next = moment.saturating_add(PAUSE);
        let line = self.line(alloc, moment).ok()?;
        if line.as_slice() == self.last.as_slice() {
            return None;
        }
        self.last = Text::from_slice(alloc, line.as_slice()).ok()?;
        Some(line)
    }

    /// Returns the text that erases the line. `None` if there is no line, or if memory is refused.
    fn erased(&mut self, alloc: Global) -> Option<Text> {
        if self.last.len() == 0 {
            return None;
        }
        let erased = Text::from_slice(alloc, ERASED).ok()?;
        self.last = Text::new(alloc);
        Some(erased)
    }
}

/// The line of a run, shared by its workers.
#[derive(Drop)]
pub struct ProgressLine<R: Drop> {
    rt: R,
    alloc: Global,
    voice: Voice<R>,
    board: Arc<Mutex<Board>>,
}

impl<R: Wait + Copy + Drop> ProgressLine<R> {
    /// Creates the line of a run, which is not written yet.
    pub fn new(
        rt: R,
        alloc: Global,
        voice: Voice<R>,
        scripts: usize,
        workers: u8,
    ) -> Result<ProgressLine<R>, AllocError> {
        let board = Arc::new(alloc, Mutex::new(Board::new(alloc, scripts, workers)?))?;
        Ok(ProgressLine {
            rt,
            alloc,
            voice,
            board,
        })
    }

    /// Returns the same line, for another holder.
    pub fn shared(&self) -> Result<ProgressLine<R>, AllocError> {
        Ok(ProgressLine {
            rt: self.rt,
            alloc: self.alloc,
            voice: self.voice.shared()?,
            board: Arc::try_clone(&self.board)?,
        })
    }

    /// Stores the progress of a worker's scripts at a moment, and prints the line. The lock is held
    /// meanwhile, so that the newest line is printed last.
    fn tell(&self, worker: usize, standing: Standing, moment: u64) {
        let mut board = self.board.lock(&self.rt);
        board.note(worker, standing);
        if let Some(line) = board.next_line(self.alloc, moment) {
            self.voice.put_line(line);
        }
    }

    /// Erases the line. It is printed again at the next progress.
    pub fn erase(&self) {
        let mut board = self.board.lock(&self.rt);
        if let Some(erased) = board.erased(self.alloc) {
            self.voice.put_line(erased);
        }
    }
}

/// What one worker reports on the line of a run.
#[derive(Drop)]
pub struct Progress<R: Drop> {
    line: ProgressLine<R>,
    worker: usize,
    scripts: Vec<Course>,
    moment: u64,
    /// The moment from which on it reports again.
    next: u64,
}

impl<R: Wait + Copy + Drop> Progress<R> {
    /// Creates a worker's part of a line, given the numbers of its scripts.
    pub fn new(
        alloc: Global,
        line: ProgressLine<R>,
        worker: u8,
        numbers: &[u8],
    ) -> Result<Progress<R>, AllocError> {
        let mut scripts = Vec::new(alloc);
        for number in numbers {
            scripts.push(Course {
                number: *number,
                since: 0,
                end: None,
            })?;
        }
        Ok(Progress {
            line,
            worker: usize::from(worker),
            scripts,
            moment: 0,
            next: FIRST,
        })
    }

    /// Notes that a script has shown something, at the current moment.
    pub fn hear(&mut self, place: usize) {
        if let Some(script) = self.scripts.get_mut(place) {
            script.since = self.moment;
        }
    }

    /// Notes that a script has ended, with status 0 or otherwise.
    pub fn part(&mut self, place: usize, well: bool) {
        if let Some(script) = self.scripts.get_mut(place) {
            script.end = Some(well);
        }
    }

    /// Sets the current moment, and reports the progress if it is due.
    pub fn look(&mut self, moment: u64) {
        self.moment = moment;
        if self.next <= moment {
            self.next = moment.saturating_add(PAUSE);
            let standing = standing_of(self.scripts.as_slice());
            self.line.tell(self.worker, standing, moment);
        }
    }
}

impl<R: Wait + Clock + Copy + Drop> Progress<R> {
    /// Reports the last progress of these scripts, and erases the line until another worker
    /// reports. Waits until it is erased, but not for a reader that reads nothing for a second.
    pub fn leave(&mut self) {
        let standing = standing_of(self.scripts.as_slice());
        self.line.tell(self.worker, standing, self.moment);
        self.line.erase();
        self.line.voice.await_told();
    }
}
