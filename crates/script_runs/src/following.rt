//! Prints what scripts show, while they run.

ghost use Rattle.std.specs.Prelude.{◌≡◌, ◌≤◌, ◌++◌, ◌∷◌, [], length, true, OnOk, IfOk};
ghost use Rattle.script_runs.specs.Follow.{mark_of, marked_byte, marked, told_so};

use crate::early::Ends;
use crate::progress::Progress;
use crate::voice::Voice;
use child_hands::Clock;
use child_pipes::{Cancellation, Stop, Wall};
use child_serve::{Audience, Stopping};
use dialogue_sched::Hall;
use report_texts::{Escaping, push_labelled, push_text};
use secret_words::Masker;
use session::Ending;
use std::alloc::{AllocError, Global};
use std::sync::{Arc, Wait};
use std::time::Clock as SystemClock;
use tcl_words::Text;

/// The greatest number of bytes of a line that are held back until the line is whole.
const LONGEST: usize = 4_096;

/// The time without output after which a script's held bytes are printed nevertheless, in
/// milliseconds.
const QUIET: u64 = 1_000;

/// The least time between two checks of held bytes, in milliseconds.
const PAUSE: u64 = 250;

/// How a script's output is printed.
#[derive(Clone, Copy)]
pub enum Manner {
    /// Unchanged.
    Plain,
    /// Escaped, so that it does nothing on a terminal.
    Escaped,
    /// Escaped, with the number of the script before each line.
    Numbered(u8),
}

/// Appends the mark before each line of a script.
fn push_mark(alloc: Global, text: &mut Text, number: u8) -> Result<(), AllocError>
    ensures { OnOk result (text.new ≡ text.old ++ mark_of number) }
{
    push_labelled(alloc, text, b"script ", u128::from(number))?;
    text.extend(b": ")
}

/// Appends a byte, after a mark if it begins a line.
fn push_marked(text: &mut Text, mark: &[u8], begins: bool, byte: u8) -> Result<(), AllocError>
    ensures { OnOk result (text.new ≡ text.old ++ marked_byte mark.now begins byte) }
{
    if begins {
        text.extend(mark)?;
    }
    text.push(byte)
}

/// Appends lines, each after a mark.
fn push_lines(text: &mut Text, mark: &[u8], lines: &[u8]) -> Result<(), AllocError>
    ensures { OnOk result (text.new ≡ text.old ++ marked mark.now true lines.now) }
{
    let mut begins = true;
    for i in 0..lines.len() {
        push_marked(text, mark, begins, lines[i])?;
        begins = lines[i] == b'\n';
    }
    Ok(())
}

/// Appends bytes of a script as they are printed.
#[tactic(auto, unfolding(crate::specs::Follow::told_so))]
fn push_told(alloc: Global, text: &mut Text, manner: Manner, bytes: &[u8]) -> Result<(), AllocError>
    ensures { OnOk result (text.new ≡ text.old ++ told_so manner bytes.now) }
{
    match manner {
        Manner::Plain => text.extend(bytes),
        Manner::Escaped => push_text(alloc, text, Escaping::Lines, bytes),
        Manner::Numbered(number) => {
            let mut mark = Text::new(alloc);
            push_mark(alloc, &mut mark, number)?;
            let mut lines = Text::new(alloc);
            push_text(alloc, &mut lines, Escaping::Lines, bytes)?;
            push_lines(text, mark.as_slice(), lines.as_slice())
        }
    }
}

/// Returns the length of the front that ends with the last whole line.
fn whole_lines(bytes: &[u8]) -> usize
    ensures { result ≤ length bytes.now }
{
    match memchr::memrchr(b'\n', bytes) {
        Some(at) => at + 1,
        None => 0,
    }
}

/// Returns whether a byte is at least `least` and may begin a UTF-8 character of several bytes.
fn begins_character(byte: u8, least: u8) -> bool {
    least <= byte && byte <= 0xF4
}

/// Returns whether a byte may follow the first byte of a UTF-8 character.
fn goes_on(byte: u8) -> bool {
    0x80 <= byte && byte <= 0xBF
}

/// Returns whether bytes may be the front of a character or of a line's end.
fn may_go_on(bytes: &[u8]) -> bool {
    match bytes {
        [first] => *first == b'\r' || begins_character(*first, 0xC2),
        [first, second] => begins_character(*first, 0xE0) && goes_on(*second),
        [first, second, third] => {
            begins_character(*first, 0xF0) && goes_on(*second) && goes_on(*third)
        }
        _ => false,
    }
}

/// Returns the length of the front that can be printed by itself: all bytes except those that may
/// be the front of a character or of a line's end.
fn whole_characters(bytes: &[u8]) -> usize
    ensures { result ≤ length bytes.now }
{
    for held in 1..4 {
        if held <= bytes.len() && may_go_on(&bytes[bytes.len() - held..]) {
            return bytes.len() - held;
        }
    }
    bytes.len()
}

/// Returns the length of the front that is printed at once. With several scripts, only whole lines
/// are printed, unless a line is long.
fn told_len(manner: Manner, bytes: &[u8]) -> usize
    ensures { result ≤ length bytes.now }
{
    match manner {
        Manner::Plain => bytes.len(),
        Manner::Escaped => whole_characters(bytes),
        Manner::Numbered(_) => {
            if bytes.len() > LONGEST {
                return bytes.len();
            }
            whole_lines(bytes)
        }
    }
}

/// Ends the last line of a text, so that the output of another script begins a new line.
fn end_line(text: &mut Text) -> Result<(), AllocError> {
    match text.as_slice() {
        [] | [.., b'\n'] => Ok(()),
        _ => text.push(b'\n'),
    }
}

/// A script that is followed: how it is printed, and its output that is not printed yet.
#[derive(Drop)]
pub struct Tale {
    manner: Manner,
    /// Puts names in place of secrets, if there are any.
    masker: Option<Masker>,
    held: Text,
    /// The moment of the script's last output.
    since: u64,
}

impl Tale {
    /// Creates the state of a script that has shown nothing.
    pub fn new(alloc: Global, manner: Manner, masker: Option<Masker>) -> Tale {
        Tale {
            manner,
            masker,
            held: Text::new(alloc),
            since: 0,
        }
    }

    /// Takes the first `count` held bytes, and returns them as they are printed.
    fn told(&mut self, alloc: Global, count: usize) -> Result<Text, AllocError>
        requires { count ≤ length self.old.held }
    {
        let (front, rest) = self.held.as_slice().split_at(count);
        let mut text = Text::new(alloc);
        push_told(alloc, &mut text, self.manner, front)?;
        if matches!(self.manner, Manner::Numbered(_)) {
            end_line(&mut text)?;
        }
        self.held = Text::from_slice(alloc, rest)?;
        Ok(text)
    }

    /// Prints the first `count` held bytes. If memory is refused, it prints nothing.
    fn tell<R: Wait + Copy + Drop>(&mut self, alloc: Global, voice: &Voice<R>, count: usize)
        requires { count ≤ length self.old.held }
    {
        if let Ok(text) = self.told(alloc, count) {
            voice.tell(text.as_slice(), count);
        }
    }

    /// Appends bytes to the held ones, with names in place of secrets.
    fn hold(&mut self, alloc: Global, bytes: &[u8]) -> Result<(), AllocError> {
        match &mut self.masker {
            Some(masker) => {
                let shown = masker.take(alloc, bytes)?;
                self.held.extend(shown.as_slice())
            }
            None => self.held.extend(bytes),
        }
    }

    /// Appends what was held back of secrets to the held bytes, since nothing comes after it.
    fn hold_rest(&mut self, alloc: Global) {
        let Some(masker) = &mut self.masker else {
            return;
        };
        if let Ok(rest) = masker.rest(alloc) {
            let _ = self.held.extend(rest.as_slice());
        }
    }

    /// Takes bytes that a script shows at a moment.
    pub fn hear<R: Wait + Copy + Drop>(
        &mut self,
        alloc: Global,
        voice: &Voice<R>,
        bytes: &[u8],
        moment: u64,
    ) {
        self.since = moment;
        if self.hold(alloc, bytes).is_ok() {
            let count = told_len(self.manner, self.held.as_slice());
            self.tell(alloc, voice, count);
        }
    }

    /// Prints all held bytes.
    pub fn tell_held<R: Wait + Copy + Drop>(&mut self, alloc: Global, voice: &Voice<R>) {
        let count = self.held.len();
        if count > 0 {
            self.tell(alloc, voice, count);
        }
    }

    /// Prints all bytes that are left, since no more come.
    pub fn end<R: Wait + Copy + Drop>(&mut self, alloc: Global, voice: &Voice<R>) {
        self.hold_rest(alloc);
        self.tell_held(alloc, voice);
    }

    /// Prints all held bytes if the script has been quiet at this moment.
    pub fn look<R: Wait + Copy + Drop>(&mut self, alloc: Global, voice: &Voice<R>, moment: u64) {
        if moment.saturating_sub(self.since) >= QUIET {
            self.tell_held(alloc, voice);
        }
    }
}

/// The followed scripts of a worker. Output is skipped if memory for it is refused.
#[derive(Drop)]
pub struct Live<R: Drop> {
    alloc: Global,
    voice: Voice<R>,
    tales: Vec<Tale>,
    moment: u64,
    /// The next moment at which held bytes are checked.
    next: u64,
}

impl<R: Wait + Copy + Drop> Live<R> {
    /// Creates the state for followed scripts, by their places.
    pub fn new(alloc: Global, voice: Voice<R>, tales: Vec<Tale>) -> Live<R> {
        Live {
            alloc,
            voice,
            tales,
            moment: 0,
            next: QUIET,
        }
    }

    fn hear(&mut self, place: usize, bytes: &[u8]) {
        if let Some(tale) = self.tales.get_mut(place) {
            tale.hear(self.alloc, &self.voice, bytes, self.moment);
        }
    }

    /// Sets the current moment, and prints held bytes that are due.
    fn look(&mut self, moment: u64) {
        self.moment = moment;
        if moment < self.next {
            return;
        }
        self.next = moment.saturating_add(PAUSE);
        for tale in &mut self.tales {
            tale.look(self.alloc, &self.voice, moment);
        }
    }

    /// Takes what was held back of secrets, since the script at a place has ended.
    fn part(&mut self, place: usize) {
        if let Some(tale) = self.tales.get_mut(place) {
            tale.hold_rest(self.alloc);
        }
    }

    fn leave(&mut self) {
        for tale in &mut self.tales {
            tale.end(self.alloc, &self.voice);
        }
    }
}

/// What a worker prints while its scripts run.
#[derive(Drop)]
pub enum Told<R: Drop> {
    /// What its scripts show.
    Shown(Live<R>),
    /// Their progress.
    Far(Progress<R>),
    Nothing,
}

impl<R: Wait + SystemClock + Copy + Drop> Told<R> {
    /// Sets the current moment, and prints what is due.
    fn look(&mut self, moment: u64) {
        match self {
            Told::Shown(live) => live.look(moment),
            Told::Far(progress) => progress.look(moment),
            Told::Nothing => {}
        }
    }

    /// Ends the output of the worker's scripts. Waits until everything is printed, because reports
    /// come next. Doesn't wait for a reader that reads nothing for a second.
    fn leave(&mut self) {
        match self {
            Told::Shown(live) => {
                live.leave();
                live.voice.await_told();
            }
            Told::Far(progress) => progress.leave(),
            Told::Nothing => {}
        }
    }
}

/// A worker's clock. It also prints what scripts show or their progress, and cancels scripts that
/// have ended or were given up.
#[derive(Drop)]
pub struct Follower<R: SystemClock + Drop> {
    wall: Wall<R>,
    told: Told<R>,
    ends: Ends<R>,
    /// One for each script that is still running.
    cancellations: Vec<Option<Arc<Cancellation>>>,
    stop: Arc<Stop>,
}

impl<R: SystemClock + Drop> Follower<R> {
    /// Creates a follower, and enters it in `stop`.
    pub fn new(
        wall: Wall<R>,
        told: Told<R>,
        ends: Ends<R>,
        cancellations: Vec<Option<Arc<Cancellation>>>,
        stop: Arc<Stop>,
    ) -> Follower<R> {
        stop.enter();
        Follower {
            wall,
            told,
            ends,
            cancellations,
            stop,
        }
    }
}

impl<R: SystemClock + Wait + Copy + Drop> Follower<R> {
    /// Passes on the report of the script at a place of a hall, which is its last.
    fn tell_end(&self, place: usize, hall: &Hall) {
        if self.ends.are_told() {
            self.ends.put(place, hall.report(place.saturating_add(1)));
        }
    }
}

impl<R: SystemClock + Wait + Copy + Drop> Clock for Follower<R> {
    fn now(&mut self) -> u64 {
        let moment = self.stop.lowered(self.wall.now());
        self.told.look(moment);
        moment
    }
}

impl<R: SystemClock + Wait + Copy + Drop> Stopping for Follower<R> {
    fn is_stopped(&mut self) -> bool {
        self.stop.is_due(self.wall.now())
    }
}

impl<R: SystemClock + Wait + Copy + Drop> Audience for Follower<R> {
    fn hear(&mut self, place: usize, bytes: &[u8]) {
        match &mut self.told {
            Told::Shown(live) => live.hear(place, bytes),
            Told::Far(progress) => progress.hear(place),
            Told::Nothing => {}
        }
    }

    fn part(&mut self, place: usize, hall: &Hall) {
        self.tell_end(place, hall);
        if let Some(cancellation) = self.cancellations.get_mut(place).and_then(Option::take) {
            cancellation.cancel();
        }
        match &mut self.told {
            Told::Shown(live) => live.part(place),
            Told::Far(progress) => progress.part(
                place,
                hall.ending(place.saturating_add(1)) == Some(Ending::Exit(0)),
            ),
            Told::Nothing => {}
        }
    }

    fn leave(&mut self, hall: &Hall) {
        for place in 0..self.cancellations.len() {
            if let Some(cancellation) = self.cancellations[place].take() {
                self.tell_end(place, hall);
                cancellation.cancel();
            }
        }
        self.stop.leave();
        self.told.leave();
    }
}
