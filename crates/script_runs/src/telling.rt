//! What is printed about scripts while they run.

ghost use Rattle.std.specs.Prelude.{◌≡◌, length, IfOk};

use crate::driving::DriveFault;
use crate::early::Early;
use crate::following::{Follower, Live, Manner, Tale, Told};
use crate::labelling::Listener;
use crate::progress::{Progress, ProgressLine};
use crate::shelf::Shelf;
use crate::teller::Teller;
use crate::voice::Speaking;
use child_pipes::{Cancellation, ErrorPipes, Stop, Wall};
use secret_words::{Secrets, masker_of};
use std::alloc::{AllocError, Global};
use std::io::{IsTerminal, Write};
use std::sync::{Arc, Wait};
use std::thread::Threads;
use std::time::Clock;

/// Returns how a script is printed if it is followed.
fn manner_of(is_alone: bool, is_terminal: bool, number: u8) -> Manner {
    if !is_alone {
        return Manner::Numbered(number);
    }
    if is_terminal {
        return Manner::Plain;
    }
    Manner::Escaped
}

/// Returns the numbers of one worker's scripts.
fn numbers_of(
    alloc: Global,
    scripts: usize,
    workers: u8,
    worker: u8,
) -> Result<Vec<u8>, AllocError> {
    let mut numbers = Vec::new(alloc);
    for number in 1..=64 {
        if usize::from(number) <= scripts && (number - 1) % workers.max(1) == worker {
            let Ok(()) = numbers.push(number) else {
                return Err(AllocError);
            };
        }
    }
    Ok(numbers)
}

/// Creates the state of followed scripts, given their numbers.
fn tales_of(
    alloc: Global,
    numbers: &[u8],
    is_alone: bool,
    is_terminal: bool,
    secrets: &Secrets,
) -> Result<Vec<Tale>, AllocError> {
    let mut tales = Vec::new(alloc);
    for number in numbers {
        let manner = manner_of(is_alone, is_terminal, *number);
        let tale = Tale::new(alloc, manner, masker_of(alloc, secrets)?);
        let Ok(()) = tales.push(tale) else {
            return Err(AllocError);
        };
    }
    Ok(tales)
}

/// What is printed while scripts run.
#[derive(Drop)]
enum Matter<R: Drop> {
    /// What they show, and whether it goes to a terminal.
    Shown(bool),
    /// Their progress.
    Far(ProgressLine<R>),
    Nothing,
}

/// Prints while scripts run, in a separate thread, if anything is to be printed.
#[derive(Drop)]
pub struct Telling<R: Clock + Drop, E: Drop> {
    /// Names stand in place of these secrets.
    secrets: Secrets,
    told: Option<(Matter<R>, Speaking<R, E>)>,
    /// Prints the lines that children write to their own standard errors.
    listening: Option<Teller<(), Listener<R>>>,
}

impl<
    R: Threads + Wait + Clock + Copy + Send + Drop + 'static,
    E: Write + IsTerminal + Copy + Send + Drop + 'static,
> Telling<R, E> {
    /// Starts to print on `to`. If `follow`, prints what scripts show. Otherwise, on a terminal,
    /// prints their progress. Also prints the lines of these standard errors, if there are any. Names
    /// stand in place of secrets.
    pub fn new(
        rt: R,
        alloc: Global,
        to: E,
        follow: bool,
        errors: Option<ErrorPipes>,
        secrets: &Secrets,
        scripts: usize,
        workers: u8,
    ) -> Result<Telling<R, E>, DriveFault> {
        let is_terminal = to.is_terminal();
        if !follow && !is_terminal && errors.is_none() {
            return Ok(Telling {
                secrets: Secrets::new(alloc),
                told: None,
                listening: None,
            });
        }
        let speaking = Speaking::start(rt, alloc, to)?;
        let matter = if follow {
            Matter::Shown(is_terminal)
        } else if is_terminal {
            Matter::Far(ProgressLine::new(rt, alloc, speaking.voice.shared()?, scripts, workers)?)
        } else {
            Matter::Nothing
        };
        let listening = match errors {
            Some(pipes) => {
                let own = secrets.copied(alloc)?;
                let listener = Listener::new(rt, alloc, speaking.voice.shared()?, own, pipes);
                Some(Teller::start(rt, alloc, (), listener)?)
            }
            None => None,
        };
        Ok(Telling {
            secrets: secrets.copied(alloc)?,
            told: Some((matter, speaking)),
            listening,
        })
    }

    /// Returns what a worker prints about its scripts, given their numbers. `scripts` counts those
    /// of all workers.
    fn told(
        &self,
        alloc: Global,
        scripts: usize,
        worker: u8,
        numbers: &[u8],
    ) -> Result<Told<R>, AllocError> {
        match &self.told {
            Some((Matter::Shown(is_terminal), speaking)) => {
                let tales = tales_of(alloc, numbers, scripts == 1, *is_terminal, &self.secrets)?;
                Ok(Told::Shown(Live::new(alloc, speaking.voice.shared()?, tales)))
            }
            Some((Matter::Far(line), _)) => {
                let progress = Progress::new(alloc, line.shared()?, worker, numbers)?;
                Ok(Told::Far(progress))
            }
            Some((Matter::Nothing, _)) | None => Ok(Told::Nothing),
        }
    }

    /// Ends the printing. Waits until everything is printed, but not for a reader that reads
    /// nothing for a second.
    pub fn end(self, rt: &R) {
        let Telling {
            told,
            listening,
            ..
        } = self;
        if let Some(teller) = listening {
            drop(teller.end(rt));
        }
        let Some((matter, speaking)) = told else {
            return;
        };
        if let Matter::Far(line) = &matter {
            line.erase();
        }
        speaking.end(rt);
    }
}

/// Returns the cancellations of the scripts with these numbers.
fn cancellations_of(
    alloc: Global,
    all: &[Arc<Cancellation>],
    numbers: &[u8],
) -> Result<Vec<Option<Arc<Cancellation>>>, AllocError> {
    let mut cancellations = Vec::new(alloc);
    for number in numbers {
        let cancellation = match all.get(usize::from(number.saturating_sub(1))) {
            Some(cancellation) => Some(Arc::try_clone(cancellation)?),
            None => None,
        };
        let Ok(()) = cancellations.push(cancellation) else {
            return Err(AllocError);
        };
    }
    Ok(cancellations)
}

/// Creates one clock per worker, all with the same origin, in milliseconds. Each also prints the
/// progress of its worker's scripts, cancels those that have ended, and gives their reports to
/// `early`. `cancellations` has one entry per script. Fails only if memory is refused.
pub fn clocks<
    R: Threads + Wait + Clock + Copy + Send + Drop + 'static,
    E: Write + IsTerminal + Copy + Send + Drop + 'static,
    O: Write + Copy + Send + Drop + 'static,
    S: Shelf + Send + Drop + 'static,
>(
    alloc: Global,
    wall: &Wall<R>,
    count: u8,
    telling: &Telling<R, E>,
    rt: R,
    early: &Early<O, S>,
    cancellations: &[Arc<Cancellation>],
    stop: &Arc<Stop>,
) -> Result<Vec<Follower<R>>, AllocError>
    ensures { IfOk result (λ cs. length cs.items ≡ count) }
{
    let scripts = cancellations.len();
    let mut clocks = Vec::new(alloc);
    for worker in 0..count {
        let numbers = numbers_of(alloc, scripts, count, worker)?;
        let told = telling.told(alloc, scripts, worker, numbers.as_slice())?;
        let own = cancellations_of(alloc, cancellations, numbers.as_slice())?;
        let ends = early.ends(rt, alloc, numbers.as_slice())?;
        let follower = Follower::new(wall.again(), told, ends, own, Arc::try_clone(stop)?);
        let Ok(()) = clocks.push(follower) else {
            return Err(AllocError);
        };
    }
    Ok(clocks)
}
