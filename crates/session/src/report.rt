//! The report of a script.

ghost use Rattle.std.specs.Prelude.{◌≡◌, IfOk};
ghost use Rattle.session.specs.Spent.{memory_report};

use crate::place::ErrorPlaces;
use expect_core::{Pairs, Requests};
use std::alloc::{AllocError, Global};
use std::marker::Model;
use tcl_host::Ending;
use tcl_words::Text;

/// A list of numbers. A contract sees a list.
#[derive(Drop)]
pub struct Counts {
    /// The numbers.
    pub list: Vec<u64>,
}

impl Model for Counts {
    ghost use Rattle.std.specs.Prelude.{List, ℕ};

    ghost Value = { List ℕ };

    ghost view = { λ t. t.list.items };
}

impl Counts {
    /// Returns the numbers as a slice.
    pub fn as_slice(&self) -> &[u64]
        ensures { result.now ≡ self.now }
    {
        self.list.as_slice()
    }

    /// Returns a copy.
    pub fn copied(&self, alloc: Global) -> Result<Counts, AllocError>
        ensures { IfOk result (λ c. c ≡ self.now) }
    {
        Ok(Counts {
            list: self.list.as_slice().to_vec(alloc)?,
        })
    }
}

/// The report of a script so far.
#[derive(Drop)]
pub struct Report {
    /// How the script ended, or `Waiting`.
    pub ending: Ending,
    /// The message of the error that ended the script. Empty for any other ending.
    pub fault: Text,
    /// The places that this error passed, the innermost one first. Empty for any other ending.
    pub trail: ErrorPlaces,
    /// The bytes that the script wrote, and the output of its children that it took.
    pub transcript: Text,
    /// The global variables that have a value, in byte order of their names. Empty if the settings
    /// don't ask for them.
    pub vars: Pairs,
    /// The requests of the script, in order.
    pub requests: Requests,
    /// For each child, the number of bytes of its accepted writes.
    pub sent: Counts,
    /// The number of steps begun.
    pub steps: u64,
    /// The child, counted from 1, whose start the script awaits.
    pub starting: Option<u8>,
}

impl Report {
    /// Returns the report of a script that was refused memory: only the ending. It allocates
    /// nothing.
    pub fn of_memory(alloc: Global) -> Report
        ensures { result ≡ memory_report }
    {
        Report {
            ending: Ending::Memory,
            fault: Text::new(alloc),
            trail: ErrorPlaces::new(alloc),
            transcript: Text::new(alloc),
            vars: Pairs::new(alloc),
            requests: Requests::new(alloc),
            sent: Counts {
                list: Vec::new(alloc),
            },
            steps: 0,
            starting: None,
        }
    }

    /// Returns a copy.
    pub fn copied(&self, alloc: Global) -> Result<Report, AllocError>
        ensures { IfOk result (λ r. r ≡ self.now) }
    {
        Ok(Report {
            ending: self.ending,
            fault: self.fault.copied(alloc)?,
            trail: self.trail.copied(alloc)?,
            transcript: self.transcript.copied(alloc)?,
            vars: self.vars.copied(alloc)?,
            requests: self.requests.copied(alloc)?,
            sent: self.sent.copied(alloc)?,
            steps: self.steps,
            starting: self.starting,
        })
    }
}
