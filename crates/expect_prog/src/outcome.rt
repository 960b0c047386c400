//! How an order ended.

ghost use Rattle.std.specs.Prelude.{◌≡◌, ◌≤◌};
ghost use Rattle.expect_prog.specs.Outcome.{outcome_of, outcome_ended, outcome_and, outcome_unless_stopped, status_of};

use session::Ending;

/// How an order ended that printed reports, a log, findings or what a script showed.
#[derive(Clone, Copy)]
pub enum Outcome {
    /// Each script ended with status 0, or nothing was found wrong.
    Well,
    /// A script ended otherwise, or something was found wrong.
    Otherwise,
    /// A script that was run as a command ended with this status.
    Ended(u8),
    /// A transcript, a record or an explanation was not written. The reason was printed.
    Lost,
    /// A signal with this number stopped the run.
    Stopped(u8),
}

impl Outcome {
    /// Returns the outcome. `well` says whether each script ended with status 0, and `whole`
    /// whether each transcript was written.
    pub fn of(well: bool, whole: bool) -> Outcome
        ensures { result ≡ outcome_of well whole }
    {
        if !whole {
            return Outcome::Lost;
        }
        if well {
            return Outcome::Well;
        }
        Outcome::Otherwise
    }

    /// Returns the outcome of a script that was run as a command.
    pub fn ended(ending: Ending) -> Outcome
        ensures { result ≡ outcome_ended ending }
    {
        match ending {
            Ending::Exit(status) => Outcome::Ended(status),
            Ending::Error => Outcome::Ended(1),
            Ending::StepLimit => Outcome::Ended(1),
            Ending::TimeLimit => Outcome::Ended(1),
            Ending::Memory => Outcome::Ended(1),
            Ending::Waiting => Outcome::Ended(1),
        }
    }

    /// Returns the outcome with another file. `whole` says whether it was written.
    pub fn and(self, whole: bool) -> Outcome
        ensures { result ≡ outcome_and self whole }
    {
        if whole {
            return self;
        }
        Outcome::Lost
    }

    /// Returns the outcome with a signal, if one stopped the run.
    pub fn unless_stopped(self, signal: Option<u8>) -> Outcome
        ensures { result ≡ outcome_unless_stopped self signal }
    {
        match signal {
            Some(number) => Outcome::Stopped(number),
            None => self,
        }
    }

    /// Returns the exit status: 0 if all is well, 1 if not, that of a script that was run as a
    /// command, and 2 if something was not written. If a signal stopped the run, 128 plus its
    /// number.
    pub fn status(self) -> u8
        ensures { status_of self ≤ 255 → result ≡ status_of self }
    {
        match self {
            Outcome::Well => 0,
            Outcome::Otherwise => 1,
            Outcome::Ended(status) => status,
            Outcome::Lost => 2,
            Outcome::Stopped(number) => number.saturating_add(128),
        }
    }
}
