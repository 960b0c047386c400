//! The stages in which a child is ended.

ghost use Rattle.std.specs.Prelude.{◌≡◌};
ghost use Rattle.child_pipes.specs.Stage.{stage_after};

/// The time between SIGHUP and SIGKILL, and between one SIGKILL and the next, in milliseconds.
const PAUSE: u64 = 1_000;

/// The stage of a child. Times are in milliseconds.
#[derive(Clone, Copy, PartialEq, Eq)]
pub enum Stage {
    /// Its script is running.
    Kept,
    /// It may end by itself since this time.
    LetGo { since: u64 },
    /// The processes left were sent SIGHUP at this time.
    HungUp { since: u64 },
    /// The processes left were sent SIGKILL at this time.
    Killed { since: u64 },
}

impl Stage {
    /// Returns the stage at a time of a child that must end. After `grace` milliseconds it gets
    /// SIGHUP. A second after that it gets SIGKILL, and then once a second.
    pub fn after(self, grace: u64, moment: u64) -> Stage
        ensures { result ≡ stage_after self grace moment }
    {
        match self {
            Stage::Kept => {
                if grace == 0 {
                    return Stage::HungUp { since: moment };
                }
                Stage::LetGo { since: moment }
            }
            Stage::LetGo { since } => {
                if moment.saturating_sub(since) < grace {
                    return self;
                }
                Stage::HungUp { since: moment }
            }
            Stage::HungUp { since } | Stage::Killed { since } => {
                if moment.saturating_sub(since) < PAUSE {
                    return self;
                }
                Stage::Killed { since: moment }
            }
        }
    }
}
