//! Recorders: receivers of a run's record.

ghost use Rattle.std.specs.Prelude.{◌≡◌, List};
ghost use Rattle.child_events.specs.declared.event.HallEvent.{HallEvent};

use child_events::HallEvents;

/// Receives the record of a run as it comes.
pub trait Recorder {
    /// The recorder after it gets these events.
    ghost notes: { Self → List HallEvent → Self → Type 0 };

    /// Receives the next events of the record.
    fn note(&mut self, events: HallEvents)
        ensures { notes self.old events self.new };
}

/// A recorder that drops everything.
#[derive(Drop)]
pub struct NoRecorder;

impl Recorder for NoRecorder {
    ghost notes = { λ old es new. new ≡ old };

    fn note(&mut self, _events: HallEvents) {}
}
