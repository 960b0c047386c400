//! Audiences: receivers of transcripts.

ghost use Rattle.std.specs.Prelude.{◌+◌};
ghost use Rattle.child_serve.specs.Over.{HasEnded};

use dialogue_sched::Hall;

/// Receives the transcripts of a worker's scripts while they run, and learns which have ended. Each
/// byte is passed once, in order. `place` is a script's index, from 0; its number in the hall is
/// one more.
pub trait Audience {
    /// Receives the next bytes of a script's transcript.
    fn hear(&mut self, _place: usize, _bytes: &[u8]) {}

    /// Learns that a script has ended: its report in the hall doesn't change any more. Called once
    /// per script, after all of its transcript.
    fn part(&mut self, _place: usize, _hall: &Hall)
        requires { HasEnded (_place + 1) _hall.now }
    {}

    /// Learns that nothing more comes: no report of the hall changes any more.
    fn leave(&mut self, _hall: &Hall) {}
}
