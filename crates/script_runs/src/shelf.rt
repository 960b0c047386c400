//! Where the transcripts of scripts are kept.

ghost use Rattle.std.specs.Prelude.{◌≡◌, ◌∷◌, [], ℕ, List, Option, None};
ghost use Rattle.script_runs.specs.Shelf.{Keeps, transcripts_of};

use session::Report;

/// Keeps transcripts.
pub trait Shelf {
    /// The transcripts that it was given, in this order, if it makes them known.
    ghost handed: { Self → Option (List (List ℕ)) };

    /// Keeps the transcript of script `number`, counted from 1.
    fn keep(&mut self, number: usize, transcript: &[u8])
        ensures { Keeps (handed self.old) (handed self.new) (transcript.now ∷ []) };
}

/// Keeps nothing.
#[derive(Drop)]
pub struct NoShelf;

impl Shelf for NoShelf {
    ghost handed = { λ _. None };

    fn keep(&mut self, _number: usize, _transcript: &[u8]) {}
}

/// Passes the transcripts of reports to a shelf, in order. The first report is that of script 1.
pub fn keep_all<S: Shelf>(reports: &[Report], shelf: &mut S)
    ensures { Keeps (S.handed shelf.old) (S.handed shelf.new) (transcripts_of reports.now) }
{
    for at in 0..reports.len() {
        shelf.keep(at + 1, reports[at].transcript.as_slice());
    }
}
