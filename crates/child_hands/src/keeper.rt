//! Keepers of children, and the contracts of their calls.

ghost use Rattle.std.specs.Prelude.{◌≡◌, ◌+◌, ◌^◌, ◌<◌, ◌≤◌, ℕ, List, Option, IfOk, OnErr};
ghost use Rattle.child_events.specs.declared.event.Answer.{Answer};
ghost use Rattle.expect_core.specs.declared.request.Request.{Request};
ghost use Rattle.expect_core.specs.declared.request.Act.TheVariants.{Spawn, Write, End, Close, Wait};
ghost use Rattle.child_hands.specs.Told.{asked_of, answer_of, IsFailure};

use child_events::{Answer, Cause};
use std::io::Read;
use tcl_words::{Text, Texts};

/// Starts children and carries out requests to them.
///
/// Each keeper defines the meaning of `told` and `gives`. Code that is generic over keepers learns
/// them only from calls.
pub trait Keeper {
    /// The device from which a child's output is read.
    type Out: Read + Send + Drop + 'static;

    /// The name of the keeper.
    ghost named: { Self → ℕ };

    /// The number of calls.
    ghost made: { Self → ℕ };

    /// The number of calls that failed.
    ghost failed: { Self → ℕ };

    /// The call with this number of the keeper with this name was this request, and had this
    /// answer.
    ghost told: { ℕ → ℕ → Request → Answer → Type 0 };

    /// That call returned a reader of these bytes, as far as the reader knows its bytes.
    ghost gives: { ℕ → ℕ → Option (List ℕ) → Type 0 };

    /// Starts a child with this program and its arguments. Returns the device to read its output
    /// from.
    fn spawn(&mut self, child: u8, argv: &Texts) -> Result<Self::Out, Cause>
        requires { made self.old < 2 ^ 63 }
        ensures name { named self.new ≡ named self.old }
        ensures calls { made self.new ≡ made self.old + 1 }
        ensures failures { (failed self.old ≤ failed self.new) × (failed self.new ≤ made self.new) }
        ensures told { told (named self.new) (made self.new) (asked_of child (Spawn argv.now)) (answer_of result) }
        ensures gives { IfOk result (λ out. gives (named self.new) (made self.new) (Self.Out.remaining out)) }
        ensures fails { OnErr result (failed self.old < failed self.new) };

    /// Writes bytes to a child.
    fn write(&mut self, child: u8, bytes: &Text) -> Result<(), Cause>
        requires { made self.old < 2 ^ 63 }
        ensures name { named self.new ≡ named self.old }
        ensures calls { made self.new ≡ made self.old + 1 }
        ensures failures { (failed self.old ≤ failed self.new) × (failed self.new ≤ made self.new) }
        ensures told { told (named self.new) (made self.new) (asked_of child (Write bytes.now)) (answer_of result) }
        ensures fails { OnErr result (failed self.old < failed self.new) };

    /// Ends the input of a child.
    fn end(&mut self, child: u8) -> Result<(), Cause>
        requires { made self.old < 2 ^ 63 }
        ensures name { named self.new ≡ named self.old }
        ensures calls { made self.new ≡ made self.old + 1 }
        ensures failures { (failed self.old ≤ failed self.new) × (failed self.new ≤ made self.new) }
        ensures told { told (named self.new) (made self.new) (asked_of child End) (answer_of result) }
        ensures fails { OnErr result (failed self.old < failed self.new) };

    /// Closes a child.
    fn close(&mut self, child: u8) -> Result<(), Cause>
        requires { made self.old < 2 ^ 63 }
        ensures name { named self.new ≡ named self.old }
        ensures calls { made self.new ≡ made self.old + 1 }
        ensures failures { (failed self.old ≤ failed self.new) × (failed self.new ≤ made self.new) }
        ensures told { told (named self.new) (made self.new) (asked_of child Close) (answer_of result) }
        ensures fails { OnErr result (failed self.old < failed self.new) };

    /// Waits for a child to end. Returns how it ended, or a failure.
    fn wait(&mut self, child: u8) -> Answer
        requires { made self.old < 2 ^ 63 }
        ensures name { named self.new ≡ named self.old }
        ensures calls { made self.new ≡ made self.old + 1 }
        ensures failures { (failed self.old ≤ failed self.new) × (failed self.new ≤ made self.new) }
        ensures told { told (named self.new) (made self.new) (asked_of child Wait) result }
        ensures fails { IsFailure result → failed self.old < failed self.new };

    /// Returns the name of the keeper.
    fn name(&self) -> u64
        ensures { result ≡ named self.now };

    /// Returns the number of calls.
    fn calls(&self) -> u64
        ensures { result ≡ made self.now };

    /// Returns the number of calls that failed.
    fn failures(&self) -> u64
        ensures { result ≡ failed self.now };
}
