//! Reads the log of events.

ghost use Rattle.std.specs.Prelude.{◌≡◌, ◌≢◌, ◌+◌, ◌≤◌, ◌<◌, ◌^◌, ◌++◌, ℕ, List, length, IfOk, IfErr};
ghost use Rattle.child_events.specs.Log.{heading, numbers_of, AllFit, PlainLog, CountedLog, LogText};
ghost use Rattle.child_events.specs.Reading.{log_events, first_fault, Refused};
ghost use Rattle.child_events.specs.declared.child_numbers.ChildNumbers.{ChildNumbers};
ghost use Rattle.child_events.specs.declared.child_numbers.ChildNumbers.TheVariants.{To16, To999};
ghost use Rattle.child_events.specs.declared.event.HallEvent.{HallEvent};

use crate::faults::LogFault;
use crate::hall_events::HallEvents;
use crate::log_reader::LogReader;
use std::alloc::Global;

/// Reads all events of a log.
///
/// An error is the first one in the log, with its line number, counted from 1. It may also be
/// `Memory`.
pub fn read_log(alloc: Global, bytes: &[u8]) -> Result<HallEvents, LogFault>
    ensures found { IfOk result (λ es. LogText bytes.now es) }
    ensures refused { IfErr result (λ f. f ≢ LogFault.Memory → Refused bytes.now f) }
{
    let mut reader = LogReader::new(bytes)?;
    let all = reader.len();
    Ok(reader.take(alloc, all)?)
}

/// States laws of every text and every list of events. A list has at most one log of each version.
/// A text is the log of at most one list, and is a log exactly if no line has an error.
///
/// A log written in version 2 or 3 is read as the events that were written. A log read in version 2
/// or 3 is what that version has for its events. `write_log` writes the events of version 2 in
/// version 2, and those that only version 3 has in version 3. If a log of version 2 or 3 lost part
/// of its end, it has an error. It does nothing at run time.
pub fn log_laws()
    ensures one_text { (bytes others : List ℕ) (es : List HallEvent) → PlainLog bytes es → PlainLog others es → bytes ≡ others }
    ensures one_written { (nums : ChildNumbers) (bytes others : List ℕ) (es : List HallEvent) → CountedLog nums bytes es → CountedLog nums others es → bytes ≡ others }
    ensures one_list { (bytes : List ℕ) (es fs : List HallEvent) → LogText bytes es → LogText bytes fs → es ≡ fs }
    ensures sound { (bytes : List ℕ) (es : List HallEvent) → LogText bytes es → first_fault bytes ≡ None }
    ensures complete { (bytes : List ℕ) → first_fault bytes ≡ None → (es : List HallEvent) × LogText bytes es }
    ensures written_reads { (nums : ChildNumbers) (bytes : List ℕ) (es : List HallEvent) → CountedLog nums bytes es → length es < 10 ^ 16 → log_events bytes ≡ Ok es }
    ensures read_writes { (nums : ChildNumbers) (bytes rest : List ℕ) (es : List HallEvent) → bytes ≡ heading nums ++ rest → log_events bytes ≡ Ok es → CountedLog nums bytes es }
    ensures in_version_2 { (es : List HallEvent) → AllFit To16 es → numbers_of es ≡ To16 }
    ensures in_version_3 { (es : List HallEvent) → (AllFit To16 es → ⊥) → numbers_of es ≡ To999 }
    ensures cut_off { (nums : ChildNumbers) (front rest : List ℕ) (es : List HallEvent) → CountedLog nums (front ++ rest) es → length es < 10 ^ 16 → 0 < length front → 0 < length rest → first_fault front ≢ None }
{}
