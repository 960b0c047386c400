//! How the terminal changes a program's output.

ghost use Rattle.std.specs.Prelude.{◌≡◌, ◌<◌, ◌≤◌, ◌++◌, ◌∷◌, [], length, take, true, false, IfOk, OnOk, MatchOption};
ghost use Rattle.tty.specs.Output.{convert, maps_newlines, is_plain as is_plain_of, ArePlain};

use crate::modes::Modes;
use memchr::memchr2;
use std::alloc::{AllocError, Global};
use std::marker::Model;
use tcl_words::Text;

impl Modes {
    /// Returns whether a newline in the output becomes a carriage return and a newline.
    fn maps_newlines(self) -> bool
        ensures { result ≡ maps_newlines self }
    {
        self.opost && self.onlcr
    }
}

/// The visible form of output, read run by run. A contract sees the visible form of the rest.
#[derive(Drop)]
pub struct Seen<'a> {
    /// Whether NUL bytes are removed.
    remove: bool,
    modes: Modes,
    rest: &'a [u8],
}

impl<'a> Model for Seen<'a> {
    ghost use Rattle.std.specs.Prelude.{List, ℕ};
    ghost use Rattle.tty.specs.Output.{convert};

    ghost Value = { List ℕ };

    ghost view = { λ s. convert s.remove s.modes s.rest.now };
}

/// Returns whether no mode changes the byte: it is neither a newline nor NUL.
fn is_plain(b: u8) -> bool
    ensures { result ≡ is_plain_of b }
{
    b != b'\n' && b != 0
}

/// Returns the number of bytes before the first newline or NUL.
fn plain_len(bytes: &[u8]) -> usize
    ensures within { result ≤ length bytes.now }
    ensures plain { ArePlain (take result bytes.now) }
{
    match memchr2(b'\n', 0, bytes) {
        Some(at) => at,
        None => bytes.len(),
    }
}

/// Returns the visible form of a newline or NUL. `None` if it is removed.
fn seen_alone(remove: bool, modes: Modes, b: u8) -> Option<&'static [u8]>
    requires { is_plain_of b ≡ false }
    ensures { MatchOption result (convert remove modes (b ∷ []) ≡ []) (λ run. (convert remove modes (b ∷ []) ≡ run.now) × (0 < length run.now)) }
{
    if b == 0 {
        if remove {
            return None;
        }
        return Some(b"\0");
    }
    if modes.maps_newlines() {
        Some(b"\r\n")
    } else {
        Some(b"\n")
    }
}

impl<'a> Seen<'a> {
    /// Converts output to its visible form. NUL bytes are removed if `remove` is true. Each newline
    /// gets a carriage return before it if `opost` and `onlcr` are on.
    pub fn new(remove: bool, modes: Modes, bytes: &'a [u8]) -> Seen<'a>
        ensures { result ≡ convert remove modes bytes.now }
    {
        Seen {
            remove,
            modes,
            rest: bytes,
        }
    }

    /// Returns the next run of visible bytes, which is not empty. `None` at the end.
    pub fn next(&mut self) -> Option<&'a [u8]>
        ensures { MatchOption result (self.old ≡ []) (λ run. (self.old ≡ run.now ++ self.new) × (0 < length run.now)) }
    {
        'removed: while let [b, behind @ ..] = self.rest {
            if is_plain(*b) {
                let (run, behind) = self.rest.split_at(1 + plain_len(behind));
                self.rest = behind;
                return Some(run);
            }
            self.rest = behind;
            if let Some(run) = seen_alone(self.remove, self.modes, *b) {
                return Some(run);
            }
        }
        None
    }
}

/// Appends output in its visible form.
fn put_seen(out: &mut Vec<u8>, seen: Seen<'_>) -> Result<(), AllocError>
    ensures { OnOk result (out.new.items ≡ out.old.items ++ seen.entry) }
{
    let mut seen = seen;
    'runs: while let Some(run) = seen.next() {
        out.extend_from_slice(run)?;
    }
    Ok(())
}

/// Returns a text with output appended in its visible form.
pub fn convert_behind(
    text: Text,
    remove: bool,
    modes: Modes,
    bytes: &[u8],
) -> Result<Text, AllocError>
    ensures { IfOk result (λ t. t ≡ text ++ convert remove modes bytes.now) }
{
    let mut seen = text;
    put_seen(&mut seen.bytes, Seen::new(remove, modes, bytes))?;
    Ok(seen)
}

/// Returns output in its visible form.
pub fn convert(alloc: Global, remove: bool, modes: Modes, bytes: &[u8]) -> Result<Text, AllocError>
    ensures { IfOk result (λ t. t ≡ convert remove modes bytes.now) }
{
    convert_behind(Text::new(alloc), remove, modes, bytes)
}
