//! Sets of bytes.

ghost use Rattle.std.specs.Prelude.{◌≡◌, ◌≢◌, ◌<◌, ℕ, true, false, slice_index_or};
ghost use Rattle.tcl_results.specs.Sets.{is_one_of};

use std::marker::Model;

/// The bytes of a text as a set. A contract sees the text.
#[derive(Drop)]
pub struct ByteSet<'a> {
    /// The text.
    bytes: &'a [u8],
    /// Whether each of the 256 bytes is in the text.
    flags: [bool; 256],
}

impl<'a> Model for ByteSet<'a> {
    ghost use Rattle.std.specs.Prelude.{◌≡◌, ◌<◌, List, ℕ, false, length, slice_index_or};
    ghost use Rattle.tcl_results.specs.Sets.{is_one_of};

    ghost Value = { List ℕ };

    ghost view = { λ s. s.bytes.now };

    ghost invariant = { λ s. (length s.flags ≡ 256) × ((b : ℕ) → b < 256 → slice_index_or s.flags b false ≡ is_one_of s.bytes.now b) };
}

fn no_flags() -> [bool; 256]
    ensures { (b : ℕ) → b < 256 → slice_index_or result b false ≡ false }
{
    [false; 256]
}

fn set_flag(flags: &mut [bool; 256], byte: u8)
    ensures set { slice_index_or flags.new byte false ≡ true }
    ensures others { (b : ℕ) → b ≢ byte → slice_index_or flags.new b false ≡ slice_index_or flags.old b false }
{
    flags[byte as usize] = true;
}

fn flags_of(bytes: &[u8]) -> [bool; 256]
    ensures { (b : ℕ) → b < 256 → slice_index_or result b false ≡ is_one_of bytes.now b }
{
    let mut flags = no_flags();
    for i in 0..bytes.len() {
        set_flag(&mut flags, bytes[i]);
    }
    flags
}

impl<'a> ByteSet<'a> {
    /// Creates the set of a text's bytes.
    pub fn new(bytes: &'a [u8]) -> ByteSet<'a>
        ensures { result ≡ bytes.now }
    {
        ByteSet {
            bytes,
            flags: flags_of(bytes),
        }
    }

    /// Returns whether the set contains a byte. Constant time.
    pub fn has(&self, byte: u8) -> bool
        ensures { result ≡ is_one_of self.now byte }
    {
        self.flags[byte as usize]
    }
}
