//! Compares texts, with or without case.

ghost use Rattle.std.specs.Prelude.{◌≡◌, map, bytes_eq, IfOk};
ghost use Rattle.std.specs.Char.{to_ascii_lowercase};
ghost use Rattle.std.specs.Cmp.Lexicographic.{slice_cmp};
ghost use Rattle.std.specs.Ordering.{nat_cmp};
ghost use Rattle.tcl_results.specs.Cases.{folded, are_same};

use command_table::is;
use std::alloc::{AllocError, Global};
use std::cmp::Ordering;
use tcl_words::Text;

/// Returns a text with its ASCII letters in lower case.
pub fn lower(alloc: Global, text: &[u8]) -> Result<Text, AllocError>
    ensures { IfOk result (λ t. t ≡ map to_ascii_lowercase text.now) }
{
    Ok(Text {
        bytes: text.to_ascii_lowercase(alloc)?,
    })
}

fn are_alike(a: &[u8], b: &[u8]) -> bool
    ensures { result ≡ bytes_eq (map to_ascii_lowercase a.now) (map to_ascii_lowercase b.now) }
{
    a.eq_ignore_ascii_case(b)
}

/// Returns whether two texts are equal. `nocase` ignores the case of ASCII letters.
pub fn are_same(nocase: bool, a: &[u8], b: &[u8]) -> bool
    ensures { result ≡ are_same nocase a.now b.now }
{
    if nocase { are_alike(a, b) } else { is(a, b) }
}

/// Compares two texts byte by byte. `nocase` compares them in lower case.
pub fn order(alloc: Global, nocase: bool, a: &[u8], b: &[u8]) -> Result<Ordering, AllocError>
    ensures { IfOk result (λ o. o ≡ slice_cmp nat_cmp (folded nocase a.now) (folded nocase b.now)) }
{
    if nocase {
        let a = lower(alloc, a)?;
        let b = lower(alloc, b)?;
        return Ok(a.as_slice().cmp(&b.as_slice()));
    }
    Ok(a.cmp(&b))
}
