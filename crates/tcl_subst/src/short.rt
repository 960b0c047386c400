//! Short names.

ghost use Rattle.std.specs.Prelude.{◌≡◌, ◌<◌, ◌≤◌, length, nat_eq, refl, Some, IfSome, IfNone, IfOk};
ghost use Rattle.std.specs.Ordering.{nat_cmp};
ghost use Rattle.std.specs.Cmp.{on_equiv, on_total, on_po, on_per, partial_equiv_from_equiv};
ghost use Rattle.std.specs.Cmp.Lexicographic.{pointwise, slice_cmp, nat_list_eq_equiv, nat_list_cmp_total, texts_po, texts_ties};
ghost use Rattle.std.specs.Slice.Scan.{big_endian};
ghost use Rattle.tcl_subst.specs.Shorts.{text_of, IsKey};

use std::alloc::{AllocError, Global};
use std::cmp::Ordering;

/// The most bytes in a short name.
pub const SHORT: usize = 15;

/// A name of at most 15 bytes that needs no allocation. It is the number of 16 bytes: those of the
/// name, zeros, and the length. Names therefore compare like these numbers.
#[derive(Clone, Copy, Drop)]
pub struct Short {
    key: u128,
    ghost is_key: { IsKey key },
}

/// Returns the number that bytes encode, the most significant byte first.
#[inline(always)]
fn spelt(bytes: &[u8]) -> u128
    requires { length bytes.now ≤ 15 }
    ensures { result ≡ big_endian 0 bytes.now }
{
    let mut number: u128 = 0;
    for byte in bytes {
        number = number * 256 + u128::from(*byte);
    }
    number
}

impl Short {
    /// Creates a short name. `None` if the name has more than 15 bytes.
    #[inline(always)]
    pub fn of(name: &[u8]) -> Option<Short>
        ensures short { IfSome result (λ s. (text_of s.key ≡ name.now) × (length name.now ≤ 15)) }
        ensures long { IfNone result (15 < length name.now) }
    {
        let len = name.len();
        if len > SHORT {
            return None;
        }
        let padded = spelt(name) << (8 * (SHORT - len));
        Some(Short {
            key: padded * 256 + len as u128,
        })
    }

    /// Returns a copy of the bytes, in order.
    pub fn name(&self, alloc: Global) -> Result<Vec<u8>, AllocError>
        ensures { IfOk result (λ n. n.items ≡ text_of self.now.key) }
    {
        let bytes = self.key.to_be_bytes();
        Vec::from_slice(alloc, &bytes[..usize::from(bytes[SHORT])])
    }
}

impl PartialEq for Short {
    ghost eq = { λ x y. pointwise nat_eq (text_of x.key) (text_of y.key) };

    ghost laws = { on_per (λ s. text_of s.key) (partial_equiv_from_equiv nat_list_eq_equiv) };

    fn eq(&self, other: &Short) -> bool {
        self.cmp(other).is_eq()
    }
}

impl Eq for Short {
    ghost laws = { on_equiv (λ s. text_of s.key) nat_list_eq_equiv };
}

impl PartialOrd for Short {
    ghost partial_cmp = { λ x y. Some (slice_cmp nat_cmp (text_of x.key) (text_of y.key)) };

    ghost laws = { on_po (λ s. text_of s.key) texts_po };

    fn partial_cmp(&self, other: &Short) -> Option<Ordering> {
        Some(self.cmp(other))
    }
}

impl Ord for Short {
    ghost cmp = { λ x y. slice_cmp nat_cmp (text_of x.key) (text_of y.key) };

    ghost total = { on_total (λ s. text_of s.key) nat_list_cmp_total };

    ghost matches_partial_cmp = { λ x y. refl };

    ghost matches_eq = { λ x y. texts_ties (text_of x.key) (text_of y.key) };

    #[inline(always)]
    fn cmp(&self, other: &Short) -> Ordering {
        self.key.cmp(&other.key)
    }
}
