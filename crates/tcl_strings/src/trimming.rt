//! Trims the bytes of a set from the ends of a text.

ghost use Rattle.std.specs.Prelude.{◌≡◌, ◌≤◌, length, reverse};
ghost use Rattle.std.specs.List.{prefix_len};
ghost use Rattle.tcl_results.specs.Sets.{is_one_of};
ghost use Rattle.tcl_strings.specs.Strings.{trimmed_left, trimmed_right};

use tcl_results::ByteSet;

fn front_of(set: &ByteSet, text: &[u8]) -> usize
    ensures value { result ≡ prefix_len (is_one_of set.now) text.now }
    ensures within { result ≤ length text.now }
{
    text.iter().take_while(|b| set.has(**b)).count()
}

fn end_of(set: &ByteSet, text: &[u8]) -> usize
    ensures value { result ≡ prefix_len (is_one_of set.now) (reverse text.now) }
    ensures within { result ≤ length text.now }
{
    text.iter().rev().take_while(|b| set.has(**b)).count()
}

/// Returns a text without the bytes of a set at its front.
pub(crate) fn trimmed_left<'a>(set: &ByteSet, text: &'a [u8]) -> &'a [u8]
    ensures { result.now ≡ trimmed_left set.now text.now }
{
    text.split_at(front_of(set, text)).1
}

/// Returns a text without the bytes of a set at its end.
pub(crate) fn trimmed_right<'a>(set: &ByteSet, text: &'a [u8]) -> &'a [u8]
    ensures { result.now ≡ trimmed_right set.now text.now }
{
    text.split_at(text.len() - end_of(set, text)).0
}
