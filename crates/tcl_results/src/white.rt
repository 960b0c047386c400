//! Trims white space from the ends of a text.

ghost use Rattle.std.specs.Prelude.{◌≡◌, ◌≤◌, length, reverse};
ghost use Rattle.std.specs.List.{prefix_len};
ghost use Rattle.tcl_results.specs.White.{trimmed_front, trimmed_end};
ghost use Rattle.tcl_words.specs.Lists.{is_white};

use tcl_words::is_white;

/// Returns the number of bytes of white space at the front of a text.
pub fn white_front(text: &[u8]) -> usize
    ensures value { result ≡ prefix_len is_white text.now }
    ensures within { result ≤ length text.now }
{
    text.iter().take_while(|b| is_white(**b)).count()
}

fn white_end(text: &[u8]) -> usize
    ensures value { result ≡ prefix_len is_white (reverse text.now) }
    ensures within { result ≤ length text.now }
{
    text.iter().rev().take_while(|b| is_white(**b)).count()
}

/// Returns a text without the white space at its front.
pub fn trimmed_front(text: &[u8]) -> &[u8]
    ensures { result.now ≡ trimmed_front text.now }
{
    text.split_at(white_front(text)).1
}

/// Returns a text without the white space at its end.
pub fn trimmed_end(text: &[u8]) -> &[u8]
    ensures { result.now ≡ trimmed_end text.now }
{
    text.split_at(text.len() - white_end(text)).0
}
