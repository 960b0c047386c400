//! White space in an expression, and parts of a text.

ghost use Rattle.std.specs.Prelude.{◌≡◌, ◌≤◌, ◌<◌, drop, take, length, IsTrue};
ghost use Rattle.tcl_words.specs.Lists.{begins_with};
ghost use Rattle.tcl_expr.specs.White.{white, gap};

use tcl_words::{blanks, is_continued, is_white};

/// Returns the bytes from an index on.
pub(crate) fn after(bytes: &[u8], at: usize) -> &[u8]
    requires { at ≤ length bytes.now }
    ensures { result.now ≡ drop at bytes.now }
{
    bytes.split_at(at).1
}

/// Returns the bytes before an index.
pub(crate) fn before(bytes: &[u8], at: usize) -> &[u8]
    requires { at ≤ length bytes.now }
    ensures { result.now ≡ take at bytes.now }
{
    bytes.split_at(at).0
}

/// Returns whether a text begins with the byte c.
pub(crate) fn begins_with(c: u8, bytes: &[u8]) -> bool
    ensures value { result ≡ begins_with c bytes.now }
    ensures some { IsTrue result → 0 < length bytes.now }
{
    match bytes {
        [] => false,
        [b, ..] => *b == c,
    }
}

/// Returns the number of leading bytes of white space. A backslash before a newline, with the
/// spaces and tabs after it, is white space too.
pub(crate) fn white(bytes: &[u8]) -> usize
    ensures value { result ≡ white bytes.now }
    ensures within { result ≤ length bytes.now }
{
    let mut at = 0;
    while at < bytes.len() {
        let b = bytes[at];
        let rest = after(bytes, at + 1);
        if is_white(b) {
            at += 1;
            continue;
        }
        if !is_continued(b, rest) {
            return at;
        }
        at += 2 + blanks(after(rest, 1));
    }
    at
}

/// Returns the index after the white space at an index.
pub(crate) fn gap(bytes: &[u8], at: usize) -> usize
    requires { at ≤ length bytes.now }
    ensures value { result ≡ gap bytes.now at }
    ensures within { (at ≤ result) × (result ≤ length bytes.now) }
{
    at + white(after(bytes, at))
}
