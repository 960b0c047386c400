//! Decides which bytes an element matches.

ghost use Rattle.std.specs.Prelude.{◌≡◌, ◌≤◌, length};
ghost use Rattle.exp_glob.specs.Spans.{in_range as in_range_of, range_after as range_after_of, class_has as class_has_of, takes as takes_of};

use crate::element::Single;
use crate::places::after;

/// Returns whether a byte is between two others, in either order.
fn in_range(one: u8, other: u8, byte: u8) -> bool
    ensures { result ≡ in_range_of one other byte }
{
    (one <= byte && byte <= other) || (other <= byte && byte <= one)
}

/// Returns the other end of the range that begins with a member, and the number of later bytes that
/// belong to it.
fn range_after(member: u8, rest: &[u8]) -> (u8, usize)
    ensures value { result ≡ range_after_of member rest.now }
    ensures within { result.1 ≤ length rest.now }
{
    match rest {
        [] => (member, 0),
        [_] => (member, 0),
        [dash, end, ..] => {
            if *dash == b'-' {
                (*end, 2)
            } else {
                (member, 0)
            }
        }
    }
}

/// Returns whether a class contains a byte.
fn class_has(members: &[u8], byte: u8) -> bool
    ensures { result ≡ class_has_of members.now byte }
{
    let mut at = 0;
    while at < members.len() {
        let (end, n) = range_after(members[at], after(members, at + 1));
        if in_range(members[at], end, byte) {
            return true;
        }
        at += 1 + n;
    }
    false
}

/// Returns whether an element matches a byte. Under `nocase`, ASCII letters are compared without
/// case.
pub(crate) fn takes(single: &Single, byte: u8, nocase: bool) -> bool
    ensures { result ≡ takes_of nocase single.now byte }
{
    match single {
        Single::Any => true,
        Single::Byte(b) => {
            if nocase {
                byte.to_ascii_lowercase() == b.to_ascii_lowercase()
            } else {
                byte == *b
            }
        }
        Single::Class(members) => {
            if nocase {
                class_has(members.as_slice(), byte.to_ascii_lowercase())
                    || class_has(members.as_slice(), byte.to_ascii_uppercase())
            } else {
                class_has(members.as_slice(), byte)
            }
        }
    }
}
