//! Classes of characters in a regular pattern.

ghost use Rattle.std.specs.Prelude.{◌≡◌, ◌+◌, ◌≤◌, ◌<◌, IfSome, IsTrue, length, option_map, slice_index};
ghost use Rattle.exp_match.specs.Scan.{is_mark as mark, is_class_char as class_char, escaped as escaped_of, item as item_of, makes_range as makes_range_of, begins_set as begins_set_of, begins_name as begins_name_of, begins as begins_of, begins_with_five as five_of, named as named_of, may_end as may_end_of, ending as ending_of, member as member_of, members as members_of, plain_class as plain_class_of, class as class_of};

use crate::escapes::{escaped, is_set};
use crate::places::{after, char_at, is_at};

/// Returns whether `[` before this character is more than a character: `:` `.` `=`.
fn is_mark(c: char) -> bool
    ensures { result ≡ mark c }
{
    c == ':' || c == '.' || c == '='
}

/// Returns whether a character of a class stands for itself, given the characters after it.
fn is_class_char(c: char, rest: &[char]) -> bool
    ensures { result ≡ class_char c rest.now }
{
    match c {
        '\\' | ']' | '-' => false,
        '[' => !is_mark(char_at(rest, 0)),
        _ => true,
    }
}

/// Returns the character of an escaped item, given the characters after its backslash, and its
/// length with the backslash.
fn escaped_item(rest: &[char]) -> Option<(usize, usize)>
    ensures value { result ≡ option_map (λ p. (p.0, p.1 + 1)) (escaped_of rest.now) }
    ensures some { IfSome result (λ p. 0 < p.1) }
    ensures within { IfSome result (λ p. p.1 ≤ length rest.now + 1) }
{
    match escaped(rest) {
        Some((c, n)) => Some((c, n + 1)),
        None => None,
    }
}

/// Returns the character of the first item, and the number of characters that write it.
fn item(chars: &[char]) -> Option<(usize, usize)>
    ensures value { result ≡ item_of chars.now }
    ensures some { IfSome result (λ p. 0 < p.1) }
    ensures within { IfSome result (λ p. p.1 ≤ length chars.now) }
{
    match chars {
        [] => None,
        [c, rest @ ..] => {
            if *c == '\\' {
                escaped_item(rest)
            } else if is_class_char(*c, rest) {
                Some((*c as usize, 1))
            } else {
                None
            }
        }
    }
}

/// Returns whether the characters begin with a `-` that isn't followed by the end of the class.
fn makes_range(chars: &[char]) -> bool
    ensures value { result ≡ makes_range_of chars.now }
    ensures some { IsTrue result → 0 < length chars.now }
{
    is_at(chars, 0, '-') && !is_at(chars, 1, ']')
}

/// Returns whether the characters begin with a set.
fn begins_set(chars: &[char]) -> bool
    ensures value { result ≡ begins_set_of chars.now }
    ensures some { IsTrue result → 1 < length chars.now }
{
    match chars {
        ['\\', c, ..] => is_set(*c),
        _ => false,
    }
}

/// Returns whether the characters begin with `[:`.
fn begins_name(chars: &[char]) -> bool
    ensures value { result ≡ begins_name_of chars.now }
    ensures some { IsTrue result → 1 < length chars.now }
{
    is_at(chars, 0, '[') && is_at(chars, 1, ':')
}

/// Returns whether the characters begin with a word.
fn begins(word: &[u8], chars: &[char]) -> bool
    ensures value { result ≡ begins_of word.now chars.now }
    ensures within { IsTrue result → length word.now ≤ length chars.now }
{
    match word {
        [] => true,
        [w, word @ ..] => match chars {
            [] => false,
            [c, rest @ ..] => *c == *w as char && begins(word, rest),
        },
    }
}

/// Returns whether the characters begin with a name of five letters and `:]`.
fn begins_with_five(chars: &[char]) -> bool
    ensures value { result ≡ five_of chars.now }
    ensures within { IsTrue result → 7 ≤ length chars.now }
{
    begins(b"alnum:]", chars)
        || begins(b"alpha:]", chars)
        || begins(b"cntrl:]", chars)
        || begins(b"digit:]", chars)
        || begins(b"lower:]", chars)
        || begins(b"print:]", chars)
        || begins(b"space:]", chars)
        || begins(b"upper:]", chars)
}

/// Returns the number of characters in the name of a class and its `:]`.
#[tactic(auto, unfolding(crate::specs::Scan::named))]
fn named(chars: &[char]) -> Option<usize>
    ensures value { result ≡ named_of chars.now }
    ensures within { IfSome result (λ n. n ≤ length chars.now) }
{
    if begins_with_five(chars) {
        return Some(7);
    }
    if begins(b"xdigit:]", chars) {
        Some(8)
    } else {
        None
    }
}

/// Returns the number of characters in the first member.
#[tactic(auto, unfolding(crate::specs::Scan::member))]
fn member(chars: &[char]) -> Option<usize>
    ensures value { result ≡ member_of chars.now }
    ensures some { IfSome result (λ n. 0 < n) }
    ensures within { IfSome result (λ n. n ≤ length chars.now) }
{
    if begins_set(chars) {
        return Some(2);
    }
    if begins_name(chars) {
        let n = named(after(chars, 2))?;
        return Some(2 + n);
    }
    let (low, n) = item(chars)?;
    if !makes_range(after(chars, n)) {
        return Some(n);
    }
    let (high, m) = item(after(chars, n + 1))?;
    if low <= high { Some(n + 1 + m) } else { None }
}

/// Returns whether a class may end with this character.
fn may_end(c: char) -> bool
    ensures { result ≡ may_end_of c }
{
    c == ']' || c == '-'
}

/// Returns the number of characters that end a class: `]` or `-]`.
fn ending(c: char, rest: &[char]) -> Option<usize>
    ensures value { result ≡ ending_of c rest.now }
    ensures within { IfSome result (λ n. n ≤ length rest.now + 1) }
{
    if c == ']' {
        return Some(1);
    }
    if is_at(rest, 0, ']') { Some(2) } else { None }
}

/// Returns the number of characters in members, perhaps none, and the end of a class.
fn members(chars: &[char]) -> Option<usize>
    ensures value { result ≡ members_of chars.now }
    ensures within { IfSome result (λ n. n ≤ length chars.now) }
{
    let mut at = 0;
    while at < chars.len() {
        let c = char_at(chars, at);
        if may_end(c) {
            return match ending(c, after(chars, at + 1)) {
                Some(n) => Some(at + n),
                None => None,
            };
        }
        let Some(n) = member(after(chars, at)) else {
            return None;
        };
        at += n;
    }
    None
}

/// Returns whether the characters begin with `]` or `-`.
fn may_begin(chars: &[char]) -> bool
    ensures value { result ≡ may_end_of (slice_index chars.now 0) }
    ensures some { IsTrue result → 0 < length chars.now }
{
    is_at(chars, 0, ']') || is_at(chars, 0, '-')
}

/// Returns the number of characters in a class after its `[` or `[^`, with its `]`. A `]` or `-`
/// may be the first member.
fn plain_class(chars: &[char]) -> Option<usize>
    ensures value { result ≡ plain_class_of chars.now }
    ensures within { IfSome result (λ n. n ≤ length chars.now) }
{
    if may_begin(chars) {
        let n = members(after(chars, 1))?;
        return Some(1 + n);
    }
    members(chars)
}

/// Returns the number of characters in a class after its `[`, with its `]`.
#[tactic(auto, unfolding(crate::specs::Scan::class))]
pub(crate) fn class(chars: &[char]) -> Option<usize>
    ensures value { result ≡ class_of chars.now }
    ensures within { IfSome result (λ n. n ≤ length chars.now) }
{
    if is_at(chars, 0, '^') {
        let n = plain_class(after(chars, 1))?;
        return Some(1 + n);
    }
    plain_class(chars)
}
