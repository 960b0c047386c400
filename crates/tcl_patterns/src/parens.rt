//! Counts the groups of regular patterns.

ghost use Rattle.std.specs.Prelude.{◌≡◌, ◌≤◌, slice_index_or, length};
ghost use Rattle.tcl_patterns.specs.Parens.{in_class, outside, goes_on, opened, group_count};

/// Where the next byte of a pattern stands.
#[derive(Clone, Copy)]
pub(crate) enum PatternState {
    /// Outside of classes.
    Outside,
    /// After a backslash.
    Escape,
    /// After the `[` of a class.
    Opening,
    /// After `[^`.
    First,
    /// In a class.
    Class,
    /// After a backslash in a class.
    ClassEscape,
    /// In the name of a class, as `[:alpha:]`.
    Name,
}

/// Returns where a pattern goes on after a byte of a class, before the byte `next`.
fn in_class(byte: u8, next: u8) -> PatternState
    ensures { result ≡ in_class byte next }
{
    if byte == b'\\' {
        PatternState::ClassEscape
    } else if byte == b'[' && next == b':' {
        PatternState::Name
    } else {
        PatternState::Class
    }
}

/// Returns where a pattern goes on after a byte outside of classes.
fn outside(byte: u8) -> PatternState
    ensures { result ≡ outside byte }
{
    if byte == b'\\' {
        PatternState::Escape
    } else if byte == b'[' {
        PatternState::Opening
    } else {
        PatternState::Outside
    }
}

/// Returns where a pattern goes on after a byte, before the byte `next`.
fn goes_on(place: PatternState, byte: u8, next: u8) -> PatternState
    ensures { result ≡ goes_on place byte next }
{
    match place {
        PatternState::Outside => outside(byte),
        PatternState::Escape => PatternState::Outside,
        PatternState::Opening if byte == b'^' => PatternState::First,
        PatternState::Opening if byte == b']' => PatternState::Class,
        PatternState::Opening => in_class(byte, next),
        PatternState::First if byte == b']' => PatternState::Class,
        PatternState::First => in_class(byte, next),
        PatternState::Class if byte == b']' => PatternState::Outside,
        PatternState::Class => in_class(byte, next),
        PatternState::ClassEscape => PatternState::Class,
        PatternState::Name if byte == b']' => PatternState::Class,
        PatternState::Name => PatternState::Name,
    }
}

/// Returns how many groups open with a byte, before the byte `next`: 0 or 1.
fn opened(place: PatternState, byte: u8, next: u8) -> usize
    ensures value { result ≡ opened place byte next }
    ensures within { result ≤ 1 }
{
    match place {
        PatternState::Outside if byte == b'(' && next != b'?' => 1,
        _ => 0,
    }
}

/// Returns the first byte of a text, or 0 if it is empty.
fn first(text: &[u8]) -> u8
    ensures { result ≡ slice_index_or text.now 0 0 }
{
    match text {
        [] => 0,
        [byte, ..] => *byte,
    }
}

/// Returns how many groups a pattern has.
#[tactic(auto, unfolding(crate::specs::Parens::group_count))]
pub(crate) fn group_count(pattern: &[u8]) -> usize
    ensures count { result ≡ group_count pattern.now }
    ensures within { result ≤ length pattern.now }
{
    let mut count = 0;
    let mut place = PatternState::Outside;
    let mut rest = pattern;
    while let [byte, more @ ..] = rest {
        let next = first(more);
        count += opened(place, *byte, next);
        place = goes_on(place, *byte, next);
        rest = more;
    }
    count
}
