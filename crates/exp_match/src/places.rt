//! Parts of a slice at and after an index.

ghost use Rattle.std.specs.Prelude.{◌≡◌, ◌≤◌, ◌<◌, ◌≢◌, ◌==◌, IsTrue, drop, length, slice_index};

/// Returns the items from an index on.
pub(crate) fn after<T>(items: &[T], at: usize) -> &[T]
    requires { at ≤ length items.now }
    ensures { result.now ≡ drop at items.now }
{
    items.split_at(at).1
}

/// Returns the character at an index, or NUL past the end.
pub(crate) fn char_at(chars: &[char], at: usize) -> char
    ensures value { result ≡ slice_index chars.now at }
    ensures within { result ≢ 0 → at < length chars.now }
{
    match chars.get(at) {
        Some(c) => *c,
        None => '\0',
    }
}

/// Returns whether the character at an index is c, which isn't NUL.
pub(crate) fn is_at(chars: &[char], at: usize, c: char) -> bool
    requires { c ≢ 0 }
    ensures value { result ≡ (slice_index chars.now at == c) }
    ensures within { IsTrue result → at < length chars.now }
{
    char_at(chars, at) == c
}
