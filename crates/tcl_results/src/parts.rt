//! Parts of a text.

ghost use Rattle.std.specs.Prelude.{◌≡◌, drop, take};

/// Returns the first `most` bytes of a word.
pub fn front(word: &[u8], most: usize) -> &[u8]
    ensures { result.now ≡ take most word.now }
{
    if word.len() <= most {
        word
    } else {
        word.split_at(most).0
    }
}

/// Returns the bytes of a text from an index on.
pub fn after(text: &[u8], n: usize) -> &[u8]
    ensures { result.now ≡ drop n text.now }
{
    if text.len() < n {
        return &[];
    }
    text.split_at(n).1
}
