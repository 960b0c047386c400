//! The six words that are truth values, and truth values as texts.

ghost use Rattle.std.specs.Prelude.{◌≡◌, bytes_eq};
ghost use Rattle.tcl_expr.specs.Truth.{word_of, word_text, says, truth_of, truth_from};

use crate::number::read_number;

/// A word that is a truth value.
#[derive(Clone, Copy, PartialEq, Eq)]
pub(crate) enum Bareword {
    True,
    Yes,
    On,
    False,
    No,
    Off,
}

pub(crate) fn is_same(a: &[u8], b: &[u8]) -> bool
    ensures { result ≡ bytes_eq a.now b.now }
{
    a == b
}

impl Bareword {
    /// Returns the word that a text is. Other cases and abbreviations are not accepted.
    #[tactic(auto, unfolding(crate::specs::Truth::word_of))]
    pub(crate) fn read(text: &[u8]) -> Option<Bareword>
        ensures { result ≡ word_of text.now }
    {
        if is_same(text, b"true") {
            return Some(Bareword::True);
        }
        if is_same(text, b"yes") {
            return Some(Bareword::Yes);
        }
        if is_same(text, b"on") {
            return Some(Bareword::On);
        }
        if is_same(text, b"false") {
            return Some(Bareword::False);
        }
        if is_same(text, b"no") {
            return Some(Bareword::No);
        }
        if is_same(text, b"off") {
            return Some(Bareword::Off);
        }
        None
    }

    /// Returns the word as a text.
    pub(crate) fn text(self) -> &'static [u8]
        ensures { result.now ≡ word_text self }
    {
        match self {
            Bareword::True => b"true",
            Bareword::Yes => b"yes",
            Bareword::On => b"on",
            Bareword::False => b"false",
            Bareword::No => b"no",
            Bareword::Off => b"off",
        }
    }

    /// Returns the truth value of the word.
    pub(crate) fn says(self) -> bool
        ensures { result ≡ says self }
    {
        match self {
            Bareword::True => true,
            Bareword::Yes => true,
            Bareword::On => true,
            Bareword::False => false,
            Bareword::No => false,
            Bareword::Off => false,
        }
    }
}

/// Returns the truth value of a text that is this number, or no number.
pub(crate) fn truth_from(number: Option<i64>, text: &[u8]) -> Option<bool>
    ensures { result ≡ truth_from number text.now }
{
    match number {
        Some(n) => Some(n != 0),
        None => match Bareword::read(text) {
            None => None,
            Some(word) => Some(word.says()),
        },
    }
}

/// Returns the truth value of a text. It is a number (only 0 is false), or one of `true`, `yes`,
/// `on`, `false`, `no` and `off`. `None` for any other text.
#[tactic(auto, unfolding(crate::specs::Truth::truth_of))]
pub fn read_truth(text: &[u8]) -> Option<bool>
    ensures { result ≡ truth_of text.now }
{
    truth_from(read_number(text), text)
}
