//! The result of a test of the buffer's bytes.

ghost use Rattle.std.specs.Prelude.{◌≡◌};
ghost use Rattle.exp_match.specs.Choice.{with_spans as with_its_spans};

use crate::matcher::Spans;

/// The result of a test of bytes against patterns, with spans.
#[derive(Clone, Copy)]
pub enum Chosen {
    /// The pattern with this number matches. The spans are those of its groups 0 to 9.
    Pattern(usize, Spans),
    /// No pattern matches, and the buffer is full.
    Full,
    /// Neither of these.
    None,
}

/// The result of a test of bytes against patterns, without spans. It is small, because it is
/// returned for each test and few tests match. The caller keeps the spans.
#[derive(Clone, Copy)]
pub enum Picked {
    /// The pattern with this number matches.
    Pattern(usize),
    /// No pattern matches, and the buffer is full.
    Full,
    /// Neither of these.
    None,
}

impl Picked {
    /// Adds the spans, if a pattern matches.
    pub fn with_spans(self, spans: &Spans) -> Chosen
        ensures { result ≡ with_its_spans self spans.now }
    {
        match self {
            Picked::Pattern(index) => Chosen::Pattern(index, *spans),
            Picked::Full => Chosen::Full,
            Picked::None => Chosen::None,
        }
    }
}
