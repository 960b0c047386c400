//! Literals: bytes that each match of a run contains. A search looks for them first.

ghost use Rattle.std.specs.Prelude.{◌≡◌, ◌<◌, ℕ, Bool, true, List, drop, length};
ghost use Rattle.memchr.specs.Find.{OccursAt};
ghost use Rattle.exp_glob.specs.Literals.{IsLiteral, AreLiterals};
ghost use Rattle.exp_glob.specs.Spans.{Spans};
ghost use Rattle.exp_glob.specs.declared.element.Element.{Element as ElementOf};

use crate::ending::Ending;
use crate::places::after;
use memchr::memmem;

/// Bytes that each match of a run contains.
#[derive(Drop)]
pub struct Literal {
    /// Their distance from the start of a match, in bytes.
    pub offset: usize,
    /// The bytes, or no bytes if the run has no literal.
    pub bytes: Vec<u8>,
}

/// The literals of a pattern.
#[derive(Drop)]
pub struct Literals {
    /// One literal per run, in order. The last runs may have none.
    pub runs: Vec<Literal>,
    /// The run whose literal a search looks for first, or 0 for the first run.
    pub ahead: usize,
    /// The literal at the end of a match.
    pub ending: Ending,
}

/// Returns the literal of the first run: its distance from the start of a match, and its bytes.
pub(crate) fn first_literal(literals: &[Literal]) -> (usize, &[u8])
    ensures { (nocase : Bool) → (es : List ElementOf) → AreLiterals nocase es literals.now → IsLiteral nocase es result.0 result.1.now }
{
    match literals {
        [] => (0, &[]),
        [first, ..] => (first.offset, first.bytes.as_slice()),
    }
}

/// Returns the literals of the runs after the first.
pub(crate) fn later_literals(literals: &[Literal]) -> &[Literal]
    ensures { result.now ≡ drop 1 literals.now }
{
    match literals {
        [] => literals,
        [_, later @ ..] => later,
    }
}

/// Returns true only if the text lacks bytes that each match contains.
pub(crate) fn lacks_literal(literals: &Literals, text: &[u8]) -> bool
    ensures { result ≡ true → (nocase : Bool) → (es : List ElementOf) → (a b : ℕ) → AreLiterals nocase es literals.now.runs.items → ¬ Spans nocase es text.now a b }
{
    if literals.ahead == 0 || literals.runs.len() <= literals.ahead {
        return false;
    }
    match after(literals.runs.as_slice(), literals.ahead) {
        [] => false,
        [sought, ..] => is_missing(sought.bytes.as_slice(), text),
    }
}

/// Returns true only if `bytes` is not empty and does not occur in the text.
fn is_missing(bytes: &[u8], text: &[u8]) -> bool
    ensures { result ≡ true → (0 < length bytes.now) × ((k : ℕ) → ¬ OccursAt text.now bytes.now k) }
{
    if bytes.is_empty() {
        return false;
    }
    match memmem::find(text, bytes) {
        Some(_) => false,
        None => true,
    }
}
