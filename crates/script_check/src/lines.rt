//! Lines of a source.

ghost use Rattle.std.specs.Prelude.{◌≡◌, suc};
ghost use Rattle.script_check.specs.Lines.{newlines, line_of};

use crate::span::Span;
use crate::stretch::part;

/// Returns the number of newlines in a range of the source.
pub fn newlines(source: &[u8], span: Span) -> usize
    ensures { result ≡ newlines source.now span }
{
    part(source, span).iter().filter(|b| **b == b'\n').count()
}

/// Returns the line number of a position, counted from 1.
///
/// It reads the whole source before the position. For a later finding, add `newlines` of the range
/// between the two.
pub fn line_of(source: &[u8], at: usize) -> usize
    ensures { result ≡ line_of source.now at }
{
    newlines(source, Span { from: 0, to: at }) + 1
}
