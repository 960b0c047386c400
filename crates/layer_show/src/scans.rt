//! Searches data for patterns, as a dialogue does.

ghost use Rattle.std.specs.Prelude.{◌≡◌, ◌<◌, take, IfOk, IsTrue};
ghost use Rattle.exp_match.specs.Choice.{HasNone, LeavesNone, with_spans};

use crate::calls::{number, words_of};
use crate::complaint::Complaint;
use crate::patterns::{all_groups, list_of};
use crate::spell::{alloc_of, push_string};
use exp_match::{Matchers, PatternFault, PatternList, Picked, Spans};
use match_buffer::Buffer;
use std::alloc::{AllocError, Global};
use tcl_words::Text;

/// The number of bytes that are added at once.
const PIECE: usize = 4096;

/// Returns the end of the match that was picked. `None` if no pattern was picked.
fn end_of(picked: Picked, spans: &Spans) -> Option<usize> {
    match picked {
        Picked::Pattern(_) => spans[0].map(|span| span.1),
        Picked::Full => None,
        Picked::None => None,
    }
}

/// Tests the bytes of a buffer, given that the first `sought` bytes contain no match. Pass 0 if
/// unknown.
fn test<'l>(
    alloc: Global,
    list: &'l PatternList,
    matchers: &mut Matchers<'l>,
    groups: &[usize],
    buffer: &mut Buffer,
    sought: usize,
    spans: &mut Spans,
) -> Result<Picked, AllocError>
    requires { 0 < sought → HasNone list.now.entries groups.now (take sought buffer.old.ring.items) }
    ensures same { buffer.new ≡ buffer.old }
    ensures none { IfOk result (λ p. LeavesNone list.now.entries groups.now buffer.old.ring.items (with_spans p spans.new)) }
{
    let most = buffer.size;
    list.choose_with(alloc, matchers, groups, buffer.bytes(), sought, most, spans)
}

/// Takes matches from the buffer, given that its first `sought` bytes contain no match. Returns the
/// number of matches, and whether the remaining bytes contain none.
fn matches<'l>(
    alloc: Global,
    list: &'l PatternList,
    matchers: &mut Matchers<'l>,
    groups: &[usize],
    buffer: &mut Buffer,
    sought: usize,
) -> Result<(u64, bool), AllocError>
    requires { 0 < sought → HasNone list.now.entries groups.now (take sought buffer.old.ring.items) }
    ensures { IfOk result (λ r. IsTrue r.1 → HasNone list.now.entries groups.now buffer.new.ring.items) }
{
    let mut found = 0u64;
    let mut sought = sought;
    'matches: for _ in 0..buffer.ring().len() {
        let mut spans = [None; 10];
        let picked = test(alloc, list, matchers, groups, buffer, sought, &mut spans)?;
        if let Picked::None = picked {
            return Ok((found, true));
        }
        match end_of(picked, &spans) {
            Some(end) if 0 < end && end <= buffer.ring().len() => buffer.take(end),
            _ => break,
        }
        sought = 0;
        found = found.wrapping_add(1);
    }
    Ok((found, false))
}

/// Returns the number of matches in data that is added to the buffer piece by piece.
fn scanned<'l>(
    alloc: Global,
    list: &'l PatternList,
    matchers: &mut Matchers<'l>,
    groups: &[usize],
    buffer: &mut Buffer,
    data: &[u8],
) -> Result<u64, Complaint> {
    let mut found = 0u64;
    let mut sought = 0;
    'pieces: for piece in data.chunks(PIECE) {
        buffer.add(piece)?;
        let (more, in_vain) = matches(alloc, list, matchers, groups, buffer, sought)?;
        found = found.wrapping_add(more);
        buffer.trim();
        sought = if in_vain { buffer.ring().len() } else { 0 };
    }
    Ok(found)
}

/// Returns the number of matches in data that is added to a buffer of this size.
fn count_in(alloc: Global, list: &PatternList, size: &Text, data: &[u8]) -> Result<u64, Complaint> {
    let mut buffer = Buffer::new(alloc, number(size)?)?;
    let groups = all_groups(alloc, list)?;
    let mut matchers = Matchers::new(alloc);
    scanned(
        alloc,
        list,
        &mut matchers,
        groups.as_slice(),
        &mut buffer,
        data,
    )
}

/// Returns the number of matches in data for the patterns of the first line.
fn count_of(alloc: Global, words: &[Text], data: &[u8]) -> Result<u64, Complaint> {
    let [size, arguments @ ..] = words else {
        return Err(Complaint::Call);
    };
    match list_of(alloc, arguments) {
        Ok(list) => count_in(alloc, &list, size, data),
        Err(PatternFault::Memory) => Err(Complaint::Memory),
        Err(_) => Err(Complaint::Call),
    }
}

/// Counts matches. The first line contains a buffer's size and the arguments of `expect`. The rest
/// is added to the buffer in pieces of 4,096 bytes, and each match is taken from it. Appends a line
/// with the number of matches.
pub fn push_scan(text: &mut Text, src: &[u8]) -> Result<(), Complaint> {
    let alloc = alloc_of(text);
    let Some(newline) = src.iter().position(|b| *b == b'\n') else {
        return Err(Complaint::Call);
    };
    let (line, rest) = src.split_at(newline);
    let [_, data @ ..] = rest else {
        return Err(Complaint::Call);
    };
    let found = count_of(alloc, words_of(alloc, line)?.as_slice(), data)?;
    Ok(push_string(text, format!(in alloc; "{found}\n"))?)
}
