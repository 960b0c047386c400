//! Replaces with regular patterns (`regsub`).

ghost use Rattle.std.specs.Prelude.{◌≡◌, ◌≢◌, ◌<◌, ◌∷◌, ◌++◌, [], true, false, drop, take, length, IfOk, IfErr, OnOk};
ghost use Rattle.tcl_patterns.specs.Matches.{bounds, in_turn};
ghost use Rattle.tcl_patterns.specs.Replacing.{is_digit, is_marked, marked, unmarked, replacement, numbered, replaced, substituted, kept, changed, regsub};
ghost use Rattle.tcl_results.specs.Says.{Says, text_of};
ghost use Rattle.tcl_results.specs.Texts.{too_long};
ghost use Rattle.tcl_subst.specs.Faults.{is_too_long};

use crate::matches::{between, bounds, group, most, next_match, part, sought};
use command_table::Switches;
use exp_match::{Compiled, Searcher};
use std::alloc::{AllocError, Global};
use tcl_results::front::{front_of, has_flag};
use tcl_results::given::{arg, before, behind};
use tcl_results::parts::{after, front};
use tcl_results::{Code, Complaint, count_text, error, extend_limited, no_match, not_set, said};
use tcl_subst::Vars;
use tcl_values::Value;
use tcl_words::Text;

fn is_digit(c: u8) -> bool
    ensures { result ≡ is_digit c }
{
    b'0' <= c && c <= b'9'
}

/// Returns whether a backslash before a byte has a meaning.
fn is_marked(c: u8) -> bool
    ensures { result ≡ is_marked c }
{
    c == b'&' || c == b'\\' || is_digit(c)
}

/// Returns the text of a byte after a backslash. `by` begins with the byte.
fn marked<'a>(text: &'a [u8], spans: &[Option<(usize, usize)>], by: &'a [u8], c: u8) -> &'a [u8]
    requires { take 1 by.now ≡ c ∷ [] }
    ensures { result.now ≡ marked text.now spans.now c }
{
    if is_digit(c) {
        return part(group(spans, (c - b'0') as usize), text);
    }
    front(by, 1)
}

/// Returns the text of a byte without a backslash. `by` begins with the byte.
fn unmarked<'a>(text: &'a [u8], spans: &[Option<(usize, usize)>], by: &'a [u8], c: u8) -> &'a [u8]
    requires { take 1 by.now ≡ c ∷ [] }
    ensures { result.now ≡ unmarked text.now spans.now c }
{
    if c == b'&' {
        return part(group(spans, 0), text);
    }
    front(by, 1)
}

/// Returns the text of the front of `by`, and the rest of it.
fn next_piece<'a>(
    text: &'a [u8],
    spans: &[Option<(usize, usize)>],
    by: &'a [u8],
) -> (&'a [u8], &'a [u8])
    requires { 0 < length by.now }
    ensures piece { result.0.now ++ replacement text.now spans.now result.1.now ≡ replacement text.now spans.now by.now }
    ensures shorter { length result.1.now < length by.now }
{
    match by {
        [] => (by, by),
        [c] => (unmarked(text, spans, by, *c), &[]),
        [c, d, rest @ ..] => {
            let behind = after(by, 1);
            if *c == b'\\' && is_marked(*d) {
                return (marked(text, spans, behind, *d), rest);
            }
            (unmarked(text, spans, by, *c), behind)
        }
    }
}

/// Appends the text that replaces a match. It is an error if the text is too long afterwards.
#[tactic(auto, using(crate::proofs::Replaced::piece_on, crate::proofs::Replaced::piece_over))]
fn push_replacement(
    alloc: Global,
    text: &[u8],
    spans: &[Option<(usize, usize)>],
    by: &[u8],
    made: &mut Text,
) -> Result<(), Complaint>
    requires { is_too_long (length made.old) ≡ false }
    ensures pushed { OnOk result (made.new ≡ made.old ++ replacement text.now spans.now by.now) }
    ensures short { OnOk result (is_too_long (length made.new) ≡ false) }
    ensures long { IfErr result (λ c. c ≢ Complaint.Memory → (text_of c ≡ too_long) × (is_too_long (length (made.old ++ replacement text.now spans.now by.now)) ≡ true)) }
{
    let mut rest = by;
    while !rest.is_empty() {
        let (piece, more) = next_piece(text, spans, rest);
        if let Err(complaint) = extend_limited(alloc, made, &[], piece) {
            return Err(complaint);
        }
        rest = more;
    }
    Ok(())
}

/// Appends the text between two matches, and the text that replaces the second one. It is an error
/// if the text is too long afterwards.
#[tactic(auto, using(crate::proofs::Replaced::two_on, crate::proofs::Replaced::first_over, crate::proofs::Replaced::second_over))]
fn push_match(
    alloc: Global,
    text: &[u8],
    at: usize,
    spans: &[Option<(usize, usize)>],
    by: &[u8],
    made: &mut Text,
) -> Result<(), Complaint>
    ensures pushed { OnOk result (made.new ≡ made.old ++ (drop at (take (bounds spans.now).0 text.now) ++ replacement text.now spans.now by.now)) }
    ensures short { OnOk result (is_too_long (length made.new) ≡ false) }
    ensures long { IfErr result (λ c. c ≢ Complaint.Memory → (text_of c ≡ too_long) × (is_too_long (length (made.old ++ (drop at (take (bounds spans.now).0 text.now) ++ replacement text.now spans.now by.now))) ≡ true)) }
{
    let gap = between(text, at, bounds(spans).0);
    if let Err(complaint) = extend_limited(alloc, made, &[], gap) {
        return Err(complaint);
    }
    match push_replacement(alloc, text, spans, by, made) {
        Err(complaint) => Err(complaint),
        Ok(()) => Ok(()),
    }
}

/// Returns the text that is made, followed by the bytes from an index on, and a number. It is an
/// error if the text is too long.
#[tactic(auto, using(crate::proofs::Replaced::short_text, crate::proofs::Replaced::long_text))]
fn finished(
    alloc: Global,
    made: Text,
    text: &[u8],
    at: usize,
    count: usize,
) -> Result<(Text, usize), Complaint>
    ensures { Says result (numbered (made ++ drop at text.now) count) }
{
    let mut made = made;
    match extend_limited(alloc, &mut made, &[], after(text, at)) {
        Err(complaint) => Err(complaint),
        Ok(()) => Ok((made, count)),
    }
}

/// Returns a text with its matches in turn replaced, at most `most`, and the number of matches. It
/// is an error if the text is too long.
#[tactic(auto, using(crate::proofs::Replaced::text_next, crate::proofs::Replaced::text_over, crate::proofs::Replaced::text_none, crate::proofs::Replaced::text_end, crate::proofs::Turns::count_next))]
fn replaced(
    alloc: Global,
    searcher: &mut Searcher,
    most: usize,
    text: &[u8],
    start: usize,
    by: &[u8],
) -> Result<(Text, usize), Complaint>
    ensures { Says result (replaced text.now by.now (in_turn most searcher.old text.now start)) }
{
    let mut made = Text::new(alloc);
    let mut spans = no_match();
    let mut done = 0;
    let mut at = start;
    let mut turn = 0;
    while turn < most {
        let Some(next) = next_match(searcher, text, at, &mut spans) else {
            return finished(alloc, made, text, done, turn);
        };
        if let Err(complaint) = push_match(alloc, text, done, &spans, by, &mut made) {
            return Err(complaint);
        }
        done = bounds(&spans).1;
        at = next;
        turn += 1;
    }
    finished(alloc, made, text, done, turn)
}

/// Returns a text with the matches of a pattern replaced, and the number of matches.
#[inline(never)]
fn substituted(
    alloc: Global,
    patterns: &mut Compiled,
    flags: &[Value],
    pattern: &[u8],
    text: &[u8],
    by: &[u8],
) -> Result<(Text, usize), Complaint>
    ensures { Says result (substituted flags.now pattern.now text.now by.now) }
{
    let (regular, start) = sought(alloc, patterns, flags, pattern, text)?;
    let most = most(has_flag(flags, b"-all"), text);
    let mut searcher = Searcher::new(alloc, &regular)?;
    replaced(alloc, &mut searcher, most, text, start, by)
}

/// Sets the name, if there is one, to a text, and returns a count. Otherwise returns the text.
fn kept(
    alloc: Global,
    names: &[Value],
    text: Text,
    count: usize,
    vars: &mut Vars,
) -> Result<(Code, Value), AllocError>
    ensures { IfOk result (λ r. kept names.now (text, count) vars.old ≡ (r.0, r.1, vars.new)) }
{
    let value = Value::from_text(alloc, text)?;
    match names {
        [] => Ok((Code::Ok, value)),
        [name, ..] => {
            let answer = count_text(alloc, count)?;
            match vars.set(name.as_slice(), value) {
                Ok(()) => Ok((Code::Ok, answer)),
                Err(fault) => error(alloc, not_set(alloc, name.as_slice(), fault)?),
            }
        }
    }
}

/// Runs `regsub`, given its flags and the words after them.
fn changed(
    alloc: Global,
    patterns: &mut Compiled,
    flags: &[Value],
    words: &[Value],
    vars: &mut Vars,
) -> Result<(Code, Value), AllocError>
    ensures { IfOk result (λ r. changed flags.now words.now vars.old ≡ (r.0, r.1, vars.new)) }
{
    let given = substituted(
        alloc,
        patterns,
        flags,
        arg(words, 0),
        arg(words, 1),
        arg(words, 2),
    );
    match said(alloc, given)? {
        Err(fault) => Ok((Code::Error, fault)),
        Ok((text, count)) => kept(alloc, behind(words, 3), text, count, vars),
    }
}

/// Runs `regsub ?flags? pattern text by ?name?`.
pub fn regsub(
    alloc: Global,
    patterns: &mut Compiled,
    command: &[u8],
    args: &[Value],
    vars: &mut Vars,
) -> Result<(Code, Value), AllocError>
    ensures { IfOk result (λ r. regsub command.now args.now vars.old ≡ (r.0, r.1, vars.new)) }
{
    match front_of(alloc, Switches::Replace, command, args) {
        Ok((count, from)) => {
            let flags = before(args, count);
            changed(alloc, patterns, flags, behind(args, from), vars)
        }
        Err(Complaint::Said(text)) => error(alloc, text),
        Err(Complaint::Memory) => Err(AllocError),
    }
}
