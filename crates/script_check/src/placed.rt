//! The words of a command, with their positions in the source.

ghost use Rattle.std.specs.Prelude.{◌≡◌, ◌≢◌, IfOk};
ghost use Rattle.tcl_words.specs.Commands.{is_gap};
ghost use Rattle.tcl_words.specs.Operands.{operand};
ghost use Rattle.tcl_words.specs.Pieces.{part_view, word_view, words_view};
ghost use Rattle.script_check.specs.Placed.{is_plainly, next_lead, behind_gap, taken, owned, behind_bare, mark, behind_word, literal_alone, plain_value, placed};

use crate::span::{Span, Taken};
use crate::stretch::{begins_with, behind, place};
use command_table::is;
use std::alloc::{AllocError, Global};
use std::marker::Model;
use tcl_words::{Part, Text, Word, WordFault, ends_command, is_blank, is_continued, operand};

/// A word of a command, with its position in the source.
#[derive(Drop)]
pub struct Placed {
    /// Its range, including quotes or braces.
    pub span: Span,
    /// Whether `{*}` stands before it.
    pub expand: bool,
    /// Its text if it is literal: without substitutions and without `{*}` before it.
    pub value: Option<Text>,
}

/// The words of a command, in order. A contract sees a list.
#[derive(Drop)]
pub struct Words {
    pub(crate) list: Vec<Placed>,
}

impl Model for Words {
    ghost use Rattle.std.specs.Prelude.{List};
    ghost use Rattle.script_check.specs.declared.placed.Placed.{Placed};

    ghost Value = { List Placed };

    ghost view = { λ w. w.list.items };
}

impl Placed {
    /// Returns whether it is literal and is this word.
    pub(crate) fn is(&self, name: &[u8]) -> bool
        ensures { result ≡ is_plainly name.now self.now.value }
    {
        match &self.value {
            None => false,
            Some(text) => is(text.as_slice(), name),
        }
    }
}

impl Words {
    /// Returns the words, in order.
    pub(crate) fn as_slice(&self) -> &[Placed]
        ensures { result.now ≡ self.now }
    {
        self.list.as_slice()
    }
}

/// The state before a word.
#[derive(Clone, Copy, PartialEq, Eq)]
pub enum Lead {
    /// White space and ends of commands.
    White,
    /// A backslash before a newline.
    Continued,
    /// A comment.
    Comment,
    /// A backslash in a comment. It belongs to the next byte.
    Quoted,
}

/// Returns the state after a byte before a word. `None` if the word begins with the byte. A comment
/// begins only in the place of a command.
fn next_lead(first: bool, lead: Lead, b: u8, rest: &[u8]) -> Option<Lead>
    ensures { result ≡ next_lead first lead b rest.now }
{
    match lead {
        Lead::Continued => Some(Lead::White),
        Lead::Quoted => Some(Lead::Comment),
        Lead::Comment if b == b'\n' => Some(Lead::White),
        Lead::Comment if b == b'\\' => Some(Lead::Quoted),
        Lead::Comment => Some(Lead::Comment),
        Lead::White if is_blank(b) || ends_command(b) => Some(Lead::White),
        Lead::White if is_continued(b, rest) => Some(Lead::Continued),
        Lead::White if b == b'#' && first => Some(Lead::Comment),
        Lead::White => None,
    }
}

/// Returns the rest after white space. Before a command's first word, ends of commands and comments
/// are skipped too.
pub(crate) fn behind_gap(first: bool, bytes: &[u8]) -> &[u8]
    ensures { result.now ≡ behind_gap first Lead.White bytes.now }
{
    let mut lead = Lead::White;
    let mut rest = bytes;
    while let [b, more @ ..] = rest {
        let Some(next) = next_lead(first, lead, *b, more) else {
            return rest;
        };
        lead = next;
        rest = more;
    }
    rest
}

/// Returns an error of the text itself. Refused memory becomes an `AllocError`.
pub(crate) fn told(fault: WordFault) -> Result<WordFault, AllocError>
    ensures { IfOk result (λ f. (f ≡ fault) × (fault ≢ WordFault.Memory)) }
{
    match fault {
        WordFault::Memory => Err(AllocError),
        _ => Ok(fault),
    }
}

/// Returns the length of the operand at the front of a text, or 1 if there is none.
#[tactic(auto, using(crate::proofs::Steps::fails_are))]
pub(crate) fn taken(alloc: Global, text: &[u8]) -> Taken
    ensures { IfOk result (λ n. n ≡ taken (operand text.now)) }
{
    match operand(alloc, text) {
        Ok(Some((_, n))) => Ok(n),
        Ok(None) => Ok(1),
        Err(fault) => {
            told(fault)?;
            Ok(1)
        }
    }
}

/// Returns the number of bytes after the first one of a text that belong to its token.
fn owned(alloc: Global, b: u8, text: &[u8]) -> Taken
    ensures { IfOk result (λ n. n ≡ owned b text.now) }
{
    if b == b'\\' {
        return Ok(1);
    }
    if b == b'$' || b == b'[' {
        return Ok(taken(alloc, text)?.saturating_sub(1));
    }
    Ok(0)
}

/// Returns whether a word without quotes or braces ends before a byte.
fn ends_word(b: u8, rest: &[u8]) -> bool
    ensures { result ≡ is_gap b rest.now }
{
    is_blank(b) || ends_command(b) || is_continued(b, rest)
}

/// Returns the rest after a word without quotes or braces.
fn behind_bare(alloc: Global, bytes: &[u8]) -> Result<&[u8], AllocError>
    ensures { IfOk result (λ rest. rest.now ≡ behind_bare bytes.now) }
{
    let mut rest = bytes;
    while let [b, ..] = rest {
        let more = behind(rest, 1);
        if ends_word(*b, more) {
            return Ok(rest);
        }
        rest = behind(more, owned(alloc, *b, rest)?);
    }
    Ok(rest)
}

/// Returns the length of `{*}` before a word.
pub(crate) fn mark(expand: bool) -> usize
    ensures { result ≡ mark expand }
{
    if expand { 3 } else { 0 }
}

/// Returns the rest after a word.
fn behind_word(alloc: Global, expand: bool, text: &[u8]) -> Result<&[u8], AllocError>
    ensures { IfOk result (λ rest. rest.now ≡ behind_word expand text.now) }
{
    let text = behind(text, mark(expand));
    if begins_with(b'"', text) || begins_with(b'{', text) {
        return Ok(behind(text, taken(alloc, text)?));
    }
    behind_bare(alloc, text)
}

/// Returns the text of a part that is a literal.
fn literal(alloc: Global, part: &Part) -> Result<Option<Text>, AllocError>
    ensures { IfOk result (λ v. v ≡ literal_alone (part_view part.now)) }
{
    match part {
        Part::Lit(text) => Ok(Some(text.copied(alloc)?)),
        Part::Var(_, None) => Ok(None),
        Part::Var(_, Some(_)) => Ok(None),
        Part::Script(_) => Ok(None),
    }
}

/// Returns the text of a word that is literal.
fn plain_value(alloc: Global, word: &Word) -> Result<Option<Text>, AllocError>
    ensures { IfOk result (λ v. v ≡ plain_value (word_view word.now)) }
{
    if word.expand {
        return Ok(None);
    }
    match word.parts.as_slice() {
        [] => Ok(Some(Text::new(alloc))),
        [part] => literal(alloc, part),
        [_, _, ..] => Ok(None),
    }
}

/// Returns the words of a command at the front of a text that ends at position `end` of the source.
pub(crate) fn placed_words(
    alloc: Global,
    end: usize,
    words: &[Word],
    text: &[u8],
) -> Result<Words, AllocError>
    ensures { IfOk result (λ w. w ≡ placed end (words_view words.now) text.now) }
{
    let mut list = Vec::new(alloc);
    let mut left = words;
    let mut rest = text;
    while let [word, more @ ..] = left {
        let begin = behind_gap(false, rest);
        rest = behind_word(alloc, word.expand, begin)?;
        list.push(Placed {
            span: Span {
                from: place(end, begin),
                to: place(end, rest),
            },
            expand: word.expand,
            value: plain_value(alloc, word)?,
        })?;
        left = more;
    }
    Ok(Words { list })
}
