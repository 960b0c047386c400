//! The command `scan`.

ghost use Rattle.std.specs.Prelude.{◌≡◌, ◌≤◌, ◌<◌, ◌^◌, ◌+◌, false, length, count_by, pos, neg_ℤ, IfOk};
ghost use Rattle.std.specs.List.{prefix_len};
ghost use Rattle.tcl_formats.specs.Parts.{parts_from};
ghost use Rattle.tcl_results.specs.Says.{Says};

use crate::digits::{digits_at, number_up_to};
use std::alloc::{AllocError, Global};
use std::marker::Model;
use tcl_results::given::{arg, behind};
use tcl_results::parts::{after, front};
use tcl_results::{
    Code, Complaint, bad_format, count_text, error, not_set, number_text, said, white_front, wrong,
};
use tcl_subst::Vars;
use tcl_values::Value;
use tcl_words::is_white;

/// A part of a template.
#[derive(Clone, Copy)]
pub(crate) enum Directive {
    /// Any amount of white space.
    Blanks,
    /// This byte.
    Byte(u8),
    /// `%d`: true. `%*d`: false.
    Number(bool),
    /// `%s`: true. `%*s`: false.
    Word(bool),
}

/// What a directive takes of a text.
#[derive(Drop)]
pub(crate) enum Taken {
    /// It stopped after this many bytes.
    Stopped(usize),
    /// It passed this many bytes.
    Passed(usize),
    /// A conversion without a name passed this many bytes.
    Dropped(usize),
    /// A conversion passed this many bytes, and gives a name this value.
    Read(usize, Value),
}

/// The parts of a template. A contract sees the list of them.
#[derive(Drop)]
struct Directives {
    list: Vec<Directive>,
}

impl Model for Directives {
    ghost use Rattle.std.specs.Prelude.{List};
    ghost use Rattle.tcl_formats.specs.declared.scanning.Directive.{Directive};

    ghost Value = { List Directive };

    ghost view = { λ i. i.list.items };
}

ghost use Rattle.tcl_formats.specs.Scanning.{conversion_of, starred_at, percent_at, directive_at, is_named, matched, directives_of, number_in, read_as, sign_len, is_negative, digits_taken, number_taken, is_dark, word_taken, byte_taken, directive_taken, ended, followed, scan};

impl Directives {
    fn as_slice(&self) -> &[Directive]
        ensures { result.now ≡ self.now }
    {
        self.list.as_slice()
    }
}

/// Returns the conversion that a letter names, or `None`.
fn conversion_of(named: bool, letter: u8) -> Option<Directive>
    ensures { result ≡ conversion_of named letter }
{
    match letter {
        b'd' => Some(Directive::Number(named)),
        b's' => Some(Directive::Word(named)),
        _ => None,
    }
}

/// Returns the conversion after `%*`, and how many bytes write it after the `%`.
fn starred_at(text: &[u8]) -> Option<(Directive, usize)>
    ensures { result ≡ starred_at text.now }
{
    match text {
        [] => None,
        [letter, ..] => match conversion_of(false, *letter) {
            None => None,
            Some(directive) => Some((directive, 2)),
        },
    }
}

/// Returns the conversion after a `%`, and how many bytes write it after the `%`.
fn percent_at(text: &[u8]) -> Option<(Directive, usize)>
    ensures { result ≡ percent_at text.now }
{
    match text {
        [] => None,
        [b'*', rest @ ..] => starred_at(rest),
        [letter, ..] => match conversion_of(true, *letter) {
            None => None,
            Some(directive) => Some((directive, 1)),
        },
    }
}

/// Returns the directive that begins with a byte, and how many bytes after that byte belong to it.
/// `None` if there is no such directive.
#[tactic(auto, unfolding(crate::specs::Scanning::directive_at))]
fn directive_at(byte: u8, text: &[u8]) -> Option<(Directive, usize)>
    ensures { result ≡ directive_at byte text.now }
{
    if byte == b'%' {
        return percent_at(text);
    }
    if is_white(byte) {
        return Some((Directive::Blanks, 0));
    }
    Some((Directive::Byte(byte), 0))
}

/// Returns the directives of a template. `None` if it has another form.
#[tactic(auto, using(crate::proofs::Parts::parts_none))]
fn read_directives(alloc: Global, template: &[u8]) -> Result<Option<Directives>, AllocError>
    ensures { IfOk result (λ o. o ≡ parts_from directive_at 0 template.now) }
{
    let mut list = Vec::new(alloc);
    let mut rest = template;
    while !rest.is_empty() {
        let text = after(rest, 1);
        let Some((directive, count)) = directive_at(rest[0], text) else {
            return Ok(None);
        };
        list.push(directive)?;
        rest = after(text, count);
    }
    Ok(Some(Directives { list }))
}

fn is_named(directive: Directive) -> bool
    ensures { result ≡ is_named directive }
{
    match directive {
        Directive::Blanks => false,
        Directive::Byte(_) => false,
        Directive::Number(named) => named,
        Directive::Word(named) => named,
    }
}

/// Returns the number of directives that give a name a value.
fn count_named(directives: &[Directive]) -> usize
    ensures { result ≡ count_by is_named directives.now }
{
    directives
        .iter()
        .filter(|directive| is_named(**directive))
        .count()
}

/// Returns directives that give `names` names a value. Otherwise the error is `wrong # args`.
fn matched(
    alloc: Global,
    command: &[u8],
    names: usize,
    directives: Directives,
) -> Result<Directives, Complaint>
    ensures { Says result (matched command.now names directives) }
{
    if count_named(directives.as_slice()) == names {
        return Ok(directives);
    }
    Err(wrong(alloc, command))
}

/// Parses a template that gives `names` names a value.
fn directives_of(
    alloc: Global,
    command: &[u8],
    template: &[u8],
    names: usize,
) -> Result<Directives, Complaint>
    ensures { Says result (directives_of command.now template.now names) }
{
    match read_directives(alloc, template)? {
        None => Err(Complaint::Said(bad_format(alloc, template)?)),
        Some(directives) => matched(alloc, command, names, directives),
    }
}

/// Returns the number with a minus before it.
#[tactic(auto, using(crate::proofs::Signs::negated))]
fn negated(n: u64) -> i64
    requires { n ≤ 9223372036854775808 }
    ensures { result ≡ neg_ℤ (pos n) }
{
    if n == 0 {
        return 0;
    }
    !((n - 1) as i64)
}

/// Returns the number that digits write, cut to 64 bits at either end.
#[tactic(auto, unfolding(crate::specs::Scanning::number_in))]
fn number_in(negative: bool, digits: &[u8]) -> i64
    ensures { result ≡ number_in negative digits.now }
{
    if negative {
        return negated(number_up_to(digits, 9_223_372_036_854_775_808));
    }
    number_up_to(digits, 9_223_372_036_854_775_807) as i64
}

/// Returns what a conversion takes, given its value.
fn read_as(named: bool, count: usize, value: Value) -> Taken
    ensures { result ≡ read_as named count value }
{
    if named {
        return Taken::Read(count, value);
    }
    Taken::Dropped(count)
}

/// Returns the number of bytes of a sign at the front of a text.
fn sign_len(text: &[u8]) -> usize
    ensures value { result ≡ sign_len text.now }
    ensures within { result ≤ length text.now }
{
    match text {
        [] => 0,
        [b'+', ..] => 1,
        [b'-', ..] => 1,
        [_, ..] => 0,
    }
}

fn is_negative(text: &[u8]) -> bool
    ensures { result ≡ is_negative text.now }
{
    match text {
        [] => false,
        [sign, ..] => *sign == b'-',
    }
}

/// Takes digits, at least one. `count` bytes were passed before.
#[tactic(auto, unfolding(crate::specs::Scanning::digits_taken))]
fn digits_taken(
    alloc: Global,
    named: bool,
    negative: bool,
    count: usize,
    text: &[u8],
) -> Result<Taken, AllocError>
    requires { count + length text.now < 2 ^ 64 }
    ensures { IfOk result (λ t. t ≡ digits_taken named negative count text.now) }
{
    let digits = digits_at(text);
    if digits == 0 {
        return Ok(Taken::Stopped(count));
    }
    let number = number_in(negative, front(text, digits));
    Ok(read_as(named, count + digits, number_text(alloc, number)?))
}

/// Takes at most one sign, and digits. `count` bytes were passed before.
#[tactic(auto, unfolding(crate::specs::Scanning::number_taken))]
fn number_taken(alloc: Global, named: bool, count: usize, text: &[u8]) -> Result<Taken, AllocError>
    requires { count + length text.now < 2 ^ 64 }
    ensures { IfOk result (λ t. t ≡ number_taken named count text.now) }
{
    let sign = sign_len(text);
    digits_taken(
        alloc,
        named,
        is_negative(text),
        count + sign,
        after(text, sign),
    )
}

/// Returns the number of bytes before the first white space.
fn dark_front(text: &[u8]) -> usize
    ensures value { result ≡ prefix_len is_dark text.now }
    ensures within { result ≤ length text.now }
{
    text.iter().take_while(|b| !is_white(**b)).count()
}

/// Takes bytes up to white space, at least one. `count` bytes were passed before.
#[tactic(auto, unfolding(crate::specs::Scanning::word_taken))]
fn word_taken(alloc: Global, named: bool, count: usize, text: &[u8]) -> Result<Taken, AllocError>
    requires { count + length text.now < 2 ^ 64 }
    ensures { IfOk result (λ t. t ≡ word_taken named count text.now) }
{
    let bytes = dark_front(text);
    if bytes == 0 {
        return Ok(Taken::Stopped(count));
    }
    let value = Value::from_slice(alloc, front(text, bytes))?;
    Ok(read_as(named, count + bytes, value))
}

/// Takes this byte.
fn byte_taken(byte: u8, text: &[u8]) -> Taken
    ensures { result ≡ byte_taken byte text.now }
{
    match text {
        [] => Taken::Stopped(0),
        [first, ..] => {
            if *first == byte {
                return Taken::Passed(1);
            }
            Taken::Stopped(0)
        }
    }
}

/// Returns what a directive takes of a text. A conversion skips white space first.
#[tactic(auto, unfolding(crate::specs::Scanning::directive_taken))]
fn directive_taken(alloc: Global, directive: Directive, text: &[u8]) -> Result<Taken, AllocError>
    ensures { IfOk result (λ t. t ≡ directive_taken directive text.now) }
{
    let blanks = white_front(text);
    match directive {
        Directive::Blanks => Ok(Taken::Passed(blanks)),
        Directive::Byte(byte) => Ok(byte_taken(byte, text)),
        Directive::Number(named) => number_taken(alloc, named, blanks, after(text, blanks)),
        Directive::Word(named) => word_taken(alloc, named, blanks, after(text, blanks)),
    }
}

/// Returns the number of names that are set. It is -1 if the text ended before the first conversion.
fn ended(alloc: Global, rest: &[u8], done: bool, count: usize) -> Result<Value, AllocError>
    ensures { IfOk result (λ v. v ≡ ended rest.now done count) }
{
    match rest {
        [] => {
            if done {
                return count_text(alloc, count);
            }
            Value::from_slice(alloc, b"-1")
        }
        [_, ..] => count_text(alloc, count),
    }
}

/// Follows directives over a text. Each value is set as soon as it is read.
fn followed(
    alloc: Global,
    directives: &[Directive],
    names: &[Value],
    text: &[u8],
    vars: &mut Vars,
) -> Result<(Code, Value), AllocError>
    ensures { IfOk result (λ r. followed directives.now names.now text.now false 0 vars.old ≡ (r.0, r.1, vars.new)) }
{
    let mut rest = directives;
    let mut left = text;
    let mut at: usize = 0;
    let mut done = false;
    while let [directive, more @ ..] = rest {
        rest = more;
        match directive_taken(alloc, *directive, left)? {
            Taken::Stopped(count) => {
                let value = ended(alloc, after(left, count), done, at)?;
                return Ok((Code::Ok, value));
            }
            Taken::Passed(count) => {
                left = after(left, count);
                continue;
            }
            Taken::Dropped(count) => {
                left = after(left, count);
                done = true;
                continue;
            }
            Taken::Read(count, value) => {
                let name = arg(names, at);
                if let Err(fault) = vars.set(name, value) {
                    return error(alloc, not_set(alloc, name, fault)?);
                }
                left = after(left, count);
                done = true;
                at += 1;
            }
        }
    }
    Ok((Code::Ok, count_text(alloc, at)?))
}

/// Runs `scan text template name ..`.
pub fn scan(
    alloc: Global,
    command: &[u8],
    args: &[Value],
    vars: &mut Vars,
) -> Result<(Code, Value), AllocError>
    ensures { IfOk result (λ r. scan command.now args.now vars.old ≡ (r.0, r.1, vars.new)) }
{
    let names = behind(args, 2);
    match said(
        alloc,
        directives_of(alloc, command, arg(args, 1), names.len()),
    )? {
        Err(text) => Ok((Code::Error, text)),
        Ok(directives) => followed(alloc, directives.as_slice(), names, arg(args, 0), vars),
    }
}
