//! The classes of `string is`.

ghost use Rattle.std.specs.Prelude.{◌≡◌};
ghost use Rattle.std.specs.List.{list_all};
ghost use Rattle.tcl_strings.specs.Classes.{letter_class, sign_class, value_class, class_of, symbols, has_byte, is_true, is_false, has_text, is_in, some_class, classed};
ghost use Rattle.tcl_results.specs.Says.{Says};
ghost use Rattle.tcl_results.specs.Sets.{is_one_of};

use command_table::{Switches, is};
use std::alloc::Global;
use tcl_expr::read_number;
use tcl_results::given::{arg, behind, others};
use tcl_results::switches::flags_of;
use tcl_results::{Complaint, quoted};
use tcl_values::Value;
use tcl_words::is_white;

/// A class that `string is` tests for.
#[derive(Clone, Copy)]
pub(crate) enum Class {
    Alnum,
    Alpha,
    Ascii,
    Boolean,
    Control,
    Digit,
    False,
    Graph,
    Integer,
    Lower,
    Print,
    Punct,
    Space,
    True,
    Upper,
    Wordchar,
    Xdigit,
}

/// Returns the class of letters or digits that a word names, or `None`.
fn letter_class(word: &[u8]) -> Option<Class>
    ensures { result ≡ letter_class word.now }
{
    if is(word, b"alnum") {
        Some(Class::Alnum)
    } else if is(word, b"alpha") {
        Some(Class::Alpha)
    } else if is(word, b"digit") {
        Some(Class::Digit)
    } else if is(word, b"lower") {
        Some(Class::Lower)
    } else if is(word, b"upper") {
        Some(Class::Upper)
    } else if is(word, b"wordchar") {
        Some(Class::Wordchar)
    } else if is(word, b"xdigit") {
        Some(Class::Xdigit)
    } else {
        None
    }
}

/// Returns the other class of bytes that a word names, or `None`.
fn sign_class(word: &[u8]) -> Option<Class>
    ensures { result ≡ sign_class word.now }
{
    if is(word, b"ascii") {
        Some(Class::Ascii)
    } else if is(word, b"control") {
        Some(Class::Control)
    } else if is(word, b"graph") {
        Some(Class::Graph)
    } else if is(word, b"print") {
        Some(Class::Print)
    } else if is(word, b"punct") {
        Some(Class::Punct)
    } else if is(word, b"space") {
        Some(Class::Space)
    } else {
        None
    }
}

/// Returns the class of whole texts that a word names, or `None`.
fn value_class(word: &[u8]) -> Option<Class>
    ensures { result ≡ value_class word.now }
{
    if is(word, b"boolean") {
        Some(Class::Boolean)
    } else if is(word, b"false") {
        Some(Class::False)
    } else if is(word, b"integer") {
        Some(Class::Integer)
    } else if is(word, b"true") {
        Some(Class::True)
    } else {
        None
    }
}

/// Returns the class that a word names, or `None`.
fn class_of(word: &[u8]) -> Option<Class>
    ensures { result ≡ class_of word.now }
{
    match letter_class(word) {
        Some(class) => Some(class),
        None => match sign_class(word) {
            Some(class) => Some(class),
            None => value_class(word),
        },
    }
}

/// Returns whether a byte is an ASCII symbol that `punct` excludes.
fn is_symbol(byte: u8) -> bool
    ensures { result ≡ is_one_of symbols byte }
{
    b"$+<=>^`|~".contains(&byte)
}

/// Returns whether a byte is in a class of bytes.
fn has_byte(class: Class, byte: u8) -> bool
    ensures { result ≡ has_byte class byte }
{
    match class {
        Class::Alnum => byte.is_ascii_alphanumeric(),
        Class::Alpha => byte.is_ascii_alphabetic(),
        Class::Ascii => byte.is_ascii(),
        Class::Control => byte.is_ascii_control(),
        Class::Digit => byte.is_ascii_digit(),
        Class::Graph => byte.is_ascii_graphic(),
        Class::Lower => byte.is_ascii_lowercase(),
        Class::Print => byte.is_ascii_graphic() || byte == b' ',
        Class::Punct => byte.is_ascii_punctuation() && !is_symbol(byte),
        Class::Space => is_white(byte),
        Class::Upper => byte.is_ascii_uppercase(),
        Class::Wordchar => byte.is_ascii_alphanumeric() || byte == b'_',
        Class::Xdigit => byte.is_ascii_hexdigit(),
        Class::Boolean => false,
        Class::False => false,
        Class::Integer => false,
        Class::True => false,
    }
}

fn have_bytes(class: Class, text: &[u8]) -> bool
    ensures { result ≡ list_all (has_byte class) text.now }
{
    text.iter().all(|b| has_byte(class, *b))
}

fn is_true(text: &[u8]) -> bool
    ensures { result ≡ is_true text.now }
{
    is(text, b"1") || is(text, b"true") || is(text, b"yes") || is(text, b"on")
}

fn is_false(text: &[u8]) -> bool
    ensures { result ≡ is_false text.now }
{
    is(text, b"0") || is(text, b"false") || is(text, b"no") || is(text, b"off")
}

/// Returns whether a text is in a class. The text must not be empty.
fn has_text(class: Class, text: &[u8]) -> bool
    ensures { result ≡ has_text class text.now }
{
    match class {
        Class::Boolean => is_true(text) || is_false(text),
        Class::False => is_false(text),
        Class::Integer => read_number(text).is_some(),
        Class::True => is_true(text),
        _ => have_bytes(class, text),
    }
}

/// Returns whether a text is in a class. The empty text is in every class unless `strict` is set.
fn is_in(strict: bool, class: Class, text: &[u8]) -> bool
    ensures { result ≡ is_in strict class text.now }
{
    match text {
        [] => !strict,
        [_, ..] => has_text(class, text),
    }
}

fn some_class(alloc: Global, word: &[u8]) -> Result<Class, Complaint>
    ensures { Says result (some_class word.now (class_of word.now)) }
{
    match class_of(word) {
        None => Err(Complaint::Said(quoted(alloc, b"bad class ", word)?)),
        Some(class) => Ok(class),
    }
}

/// Returns the result of `string is class ?-strict? text`.
pub(crate) fn classed(alloc: Global, command: &[u8], args: &[Value]) -> Result<bool, Complaint>
    ensures { Says result (classed command.now args.now) }
{
    let words = others(args);
    let (given, count) = flags_of(alloc, Switches::Strict, 1, command, words)?;
    let class = some_class(alloc, arg(args, 0))?;
    Ok(is_in(given.strict, class, arg(behind(words, count), 0)))
}
