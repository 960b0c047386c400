//! How the arguments of a command are read, one after another.

ghost use Rattle.std.specs.Prelude.{◌≡◌};
ghost use Rattle.command_table.specs.Reading.{texts, listed, behind_test, behind_body, expect_word, expect_step, step, begin, is_short};

use crate::commands::is;
use crate::flags::begins_with_minus;
use crate::switches::Switches;
use tcl_words::Text;

/// What an argument is read as.
#[derive(Clone, Copy, PartialEq, Eq)]
pub enum Kind {
    Text,
    /// The name of a variable.
    Name,
    Script,
    Expression,
}

/// How the next argument and those after it are read.
#[derive(Clone, Copy, PartialEq, Eq)]
pub enum Stage {
    /// The kinds of the next three arguments, and of every later one.
    Each(Kind, Kind, Kind, Kind),
    /// The only argument has this kind. Several arguments are texts.
    Alone(Kind),
    /// Lists of names, each followed by a list, and a script at the end.
    Lists,
    /// The same, with this number of arguments left.
    Listed(usize),
    /// An option of the command, followed by texts.
    Choice,
    /// These flags at the front, followed by texts.
    Front(Switches),
    /// A condition of `if`.
    Test,
    /// A body of `if`, or `then` before it.
    Then,
    /// A body of `if`.
    Branch,
    /// `elseif`, `else`, the last body, or the end of an `if`.
    Ends,
    /// The body after `else`.
    Else,
    /// The end of an `if`.
    Done,
    /// Too many arguments of `if`.
    Over,
    /// A flag or a pattern of a pattern list.
    Pattern,
    /// The value of a flag in a pattern list.
    Operand,
    /// A pattern after the flag for its kind.
    Written,
    /// The action of a pattern.
    Action,
    /// The arguments of `puts`.
    Output,
}

/// Returns the stage at which all further arguments are texts.
pub fn texts() -> Stage
    ensures { result ≡ texts }
{
    Stage::Each(Kind::Text, Kind::Text, Kind::Text, Kind::Text)
}

/// Returns what an argument of `foreach` is read as, given the number of arguments left.
fn listed(left: usize) -> Kind
    ensures { result ≡ listed left }
{
    if left == 1 {
        Kind::Script
    } else if left % 2 == 1 {
        Kind::Name
    } else {
        Kind::Text
    }
}

/// Reads the word after a condition of `if`. One that isn't written plainly may be any word.
fn behind_test(word: &Option<Text>) -> (Kind, Stage)
    ensures { result ≡ behind_test word.now }
{
    match word {
        None => (Kind::Text, texts()),
        Some(text) => {
            if is(text.as_slice(), b"then") {
                (Kind::Text, Stage::Branch)
            } else {
                (Kind::Script, Stage::Ends)
            }
        }
    }
}

/// Reads the word after a body of `if`.
fn behind_body(word: &Option<Text>) -> (Kind, Stage)
    ensures { result ≡ behind_body word.now }
{
    match word {
        None => (Kind::Text, texts()),
        Some(text) => {
            if is(text.as_slice(), b"elseif") {
                (Kind::Text, Stage::Test)
            } else if is(text.as_slice(), b"else") {
                (Kind::Text, Stage::Else)
            } else {
                (Kind::Script, Stage::Done)
            }
        }
    }
}

/// Returns the stage after a flag or a pattern. After an unknown flag, all arguments are texts.
fn expect_word(text: &[u8]) -> Stage
    ensures { result ≡ expect_word text.now }
{
    if is(text, b"-i") || is(text, b"-timeout") {
        Stage::Operand
    } else if is(text, b"-re") || is(text, b"-ex") || is(text, b"-gl") {
        Stage::Written
    } else if is(text, b"-regexp") || is(text, b"-exact") || is(text, b"-glob") {
        Stage::Written
    } else if is(text, b"--") {
        Stage::Written
    } else if is(text, b"-nocase") || is(text, b"-indices") || is(text, b"-notransfer") {
        Stage::Pattern
    } else if begins_with_minus(text) || is(text, b"null") {
        texts()
    } else {
        Stage::Action
    }
}

/// Reads a flag or a pattern. A word that isn't written plainly is a pattern.
fn expect_step(word: &Option<Text>) -> (Kind, Stage)
    ensures { result ≡ expect_step word.now }
{
    match word {
        None => (Kind::Text, Stage::Action),
        Some(text) => (Kind::Text, expect_word(text.as_slice())),
    }
}

/// Returns what an argument is read as, and how those after it are read. `None` is an argument that
/// isn't written plainly.
pub fn step(stage: Stage, word: &Option<Text>) -> (Kind, Stage)
    ensures { result ≡ step stage word.now }
{
    match stage {
        Stage::Each(first, second, third, others) => {
            (first, Stage::Each(second, third, others, others))
        }
        Stage::Alone(kind) => (kind, texts()),
        Stage::Lists => (Kind::Text, texts()),
        Stage::Listed(left) => (listed(left), Stage::Listed(left.saturating_sub(1))),
        Stage::Choice => (Kind::Text, texts()),
        Stage::Front(_) => (Kind::Text, texts()),
        Stage::Test => (Kind::Expression, Stage::Then),
        Stage::Then => behind_test(word),
        Stage::Branch => (Kind::Script, Stage::Ends),
        Stage::Ends => behind_body(word),
        Stage::Else => (Kind::Script, Stage::Done),
        Stage::Done => (Kind::Text, Stage::Over),
        Stage::Over => (Kind::Text, Stage::Over),
        Stage::Pattern => expect_step(word),
        Stage::Operand => (Kind::Text, Stage::Pattern),
        Stage::Written => (Kind::Text, Stage::Action),
        Stage::Action => (Kind::Script, Stage::Pattern),
        Stage::Output => (Kind::Text, texts()),
    }
}

/// Returns the first stage of a command with this number of arguments.
pub fn begin(stage: Stage, count: usize) -> Stage
    ensures { result ≡ begin stage count }
{
    match stage {
        Stage::Alone(kind) => {
            if count == 1 {
                Stage::Alone(kind)
            } else {
                texts()
            }
        }
        Stage::Lists => Stage::Listed(count),
        _ => stage,
    }
}

/// Returns whether an `if` that ends at this stage has too few or too many arguments.
pub fn is_short(stage: Stage) -> bool
    ensures { result ≡ is_short stage }
{
    match stage {
        Stage::Test | Stage::Then | Stage::Branch | Stage::Else | Stage::Over => true,
        _ => false,
    }
}
