//! The arguments of a command: its flags, followed by as many words as its row of the table allows.

ghost use Rattle.std.specs.Prelude.{◌≡◌, Some, IfOk, OnOk, slice_get};
ghost use Rattle.tcl_results.specs.Given.{arg};
ghost use Rattle.expect_core.specs.Flags.{arguments, bad_flag as bad_flag_text, flags_if, flags_of, no_flags, showing};
ghost use Rattle.expect_core.specs.FlagViews.{ReadsFlags};

use command_table::{ExpectCommand, Flags as Takes, Role, expect_row, fits, flag_role};
use std::alloc::{AllocError, Global};
use tcl_results::{Complaint, quoted, wrong_args};
use tcl_values::Value;
use tcl_words::{Text, Texts};

/// The flags of a command.
#[derive(Drop)]
pub struct Flags {
    /// The spawn id after the last `-i`.
    pub id: Option<Value>,
    /// Whether the command's own flag is among them.
    pub on: bool,
    /// Whether the last of two flags of which one counts is the first of them. `None` if there is
    /// neither. They are `-tty` and `-notty` of `spawn`, `-h` and `-s` of `send`.
    pub choice: Option<bool>,
    /// The flags that the line of a `spawn` shows, in order, each with its value.
    pub shown: Texts,
}

/// What the next word is, after a flag.
#[derive(Clone, Copy)]
pub enum Due {
    /// A flag or the first argument.
    None,
    /// The spawn id of an `-i`.
    Id,
    /// The value of a flag that is shown.
    Shown,
}

/// Returns the flags of a command that has none.
fn no_flags(alloc: Global) -> Flags
    ensures { result ≡ no_flags }
{
    Flags {
        id: None,
        on: false,
        choice: None,
        shown: Texts::new(alloc),
    }
}

/// Returns the error for an unknown flag.
pub(crate) fn bad_flag(alloc: Global, word: &[u8]) -> Result<Text, AllocError>
    ensures { IfOk result (λ t. t ≡ bad_flag_text word.now) }
{
    quoted(alloc, b"bad flag ", word)
}

impl Flags {
    /// Keeps which of two flags was the last.
    fn choose(&mut self, on: bool)
        ensures { self.new ≡ record self.old { choice = Some on } }
    {
        self.choice = Some(on);
    }

    /// Adds a word that is shown.
    fn show(&mut self, alloc: Global, word: &[u8]) -> Result<(), AllocError>
        ensures { OnOk result (self.new ≡ showing word.now self.old) }
    {
        self.shown.push(Text::from_slice(alloc, word)?)
    }
}

/// Reads the flags of a command with this name. Returns them and the index of the first word after
/// them.
fn flags_of(
    alloc: Global,
    name: &[u8],
    takes: Takes,
    words: &[Value],
) -> Result<(Flags, usize), Complaint>
    ensures { ReadsFlags result words.now (flags_of name.now takes words.now) }
{
    let mut flags = no_flags(alloc);
    let mut due = Due::None;
    'words: for at in 0..words.len() {
        let word = words[at].as_slice();
        match due {
            Due::Id => {
                flags.id = Some(words[at].shared(alloc)?);
                due = Due::None;
                continue;
            }
            Due::Shown => {
                flags.show(alloc, word)?;
                due = Due::None;
                continue;
            }
            Due::None => {}
        }
        match flag_role(takes, word) {
            Role::Word => return Ok((flags, at)),
            Role::End => return Ok((flags, at + 1)),
            Role::Alone => flags.on = true,
            Role::Id => due = Due::Id,
            Role::Choice(on) => flags.choose(on),
            Role::Shown => flags.show(alloc, word)?,
            Role::ShownWithValue => {
                flags.show(alloc, word)?;
                due = Due::Shown;
            }
            Role::Bad => return Err(Complaint::Said(bad_flag(alloc, word)?)),
        }
    }
    match due {
        Due::None => Ok((flags, words.len())),
        Due::Id | Due::Shown => Err(Complaint::Said(wrong_args(alloc, name)?)),
    }
}

/// Reads the flags of a command, if it may have some.
fn flags_if(
    alloc: Global,
    name: &[u8],
    takes: Option<Takes>,
    words: &[Value],
) -> Result<(Flags, usize), Complaint>
    ensures { ReadsFlags result words.now (flags_if takes name.now words.now) }
{
    match takes {
        None => Ok((no_flags(alloc), 0)),
        Some(takes) => flags_of(alloc, name, takes, words),
    }
}

/// Reads the flags of a command. Returns them and the index of its first argument. It is an error
/// if the row doesn't allow this number of arguments.
pub(crate) fn arguments(
    alloc: Global,
    command: ExpectCommand,
    name: &[u8],
    words: &[Value],
) -> Result<(Flags, usize), Complaint>
    ensures { ReadsFlags result words.now (arguments command name.now words.now) }
{
    let row = expect_row(command);
    let (flags, at) = flags_if(alloc, name, row.flags, words)?;
    if !fits(row.count, words.len() - at) {
        return Err(Complaint::Said(wrong_args(alloc, name)?));
    }
    Ok((flags, at))
}

/// Returns the first argument, or `None`.
pub(crate) fn first(alloc: Global, args: &[Value]) -> Result<Option<Value>, AllocError>
    ensures { IfOk result (λ r. r ≡ slice_get args.now 0) }
{
    match args {
        [] => Ok(None),
        [text, ..] => Ok(Some(text.shared(alloc)?)),
    }
}

/// Returns the first argument, or no bytes if there is none.
pub(crate) fn text(alloc: Global, args: &[Value]) -> Result<Value, AllocError>
    ensures { IfOk result (λ v. v ≡ arg 0 args.now) }
{
    match args {
        [] => Ok(Value::new(alloc)),
        [text, ..] => text.shared(alloc),
    }
}
