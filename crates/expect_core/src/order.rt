//! The arguments of a `spawn`.

ghost use Rattle.std.specs.Prelude.{◌≡◌, [], true, false, slice_index_or, IfOk};
ghost use Rattle.tty.specs.Modes.{read as read_modes};
ghost use Rattle.sh_words.specs.Terminal.{terminal_words};
ghost use Rattle.tcl_results.specs.Says.{Says};
ghost use Rattle.expect_core.specs.Spawning.{modes_in, modes_by as modes_by_of, modes_of as modes_named, settings_by as settings_by_of, settings_of as settings_named, is_on_terminal, order_of as order_meant, order_by};

use crate::flags::{Flags, arguments};
use crate::scoped::optional;
use crate::texts::bad_stty;
use command_table::ExpectCommand;
use sh_words::terminal_words;
use std::alloc::{AllocError, Global};
use tcl_results::{Complaint, list_of, texts_of};
use tcl_subst::Vars;
use tcl_values::Value;
use tcl_words::{Text, Texts};
use tty::Modes;

/// What a `spawn` is to start.
#[derive(Drop)]
pub struct SpawnOrder {
    /// Whether nothing is written to the transcript.
    pub quiet: bool,
    /// Whether the child is on a terminal of the system.
    pub terminal: bool,
    /// The flags that the transcript shows before the words.
    pub shown: Texts,
    /// The program and its arguments.
    pub words: Texts,
    /// The words of the request.
    pub asked: Texts,
    /// The modes of the child's terminal.
    pub modes: Modes,
}

/// Returns the text at an index, or no bytes if there is none.
fn text_at(texts: &[Text], at: usize) -> &[u8]
    ensures { result.now ≡ slice_index_or texts.now at [] }
{
    if at < texts.len() {
        texts[at].as_slice()
    } else {
        &[]
    }
}

/// Returns the modes that words of stty(1) set, or an error for an unknown word.
fn modes_in(alloc: Global, words: &[Text]) -> Result<Modes, Complaint>
    ensures { Says result (modes_in words.now (read_modes words.now)) }
{
    match Modes::read(words) {
        Ok(modes) => Ok(modes),
        Err(bad) => Err(Complaint::Said(bad_stty(alloc, text_at(words, bad.at))?)),
    }
}

/// Returns the modes that a list of words sets. Without a list they are `Modes::sane()`.
fn modes_by(alloc: Global, list: Option<Value>) -> Result<Modes, Complaint>
    ensures { Says result (modes_by_of list) }
{
    match list {
        None => Ok(Modes::sane()),
        Some(list) => {
            let elements = list_of(alloc, &list)?;
            let words = elements.texts(alloc)?;
            modes_in(alloc, words.as_slice())
        }
    }
}

/// Returns the modes of a child's terminal, which the variable `stty_init` may set.
fn modes_of(alloc: Global, vars: &Vars) -> Result<Modes, Complaint>
    ensures { Says result (modes_named vars.now) }
{
    modes_by(alloc, optional(alloc, vars, b"stty_init")?)
}

/// Returns the elements of a list of settings. Without a list there are none.
fn settings_by(alloc: Global, list: Option<Value>) -> Result<Texts, Complaint>
    ensures { Says result (settings_by_of list) }
{
    match list {
        None => Ok(Texts::new(alloc)),
        Some(list) => {
            let elements = list_of(alloc, &list)?;
            Ok(elements.texts(alloc)?)
        }
    }
}

/// Returns the settings of a terminal of the system, which the variable `stty_init` may list.
fn settings_of(alloc: Global, vars: &Vars) -> Result<Texts, Complaint>
    ensures { Says result (settings_named vars.now) }
{
    settings_by(alloc, optional(alloc, vars, b"stty_init")?)
}

/// Returns whether a `spawn` with these flags is on a terminal of the system.
fn is_on_terminal(flags: &Flags, host: bool) -> bool
    ensures { result ≡ is_on_terminal flags.now host }
{
    flags.choice.unwrap_or(host)
}

/// Returns the words that start a program in a terminal of the system with these settings.
fn words_in_terminal(alloc: Global, words: &Texts, settings: &Texts) -> Result<Texts, AllocError>
    ensures { IfOk result (λ t. t ≡ terminal_words words.now settings.now []) }
{
    terminal_words(alloc, words.as_slice(), settings.as_slice(), &[])
}

/// Returns what a `spawn` with these flags and words is to start on a terminal of the system.
fn order_on_terminal(
    alloc: Global,
    flags: Flags,
    words: &[Value],
    vars: &Vars,
) -> Result<SpawnOrder, Complaint>
    ensures { Says result (order_by true flags words.now vars.now) }
{
    let settings = settings_of(alloc, vars)?;
    let words = texts_of(alloc, words)?;
    let asked = words_in_terminal(alloc, &words, &settings)?;
    Ok(SpawnOrder {
        quiet: flags.on,
        terminal: true,
        shown: flags.shown,
        words,
        asked,
        modes: Modes::bare(),
    })
}

/// Returns what a `spawn` with these flags and words is to start on pipes.
fn order_on_pipes(
    alloc: Global,
    flags: Flags,
    words: &[Value],
    vars: &Vars,
) -> Result<SpawnOrder, Complaint>
    ensures { Says result (order_by false flags words.now vars.now) }
{
    let modes = modes_of(alloc, vars)?;
    let words = texts_of(alloc, words)?;
    let asked = words.copied(alloc)?;
    Ok(SpawnOrder {
        quiet: flags.on,
        terminal: false,
        shown: flags.shown,
        words,
        asked,
        modes,
    })
}

/// Returns what a `spawn` with these flags and words is to start.
fn order_by(
    alloc: Global,
    terminal: bool,
    flags: Flags,
    words: &[Value],
    vars: &Vars,
) -> Result<SpawnOrder, Complaint>
    ensures { Says result (order_by terminal flags words.now vars.now) }
{
    if terminal {
        order_on_terminal(alloc, flags, words, vars)
    } else {
        order_on_pipes(alloc, flags, words, vars)
    }
}

/// Reads the arguments of a `spawn`. `host` is the script's setting.
pub(crate) fn order_of(
    alloc: Global,
    name: &[u8],
    args: &[Value],
    vars: &Vars,
    host: bool,
) -> Result<SpawnOrder, Complaint>
    ensures { Says result (order_meant name.now args.now vars.now host) }
{
    let (flags, at) = arguments(alloc, ExpectCommand::Spawn, name, args)?;
    let terminal = is_on_terminal(&flags, host);
    order_by(alloc, terminal, flags, &args[at..], vars)
}
