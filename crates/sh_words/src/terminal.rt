//! The words of a command that starts a program in a terminal of the system.

ghost use Rattle.std.specs.Prelude.{◌≡◌, ◌++◌, ◌∷◌, [], Some, IfOk, OnOk, slice_index_or};
ghost use Rattle.sh_words.specs.Reading.{sh_commands};
ghost use Rattle.sh_words.specs.Changes.{AreNamed, change_commands};
ghost use Rattle.sh_words.specs.Terminal.{command_text, commands, program_of as first_of, settings_text, terminal_script, terminal_words as words_of};

use crate::changes::{EnvironmentChange, changes_made};
use crate::quoting::quoted_words;
use std::alloc::{AllocError, Global};
use tcl_words::{Text, Texts};

/// Returns the first word, or no bytes if there is none.
fn program_of(words: &[Text]) -> &[u8]
    ensures { result.now ≡ first_of words.now }
{
    match words {
        [] => &[],
        [program, ..] => program.as_slice(),
    }
}

/// Returns the command stty(1) with these settings and `; `, or no bytes if there are none.
fn settings_made(alloc: Global, settings: &[Text]) -> Result<Text, AllocError>
    ensures { IfOk result (λ t. t ≡ settings_text settings.now) }
{
    let mut out = Text::new(alloc);
    if !settings.is_empty() {
        let words = quoted_words(alloc, settings)?;
        out.extend(b"stty ")?;
        out.extend(words.as_slice())?;
        out.extend(b"; ")?;
    }
    Ok(out)
}

/// Returns the commands that the shell runs in the terminal: stty(1) with the settings, if there
/// are any, the changes of the environment, and `exec` with the words.
fn command_made(
    alloc: Global,
    words: &[Text],
    settings: &[Text],
    changes: &[EnvironmentChange],
) -> Result<Text, AllocError>
    ensures text { IfOk result (λ t. t ≡ command_text words.now settings.now changes.now) }
    ensures read { AreNamed changes.now → IfOk result (λ t. sh_commands t ≡ Some (commands words.now settings.now changes.now)) }
{
    let mut out = settings_made(alloc, settings)?;
    out.extend(changes_made(alloc, changes)?.as_slice())?;
    out.extend(b"exec ")?;
    out.extend(quoted_words(alloc, words)?.as_slice())?;
    Ok(out)
}

/// Returns the script that runs its first argument in a new terminal, if the program that its
/// second argument names is there after the commands of its third argument.
#[tactic(auto, unfolding(crate::specs::Terminal::terminal_script))]
fn terminal_script_made(alloc: Global) -> Result<Text, AllocError>
    ensures { IfOk result (λ t. t ≡ terminal_script) }
{
    Text::from_slice(
        alloc,
        b"exec 2>/dev/null; (eval \"$3\"; command -v -- \"$2\") >/dev/null || exit 127; echo; trap : TERM; { cat; kill -KILL 0; } | { SHELL=/bin/sh script -qefc \"$1\" /dev/null; s=$?; trap \"\" TERM; kill -TERM 0; exit $s; }",
    )
}

/// Appends a copy of a word.
fn push_word(texts: &mut Texts, alloc: Global, word: &[u8]) -> Result<(), AllocError>
    ensures { OnOk result (texts.new ≡ texts.old ++ word.now ∷ []) }
{
    texts.push(Text::from_slice(alloc, word)?)
}

/// Returns the words of a command that starts a program in a terminal of the system.
///
/// `words` are the program and its arguments. stty(1) sets the terminal by `settings`, if there are
/// any. `changes` are made to the environment before. An empty line precedes the program's output.
/// If the program isn't there, there is no output, and the exit status is 127.
pub fn terminal_words(
    alloc: Global,
    words: &[Text],
    settings: &[Text],
    changes: &[EnvironmentChange],
) -> Result<Texts, AllocError>
    ensures words { IfOk result (λ t. t ≡ words_of words.now settings.now changes.now) }
    ensures command { AreNamed changes.now → IfOk result (λ t. sh_commands (slice_index_or t 6 []) ≡ Some (commands words.now settings.now changes.now)) }
    ensures changes { AreNamed changes.now → IfOk result (λ t. sh_commands (slice_index_or t 8 []) ≡ Some (change_commands changes.now)) }
{
    let script = terminal_script_made(alloc)?;
    let command = command_made(alloc, words, settings, changes)?;
    let before = changes_made(alloc, changes)?;
    let mut made = Texts::new(alloc);
    push_word(&mut made, alloc, b"setsid")?;
    push_word(&mut made, alloc, b"-w")?;
    push_word(&mut made, alloc, b"sh")?;
    push_word(&mut made, alloc, b"-c")?;
    made.push(script)?;
    push_word(&mut made, alloc, b"sh")?;
    made.push(command)?;
    push_word(&mut made, alloc, program_of(words))?;
    made.push(before)?;
    Ok(made)
}
