//! What a send hands over and echoes.

ghost use Rattle.std.specs.Prelude.{◌≡◌, ◌++◌, [], OnOk, OnErr};
ghost use Rattle.tty.specs.Editing.{is_empty};
ghost use Rattle.tty.specs.Handed.{ends_input, line_action};
ghost use Rattle.tty.specs.Echo.{echo_by};
ghost use Rattle.tty.specs.Buffer.{handing, with_line, with_echo, given_after, run};
ghost use Rattle.std.specs.Prelude.{IfOk};
ghost use Rattle.tty.specs.Handed.{received};

use crate::Modes;
use crate::action::{Action, Actions};
use crate::draft::{Draft, replace_end};
use crate::keys::{EOF, ERASE, KILL, NL, ends_line, read_byte};
use std::alloc::{AllocError, Global};
use tcl_words::Text;

/// What a send hands over and echoes.
#[derive(Drop)]
pub(crate) struct Given {
    pub(crate) actions: Actions,
    /// The input has ended. Nothing is handed over after that.
    pub(crate) ended: bool,
    pub(crate) echo: Text,
}

/// Returns the action for a line that a byte ends.
fn line_action(alloc: Global, end: u8, draft: &Draft<'_>) -> Result<Action, AllocError>
    ensures { IfOk result (λ a. a ≡ line_action end draft.now.text) }
{
    if end == EOF && draft.is_empty() {
        return Ok(Action::End);
    }
    let mut text = draft.copied(alloc)?;
    if end == NL {
        text.push(NL)?;
    }
    Ok(Action::Write(text))
}

impl Given {
    /// Creates an empty result without allocating.
    pub(crate) fn new(alloc: Global, ended: bool) -> Given
        ensures { result ≡ record { actions = []; ended = ended; echo = [] } }
    {
        Given {
            actions: Actions::new(alloc),
            ended,
            echo: Text::new(alloc),
        }
    }

    /// Hands over a line that a byte ends.
    fn hand_over(&mut self, alloc: Global, end: u8, draft: &Draft<'_>) -> Result<(), AllocError>
        ensures { OnOk result (self.new ≡ handing end draft.now.text self.old) }
    {
        if self.ended {
            return Ok(());
        }
        self.actions.push(line_action(alloc, end, draft)?)?;
        self.ended = end == EOF && draft.is_empty();
        Ok(())
    }

    /// Hands over the line if the byte ends it.
    fn end_line(&mut self, alloc: Global, b: u8, draft: &Draft<'_>) -> Result<(), AllocError>
        ensures { OnOk result (self.new ≡ with_line b draft.now.text self.old) }
    {
        if ends_line(b) {
            return self.hand_over(alloc, b, draft);
        }
        Ok(())
    }

    /// Echoes a byte. `is_empty` is true if the line has no text so far.
    fn echo(&mut self, is_empty: bool, b: u8) -> Result<(), AllocError>
        ensures { OnOk result (self.new ≡ record self.old { echo = self.old.echo ++ echo_by is_empty b }) }
    {
        if b == ERASE {
            if is_empty {
                return Ok(());
            }
            return self.echo.extend(b"\x08 \x08");
        }
        if b == KILL {
            return self.echo.extend(b"\x15\n");
        }
        if b == EOF {
            return Ok(());
        }
        self.echo.push(b)
    }

    /// Adds the action and the echo of one byte.
    fn put(&mut self, alloc: Global, echo: bool, b: u8, draft: &Draft<'_>) -> Result<(), AllocError>
        ensures { OnOk result (self.new ≡ given_after echo b draft.now.text self.old) }
    {
        self.end_line(alloc, b, draft)?;
        if echo {
            return self.echo(draft.is_empty(), b);
        }
        Ok(())
    }
}

/// Sends bytes to a line that is edited.
fn put_all(
    alloc: Global,
    modes: Modes,
    draft: &mut Draft<'_>,
    given: &mut Given,
    bytes: &[u8],
) -> Result<(), AllocError>
    ensures text { OnOk result ((draft.new.text, given.new) ≡ run modes.echo (received modes bytes.now) draft.old.text given.old) }
    ensures before { OnOk result (draft.new.before ≡ draft.old.before) }
{
    for b in bytes {
        let b = read_byte(modes, *b);
        given.put(alloc, modes.echo, b, draft)?;
        draft.put(b)?;
    }
    Ok(())
}

/// Sends bytes to a line that is edited. Returns what it hands over and echoes. On `AllocError` the
/// line is unchanged.
pub(crate) fn send_to(
    alloc: Global,
    modes: Modes,
    waiting: &mut Text,
    ended: bool,
    bytes: &[u8],
) -> Result<Given, AllocError>
    ensures sent { IfOk result (λ g. (waiting.new, g) ≡ run modes.echo (received modes bytes.now) waiting.old (record { actions = []; ended = ended; echo = [] })) }
    ensures kept { OnErr result (waiting.new ≡ waiting.old) }
{
    let mut given = Given::new(alloc, ended);
    let mut draft = Draft::new(alloc, waiting.as_slice());
    put_all(alloc, modes, &mut draft, &mut given, bytes)?;
    let (kept, fresh) = draft.into_parts();
    replace_end(waiting, kept, fresh.as_slice())?;
    Ok(given)
}
