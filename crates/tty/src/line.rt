//! The input side of a terminal.

ghost use Rattle.std.specs.Prelude.{◌≡◌, [], ℕ, List, true, false, IfOk, OnOk, OnErr};
ghost use Rattle.tty.specs.Handed.{at_once, received};
ghost use Rattle.tty.specs.Echo.{echo_text};

use crate::Modes;
use crate::action::{Action, Actions};
use crate::given::send_to;
use crate::keys::received;
use std::alloc::{AllocError, Global};
use std::marker::Model;
use tcl_words::Text;

/// The input side of a terminal: its modes, the text of the unfinished line, and whether the input
/// has ended.
#[derive(Drop)]
pub struct Line {
    alloc: Global,
    modes: Modes,
    waiting: Text,
    ended: bool,
}

impl Model for Line {
    ghost use Rattle.std.specs.Prelude.{◌≡◌, true};
    ghost use Rattle.tty.specs.Sends.{Waits, all_plain};

    ghost Value = { Waits };

    ghost view = { λ l. record { modes = l.modes; waiting = l.waiting; ended = l.ended } };

    ghost invariant = { λ l. all_plain l.waiting ≡ true };
}

/// Returns the echo and the actions of bytes that are not edited.
fn pass_on(alloc: Global, modes: Modes, bytes: &[u8]) -> Result<(Text, Actions), AllocError>
    ensures echo { IfOk result (λ r. modes.icanon ≡ false → r.0 ≡ echo_text modes [] bytes.now) }
    ensures actions { IfOk result (λ r. r.1 ≡ at_once (received modes bytes.now)) }
{
    let text = received(alloc, modes, bytes)?;
    let mut echo = Text::new(alloc);
    if modes.echo {
        echo.extend(text.as_slice())?;
    }
    let mut actions = Actions::new(alloc);
    if text.len() > 0 {
        actions.push(Action::Write(text))?;
    }
    Ok((echo, actions))
}

impl Line {
    ghost use Rattle.std.specs.Prelude.{◌≡◌, [], true, false, IfOk, OnOk, OnErr};
    ghost use Rattle.tty.specs.Sends.{all_plain, handed_by, echo_of, line_after};

    /// Creates a line without text. It does not allocate.
    pub fn new(alloc: Global, modes: Modes) -> Line
        ensures { result ≡ record { modes = modes; waiting = []; ended = false } }
    {
        Line {
            alloc,
            modes,
            waiting: Text::new(alloc),
            ended: false,
        }
    }

    /// Returns the modes of the terminal.
    pub fn modes(&self) -> Modes
        ensures { result ≡ self.now.modes }
    {
        self.modes
    }

    /// Sends bytes to the terminal. Returns what it echoes and what it hands over.
    ///
    /// Under `icanon` bytes are handed over line by line. The bytes 7F and 15 edit the line. The
    /// byte 04 hands over the line without a newline, or ends the input if the line is empty. After
    /// the end, bytes are echoed but not handed over.
    ///
    /// On `AllocError` the line is unchanged.
    pub fn send(&mut self, bytes: &[u8]) -> Result<(Text, Actions), AllocError>
        ensures sent { IfOk result (λ r. r ≡ (echo_of self.old bytes.now, (handed_by self.old bytes.now).actions)) }
        ensures line { OnOk result (self.new ≡ line_after self.old bytes.now) }
        ensures plain { all_plain self.new.waiting ≡ true }
        ensures kept { OnErr result (self.new ≡ self.old) }
    {
        if self.modes.icanon {
            let given = send_to(self.alloc, self.modes, &mut self.waiting, self.ended, bytes)?;
            self.ended = given.ended;
            return Ok((given.echo, given.actions));
        }
        pass_on(self.alloc, self.modes, bytes)
    }
}

ghost use Rattle.tty.specs.Sends.{Waits, all_plain, SameAsJoined};

/// States a law: under `icanon`, several sends give the same actions, echo and line as one send of
/// all their bytes. It does nothing at run time.
pub fn sends_join()
    ensures { (l : Waits) (xs : List (List ℕ)) → l.modes.icanon ≡ true → all_plain l.waiting ≡ true → SameAsJoined l xs }
{}
