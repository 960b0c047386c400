//! The calls of a script to its host.

ghost use Rattle.std.specs.Prelude.{◌≡◌, IfOk};
ghost use Rattle.command_table.specs.Commands.{expect_command};
ghost use Rattle.tcl_results.specs.Said.{Said};
ghost use Rattle.tcl_results.specs.Says.{Says};
ghost use Rattle.expect_core.specs.declared.turn.Deed.{Deed as DeedOf};
ghost use Rattle.expect_core.specs.Answered.{idle};
ghost use Rattle.expect_core.specs.Calls.{began, begun as begun_of, ended_body, filled, filling as filling_of, knows as knows_of, named, named_by, resumed, worded};
ghost use Rattle.expect_core.specs.Known.{KnowsIn};
ghost use Rattle.expect_core.specs.Running.{run, turns};
ghost use Rattle.expect_core.specs.Turns.{doing as doing_of};

use crate::again::exp_continue;
use crate::day::{clock, timestamp};
use crate::dialogue::Dialogue;
use crate::ends::{close, exp_pid, wait};
use crate::expect::{expect, expect_after, expect_before};
use crate::known::Known;
use crate::options::{match_max, remove_nulls};
use crate::own::Own;
use crate::phase::Phase;
use crate::planning::listed;
use crate::programs::{exec, file, open, pid, pwd, source, system};
use crate::reading::{eof, flush, gets, read};
use crate::run::Paused;
use crate::send::send;
use crate::sleeping::{after, sleep};
use crate::spawn::spawn;
use crate::transcript::{log_user, puts, send_error, send_user};
use crate::turn::{Deed, Reply, Turn};
use command_table::{ExpectCommand, expect_command, fixed_expect};
use std::alloc::{AllocError, Global};
use std::mem;
use tcl_host::HostStep;
use tcl_results::{Code, Complaint, said};
use tcl_subst::Vars;
use tcl_values::Value;
use tcl_words::Text;

/// Returns whether a word names a command of Expect, and no procedure can have its name.
pub(crate) fn knows(word: &[u8]) -> bool
    ensures { result ≡ knows_of word.now }
{
    fixed_expect(word).is_some()
}

/// Returns what a command does.
fn deed(
    alloc: Global,
    command: ExpectCommand,
    word: &[u8],
    args: &[Value],
    vars: &Vars,
    own: &mut Own,
) -> Result<Deed, Complaint>
    ensures same { own.new ≡ own.old }
    ensures said { Says result (named command word.now args.now vars.now own.old) }
{
    match command {
        ExpectCommand::Spawn => spawn(alloc, word, args, vars, own),
        ExpectCommand::Send => send(alloc, word, args, vars, own),
        ExpectCommand::SendUser => send_user(alloc, word, args),
        ExpectCommand::SendError => send_error(alloc, word, args, own),
        ExpectCommand::Expect => expect(alloc, args, vars, own),
        ExpectCommand::ExpectBefore => expect_before(alloc, args, vars, own),
        ExpectCommand::ExpectAfter => expect_after(alloc, args, vars, own),
        ExpectCommand::ExpContinue => exp_continue(alloc, word, args),
        ExpectCommand::Close => close(alloc, word, args, vars, own),
        ExpectCommand::Wait => wait(alloc, word, args, vars, own),
        ExpectCommand::ExpPid => exp_pid(alloc, word, args, vars, own),
        ExpectCommand::MatchMax => match_max(alloc, word, args, vars, own),
        ExpectCommand::RemoveNulls => remove_nulls(alloc, word, args, vars, own),
        ExpectCommand::LogUser => log_user(alloc, word, args, own),
        ExpectCommand::Puts => puts(alloc, word, args, own),
        ExpectCommand::Exec => exec(alloc, word, args, own),
        ExpectCommand::System => system(alloc, word, args, own),
        ExpectCommand::Source => source(alloc, word, args, vars, own),
        ExpectCommand::File => file(alloc, word, args, vars, own),
        ExpectCommand::Pwd => pwd(alloc, word, args, own),
        ExpectCommand::Pid => pid(alloc, word, args, own),
        ExpectCommand::Open => open(alloc, word, args, vars, own),
        ExpectCommand::Gets => gets(alloc, word, args, own),
        ExpectCommand::Read => read(alloc, word, args, own),
        ExpectCommand::Eof => eof(alloc, word, args, own),
        ExpectCommand::Flush => flush(alloc, word, args, own),
        ExpectCommand::Sleep => sleep(alloc, word, args, own),
        ExpectCommand::After => after(alloc, word, args, own),
        ExpectCommand::Clock => clock(alloc, word, args, own),
        ExpectCommand::Timestamp => timestamp(alloc, word, args, own),
    }
}

/// Returns the only argument of an `expect`, `expect_before` or `expect_after`, if it is a list of
/// all arguments. Its words are filled before the command begins.
fn filling(
    alloc: Global,
    command: ExpectCommand,
    args: &[Value],
) -> Result<Option<Value>, AllocError>
    ensures { IfOk result (λ r. r ≡ filling_of command args.now) }
{
    match command {
        ExpectCommand::Expect => listed(alloc, args),
        ExpectCommand::ExpectBefore => listed(alloc, args),
        ExpectCommand::ExpectAfter => listed(alloc, args),
        _ => Ok(None),
    }
}

/// Returns what the command does that a word names.
fn deed_by(
    alloc: Global,
    command: Option<ExpectCommand>,
    word: &[u8],
    args: &[Value],
    vars: &Vars,
    own: &mut Own,
) -> Result<Deed, Complaint>
    ensures same { own.new ≡ own.old }
    ensures said { Says result (named_by command word.now args.now vars.now own.old) }
{
    match command {
        None => Err(Complaint::Said(Text::new(alloc))),
        Some(command) => deed(alloc, command, word, args, vars, own),
    }
}

/// Returns what a command does whose list of arguments was filled. Its own word comes first.
fn filled_deed(
    alloc: Global,
    words: &[Value],
    vars: &Vars,
    own: &mut Own,
) -> Result<Deed, Complaint>
    ensures same { own.new ≡ own.old }
    ensures said { Says result (worded words.now vars.now own.old) }
{
    match words {
        [] => Err(Complaint::Said(Text::new(alloc))),
        [word, args @ ..] => {
            let word = word.as_slice();
            deed_by(alloc, expect_command(word), word, args, vars, own)
        }
    }
}

impl Dialogue {
    /// Runs what a command does, or gives its error.
    fn doing(
        &mut self,
        alloc: Global,
        vars: &mut Vars,
        said_deed: Result<Deed, Complaint>,
    ) -> Result<Paused, AllocError>
        ensures { (meant : Said DeedOf) → Says said_deed meant → IfOk result (λ p. (run turns (doing_of meant) vars.old self.old ≡ (p.step, vars.new, self.new)) × KnowsIn p.known self.new) }
    {
        let turn = match said(alloc, said_deed)? {
            Ok(deed) => deed.turn(alloc)?,
            Err(text) => Turn::over(alloc, Reply::Fail(text)),
        };
        self.run(alloc, vars, turn)
    }

    /// Begins a command, unless its words are to be filled first.
    fn begin_as(
        &mut self,
        alloc: Global,
        vars: &mut Vars,
        command: ExpectCommand,
        word: &[u8],
        args: &[Value],
    ) -> Result<Paused, AllocError>
        ensures comes { IfOk result (λ p. filled (filling_of command args.now) (named command word.now args.now vars.old self.old.own) vars.old self.old ≡ (p.step, vars.new, self.new)) }
        ensures knows { IfOk result (λ p. KnowsIn p.known self.new) }
    {
        match filling(alloc, command, args)? {
            Some(text) => Ok(Paused::at(alloc, HostStep::Words(text))),
            None => {
                let said = deed(alloc, command, word, args, vars, &mut self.own);
                self.doing(alloc, vars, said)
            }
        }
    }

    /// Begins the command that a word names.
    fn begin_named(
        &mut self,
        alloc: Global,
        vars: &mut Vars,
        word: &[u8],
        args: &[Value],
    ) -> Result<Paused, AllocError>
        ensures comes { IfOk result (λ p. began (expect_command word.now) word.now args.now vars.old self.old ≡ (p.step, vars.new, self.new)) }
        ensures knows { IfOk result (λ p. KnowsIn p.known self.new) }
    {
        match expect_command(word) {
            None => Ok(Paused::at(alloc, HostStep::Unknown)),
            Some(command) => self.begin_as(alloc, vars, command, word, args),
        }
    }

    /// Begins a command, given its words.
    pub(crate) fn begin_words(
        &mut self,
        vars: &mut Vars,
        words: &[Value],
    ) -> Result<Paused, AllocError>
        ensures comes { IfOk result (λ p. begun_of words.now vars.old (idle self.old) ≡ (p.step, vars.new, self.new)) }
        ensures knows { IfOk result (λ p. KnowsIn p.known self.new) }
    {
        let alloc = self.alloc();
        self.set_phase(Phase::Idle);
        match words {
            [] => Ok(Paused::at(alloc, HostStep::Unknown)),
            [word, args @ ..] => self.begin_named(alloc, vars, word.as_slice(), args),
        }
    }

    /// Continues a call that waited.
    pub(crate) fn resumed(&mut self, vars: &mut Vars, known: Known) -> Result<Paused, AllocError>
        requires { KnowsIn known self.old }
        ensures comes { IfOk result (λ p. resumed vars.old self.old ≡ (p.step, vars.new, self.new)) }
        ensures knows { IfOk result (λ p. KnowsIn p.known self.new) }
    {
        let alloc = self.alloc();
        let phase = mem::replace(&mut self.phase, Phase::Idle);
        self.go_on(alloc, vars, phase, known)
    }

    /// Begins a command whose list of arguments was filled. Its own word comes first.
    pub(crate) fn begin_filled(
        &mut self,
        vars: &mut Vars,
        words: &[Value],
    ) -> Result<Paused, AllocError>
        ensures comes { IfOk result (λ p. run turns (doing_of (worded words.now vars.old self.old.own)) vars.old (idle self.old) ≡ (p.step, vars.new, self.new)) }
        ensures knows { IfOk result (λ p. KnowsIn p.known self.new) }
    {
        let alloc = self.alloc();
        self.set_phase(Phase::Idle);
        let said = filled_deed(alloc, words, vars, &mut self.own);
        self.doing(alloc, vars, said)
    }

    /// Continues a call after its action.
    pub(crate) fn go_behind(
        &mut self,
        vars: &mut Vars,
        code: Code,
        value: &Value,
    ) -> Result<Paused, AllocError>
        ensures comes { IfOk result (λ p. ended_body code value.now vars.old (idle self.old) ≡ (p.step, vars.new, self.new)) }
        ensures knows { IfOk result (λ p. KnowsIn p.known self.new) }
    {
        let alloc = self.alloc();
        self.set_phase(Phase::Idle);
        let turn = self.own.end_body(alloc, code, value)?;
        self.run(alloc, vars, turn)
    }
}
