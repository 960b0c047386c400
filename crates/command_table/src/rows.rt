//! The rows of the table.

ghost use Rattle.std.specs.Prelude.{◌≡◌};
ghost use Rattle.command_table.specs.Rows.{plain, flagged, switched, value_row, tcl_row, expect_row, row_of};

use crate::commands::{Command, ExpectCommand, TclCommand, ValueCommand};
use crate::counts::{Count, at_least, between, exactly};
use crate::flags::{Flags, Own};
use crate::reading::Kind::{Expression, Name, Script, Text};
use crate::reading::Stage::{Alone, Choice, Each, Front, Lists, Output, Pattern, Test};
use crate::reading::{Stage, texts};
use crate::switches::Switches;

/// What a command accepts.
#[derive(Clone, Copy, PartialEq, Eq)]
pub struct Row {
    /// The number of arguments, without the flags.
    pub count: Count,
    /// The flags. `None` if no argument is a flag.
    pub flags: Option<Flags>,
    /// The flags before its last arguments. `count.least` counts these and the flags that it needs.
    /// `None` if it has no such flags.
    pub switches: Option<Switches>,
    /// How the arguments are read.
    pub words: Stage,
}

/// Returns the row of a command whose arguments are read by `words` alone.
fn plain(count: Count, words: Stage) -> Row
    ensures { result ≡ plain count words }
{
    Row {
        count,
        flags: None,
        switches: None,
        words,
    }
}

/// Returns the row of a command with flags, followed by texts.
fn flagged(own: Own, id: bool, end: bool, count: Count) -> Row
    ensures { result ≡ flagged own id end count }
{
    Row {
        count,
        flags: Some(Flags { own, id, end }),
        switches: None,
        words: texts(),
    }
}

/// Returns the row of a command with flags before its last arguments. It has at least n arguments,
/// with the flags that it needs. All its arguments are texts.
fn switched(switches: Switches, n: usize) -> Row
    ensures { result ≡ switched switches n }
{
    Row {
        count: at_least(n),
        flags: None,
        switches: Some(switches),
        words: texts(),
    }
}

/// Returns the row of a value command.
pub fn value_row(command: ValueCommand) -> Row
    ensures { result ≡ value_row command }
{
    match command {
        ValueCommand::Append => plain(at_least(1), Each(Name, Text, Text, Text)),
        ValueCommand::Array => plain(at_least(1), Choice),
        ValueCommand::Break => plain(exactly(0), texts()),
        ValueCommand::Concat => plain(at_least(0), texts()),
        ValueCommand::Continue => plain(exactly(0), texts()),
        ValueCommand::Error => plain(between(1, 3), texts()),
        ValueCommand::ExpVersion => plain(at_least(0), Front(Switches::Version)),
        ValueCommand::Format => plain(at_least(1), texts()),
        ValueCommand::Global => plain(at_least(0), Each(Name, Name, Name, Name)),
        ValueCommand::Ignored => plain(at_least(0), texts()),
        ValueCommand::Incr => plain(between(1, 2), Each(Name, Text, Text, Text)),
        ValueCommand::Info => plain(at_least(1), Choice),
        ValueCommand::Join => plain(between(1, 2), texts()),
        ValueCommand::Lappend => plain(at_least(1), Each(Name, Text, Text, Text)),
        ValueCommand::Lassign => plain(at_least(1), Each(Text, Name, Name, Name)),
        ValueCommand::Lindex => plain(between(1, 2), texts()),
        ValueCommand::Linsert => plain(at_least(2), texts()),
        ValueCommand::List => plain(at_least(0), texts()),
        ValueCommand::Llength => plain(exactly(1), texts()),
        ValueCommand::Lrange => plain(exactly(3), texts()),
        ValueCommand::Lrepeat => plain(at_least(1), texts()),
        ValueCommand::Lreplace => plain(at_least(3), texts()),
        ValueCommand::Lreverse => plain(exactly(1), texts()),
        ValueCommand::Lsearch => switched(Switches::Search, 2),
        ValueCommand::Lset => plain(exactly(3), Each(Name, Text, Text, Text)),
        ValueCommand::Lsort => switched(Switches::Sort, 1),
        ValueCommand::Package => plain(at_least(1), Choice),
        ValueCommand::Regexp => plain(at_least(0), Front(Switches::Match)),
        ValueCommand::Regsub => plain(at_least(0), Front(Switches::Replace)),
        ValueCommand::Return => plain(at_least(0), texts()),
        ValueCommand::Scan => plain(at_least(3), Each(Text, Text, Name, Name)),
        ValueCommand::Set => plain(between(1, 2), Each(Name, Text, Text, Text)),
        ValueCommand::Split => plain(between(1, 2), texts()),
        ValueCommand::String => plain(at_least(1), Choice),
        ValueCommand::Subst => switched(Switches::Substitute, 2),
        ValueCommand::Unset => plain(at_least(0), Each(Name, Name, Name, Name)),
        ValueCommand::Upvar => plain(at_least(2), texts()),
    }
}

/// Returns the row of a Tcl command.
pub fn tcl_row(command: TclCommand) -> Row
    ensures { result ≡ tcl_row command }
{
    match command {
        TclCommand::Value(command) => value_row(command),
        TclCommand::Catch => plain(between(1, 2), Each(Script, Name, Text, Text)),
        TclCommand::Eval => plain(at_least(1), Alone(Script)),
        TclCommand::Exit => plain(between(0, 1), texts()),
        TclCommand::Expr => plain(at_least(1), Alone(Expression)),
        TclCommand::For => plain(exactly(4), Each(Script, Expression, Script, Script)),
        TclCommand::Foreach => plain(at_least(3), Lists),
        TclCommand::If => plain(at_least(2), Test),
        TclCommand::Proc => plain(exactly(3), Each(Text, Text, Script, Text)),
        TclCommand::Switch => plain(at_least(2), texts()),
        TclCommand::While => plain(exactly(2), Each(Expression, Script, Text, Text)),
    }
}

/// Returns the row of an Expect command.
pub fn expect_row(command: ExpectCommand) -> Row
    ensures { result ≡ expect_row command }
{
    match command {
        ExpectCommand::After => plain(exactly(1), texts()),
        ExpectCommand::Clock => plain(at_least(1), Choice),
        ExpectCommand::Close => flagged(Own::None, true, false, between(0, 1)),
        ExpectCommand::Eof => plain(exactly(1), texts()),
        ExpectCommand::Exec => flagged(Own::Exec, false, true, at_least(1)),
        ExpectCommand::ExpContinue => flagged(Own::Timer, false, false, exactly(0)),
        ExpectCommand::ExpPid => flagged(Own::None, true, false, exactly(0)),
        ExpectCommand::Expect => plain(at_least(0), Pattern),
        ExpectCommand::ExpectAfter => plain(at_least(0), Pattern),
        ExpectCommand::ExpectBefore => plain(at_least(0), Pattern),
        ExpectCommand::File => plain(at_least(1), Choice),
        ExpectCommand::Flush => plain(exactly(1), texts()),
        ExpectCommand::Gets => plain(between(1, 2), Each(Text, Name, Text, Text)),
        ExpectCommand::LogUser => plain(exactly(1), Choice),
        ExpectCommand::MatchMax => flagged(Own::Default, true, false, between(0, 1)),
        ExpectCommand::Open => plain(between(1, 2), texts()),
        ExpectCommand::Pid => plain(exactly(0), texts()),
        ExpectCommand::Puts => plain(between(1, 3), Output),
        ExpectCommand::Pwd => plain(exactly(0), texts()),
        ExpectCommand::Read => plain(between(1, 2), texts()),
        ExpectCommand::RemoveNulls => flagged(Own::Default, true, false, between(0, 1)),
        ExpectCommand::Send => flagged(Own::Send, true, true, exactly(1)),
        ExpectCommand::SendError => flagged(Own::None, false, true, exactly(1)),
        ExpectCommand::SendUser => flagged(Own::None, false, true, exactly(1)),
        ExpectCommand::Sleep => plain(exactly(1), texts()),
        ExpectCommand::Source => plain(exactly(1), texts()),
        ExpectCommand::Spawn => flagged(Own::Spawn, false, true, at_least(1)),
        ExpectCommand::System => plain(at_least(1), texts()),
        ExpectCommand::Timestamp => plain(at_least(0), texts()),
        ExpectCommand::Wait => flagged(Own::Wait, true, false, exactly(0)),
    }
}

/// Returns the row of a command.
pub fn row_of(command: Command) -> Row
    ensures { result ≡ row_of command }
{
    match command {
        Command::Tcl(command) => tcl_row(command),
        Command::Expect(command) => expect_row(command),
    }
}
