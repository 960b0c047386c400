//! The commands by their names.

ghost use Rattle.std.specs.Prelude.{◌≡◌};
ghost use Rattle.std.specs.Str.{bytes_eq};
ghost use Rattle.command_table.specs.Commands.{value_command, control_command, tcl_command, is_ignored, interpreter_value, redefinable_value, redefinable_control, redefinable_command, fixed_expect, prefixed_expect, tool_command, channel_command, tool_or_channel, standing_command, takes_patterns, standing_or_tool, redefinable_expect, expect_command, is_redefinable, language_command, command_of};

/// A value command: it evaluates no script.
#[derive(Clone, Copy, PartialEq, Eq)]
pub enum ValueCommand {
    Append,
    Array,
    Break,
    Concat,
    Continue,
    Error,
    /// `exp_version` and `expect_version`.
    ExpVersion,
    Format,
    Global,
    /// A command for which nothing happens: debugging, and actions at signals.
    Ignored,
    Incr,
    Info,
    Join,
    Lappend,
    Lassign,
    Lindex,
    Linsert,
    List,
    Llength,
    Lrange,
    Lrepeat,
    Lreplace,
    Lreverse,
    Lsearch,
    Lset,
    Lsort,
    Package,
    Regexp,
    Regsub,
    Return,
    Scan,
    Set,
    Split,
    String,
    Subst,
    Unset,
    Upvar,
}

/// A command of Tcl.
#[derive(Clone, Copy, PartialEq, Eq)]
pub enum TclCommand {
    /// A value command.
    Value(ValueCommand),
    Catch,
    Eval,
    Exit,
    Expr,
    For,
    Foreach,
    If,
    Proc,
    Switch,
    While,
}

/// A command of Expect, or one that waits.
#[derive(Clone, Copy, PartialEq, Eq)]
pub enum ExpectCommand {
    After,
    Clock,
    Close,
    /// `eof` of a channel.
    Eof,
    Exec,
    ExpContinue,
    ExpPid,
    Expect,
    ExpectAfter,
    ExpectBefore,
    File,
    Flush,
    Gets,
    LogUser,
    MatchMax,
    Open,
    /// `pid`, `getpid` and `exp_getpid`.
    Pid,
    Puts,
    Pwd,
    Read,
    RemoveNulls,
    Send,
    SendError,
    SendUser,
    Sleep,
    Source,
    Spawn,
    System,
    Timestamp,
    Wait,
}

/// A command of the table.
#[derive(Clone, Copy, PartialEq, Eq)]
pub enum Command {
    Tcl(TclCommand),
    Expect(ExpectCommand),
}

/// Returns whether a word is this name. Words of another length are compared in constant time.
#[inline(always)]
pub fn is(word: &[u8], name: &[u8]) -> bool
    ensures { result ≡ bytes_eq word.now name.now }
{
    word.len() == name.len() && word == name
}

/// Returns the value command that a word names, if no procedure can have its name. The most used
/// names come first.
fn value_command(word: &[u8]) -> Option<ValueCommand>
    ensures { result ≡ value_command word.now }
{
    if is(word, b"set") {
        Some(ValueCommand::Set)
    } else if is(word, b"incr") {
        Some(ValueCommand::Incr)
    } else if is(word, b"return") {
        Some(ValueCommand::Return)
    } else if is(word, b"append") {
        Some(ValueCommand::Append)
    } else if is(word, b"lappend") {
        Some(ValueCommand::Lappend)
    } else if is(word, b"list") {
        Some(ValueCommand::List)
    } else if is(word, b"llength") {
        Some(ValueCommand::Llength)
    } else if is(word, b"lindex") {
        Some(ValueCommand::Lindex)
    } else if is(word, b"lrange") {
        Some(ValueCommand::Lrange)
    } else if is(word, b"string") {
        Some(ValueCommand::String)
    } else if is(word, b"break") {
        Some(ValueCommand::Break)
    } else if is(word, b"continue") {
        Some(ValueCommand::Continue)
    } else if is(word, b"error") {
        Some(ValueCommand::Error)
    } else if is(word, b"global") {
        Some(ValueCommand::Global)
    } else if is(word, b"info") {
        Some(ValueCommand::Info)
    } else if is(word, b"unset") {
        Some(ValueCommand::Unset)
    } else {
        None
    }
}

/// Returns the command that a word names, if it evaluates a script or an expression, defines a
/// procedure or ends the script.
fn control_command(word: &[u8]) -> Option<TclCommand>
    ensures { result ≡ control_command word.now }
{
    if is(word, b"if") {
        Some(TclCommand::If)
    } else if is(word, b"expr") {
        Some(TclCommand::Expr)
    } else if is(word, b"while") {
        Some(TclCommand::While)
    } else if is(word, b"for") {
        Some(TclCommand::For)
    } else if is(word, b"foreach") {
        Some(TclCommand::Foreach)
    } else if is(word, b"catch") {
        Some(TclCommand::Catch)
    } else if is(word, b"proc") {
        Some(TclCommand::Proc)
    } else if is(word, b"eval") {
        Some(TclCommand::Eval)
    } else if is(word, b"exit") {
        Some(TclCommand::Exit)
    } else {
        None
    }
}

/// Returns the command of Tcl that a word names, if no procedure can have its name.
pub fn tcl_command(word: &[u8]) -> Option<TclCommand>
    ensures { result ≡ tcl_command word.now }
{
    match value_command(word) {
        Some(command) => Some(TclCommand::Value(command)),
        None => control_command(word),
    }
}

/// Returns whether a word names a command for which nothing happens.
fn is_ignored(word: &[u8]) -> bool
    ensures { result ≡ is_ignored word.now }
{
    is(word, b"exp_internal")
        || is(word, b"debug")
        || is(word, b"exp_debug")
        || is(word, b"strace")
        || is(word, b"exp_strace")
        || is(word, b"trap")
        || is(word, b"exp_trap")
}

/// Returns the value command that a word names, if it is about the interpreter. A procedure can have
/// its name.
fn interpreter_value(word: &[u8]) -> Option<ValueCommand>
    ensures { result ≡ interpreter_value word.now }
{
    if is(word, b"package") {
        Some(ValueCommand::Package)
    } else if is(word, b"exp_version") || is(word, b"expect_version") {
        Some(ValueCommand::ExpVersion)
    } else if is_ignored(word) {
        Some(ValueCommand::Ignored)
    } else {
        None
    }
}

/// Returns the value command that a word names, if a procedure can have its name.
fn redefinable_value(word: &[u8]) -> Option<ValueCommand>
    ensures { result ≡ redefinable_value word.now }
{
    if is(word, b"split") {
        Some(ValueCommand::Split)
    } else if is(word, b"join") {
        Some(ValueCommand::Join)
    } else if is(word, b"concat") {
        Some(ValueCommand::Concat)
    } else if is(word, b"linsert") {
        Some(ValueCommand::Linsert)
    } else if is(word, b"lreplace") {
        Some(ValueCommand::Lreplace)
    } else if is(word, b"lset") {
        Some(ValueCommand::Lset)
    } else if is(word, b"lreverse") {
        Some(ValueCommand::Lreverse)
    } else if is(word, b"lrepeat") {
        Some(ValueCommand::Lrepeat)
    } else if is(word, b"lassign") {
        Some(ValueCommand::Lassign)
    } else if is(word, b"lsearch") {
        Some(ValueCommand::Lsearch)
    } else if is(word, b"lsort") {
        Some(ValueCommand::Lsort)
    } else if is(word, b"array") {
        Some(ValueCommand::Array)
    } else if is(word, b"format") {
        Some(ValueCommand::Format)
    } else if is(word, b"scan") {
        Some(ValueCommand::Scan)
    } else if is(word, b"regexp") {
        Some(ValueCommand::Regexp)
    } else if is(word, b"regsub") {
        Some(ValueCommand::Regsub)
    } else if is(word, b"upvar") {
        Some(ValueCommand::Upvar)
    } else if is(word, b"subst") {
        Some(ValueCommand::Subst)
    } else {
        interpreter_value(word)
    }
}

/// Returns the command that a word names, if it evaluates a script or ends it, and a procedure can
/// have its name.
fn redefinable_control(word: &[u8]) -> Option<TclCommand>
    ensures { result ≡ redefinable_control word.now }
{
    if is(word, b"switch") {
        Some(TclCommand::Switch)
    } else if is(word, b"exp_exit") {
        Some(TclCommand::Exit)
    } else {
        None
    }
}

/// Returns the command of Tcl that a word names, if a procedure can have its name. Such a procedure
/// is called instead.
pub fn redefinable_command(word: &[u8]) -> Option<TclCommand>
    ensures { result ≡ redefinable_command word.now }
{
    match redefinable_value(word) {
        Some(command) => Some(TclCommand::Value(command)),
        None => redefinable_control(word),
    }
}

/// Returns the command of Tcl that a word names, or `None`.
fn language_command(word: &[u8]) -> Option<TclCommand>
    ensures { result ≡ language_command word.now }
{
    match tcl_command(word) {
        Some(command) => Some(command),
        None => redefinable_command(word),
    }
}

/// Returns the command of Expect that a word names, if no procedure can have its name.
pub fn fixed_expect(word: &[u8]) -> Option<ExpectCommand>
    ensures { result ≡ fixed_expect word.now }
{
    if is(word, b"send") {
        Some(ExpectCommand::Send)
    } else if is(word, b"expect") {
        Some(ExpectCommand::Expect)
    } else if is(word, b"exp_continue") {
        Some(ExpectCommand::ExpContinue)
    } else if is(word, b"puts") {
        Some(ExpectCommand::Puts)
    } else if is(word, b"spawn") {
        Some(ExpectCommand::Spawn)
    } else if is(word, b"exp_send") {
        Some(ExpectCommand::Send)
    } else if is(word, b"send_user") {
        Some(ExpectCommand::SendUser)
    } else if is(word, b"close") {
        Some(ExpectCommand::Close)
    } else if is(word, b"wait") {
        Some(ExpectCommand::Wait)
    } else if is(word, b"match_max") {
        Some(ExpectCommand::MatchMax)
    } else if is(word, b"remove_nulls") {
        Some(ExpectCommand::RemoveNulls)
    } else if is(word, b"log_user") {
        Some(ExpectCommand::LogUser)
    } else {
        None
    }
}

/// Returns the command of Expect that a word names with `exp_` before it, or `None`.
fn prefixed_expect(word: &[u8]) -> Option<ExpectCommand>
    ensures { result ≡ prefixed_expect word.now }
{
    if is(word, b"exp_spawn") {
        Some(ExpectCommand::Spawn)
    } else if is(word, b"exp_send_user") {
        Some(ExpectCommand::SendUser)
    } else if is(word, b"exp_close") {
        Some(ExpectCommand::Close)
    } else if is(word, b"exp_wait") {
        Some(ExpectCommand::Wait)
    } else if is(word, b"exp_match_max") {
        Some(ExpectCommand::MatchMax)
    } else if is(word, b"exp_remove_nulls") {
        Some(ExpectCommand::RemoveNulls)
    } else if is(word, b"exp_log_user") {
        Some(ExpectCommand::LogUser)
    } else {
        None
    }
}

/// Returns the command that a word names, if it runs a program to its end.
fn tool_command(word: &[u8]) -> Option<ExpectCommand>
    ensures { result ≡ tool_command word.now }
{
    if is(word, b"exec") {
        Some(ExpectCommand::Exec)
    } else if is(word, b"system") || is(word, b"exp_system") {
        Some(ExpectCommand::System)
    } else if is(word, b"source") {
        Some(ExpectCommand::Source)
    } else if is(word, b"file") {
        Some(ExpectCommand::File)
    } else if is(word, b"pwd") {
        Some(ExpectCommand::Pwd)
    } else if is(word, b"pid") || is(word, b"getpid") || is(word, b"exp_getpid") {
        Some(ExpectCommand::Pid)
    } else if is(word, b"clock") {
        Some(ExpectCommand::Clock)
    } else if is(word, b"timestamp") || is(word, b"exp_timestamp") {
        Some(ExpectCommand::Timestamp)
    } else {
        None
    }
}

/// Returns the command that a word names, if it is about a channel and a procedure can have its
/// name.
fn channel_command(word: &[u8]) -> Option<ExpectCommand>
    ensures { result ≡ channel_command word.now }
{
    if is(word, b"open") {
        Some(ExpectCommand::Open)
    } else if is(word, b"gets") {
        Some(ExpectCommand::Gets)
    } else if is(word, b"read") {
        Some(ExpectCommand::Read)
    } else if is(word, b"eof") {
        Some(ExpectCommand::Eof)
    } else if is(word, b"flush") {
        Some(ExpectCommand::Flush)
    } else {
        prefixed_expect(word)
    }
}

/// Returns the command that a word names, if it sets standing patterns.
fn standing_command(word: &[u8]) -> Option<ExpectCommand>
    ensures { result ≡ standing_command word.now }
{
    if is(word, b"expect_before") {
        Some(ExpectCommand::ExpectBefore)
    } else if is(word, b"expect_after") {
        Some(ExpectCommand::ExpectAfter)
    } else {
        None
    }
}

/// Returns whether a word names a command whose arguments are patterns with actions.
pub fn takes_patterns(word: &[u8]) -> bool
    ensures { result ≡ takes_patterns word.now }
{
    is(word, b"expect") || standing_command(word).is_some()
}

/// Returns the command that a word names, if it runs a program to its end or is about a channel.
fn tool_or_channel(word: &[u8]) -> Option<ExpectCommand>
    ensures { result ≡ tool_or_channel word.now }
{
    match tool_command(word) {
        Some(command) => Some(command),
        None => channel_command(word),
    }
}

/// Returns the command that a word names, if it sets standing patterns, runs a program to its end or
/// is about a channel.
fn standing_or_tool(word: &[u8]) -> Option<ExpectCommand>
    ensures { result ≡ standing_or_tool word.now }
{
    match standing_command(word) {
        Some(command) => Some(command),
        None => tool_or_channel(word),
    }
}

/// Returns the command of Expect that a word names, if a procedure can have its name. Such a
/// procedure is called instead.
fn redefinable_expect(word: &[u8]) -> Option<ExpectCommand>
    ensures { result ≡ redefinable_expect word.now }
{
    if is(word, b"sleep") || is(word, b"exp_sleep") {
        Some(ExpectCommand::Sleep)
    } else if is(word, b"after") {
        Some(ExpectCommand::After)
    } else if is(word, b"send_error") || is(word, b"exp_send_error") {
        Some(ExpectCommand::SendError)
    } else if is(word, b"exp_pid") {
        Some(ExpectCommand::ExpPid)
    } else {
        standing_or_tool(word)
    }
}

/// Returns the command of Expect that a word names, or `None`.
pub fn expect_command(word: &[u8]) -> Option<ExpectCommand>
    ensures { result ≡ expect_command word.now }
{
    match fixed_expect(word) {
        Some(command) => Some(command),
        None => redefinable_expect(word),
    }
}

/// Returns whether a word names a command, and a procedure can have its name.
pub fn is_redefinable(word: &[u8]) -> bool
    ensures { result ≡ is_redefinable word.now }
{
    redefinable_command(word).is_some() || redefinable_expect(word).is_some()
}

/// Returns the command that a word names, or `None`.
pub fn command_of(word: &[u8]) -> Option<Command>
    ensures { result ≡ command_of word.now }
{
    match language_command(word) {
        Some(command) => Some(Command::Tcl(command)),
        None => match expect_command(word) {
            Some(command) => Some(Command::Expect(command)),
            None => None,
        },
    }
}
