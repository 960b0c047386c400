//! The options of commands: their first arguments.

ghost use Rattle.std.specs.Prelude.{◌≡◌};
ghost use Rattle.command_table.specs.Options.{string_option, string_count, string_switches, option_switches, info_option, info_count, array_option, array_count, file_option, file_count, package_option, package_count, clock_option, clock_count, option_count};

use crate::commands::{Command, ExpectCommand, TclCommand, ValueCommand, is};
use crate::counts::{Count, at_least, between, exactly};
use crate::switches::Switches;

/// An option of `string`.
#[derive(Clone, Copy, PartialEq, Eq)]
pub enum StringOption {
    Length,
    Index,
    Range,
    Equal,
    Compare,
    First,
    Last,
    ToLower,
    ToUpper,
    Trim,
    TrimLeft,
    TrimRight,
    Match,
    Map,
    Is,
    Reverse,
    Repeat,
}

/// An option of `array`.
#[derive(Clone, Copy, PartialEq, Eq)]
pub enum ArrayOption {
    Exists,
    Get,
    Names,
    Set,
    Size,
    Unset,
}

/// An option of `info`.
#[derive(Clone, Copy, PartialEq, Eq)]
pub enum InfoOption {
    Exists,
}

/// An option of `package`.
#[derive(Clone, Copy, PartialEq, Eq)]
pub enum PackageOption {
    Require,
}

/// An option of `clock`.
#[derive(Clone, Copy, PartialEq, Eq)]
pub enum ClockOption {
    Milliseconds,
    Seconds,
}

/// An option of `file`.
#[derive(Clone, Copy, PartialEq, Eq)]
pub enum FileOption {
    Copy,
    Delete,
    Executable,
    Exists,
    IsDirectory,
    IsFile,
    Mtime,
    Readable,
    Size,
    Stat,
    Writable,
}

/// Returns the option of `string` that a word names, or `None`.
pub fn string_option(word: &[u8]) -> Option<StringOption>
    ensures { result ≡ string_option word.now }
{
    if is(word, b"length") {
        Some(StringOption::Length)
    } else if is(word, b"index") {
        Some(StringOption::Index)
    } else if is(word, b"range") {
        Some(StringOption::Range)
    } else if is(word, b"equal") {
        Some(StringOption::Equal)
    } else if is(word, b"compare") {
        Some(StringOption::Compare)
    } else if is(word, b"first") {
        Some(StringOption::First)
    } else if is(word, b"tolower") {
        Some(StringOption::ToLower)
    } else if is(word, b"toupper") {
        Some(StringOption::ToUpper)
    } else if is(word, b"trim") {
        Some(StringOption::Trim)
    } else if is(word, b"last") {
        Some(StringOption::Last)
    } else if is(word, b"trimleft") {
        Some(StringOption::TrimLeft)
    } else if is(word, b"trimright") {
        Some(StringOption::TrimRight)
    } else if is(word, b"match") {
        Some(StringOption::Match)
    } else if is(word, b"map") {
        Some(StringOption::Map)
    } else if is(word, b"is") {
        Some(StringOption::Is)
    } else if is(word, b"reverse") {
        Some(StringOption::Reverse)
    } else if is(word, b"repeat") {
        Some(StringOption::Repeat)
    } else {
        None
    }
}

/// Returns how many arguments an option of `string` takes.
pub fn string_count(option: StringOption) -> Count
    ensures { result ≡ string_count option }
{
    match option {
        StringOption::Length => exactly(1),
        StringOption::Index => exactly(2),
        StringOption::Range => exactly(3),
        StringOption::Equal => at_least(2),
        StringOption::Compare => at_least(2),
        StringOption::First => exactly(2),
        StringOption::Last => exactly(2),
        StringOption::ToLower => exactly(1),
        StringOption::ToUpper => exactly(1),
        StringOption::Trim => between(1, 2),
        StringOption::TrimLeft => between(1, 2),
        StringOption::TrimRight => between(1, 2),
        StringOption::Match => at_least(2),
        StringOption::Map => at_least(2),
        StringOption::Is => at_least(2),
        StringOption::Reverse => exactly(1),
        StringOption::Repeat => exactly(2),
    }
}

/// Returns the option of `info` that a word names, or `None`.
pub fn info_option(word: &[u8]) -> Option<InfoOption>
    ensures { result ≡ info_option word.now }
{
    if is(word, b"exists") {
        Some(InfoOption::Exists)
    } else {
        None
    }
}

/// Returns how many arguments an option of `info` takes.
pub fn info_count(option: InfoOption) -> Count
    ensures { result ≡ info_count option }
{
    match option {
        InfoOption::Exists => exactly(1),
    }
}

/// Returns the option of `array` that a word names, or `None`.
pub fn array_option(word: &[u8]) -> Option<ArrayOption>
    ensures { result ≡ array_option word.now }
{
    if is(word, b"exists") {
        Some(ArrayOption::Exists)
    } else if is(word, b"get") {
        Some(ArrayOption::Get)
    } else if is(word, b"names") {
        Some(ArrayOption::Names)
    } else if is(word, b"set") {
        Some(ArrayOption::Set)
    } else if is(word, b"size") {
        Some(ArrayOption::Size)
    } else if is(word, b"unset") {
        Some(ArrayOption::Unset)
    } else {
        None
    }
}

/// Returns how many arguments an option of `array` takes.
pub fn array_count(option: ArrayOption) -> Count
    ensures { result ≡ array_count option }
{
    match option {
        ArrayOption::Exists => exactly(1),
        ArrayOption::Get => between(1, 2),
        ArrayOption::Names => between(1, 2),
        ArrayOption::Set => exactly(2),
        ArrayOption::Size => exactly(1),
        ArrayOption::Unset => between(1, 2),
    }
}

/// Returns the option of `package` that a word names, or `None`.
pub fn package_option(word: &[u8]) -> Option<PackageOption>
    ensures { result ≡ package_option word.now }
{
    if is(word, b"require") {
        Some(PackageOption::Require)
    } else {
        None
    }
}

/// Returns how many arguments an option of `package` takes.
pub fn package_count(option: PackageOption) -> Count
    ensures { result ≡ package_count option }
{
    match option {
        PackageOption::Require => at_least(1),
    }
}

/// Returns the option of `clock` that a word names, or `None`.
pub fn clock_option(word: &[u8]) -> Option<ClockOption>
    ensures { result ≡ clock_option word.now }
{
    if is(word, b"seconds") {
        Some(ClockOption::Seconds)
    } else if is(word, b"milliseconds") {
        Some(ClockOption::Milliseconds)
    } else {
        None
    }
}

/// Returns how many arguments an option of `clock` takes.
pub fn clock_count(option: ClockOption) -> Count
    ensures { result ≡ clock_count option }
{
    match option {
        ClockOption::Milliseconds => exactly(0),
        ClockOption::Seconds => exactly(0),
    }
}

/// Returns the option of `file` that a word names, or `None`.
pub fn file_option(word: &[u8]) -> Option<FileOption>
    ensures { result ≡ file_option word.now }
{
    if is(word, b"exists") {
        Some(FileOption::Exists)
    } else if is(word, b"readable") {
        Some(FileOption::Readable)
    } else if is(word, b"writable") {
        Some(FileOption::Writable)
    } else if is(word, b"executable") {
        Some(FileOption::Executable)
    } else if is(word, b"isfile") {
        Some(FileOption::IsFile)
    } else if is(word, b"isdirectory") {
        Some(FileOption::IsDirectory)
    } else if is(word, b"size") {
        Some(FileOption::Size)
    } else if is(word, b"mtime") {
        Some(FileOption::Mtime)
    } else if is(word, b"stat") {
        Some(FileOption::Stat)
    } else if is(word, b"delete") {
        Some(FileOption::Delete)
    } else if is(word, b"copy") {
        Some(FileOption::Copy)
    } else {
        None
    }
}

/// Returns how many arguments an option of `file` takes.
pub fn file_count(option: FileOption) -> Count
    ensures { result ≡ file_count option }
{
    match option {
        FileOption::Copy => between(2, 4),
        FileOption::Delete => at_least(1),
        FileOption::Executable => exactly(1),
        FileOption::Exists => exactly(1),
        FileOption::IsDirectory => exactly(1),
        FileOption::IsFile => exactly(1),
        FileOption::Mtime => exactly(1),
        FileOption::Readable => exactly(1),
        FileOption::Size => exactly(1),
        FileOption::Stat => exactly(2),
        FileOption::Writable => exactly(1),
    }
}

/// Returns how many arguments an option of a command takes. `None` if the command has no such
/// option.
pub fn option_count(command: Command, word: &[u8]) -> Option<Count>
    ensures { result ≡ option_count command word.now }
{
    match command {
        Command::Tcl(TclCommand::Value(ValueCommand::String)) => match string_option(word) {
            None => None,
            Some(option) => Some(string_count(option)),
        },
        Command::Tcl(TclCommand::Value(ValueCommand::Info)) => match info_option(word) {
            None => None,
            Some(option) => Some(info_count(option)),
        },
        Command::Tcl(TclCommand::Value(ValueCommand::Array)) => match array_option(word) {
            None => None,
            Some(option) => Some(array_count(option)),
        },
        Command::Tcl(TclCommand::Value(ValueCommand::Package)) => match package_option(word) {
            None => None,
            Some(option) => Some(package_count(option)),
        },
        Command::Expect(ExpectCommand::Clock) => match clock_option(word) {
            None => None,
            Some(option) => Some(clock_count(option)),
        },
        Command::Expect(ExpectCommand::File) => match file_option(word) {
            None => None,
            Some(option) => Some(file_count(option)),
        },
        Command::Expect(ExpectCommand::LogUser) => {
            if is(word, b"0") || is(word, b"1") || is(word, b"-info") {
                Some(exactly(0))
            } else {
                None
            }
        }
        _ => None,
    }
}

/// Returns the flags before the last arguments of an option.
fn string_switches(option: StringOption) -> Option<Switches>
    ensures { result ≡ string_switches option }
{
    match option {
        StringOption::Equal | StringOption::Compare | StringOption::Match | StringOption::Map =>
            Some(Switches::Case),
        StringOption::Is => Some(Switches::Strict),
        _ => None,
    }
}

/// Returns the flags before the last arguments of an option. `None`: no argument is a flag, or there is no such option.
pub fn option_switches(command: Command, word: &[u8]) -> Option<Switches>
    ensures { result ≡ option_switches command word.now }
{
    match command {
        Command::Tcl(TclCommand::Value(ValueCommand::String)) => match string_option(word) {
            Some(option) => string_switches(option),
            None => None,
        },
        _ => None,
    }
}
