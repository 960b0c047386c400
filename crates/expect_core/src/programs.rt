//! The programs that commands run: `exec`, `system`, `source`, `open`, `file`, `pwd` and `pid`.

ghost use Rattle.std.specs.Prelude.{◌≡◌, [], codes, ◌||◌, IfOk};
ghost use Rattle.std.specs.Str.{bytes_eq};
ghost use Rattle.command_table.specs.Options.{file_option as file_option_of};
ghost use Rattle.tcl_results.specs.Given.{arg};
ghost use Rattle.tcl_results.specs.Says.{Says};
ghost use Rattle.expect_core.specs.FlagViews.{NamesBehind};
ghost use Rattle.expect_core.specs.Programs.{about as about_of, behind_force as behind_force_of, by_file, by_open, by_option as by_option_of, by_pid, by_pwd, by_source, by_system, complaining as complaining_of, copying as copying_of, deleting as deleting_of, executing, file_by as file_by_of, behind_tilde as behind_tilde_of, file_named as file_named_of, files_behind as files_behind_of, forced as forced_of, home as home_of, in_home as in_home_of, is_sign as is_sign_of, joined as joined_of, mode_of as mode_meant, not_opened as not_opened_text, open_file as open_file_of, open_named as open_named_of, open_program as open_program_of, plain_tool as plain_tool_of, program as program_of, reader, reading_words as reading_words_of, redirects as redirects_of, running, shell as shell_of, stat_format, stating as stating_of, testing as testing_of, writer, writing_words as writing_words_of};

use crate::flags::{arguments, bad_flag, text};
use crate::own::Own;
use crate::scoped::needed;
use crate::texts::{program_of as first_of, push_spaced};
use crate::tool::{Job, Tool};
use crate::tools::tool as start;
use crate::turn::Deed;
use command_table::{
    ExpectCommand, FileOption, begins_with_minus, file_count, file_option, fits, is,
};
use std::alloc::{AllocError, Global};
use tcl_results::{Complaint, bad_option, list_of, quoted, texts_of, wrong_args};
use tcl_subst::Vars;
use tcl_values::Value;
use tcl_words::{Text, Texts};

/// Returns a program whose error is that it was not executed.
pub(crate) fn plain_tool(alloc: Global, words: Texts, job: Job) -> Result<Tool, AllocError>
    ensures { IfOk result (λ t. t ≡ plain_tool_of words job) }
{
    let failing = quoted(alloc, b"couldn't execute ", first_of(words.as_slice()))?;
    Ok(Tool {
        words,
        failing,
        job,
    })
}

/// Returns the words of a command of the shell, without its arguments.
fn shell(alloc: Global, script: &[u8]) -> Result<Texts, AllocError>
    ensures { IfOk result (λ t. t ≡ shell_of script.now []) }
{
    let mut words = Texts::new(alloc);
    words.push(Text::from_slice(alloc, b"sh")?)?;
    words.push(Text::from_slice(alloc, b"-c")?)?;
    words.push(Text::from_slice(alloc, script)?)?;
    Ok(words)
}

/// Returns whether a byte stands at the front of a redirection, or between two programs.
fn is_sign(byte: u8) -> bool
    ensures { result ≡ is_sign_of byte }
{
    byte == b'|' || byte == b'<' || byte == b'>'
}

/// Returns whether a word begins like a redirection or like the next program of several.
fn redirects(word: &[u8]) -> bool
    ensures { result ≡ redirects_of word.now }
{
    match word {
        [] => false,
        [sign] => { if is_sign(*sign) { true } else { *sign == b'&' } }
        [first, second, ..] => {
            if is_sign(*first) {
                true
            } else if *first == b'2' {
                *second == b'>'
            } else {
                false
            }
        }
    }
}

/// Returns the words of one program.
fn program(alloc: Global, words: &[Text]) -> Result<Texts, Complaint>
    ensures { Says result (program_of words.now) }
{
    let mut all = Texts::new(alloc);
    'words: for word in words {
        if redirects(word.as_slice()) {
            return Err(Complaint::Said(bad_option(alloc, word.as_slice())?));
        }
        all.push(word.copied(alloc)?)?;
    }
    Ok(all)
}

/// Returns what `exec ?flag ..? ?--? arg ?arg ..?` runs.
fn exec_tool(alloc: Global, name: &[u8], args: &[Value]) -> Result<Tool, Complaint>
    ensures { Says result (executing name.now args.now) }
{
    let (flags, at) = arguments(alloc, ExpectCommand::Exec, name, args)?;
    let given = texts_of(alloc, &args[at..])?;
    let words = program(alloc, given.as_slice())?;
    Ok(plain_tool(alloc, words, Job::Exec(flags.on))?)
}

/// Returns words joined by spaces.
fn joined(alloc: Global, words: &[Text]) -> Result<Text, AllocError>
    ensures { IfOk result (λ t. t ≡ joined_of words.now) }
{
    match words {
        [] => Ok(Text::new(alloc)),
        [first, rest @ ..] => {
            let mut text = first.copied(alloc)?;
            push_spaced(&mut text, rest)?;
            Ok(text)
        }
    }
}

/// Returns what `system arg ?arg ..?` runs.
fn system_tool(alloc: Global, name: &[u8], args: &[Value]) -> Result<Tool, Complaint>
    ensures { Says result (by_system name.now args.now) }
{
    let (_, at) = arguments(alloc, ExpectCommand::System, name, args)?;
    let mut words = Texts::new(alloc);
    words.push(Text::from_slice(alloc, b"/bin/sh")?)?;
    words.push(Text::from_slice(alloc, b"-c")?)?;
    let given = texts_of(alloc, &args[at..])?;
    words.push(joined(alloc, given.as_slice())?)?;
    Ok(plain_tool(alloc, words, Job::System)?)
}

/// Returns the user's folder.
fn home(alloc: Global, vars: &Vars) -> Result<Value, Complaint>
    ensures { Says result (home_of vars.now) }
{
    needed(alloc, vars, b"env(HOME)")
}

/// Returns the user's folder, followed by these bytes.
fn in_home(alloc: Global, bytes: &[u8], vars: &Vars) -> Result<Text, Complaint>
    ensures { Says result (in_home_of bytes.now vars.now) }
{
    let folder = home(alloc, vars)?;
    let mut path = Text::from_slice(alloc, folder.as_slice())?;
    path.extend(bytes)?;
    Ok(path)
}

/// Returns the name of a file that begins with a tilde, given the bytes after that.
fn behind_tilde(alloc: Global, name: &[u8], bytes: &[u8], vars: &Vars) -> Result<Text, Complaint>
    ensures { Says result (behind_tilde_of name.now bytes.now vars.now) }
{
    match bytes {
        [] => in_home(alloc, bytes, vars),
        [b'/', ..] => in_home(alloc, bytes, vars),
        [_, ..] => Ok(Text::from_slice(alloc, name)?),
    }
}

/// Returns the name of a file. One that is `~` or begins with `~/` begins with the user's folder.
fn file_named(alloc: Global, name: &[u8], vars: &Vars) -> Result<Text, Complaint>
    ensures { Says result (file_named_of name.now vars.now) }
{
    match name {
        [] => Ok(Text::new(alloc)),
        [b'~', rest @ ..] => behind_tilde(alloc, name, rest, vars),
        [_, ..] => Ok(Text::from_slice(alloc, name)?),
    }
}

/// Appends the files with these names to words.
fn files_behind(
    alloc: Global,
    mut words: Texts,
    names: &[Value],
    vars: &Vars,
) -> Result<Texts, Complaint>
    ensures { Says result (files_behind_of words names.now vars.now) }
{
    'names: for name in names {
        let path = file_named(alloc, name.as_slice(), vars)?;
        words.push(path)?;
    }
    Ok(words)
}

/// Returns the script that writes a file.
#[tactic(auto, unfolding(crate::specs::Programs::reader))]
fn reader() -> &'static [u8]
    ensures { result.now ≡ reader }
{
    b"test -e \"$1\" || exit 2; test -d \"$1\" && exit 21; test -r \"$1\" || exit 13; exec cat <\"$1\""
}

/// Returns the script that opens a file to be written.
#[tactic(auto, unfolding(crate::specs::Programs::writer))]
fn writer() -> &'static [u8]
    ensures { result.now ≡ writer }
{
    b"exec 2>/dev/null; if test \"$2\" = a; then exec 3>>\"$1\"; else exec 3>\"$1\"; fi; echo; exec cat >&3"
}

/// Returns the words that read a file.
fn reading_words(alloc: Global, path: Text) -> Result<Texts, AllocError>
    ensures { IfOk result (λ t. t ≡ reading_words_of path) }
{
    let mut words = shell(alloc, reader())?;
    words.push(Text::from_slice(alloc, b"sh")?)?;
    words.push(path)?;
    Ok(words)
}

/// Returns the words that write a file.
fn writing_words(alloc: Global, path: Text, mode: &[u8]) -> Result<Texts, AllocError>
    ensures { IfOk result (λ t. t ≡ writing_words_of path mode.now) }
{
    let mut words = shell(alloc, writer())?;
    words.push(Text::from_slice(alloc, b"sh")?)?;
    words.push(path)?;
    words.push(Text::from_slice(alloc, mode)?)?;
    Ok(words)
}

/// Returns what `source fileName` runs.
fn source_tool(alloc: Global, name: &[u8], args: &[Value], vars: &Vars) -> Result<Tool, Complaint>
    ensures { Says result (by_source name.now args.now vars.now) }
{
    let (_, at) = arguments(alloc, ExpectCommand::Source, name, args)?;
    let file = text(alloc, &args[at..])?;
    let path = file_named(alloc, file.as_slice(), vars)?;
    Ok(Tool {
        words: reading_words(alloc, path)?,
        failing: quoted(alloc, b"couldn't read file ", file.as_slice())?,
        job: Job::Source,
    })
}

/// Returns the error text for a file that is not opened.
fn not_opened(alloc: Global, name: &[u8]) -> Result<Text, AllocError>
    ensures { IfOk result (λ t. t ≡ not_opened_text name.now) }
{
    quoted(alloc, b"couldn't open ", name)
}

/// Returns whether a mode is to write a file.
fn is_to_write(mode: &[u8]) -> bool
    ensures { result ≡ (bytes_eq mode.now (codes "w") || bytes_eq mode.now (codes "a")) }
{
    is(mode, b"w") || is(mode, b"a")
}

/// Returns what opens a file.
fn open_file(alloc: Global, name: &[u8], path: Text, mode: &[u8]) -> Result<Tool, Complaint>
    ensures { Says result (open_file_of name.now path mode.now) }
{
    if is(mode, b"r") {
        return Ok(Tool {
            words: reading_words(alloc, path)?,
            failing: not_opened(alloc, name)?,
            job: Job::Reader,
        });
    }
    if is_to_write(mode) {
        return Ok(Tool {
            words: writing_words(alloc, path, mode)?,
            failing: not_opened(alloc, name)?,
            job: Job::Writer,
        });
    }
    Err(Complaint::Said(bad_option(alloc, mode)?))
}

/// Returns what opens the output of a program.
fn open_program(alloc: Global, list: &[u8], mode: &[u8]) -> Result<Tool, Complaint>
    ensures { Says result (open_program_of list.now mode.now) }
{
    if !is(mode, b"r") {
        return Err(Complaint::Said(bad_option(alloc, mode)?));
    }
    let list = Value::from_slice(alloc, list)?;
    let elements = list_of(alloc, &list)?;
    let given = elements.texts(alloc)?;
    let words = program(alloc, given.as_slice())?;
    Ok(plain_tool(alloc, words, Job::Pipe)?)
}

/// Returns what opens what a name says: a file, or after `|` the output of a program.
fn open_named(alloc: Global, name: &[u8], mode: &[u8], vars: &Vars) -> Result<Tool, Complaint>
    ensures { Says result (open_named_of name.now mode.now vars.now) }
{
    match name {
        [] => open_file(alloc, name, Text::new(alloc), mode),
        [b'|', list @ ..] => open_program(alloc, list, mode),
        [_, ..] => {
            let path = file_named(alloc, name, vars)?;
            open_file(alloc, name, path, mode)
        }
    }
}

/// Returns the second argument of `open`, or else `r`.
fn mode_of(args: &[Value]) -> &[u8]
    ensures { result.now ≡ mode_meant args.now }
{
    match args {
        [_, mode, ..] => mode.as_slice(),
        _ => b"r",
    }
}

/// Returns what `open fileName ?access?` runs.
fn open_tool(alloc: Global, name: &[u8], args: &[Value], vars: &Vars) -> Result<Tool, Complaint>
    ensures { Says result (by_open name.now args.now vars.now) }
{
    let (_, at) = arguments(alloc, ExpectCommand::Open, name, args)?;
    let file = text(alloc, &args[at..])?;
    open_named(alloc, file.as_slice(), mode_of(&args[at..]), vars)
}

/// Returns a test of a file.
fn testing(alloc: Global, flag: &[u8], path: Text) -> Result<Tool, AllocError>
    ensures { IfOk result (λ t. t ≡ testing_of flag.now path) }
{
    let mut words = Texts::new(alloc);
    words.push(Text::from_slice(alloc, b"test")?)?;
    words.push(Text::from_slice(alloc, flag)?)?;
    words.push(path)?;
    plain_tool(alloc, words, Job::Test)
}

/// Returns the format of stat(1).
#[tactic(auto, unfolding(crate::specs::Programs::stat_format))]
fn format_of_stat() -> &'static [u8]
    ensures { result.now ≡ stat_format }
{
    b"%X %Z %d %g %i %f %Y %h %s %u"
}

/// Returns what tells the numbers of a file.
fn stating(alloc: Global, name: &[u8], path: Text, job: Job) -> Result<Tool, AllocError>
    ensures { IfOk result (λ t. t ≡ stating_of name.now path job) }
{
    let mut words = Texts::new(alloc);
    words.push(Text::from_slice(alloc, b"stat")?)?;
    words.push(Text::from_slice(alloc, b"-L")?)?;
    words.push(Text::from_slice(alloc, b"-c")?)?;
    words.push(Text::from_slice(alloc, format_of_stat())?)?;
    words.push(Text::from_slice(alloc, b"--")?)?;
    words.push(path)?;
    let failing = quoted(alloc, b"could not read ", name)?;
    Ok(Tool {
        words,
        failing,
        job,
    })
}

/// Returns the index of the first name behind `-force` and `--`.
fn behind_force(alloc: Global, args: &[Value]) -> Result<usize, Complaint>
    ensures { NamesBehind result args.now (behind_force_of args.now) }
{
    'flags: for at in 0..args.len() {
        let word = args[at].as_slice();
        if is(word, b"-force") {
            continue;
        }
        if is(word, b"--") {
            return Ok(at + 1);
        }
        if begins_with_minus(word) {
            return Err(Complaint::Said(bad_flag(alloc, word)?));
        }
        return Ok(at);
    }
    Ok(args.len())
}

/// Returns the words of rm(1) or cp(1), without the names.
fn forced(alloc: Global, program: &[u8]) -> Result<Texts, AllocError>
    ensures { IfOk result (λ t. t ≡ forced_of program.now) }
{
    let mut words = Texts::new(alloc);
    words.push(Text::from_slice(alloc, program)?)?;
    words.push(Text::from_slice(alloc, b"-f")?)?;
    words.push(Text::from_slice(alloc, b"--")?)?;
    Ok(words)
}

/// Returns what `file delete` runs.
fn deleting(alloc: Global, command: &[u8], args: &[Value], vars: &Vars) -> Result<Tool, Complaint>
    ensures { Says result (deleting_of command.now args.now vars.now) }
{
    let at = behind_force(alloc, args)?;
    let names = &args[at..];
    match names {
        [] => Err(Complaint::Said(wrong_args(alloc, command)?)),
        [first, ..] => {
            let words = files_behind(alloc, forced(alloc, b"rm")?, names, vars)?;
            Ok(Tool {
                words,
                failing: quoted(alloc, b"error deleting ", first.as_slice())?,
                job: Job::Change,
            })
        }
    }
}

/// Returns what `file copy` runs.
fn copying(alloc: Global, command: &[u8], args: &[Value], vars: &Vars) -> Result<Tool, Complaint>
    ensures { Says result (copying_of command.now args.now vars.now) }
{
    let at = behind_force(alloc, args)?;
    let names = &args[at..];
    if names.len() != 2 {
        return Err(Complaint::Said(wrong_args(alloc, command)?));
    }
    let words = files_behind(alloc, forced(alloc, b"cp")?, names, vars)?;
    let first = text(alloc, names)?;
    Ok(Tool {
        words,
        failing: quoted(alloc, b"error copying ", first.as_slice())?,
        job: Job::Change,
    })
}

/// Returns what an option of `file` runs.
fn by_option(
    alloc: Global,
    option: FileOption,
    command: &[u8],
    args: &[Value],
    vars: &Vars,
) -> Result<Tool, Complaint>
    ensures { Says result (by_option_of option command.now args.now vars.now) }
{
    match option {
        FileOption::Exists => tested(alloc, b"-e", args, vars),
        FileOption::Readable => tested(alloc, b"-r", args, vars),
        FileOption::Writable => tested(alloc, b"-w", args, vars),
        FileOption::Executable => tested(alloc, b"-x", args, vars),
        FileOption::IsFile => tested(alloc, b"-f", args, vars),
        FileOption::IsDirectory => tested(alloc, b"-d", args, vars),
        FileOption::Size => stated(alloc, args, Job::Field(8), vars),
        FileOption::Mtime => stated(alloc, args, Job::Field(6), vars),
        FileOption::Stat => {
            let array = Text::from_slice(alloc, second(args))?;
            stated(alloc, args, Job::Stat(array), vars)
        }
        FileOption::Delete => deleting(alloc, command, args, vars),
        FileOption::Copy => copying(alloc, command, args, vars),
    }
}

/// Returns the second argument, or no bytes if there is none.
fn second(args: &[Value]) -> &[u8]
    ensures { result.now ≡ arg 1 args.now }
{
    match args {
        [_, other, ..] => other.as_slice(),
        _ => &[],
    }
}

/// Returns a test of the file that the first argument names.
fn tested(alloc: Global, flag: &[u8], args: &[Value], vars: &Vars) -> Result<Tool, Complaint>
    ensures { Says result (about_of (testing_of flag.now) args.now vars.now) }
{
    let name = text(alloc, args)?;
    let path = file_named(alloc, name.as_slice(), vars)?;
    Ok(testing(alloc, flag, path)?)
}

/// Returns what tells the numbers of the file that the first argument names.
fn stated(alloc: Global, args: &[Value], job: Job, vars: &Vars) -> Result<Tool, Complaint>
    ensures { Says result (about_of (λ path. stating_of (arg 0 args.now) path job) args.now vars.now) }
{
    let name = text(alloc, args)?;
    let path = file_named(alloc, name.as_slice(), vars)?;
    Ok(stating(alloc, name.as_slice(), path, job)?)
}

/// Returns what `file` runs, given its option and the arguments after it.
fn file_by(
    alloc: Global,
    command: &[u8],
    word: &[u8],
    args: &[Value],
    vars: &Vars,
) -> Result<Tool, Complaint>
    ensures { Says result (file_by_of command.now word.now (file_option_of word.now) args.now vars.now) }
{
    match file_option(word) {
        None => Err(Complaint::Said(bad_option(alloc, word)?)),
        Some(option) => {
            if !fits(file_count(option), args.len()) {
                return Err(Complaint::Said(wrong_args(alloc, command)?));
            }
            by_option(alloc, option, command, args, vars)
        }
    }
}

/// Returns what `file option name ?arg ..?` runs.
fn file_tool(alloc: Global, name: &[u8], args: &[Value], vars: &Vars) -> Result<Tool, Complaint>
    ensures { Says result (by_file name.now args.now vars.now) }
{
    let (_, at) = arguments(alloc, ExpectCommand::File, name, args)?;
    match &args[at..] {
        [] => file_by(alloc, name, b"", &[], vars),
        [option, rest @ ..] => file_by(alloc, name, option.as_slice(), rest, vars),
    }
}

/// Returns what `pwd` runs.
fn pwd_tool(alloc: Global, name: &[u8], args: &[Value]) -> Result<Tool, Complaint>
    ensures { Says result (by_pwd name.now args.now) }
{
    arguments(alloc, ExpectCommand::Pwd, name, args)?;
    let words = shell(alloc, b"pwd -P")?;
    Ok(plain_tool(alloc, words, Job::Line)?)
}

/// Returns what `pid` runs.
fn pid_tool(alloc: Global, name: &[u8], args: &[Value]) -> Result<Tool, Complaint>
    ensures { Says result (by_pid name.now args.now) }
{
    arguments(alloc, ExpectCommand::Pid, name, args)?;
    let words = shell(alloc, b"echo $PPID")?;
    Ok(plain_tool(alloc, words, Job::Line)?)
}

/// Returns the program that writes to standard error what it reads, and the first text for it.
pub(crate) fn complaining(alloc: Global, text: Text) -> Result<Tool, AllocError>
    ensures { IfOk result (λ t. t ≡ complaining_of text) }
{
    Ok(Tool {
        words: shell(alloc, b"exec cat >&2")?,
        failing: not_opened(alloc, b"stderr")?,
        job: Job::Complainer(text),
    })
}

/// Returns what `exec` does.
pub(crate) fn exec(alloc: Global, name: &[u8], args: &[Value], own: &Own) -> Result<Deed, Complaint>
    ensures { Says result (running (executing name.now args.now) own.now) }
{
    let tool = exec_tool(alloc, name, args)?;
    start(alloc, tool, own)
}

/// Returns what `system` does.
pub(crate) fn system(
    alloc: Global,
    name: &[u8],
    args: &[Value],
    own: &Own,
) -> Result<Deed, Complaint>
    ensures { Says result (running (by_system name.now args.now) own.now) }
{
    let tool = system_tool(alloc, name, args)?;
    start(alloc, tool, own)
}

/// Returns what `pwd` does.
pub(crate) fn pwd(alloc: Global, name: &[u8], args: &[Value], own: &Own) -> Result<Deed, Complaint>
    ensures { Says result (running (by_pwd name.now args.now) own.now) }
{
    let tool = pwd_tool(alloc, name, args)?;
    start(alloc, tool, own)
}

/// Returns what `pid` does.
pub(crate) fn pid(alloc: Global, name: &[u8], args: &[Value], own: &Own) -> Result<Deed, Complaint>
    ensures { Says result (running (by_pid name.now args.now) own.now) }
{
    let tool = pid_tool(alloc, name, args)?;
    start(alloc, tool, own)
}

/// Returns what `source` does.
pub(crate) fn source(
    alloc: Global,
    name: &[u8],
    args: &[Value],
    vars: &Vars,
    own: &Own,
) -> Result<Deed, Complaint>
    ensures { Says result (running (by_source name.now args.now vars.now) own.now) }
{
    let tool = source_tool(alloc, name, args, vars)?;
    start(alloc, tool, own)
}

/// Returns what `open` does.
pub(crate) fn open(
    alloc: Global,
    name: &[u8],
    args: &[Value],
    vars: &Vars,
    own: &Own,
) -> Result<Deed, Complaint>
    ensures { Says result (running (by_open name.now args.now vars.now) own.now) }
{
    let tool = open_tool(alloc, name, args, vars)?;
    start(alloc, tool, own)
}

/// Returns what `file` does.
pub(crate) fn file(
    alloc: Global,
    name: &[u8],
    args: &[Value],
    vars: &Vars,
    own: &Own,
) -> Result<Deed, Complaint>
    ensures { Says result (running (by_file name.now args.now vars.now) own.now) }
{
    let tool = file_tool(alloc, name, args, vars)?;
    start(alloc, tool, own)
}
