//! Reads the arguments of `expect`.

ghost use Rattle.std.specs.Prelude.{◌≡◌, ◌≢◌, Ok, IfErr};
ghost use Rattle.std.specs.Str.{bytes_eq};
ghost use Rattle.exp_match.specs.Arguments.{Gives, is_dash as is_dash_of, plain_role as plain_role_of, way_role as way_role_of, role_of as role_of_word, no_marks as no_marks_of, with_mark as with_mark_of, want_of as want_of_word, with_entry as with_entry_of, with_id as with_id_of, with_timeout as with_timeout_of, awaits_action, by_role as by_role_of, taken as taken_of, ended as ended_of, nothing_read, patterns_of};
ghost use Rattle.exp_match.specs.Unbuilt.{IsOfOne, IsOfWord};

use crate::compiled::Compiled;
use crate::entry::{Entries, Entry, Keyword, Want};
use crate::faults::{PatternFault, RegularFault};
use crate::list::PatternList;
use crate::pending::{Mark, Marks, Pending, Reader, Role, Way};
use exp_glob::Glob;
use std::alloc::Global;
use tcl_values::Value;
use tcl_words::{Text, Texts};

fn is(word: &[u8], name: &[u8]) -> bool
    ensures { result ≡ bytes_eq word.now name.now }
{
    word == name
}

/// Returns whether a word begins with `-`.
fn is_dash(word: &[u8]) -> bool
    ensures { result ≡ is_dash_of word.now }
{
    match word {
        [] => false,
        [b, ..] => *b == b'-',
    }
}

/// Returns the role of a word that is no known flag.
fn plain_role(word: &[u8]) -> Role
    ensures { result ≡ plain_role_of word.now }
{
    if is_dash(word) || is(word, b"null") {
        Role::Bad
    } else if is(word, b"eof") {
        Role::Keyword(Keyword::Eof)
    } else if is(word, b"timeout") {
        Role::Keyword(Keyword::Timeout)
    } else if is(word, b"default") {
        Role::Keyword(Keyword::Default)
    } else if is(word, b"full_buffer") {
        Role::Keyword(Keyword::FullBuffer)
    } else {
        Role::Glob
    }
}

/// Returns the role of a word that is no mark, no `-i` and no `-timeout`.
fn way_role(word: &[u8]) -> Role
    ensures { result ≡ way_role_of word.now }
{
    if is(word, b"-ex") || is(word, b"-exact") {
        Role::Written(Way::Exact)
    } else if is(word, b"-gl") || is(word, b"-glob") || is(word, b"--") {
        Role::Written(Way::Glob)
    } else if is(word, b"-re") || is(word, b"-regexp") {
        Role::Written(Way::Regular)
    } else {
        plain_role(word)
    }
}

/// Returns the role of a word in the place of a pattern.
#[tactic(auto, unfolding(crate::specs::Arguments::role_of))]
fn role_of(word: &[u8]) -> Role
    ensures { result ≡ role_of_word word.now }
{
    if is(word, b"-nocase") {
        Role::Mark(Mark::Nocase)
    } else if is(word, b"-indices") {
        Role::Mark(Mark::Indices)
    } else if is(word, b"-notransfer") {
        Role::Mark(Mark::Notransfer)
    } else if is(word, b"-i") {
        Role::Id
    } else if is(word, b"-timeout") {
        Role::Timeout
    } else {
        way_role(word)
    }
}

fn no_marks() -> Marks
    ensures { result ≡ no_marks_of }
{
    Marks {
        nocase: false,
        indices: false,
        notransfer: false,
    }
}

fn with_mark(marks: Marks, mark: Mark) -> Marks
    ensures { result ≡ with_mark_of marks mark }
{
    match mark {
        Mark::Nocase => Marks {
            nocase: true,
            ..marks
        },
        Mark::Indices => Marks {
            indices: true,
            ..marks
        },
        Mark::Notransfer => Marks {
            notransfer: true,
            ..marks
        },
    }
}

/// Compiles a regular pattern, or takes it from the cache. `at` is the argument's index for the
/// error.
fn regular(
    alloc: Global,
    compiled: &mut Compiled,
    nocase: bool,
    at: usize,
    word: &[u8],
) -> Result<Want, PatternFault>
    ensures given { Gives result (want_of_word Way.Regular nocase at word.now) }
    ensures refused { IfErr result (IsOfWord word.now) }
{
    match compiled.regular(alloc, word, nocase, false) {
        Ok(regular) => Ok(Want::Regular(regular)),
        Err(RegularFault::NoPattern) => Err(PatternFault::BadRegex(at)),
        Err(RegularFault::Refused) => Err(PatternFault::Refused),
        Err(RegularFault::Memory) => Err(PatternFault::Memory),
    }
}

/// Builds the pattern that the word at index `at` writes.
fn want_of(
    alloc: Global,
    compiled: &mut Compiled,
    way: Way,
    nocase: bool,
    at: usize,
    word: &[u8],
) -> Result<Want, PatternFault>
    ensures given { Gives result (want_of_word way nocase at word.now) }
    ensures refused { IfErr result (IsOfWord word.now) }
{
    match way {
        Way::Exact => {
            let text = Text::from_slice(alloc, word)?;
            Ok(Want::Exact { text, nocase })
        }
        Way::Glob => {
            let glob = Glob::new(alloc, word, nocase)?;
            Ok(Want::Glob { glob, nocase })
        }
        Way::Regular => regular(alloc, compiled, nocase, at, word),
    }
}

/// Appends a pattern or keyword with its action.
fn with_entry(
    alloc: Global,
    list: PatternList,
    marks: Marks,
    want: Want,
    action: &[u8],
) -> Result<PatternList, PatternFault>
    ensures given { Gives result (Ok (with_entry_of list marks want action.now)) }
    ensures refused { IfErr result (λ f. f ≡ PatternFault.Memory) }
{
    let mut list = list;
    let entry = Entry {
        want,
        indices: marks.indices,
        notransfer: marks.notransfer,
        action: Text::from_slice(alloc, action)?,
        group: list.ids.len(),
    };
    list.entries.push(entry)?;
    Ok(list)
}

/// Returns the reader after the pattern at index `at`.
fn pattern(
    alloc: Global,
    compiled: &mut Compiled,
    list: PatternList,
    marks: Marks,
    way: Way,
    at: usize,
    word: &[u8],
) -> Result<Reader, PatternFault>
    ensures given { Gives result (awaits_action list marks (want_of_word way marks.nocase at word.now)) }
    ensures refused { IfErr result (IsOfWord word.now) }
{
    let want = want_of(alloc, compiled, way, marks.nocase, at, word)?;
    Ok(Reader {
        list,
        marks,
        pending: Pending::Action(want),
    })
}

/// Returns the reader after a word in the place of a pattern.
fn by_role(
    alloc: Global,
    compiled: &mut Compiled,
    list: PatternList,
    marks: Marks,
    at: usize,
    word: &[u8],
    role: Role,
) -> Result<Reader, PatternFault>
    ensures given { Gives result (by_role_of list marks at word.now role) }
    ensures refused { IfErr result (IsOfWord word.now) }
{
    match role {
        Role::Mark(mark) => Ok(Reader {
            list,
            marks: with_mark(marks, mark),
            pending: Pending::More(at),
        }),
        Role::Id => Ok(Reader {
            list,
            marks,
            pending: Pending::Id(at),
        }),
        Role::Timeout => Ok(Reader {
            list,
            marks,
            pending: Pending::Timeout(at),
        }),
        Role::Written(way) => Ok(Reader {
            list,
            marks,
            pending: Pending::Pattern(way, at),
        }),
        Role::Keyword(keyword) => Ok(Reader {
            list,
            marks: no_marks(),
            pending: Pending::Action(Want::Keyword(keyword)),
        }),
        Role::Glob => pattern(alloc, compiled, list, marks, Way::Glob, at, word),
        Role::Bad => Err(PatternFault::BadFlag(at)),
    }
}

/// Appends a list of spawn ids.
fn with_id(alloc: Global, list: PatternList, word: &[u8]) -> Result<PatternList, PatternFault>
    ensures given { Gives result (Ok (with_id_of list word.now)) }
    ensures refused { IfErr result (λ f. f ≡ PatternFault.Memory) }
{
    let mut list = list;
    list.ids.push(Text::from_slice(alloc, word)?)?;
    Ok(list)
}

/// Sets the timeout.
fn with_timeout(alloc: Global, list: PatternList, word: &[u8]) -> Result<PatternList, PatternFault>
    ensures given { Gives result (Ok (with_timeout_of list word.now)) }
    ensures refused { IfErr result (λ f. f ≡ PatternFault.Memory) }
{
    let mut list = list;
    list.timeout = Some(Text::from_slice(alloc, word)?);
    Ok(list)
}

/// Returns the reader after the word at index `at`.
fn taken(
    alloc: Global,
    compiled: &mut Compiled,
    reader: Reader,
    at: usize,
    word: &[u8],
) -> Result<Reader, PatternFault>
    ensures given { Gives result (taken_of reader.list reader.marks at word.now reader.pending) }
    ensures refused { IfErr result (IsOfWord word.now) }
{
    let Reader {
        list,
        marks,
        pending,
    } = reader;
    match pending {
        Pending::Front => by_role(alloc, compiled, list, marks, at, word, role_of(word)),
        Pending::More(_) => by_role(alloc, compiled, list, marks, at, word, role_of(word)),
        Pending::Id(_) => Ok(Reader {
            list: with_id(alloc, list, word)?,
            marks,
            pending: Pending::Front,
        }),
        Pending::Timeout(_) => Ok(Reader {
            list: with_timeout(alloc, list, word)?,
            marks,
            pending: Pending::Front,
        }),
        Pending::Pattern(way, _) => pattern(alloc, compiled, list, marks, way, at, word),
        Pending::Action(want) => Ok(Reader {
            list: with_entry(alloc, list, marks, want, word)?,
            marks: no_marks(),
            pending: Pending::Front,
        }),
    }
}

/// Returns the list, if the arguments may end here.
fn ended(alloc: Global, reader: Reader) -> Result<PatternList, PatternFault>
    ensures given { Gives result (ended_of reader.list reader.marks reader.pending) }
    ensures refused { IfErr result (λ f. f ≢ PatternFault.Refused) }
{
    let Reader {
        list,
        marks,
        pending,
    } = reader;
    match pending {
        Pending::Front => Ok(list),
        Pending::More(flag) => Err(PatternFault::BadFlag(flag)),
        Pending::Id(flag) => Err(PatternFault::BadFlag(flag)),
        Pending::Timeout(flag) => Err(PatternFault::BadFlag(flag)),
        Pending::Pattern(_, flag) => Err(PatternFault::BadFlag(flag)),
        Pending::Action(want) => with_entry(alloc, list, marks, want, b""),
    }
}

/// Returns the reader before the first argument.
fn nothing(alloc: Global) -> Reader
    ensures { result ≡ nothing_read }
{
    Reader {
        list: PatternList {
            entries: Entries::new(alloc),
            ids: Texts::new(alloc),
            timeout: None,
        },
        marks: no_marks(),
        pending: Pending::Front,
    }
}

/// Reads the list that arguments write.
#[tactic(auto, unfolding(crate::specs::Arguments::patterns_of))]
pub(crate) fn read(
    alloc: Global,
    compiled: &mut Compiled,
    args: &[Value],
) -> Result<PatternList, PatternFault>
    ensures given { Gives result (patterns_of args.now) }
    ensures refused { IfErr result (IsOfOne args.now) }
{
    let mut reader = nothing(alloc);
    for (at, word) in args.iter().enumerate() {
        reader = taken(alloc, compiled, reader, at, word.as_slice())?;
    }
    ended(alloc, reader)
}
