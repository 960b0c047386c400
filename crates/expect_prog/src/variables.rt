//! The variables of scripts at the start.

ghost use Rattle.std.specs.Prelude.{◌≡◌, ◌++◌, ◌∷◌, ◌<◌, ◌==◌, [], false, find, map, None, IfErr, IfOk, IfSome, OnOk, length, if◌then◌else◌};
ghost use Rattle.std.specs.List.{flat_map, list_any};
ghost use Rattle.tcl_words.specs.Lists.{written};
ghost use Rattle.command_line.specs.Given.{names_of};
ghost use Rattle.expect_prog.specs.Variables.{added, alone_given, arguments, elements_given, entry_at, environment_given, equals_in, if_named, in_env, is_settable, is_unnamed, own_variables, pair_at, sets_none, variables_given, VariablesLine};
ghost use Rattle.tcl_words.specs.Bytes as ascii;

use crate::complaint::Complaint;
use command_line::Variables;
use session::Pairs;
use std::alloc::{AllocError, Global};
use std::env::{Env, FillError};
use tcl_words::{Packed, Text, Texts, write_list};

/// The most bytes of an entry of the environment on Linux.
const ENTRY: usize = 131_072;

/// Returns the index of the first `=`.
fn equals_in(word: &[u8]) -> Option<usize>
    ensures place { result ≡ equals_in word.now }
    ensures within { IfSome result (λ n. n < length word.now) }
{
    word.iter().position(|byte| *byte == b'=')
}

/// Appends the variable that NAME=VALUE sets, if there is a name. `at` is the index of the `=`.
fn push_pair(alloc: Global, variables: &mut Pairs, word: &[u8], at: usize) -> Result<(), AllocError>
    requires { at < length word.now }
    ensures { OnOk result (variables.new ≡ variables.old ++ pair_at word.now at) }
{
    if at == 0 {
        return Ok(());
    }
    let name = Text::from_slice(alloc, &word[..at])?;
    variables.push(name, Text::from_slice(alloc, &word[at + 1..])?)
}

/// Appends the variable that an entry of the environment sets, if it is NAME=VALUE.
fn push_entry(alloc: Global, variables: &mut Pairs, entry: &[u8]) -> Result<(), AllocError>
    ensures { OnOk result (variables.new ≡ variables.old ++ entry_at entry.now (equals_in entry.now)) }
{
    match equals_in(entry) {
        Some(at) => push_pair(alloc, variables, entry, at),
        None => Ok(()),
    }
}

/// Returns the variables that the entries of an environment set.
fn own_variables(alloc: Global, entries: &[Text]) -> Result<Pairs, AllocError>
    ensures { IfOk result (λ ps. ps ≡ own_variables entries.now) }
{
    let mut variables = Pairs::new(alloc);
    for entry in entries {
        push_entry(alloc, &mut variables, entry.as_slice())?;
    }
    Ok(variables)
}

/// Appends a copy of a variable, if it has this name.
fn push_if_named(
    alloc: Global,
    variables: &mut Pairs,
    own: &(Text, Text),
    name: &[u8],
) -> Result<(), AllocError>
    ensures { OnOk result (variables.new ≡ variables.old ++ if_named name.now own.now) }
{
    if own.0.as_slice() == name {
        return variables.push(own.0.copied(alloc)?, own.1.copied(alloc)?);
    }
    Ok(())
}

/// Appends copies of the variables with this name.
fn push_named(
    alloc: Global,
    variables: &mut Pairs,
    own: &[(Text, Text)],
    name: &[u8],
) -> Result<(), AllocError>
    ensures { OnOk result (variables.new ≡ variables.old ++ flat_map (if_named name.now) own.now) }
{
    for variable in own {
        push_if_named(alloc, variables, variable, name)?;
    }
    Ok(())
}

/// Appends what a word of the command line adds: NAME=VALUE, or exprun's own variable NAME, if it is
/// set.
fn push_word<'a>(
    alloc: Global,
    variables: &mut Pairs,
    own: &[(Text, Text)],
    word: &'a str,
) -> Result<(), Complaint<'a>>
    ensures added { OnOk result (variables.new ≡ variables.old ++ added own.now word.now) }
    ensures named { IfOk result (λ _. is_unnamed word.entry ≡ false) }
    ensures refused { IfErr result (VariablesLine (word.entry ∷ []) []) }
{
    let at = equals_in(word.as_bytes());
    if at.unwrap_or(word.len()) == 0 {
        return Err(Complaint::NoName(word));
    }
    match at {
        Some(at) => Ok(push_pair(alloc, variables, word.as_bytes(), at)?),
        None => Ok(push_named(alloc, variables, own, word.as_bytes())?),
    }
}

/// Appends what the words of the command line add, in order.
fn push_words<'a>(
    alloc: Global,
    variables: &mut Pairs,
    own: &[(Text, Text)],
    words: &[&'a str],
) -> Result<(), Complaint<'a>>
    ensures added { OnOk result (variables.new ≡ variables.old ++ flat_map (λ w. added own.now w.now) words.now) }
    ensures named { IfOk result (λ _. find is_unnamed words.now ≡ None) }
    ensures refused { IfErr result (VariablesLine words.now []) }
{
    for word in words {
        push_word(alloc, variables, own, word)?;
    }
    Ok(())
}

/// Returns a copy of all of exprun's own variables, if requested.
fn first_variables(alloc: Global, all: bool, own: &Pairs) -> Result<Pairs, AllocError>
    ensures { IfOk result (λ ps. ps ≡ (if all then own.now else [])) }
{
    if all {
        return own.copied(alloc);
    }
    Ok(Pairs::new(alloc))
}

/// Returns the variables of the environment that scripts get, given the entries of exprun's own.
/// Returns the complaint for the first word without a name.
fn environment_given<'a>(
    alloc: Global,
    all: bool,
    words: &[&'a str],
    entries: &[Text],
) -> Result<Pairs, Complaint<'a>>
    ensures given { IfOk result (λ ps. ps ≡ environment_given all words.now entries.now) }
    ensures named { IfOk result (λ _. find is_unnamed words.now ≡ None) }
    ensures refused { IfErr result (VariablesLine words.now []) }
{
    let own = own_variables(alloc, entries)?;
    let mut variables = first_variables(alloc, all, &own)?;
    push_words(alloc, &mut variables, own.as_slice(), words)?;
    Ok(variables)
}

/// Appends a variable of the environment, as an element of `env`.
fn push_in_env(alloc: Global, vars: &mut Pairs, variable: &(Text, Text)) -> Result<(), AllocError>
    ensures { OnOk result (vars.new ≡ vars.old ++ in_env variable.now ∷ []) }
{
    let mut name = Text::from_slice(alloc, b"env(")?;
    name.extend(variable.0.as_slice())?;
    name.push(b')')?;
    vars.push(name, variable.1.copied(alloc)?)
}

/// Returns variables of the environment as elements of `env`.
fn all_in_env(alloc: Global, environment: &[(Text, Text)]) -> Result<Pairs, AllocError>
    ensures { IfOk result (λ ps. ps ≡ map in_env environment.now) }
{
    let mut vars = Pairs::new(alloc);
    for variable in environment {
        push_in_env(alloc, &mut vars, variable)?;
    }
    Ok(vars)
}

/// Returns whether a name has an opening parenthesis, as that of an element.
fn has_parenthesis(name: &[u8]) -> bool
    ensures { result ≡ list_any (λ c. c == ascii.open_paren) name.now }
{
    name.iter().any(|byte| *byte == b'(')
}

/// Returns whether a variable can have this name.
pub fn is_settable(name: &[u8]) -> bool
    ensures { result ≡ is_settable name.now }
{
    name.len() != 0 && (name != b"env".as_slice() && !has_parenthesis(name))
}

/// Appends what a word of `--set` sets.
fn push_set<'a>(alloc: Global, vars: &mut Pairs, word: &'a str) -> Result<(), Complaint<'a>>
    ensures set { OnOk result (vars.new ≡ vars.old ++ entry_at word.now (equals_in word.now)) }
    ensures is_set { IfOk result (λ _. sets_none word.entry ≡ false) }
    ensures refused { IfErr result (VariablesLine [] (word.entry ∷ [])) }
{
    let Some(at) = equals_in(word.as_bytes()) else {
        return Err(Complaint::BadSet(word));
    };
    if !is_settable(&word.as_bytes()[..at]) {
        return Err(Complaint::BadSet(word));
    }
    Ok(push_pair(alloc, vars, word.as_bytes(), at)?)
}

/// Appends what the words of `--set` set, in order.
fn push_sets<'a>(alloc: Global, vars: &mut Pairs, words: &[&'a str]) -> Result<(), Complaint<'a>>
    ensures set { OnOk result (vars.new ≡ vars.old ++ flat_map (λ w. entry_at w.now (equals_in w.now)) words.now) }
    ensures refused { IfErr result (VariablesLine [] words.now) }
{
    for word in words {
        push_set(alloc, vars, word)?;
    }
    Ok(())
}

/// Returns the elements of `env` at the start, given the entries of exprun's own environment.
/// Returns the complaint for the first word without a name.
fn elements_given<'a>(
    alloc: Global,
    asked: &Variables<'a>,
    entries: &[Text],
) -> Result<Pairs, Complaint<'a>>
    ensures given { IfOk result (λ ps. ps ≡ elements_given asked.now entries.now) }
    ensures named { IfOk result (λ _. find is_unnamed asked.now.env.items ≡ None) }
    ensures refused { IfErr result (VariablesLine asked.now.env.items []) }
{
    let environment = environment_given(alloc, asked.all, asked.env.as_slice(), entries)?;
    Ok(all_in_env(alloc, environment.as_slice())?)
}

/// Returns the variables of scripts at the start, given the entries of exprun's own environment.
/// Returns the complaint for the first word that sets none.
pub fn variables_given<'a>(
    alloc: Global,
    asked: &Variables<'a>,
    entries: &[Text],
) -> Result<Pairs, Complaint<'a>>
    ensures given { IfOk result (λ ps. ps ≡ variables_given asked.now entries.now) }
    ensures refused { IfErr result (VariablesLine asked.now.env.items asked.now.sets.items) }
{
    let mut vars = elements_given(alloc, asked, entries)?;
    push_sets(alloc, &mut vars, asked.sets.as_slice())?;
    Ok(vars)
}

/// Appends a variable with this name and this value.
fn push_variable(
    alloc: Global,
    vars: &mut Pairs,
    name: &[u8],
    value: &[u8],
) -> Result<(), AllocError>
    ensures { OnOk result (vars.new ≡ vars.old ++ (name.now, value.now) ∷ []) }
{
    let name = Text::from_slice(alloc, name)?;
    vars.push(name, Text::from_slice(alloc, value)?)
}

/// Returns words as the elements of a list.
fn elements_of(alloc: Global, words: &[&str]) -> Result<Packed, AllocError>
    ensures { IfOk result (λ list. list ≡ names_of words.now) }
{
    let mut list = Packed::new(alloc);
    for word in words {
        list.push(word.as_bytes())?;
    }
    Ok(list)
}

/// Returns the written list of words.
fn list_of(alloc: Global, words: &[&str]) -> Result<Text, AllocError>
    ensures { IfOk result (λ text. text ≡ written (names_of words.now)) }
{
    let list = elements_of(alloc, words)?;
    write_list(alloc, &list)
}

/// Appends `argv0`, `argv` and `argc` of a script that is run as a command.
fn push_arguments(
    alloc: Global,
    vars: &mut Pairs,
    file: &str,
    args: &[&str],
) -> Result<(), AllocError>
    ensures { OnOk result (vars.new ≡ vars.old ++ arguments file.now (names_of args.now)) }
{
    let list = list_of(alloc, args)?;
    let count = args.len().to_string(alloc)?;
    push_variable(alloc, vars, b"argv0", file.as_bytes())?;
    push_variable(alloc, vars, b"argv", list.as_slice())?;
    push_variable(alloc, vars, b"argc", count.as_bytes())
}

/// Returns the variables at the start of a script that is run as a command, given its file, its
/// arguments, and the entries of exprun's own environment. Returns the complaint for the first word
/// that sets none.
pub fn alone_given<'a>(
    alloc: Global,
    file: &str,
    args: &[&str],
    asked: &Variables<'a>,
    entries: &[Text],
) -> Result<Pairs, Complaint<'a>>
    ensures given { IfOk result (λ ps. ps ≡ alone_given file.now (names_of args.now) asked.now entries.now) }
    ensures refused { IfErr result (VariablesLine asked.now.env.items asked.now.sets.items) }
{
    let mut vars = elements_given(alloc, asked, entries)?;
    push_arguments(alloc, &mut vars, file, args)?;
    push_sets(alloc, &mut vars, asked.sets.as_slice())?;
    Ok(vars)
}

/// Reads an entry of the process's environment. `None` after the last one.
fn entry<'a, R: Env>(
    rt: &R,
    alloc: Global,
    at: usize,
    room: &mut [u8],
) -> Result<Option<Text>, Complaint<'a>> {
    match rt.var_at(at, room) {
        Ok(n) => Ok(Some(Text::from_slice(alloc, &room[..n])?)),
        Err(FillError::NotPresent) => Ok(None),
        Err(FillError::TooLong) => Err(Complaint::Environment),
    }
}

/// Reads the entries of the process's environment, in order.
pub fn own_entries<'a, R: Env>(rt: &R, alloc: Global) -> Result<Texts, Complaint<'a>> {
    let mut room = Vec::from_elem(alloc, 0u8, ENTRY)?;
    let mut entries = Texts::new(alloc);
    for at in 0..usize::MAX {
        match entry(rt, alloc, at, room.as_mut_slice())? {
            Some(entry) => entries.push(entry)?,
            None => return Ok(entries),
        }
    }
    Ok(entries)
}
