//! Versions of packages (`package`, `exp_version`).

ghost use Rattle.std.specs.Prelude.{◌≡◌, codes, None, Some, MatchOption};
ghost use Rattle.tcl_results.specs.Given.{arg_or};
ghost use Rattle.tcl_results.specs.Says.{Says};
ghost use Rattle.tcl_commands.specs.Versions.{version_of, numbers, serves, if_serves, required, required_by, package_by, package_command, version_told, exp_version};

use command_table::{
    PackageOption, Switches, fits, is, package_count, package_option, words_behind,
};
use std::alloc::Global;
use tcl_lists::some_parts;
use tcl_results::front::{front, front_of};
use tcl_results::given::{arg, behind, others};
use tcl_results::{Complaint, as_number, bad_option, no_package, version_conflict, wrong};
use tcl_values::Value;
use tcl_words::Packed;

/// The version of expect(1) that the commands follow.
const EXPECT_VERSION: &[u8] = b"5.45.4";

/// Returns the version of a package, or `None` if there is no such package.
fn version_of(name: &[u8]) -> Option<&'static [u8]>
    ensures { MatchOption result (version_of name.now ≡ None) (λ v. version_of name.now ≡ Some v.now) }
{
    if is(name, b"Expect") {
        Some(EXPECT_VERSION)
    } else if is(name, b"Tcl") {
        Some(b"8.6")
    } else {
        None
    }
}

/// Returns a part of a version, or `0` if there is none.
fn part(parts: &Packed, n: usize) -> &[u8]
    ensures { result.now ≡ arg_or (codes "0") n parts.now }
{
    match parts.get(n) {
        Some(part) => part,
        None => b"0",
    }
}

/// Returns the first two parts of a version.
fn numbers(alloc: Global, version: &[u8]) -> Result<(i64, i64), Complaint>
    ensures { Says result (numbers version.now) }
{
    let parts = some_parts(alloc, b".", version)?;
    let major = as_number(alloc, part(&parts, 0))?;
    let minor = as_number(alloc, part(&parts, 1))?;
    Ok((major, minor))
}

/// Returns whether a version serves where another one is asked for.
fn serves(have: (i64, i64), need: (i64, i64)) -> bool
    ensures { result ≡ serves have need }
{
    have.0 == need.0 && need.1 <= have.1
}

/// Returns the version of a package. It is an error if it doesn't serve where `need` is asked for.
fn if_serves(alloc: Global, name: &[u8], have: &[u8], need: &[u8]) -> Result<Value, Complaint>
    ensures { Says result (if_serves name.now have.now need.now) }
{
    let here = numbers(alloc, have)?;
    let there = numbers(alloc, need)?;
    if serves(here, there) {
        return Ok(Value::from_slice(alloc, have)?);
    }
    Err(Complaint::Said(version_conflict(alloc, name, have, need)?))
}

/// Returns the version of a package, given its name and the version that is asked for, if any.
fn required_by(alloc: Global, words: &[Value]) -> Result<Value, Complaint>
    ensures { Says result (required_by words.now) }
{
    let name = arg(words, 0);
    let Some(have) = version_of(name) else {
        return Err(Complaint::Said(no_package(alloc, name)?));
    };
    match others(words) {
        [] => Ok(Value::from_slice(alloc, have)?),
        [need, ..] => if_serves(alloc, name, have, need.as_slice()),
    }
}

/// Runs an option of `package` with the arguments after it.
fn package_by(
    alloc: Global,
    option: PackageOption,
    command: &[u8],
    args: &[Value],
) -> Result<Value, Complaint>
    ensures { Says result (package_by option command.now args.now) }
{
    match option {
        PackageOption::Require => {
            let (_, from) = front(alloc, Switches::Require, 1, args)?;
            let words = behind(args, from);
            if fits(words_behind(Switches::Require), words.len()) {
                return required_by(alloc, words);
            }
            Err(wrong(alloc, command))
        }
    }
}

/// Returns the value of `package option arg ..`.
pub(crate) fn package_command(
    alloc: Global,
    command: &[u8],
    args: &[Value],
) -> Result<Value, Complaint>
    ensures { Says result (package_command command.now args.now) }
{
    match package_option(arg(args, 0)) {
        None => Err(Complaint::Said(bad_option(alloc, arg(args, 0))?)),
        Some(option) => {
            let words = others(args);
            if fits(package_count(option), words.len()) {
                return package_by(alloc, option, command, words);
            }
            Err(wrong(alloc, command))
        }
    }
}

/// Returns the version of Expect, or an empty value if it serves where another one is asked for.
fn version_told(alloc: Global, words: &[Value]) -> Result<Value, Complaint>
    ensures { Says result (version_told words.now) }
{
    match words {
        [] => Ok(Value::from_slice(alloc, EXPECT_VERSION)?),
        [need, ..] => {
            if_serves(alloc, b"Expect", EXPECT_VERSION, need.as_slice())?;
            Ok(Value::new(alloc))
        }
    }
}

/// Returns the value of `exp_version ?version?`.
pub(crate) fn exp_version(alloc: Global, command: &[u8], args: &[Value]) -> Result<Value, Complaint>
    ensures { Says result (exp_version command.now args.now) }
{
    let (_, from) = front_of(alloc, Switches::Version, command, args)?;
    version_told(alloc, behind(args, from))
}
