//! Queries a list of patterns without allocating.

ghost use Rattle.std.specs.Prelude.{◌≡◌, ◌+◌, ◌<◌, ◌≤◌, ◌==◌, Some, IfErr, IfSome, position, length, option_map};
ghost use Rattle.std.specs.List.{list_any, slice_get};
ghost use Rattle.exp_match.specs.Choice.{waits_for_end as waits_for_end_of, waits_for_time as waits_for_time_of, waits_for_full as waits_for_full_of, waits_for_time_alone as waits_for_time_alone_of, first_in, serves as serves_of};
ghost use Rattle.exp_match.specs.Arguments.{Gives, patterns_of};
ghost use Rattle.exp_match.specs.Unbuilt.{IsOfOne};

use crate::arguments::read;
use crate::choose::in_groups;
use crate::compiled::Compiled;
use crate::entry::{Keyword, Want};
use crate::faults::PatternFault;
use crate::list::PatternList;
use std::alloc::Global;
use tcl_values::Value;

/// Returns whether an entry applies at the end of output.
fn waits_for_end(want: &Want) -> bool
    ensures { result ≡ waits_for_end_of want.now }
{
    match want {
        Want::Keyword(Keyword::Eof) => true,
        Want::Keyword(Keyword::Default) => true,
        _ => false,
    }
}

/// Returns whether an entry applies when the time has run out.
fn waits_for_time(want: &Want) -> bool
    ensures { result ≡ waits_for_time_of want.now }
{
    match want {
        Want::Keyword(Keyword::Timeout) => true,
        Want::Keyword(Keyword::Default) => true,
        _ => false,
    }
}

/// Returns whether an entry applies when the buffer is full.
fn waits_for_full(want: &Want) -> bool
    ensures { result ≡ waits_for_full_of want.now }
{
    match want {
        Want::Keyword(Keyword::FullBuffer) => true,
        _ => false,
    }
}

/// Returns whether an entry is `timeout`.
fn waits_for_time_alone(want: &Want) -> bool
    ensures { result ≡ waits_for_time_alone_of want.now }
{
    match want {
        Want::Keyword(Keyword::Timeout) => true,
        _ => false,
    }
}

impl PatternList {
    /// Reads the list that the arguments of `expect` write.
    ///
    /// An error is that of the first bad argument, with its index. `Refused` means that `regex`
    /// doesn't compile one of the patterns.
    pub fn build(alloc: Global, args: &[Value]) -> Result<PatternList, PatternFault>
        ensures given { Gives result (patterns_of args.now) }
        ensures refused { IfErr result (IsOfOne args.now) }
    {
        PatternList::build_with(alloc, &mut Compiled::new(alloc), args)
    }

    /// Like `build`, but takes patterns from a cache of compiled ones and adds new ones to it.
    pub fn build_with(
        alloc: Global,
        compiled: &mut Compiled,
        args: &[Value],
    ) -> Result<PatternList, PatternFault>
        ensures given { Gives result (patterns_of args.now) }
        ensures refused { IfErr result (IsOfOne args.now) }
    {
        read(alloc, compiled, args)
    }

    /// Returns the script of an entry. It may be empty.
    pub fn action(&self, index: usize) -> &[u8]
        requires { index < length self.now.entries }
        ensures { option_map (λ e. e.action) (slice_get self.now.entries index) ≡ Some result.now }
    {
        self.entries.as_slice()[index].action.as_slice()
    }

    /// Returns whether `-indices` and `-notransfer` precede an entry's pattern.
    pub fn marks(&self, index: usize) -> (bool, bool)
        requires { index < length self.now.entries }
        ensures { option_map (λ e. (e.indices, e.notransfer)) (slice_get self.now.entries index) ≡ Some result }
    {
        let entry = &self.entries.as_slice()[index];
        (entry.indices, entry.notransfer)
    }

    /// Returns the index of the first `eof` or `default` in these groups.
    pub fn at_end(&self, groups: &[usize]) -> Option<usize>
        ensures first { result ≡ first_in waits_for_end_of groups.now self.now.entries }
        ensures within { IfSome result (λ n. n < length self.now.entries) }
    {
        self.entries
            .as_slice()
            .iter()
            .position(|e| in_groups(groups, e) && waits_for_end(&e.want))
    }

    /// Returns the index of the first `full_buffer` in these groups.
    pub fn at_full(&self, groups: &[usize]) -> Option<usize>
        ensures first { result ≡ first_in waits_for_full_of groups.now self.now.entries }
        ensures within { IfSome result (λ n. n < length self.now.entries) }
    {
        self.entries
            .as_slice()
            .iter()
            .position(|e| in_groups(groups, e) && waits_for_full(&e.want))
    }

    /// Returns the index of the first `timeout` or `default` in any group.
    pub fn at_timeout(&self) -> Option<usize>
        ensures first { result ≡ position (λ e. waits_for_time_of e.want) self.now.entries }
        ensures within { IfSome result (λ n. n < length self.now.entries) }
    {
        self.entries
            .as_slice()
            .iter()
            .position(|e| waits_for_time(&e.want))
    }

    /// Returns the number of groups: one more than the number of `-i` flags.
    pub fn groups(&self) -> usize
        ensures { result ≡ length self.now.ids + 1 }
    {
        self.ids.as_slice().len() + 1
    }

    /// Returns whether a group has an entry other than `timeout`.
    pub fn serves(&self, group: usize) -> bool
        requires { group ≤ length self.now.ids }
        ensures { result ≡ serves_of group self.now.entries }
    {
        self.entries
            .as_slice()
            .iter()
            .any(|e| e.group == group && !waits_for_time_alone(&e.want))
    }

    /// Returns whether a group has an entry.
    pub fn has_group(&self, group: usize) -> bool
        ensures { result ≡ list_any (λ e. e.group == group) self.now.entries }
    {
        self.entries.as_slice().iter().any(|e| e.group == group)
    }
}
