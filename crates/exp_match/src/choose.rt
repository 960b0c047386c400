//! Tests bytes against the listed patterns.

ghost use Rattle.std.specs.Prelude.{◌≡◌, ◌<◌, true, IfOk, None, take, length, option_map};
ghost use Rattle.std.specs.Bool.{then_some};
ghost use Rattle.exp_match.specs.Choice.{Finds, FindsIn, Decides, HasNone, IsListed, LeavesNone, Lasts, in_groups as in_groups_of, alone as alone_of, with_spans};
ghost use Rattle.exp_match.specs.Decide.{found_by, found_in, decide};

use crate::chosen::{Chosen, Picked};
use crate::entry::{Entry, Want};
use crate::exact::find_exact_on;
use crate::list::PatternList;
use crate::matcher::Spans;
use crate::matchers::Matchers;
use std::alloc::{AllocError, Global};

/// Returns whether an entry belongs to one of the groups.
pub(crate) fn in_groups(groups: &[usize], entry: &Entry) -> bool
    ensures { result ≡ in_groups_of groups.now entry.now }
{
    let group = entry.group;
    groups.iter().any(|g| *g == group)
}

/// Returns whether there is a match without groups, and writes its spans.
fn alone(span: Option<(usize, usize)>, spans: &mut Spans) -> bool
    ensures { then_some result spans.new ≡ option_map alone_of span }
{
    match span {
        Some(s) => {
            *spans = [
                Some(s),
                None,
                None,
                None,
                None,
                None,
                None,
                None,
                None,
                None,
            ];
            true
        }
        None => false,
    }
}

/// Returns whether an entry matches, and writes the spans of its first match. `bytes[..sought]`
/// must hold no match, or `sought` must be 0.
///
/// Bytes before `sought` are read again only as far as a match may still begin there. Globs that
/// begin with `^` and regular patterns without a bound of their opening read all bytes. Only a
/// regular pattern that has no matcher yet allocates.
fn first_match<'l>(
    alloc: Global,
    matchers: &mut Matchers<'l>,
    want: &'l Want,
    bytes: &[u8],
    sought: usize,
    spans: &mut Spans,
) -> Result<bool, AllocError>
    requires { 0 < sought → Lasts want.now → Finds want.now (take sought bytes.now) None }
    ensures finds { IfOk result (λ found. Finds want.now bytes.now (then_some found spans.new)) }
    ensures value { IfOk result (λ found. then_some found spans.new ≡ found_by want.now bytes.now) }
{
    match want {
        Want::Exact { text, nocase } => {
            let span = find_exact_on(text.as_slice(), *nocase, bytes, sought);
            Ok(alone(span, spans))
        }
        Want::Glob { glob, nocase } => Ok(alone(glob.find_on(bytes, sought, *nocase), spans)),
        Want::Regular(regular) => matchers.find(alloc, regular, bytes, sought, spans),
        Want::Keyword(_) => Ok(false),
    }
}

/// Returns whether an entry belongs to one of the groups and matches. Writes the spans of its first
/// match.
fn match_in<'l>(
    alloc: Global,
    matchers: &mut Matchers<'l>,
    groups: &[usize],
    entry: &'l Entry,
    bytes: &[u8],
    sought: usize,
    spans: &mut Spans,
) -> Result<bool, AllocError>
    requires { 0 < sought → in_groups_of groups.now entry.now ≡ true → Lasts entry.now.want → Finds entry.now.want (take sought bytes.now) None }
    ensures finds { IfOk result (λ found. FindsIn groups.now entry.now bytes.now (then_some found spans.new)) }
    ensures value { IfOk result (λ found. then_some found spans.new ≡ found_in groups.now entry.now bytes.now) }
{
    if !in_groups(groups, entry) {
        return Ok(false);
    }
    first_match(alloc, matchers, &entry.want, bytes, sought, spans)
}

impl PatternList {
    /// Tests bytes against the patterns of these groups, in listed order. Returns the first pattern
    /// that matches.
    ///
    /// Otherwise returns `Full` if the groups have a `full_buffer` and there are at least `max`
    /// bytes, and else `None`. It allocates only for the regular patterns that are tested.
    pub fn choose<'l>(
        &'l self,
        alloc: Global,
        groups: &[usize],
        bytes: &[u8],
        max: usize,
    ) -> Result<Chosen, AllocError>
        ensures decides { IfOk result (Decides self.now.entries groups.now bytes.now max) }
        ensures chosen { IfOk result (λ chosen. chosen ≡ decide self.now.entries groups.now bytes.now max) }
        ensures within { IfOk result (IsListed (length self.now.entries)) }
    {
        let mut spans = [None; 10];
        let mut matchers: Matchers<'l> = Matchers::new(alloc);
        let picked = self.choose_with(alloc, &mut matchers, groups, bytes, 0, max, &mut spans)?;
        Ok(picked.with_spans(&spans))
    }

    /// Like `choose`, but writes the spans of a match to `spans` and keeps the matchers for the
    /// next test. A regular pattern allocates only at its first test.
    ///
    /// `bytes[..sought]` must hold no match, as an earlier test found. Pass 0 if unknown. Most
    /// patterns then read only a few of these bytes again. Globs that begin with `^` and regular
    /// patterns without a bound of their opening read all of them.
    pub fn choose_with<'l>(
        &'l self,
        alloc: Global,
        matchers: &mut Matchers<'l>,
        groups: &[usize],
        bytes: &[u8],
        sought: usize,
        max: usize,
        spans: &mut Spans,
    ) -> Result<Picked, AllocError>
        requires { 0 < sought → HasNone self.now.entries groups.now (take sought bytes.now) }
        ensures decides { IfOk result (λ picked. Decides self.now.entries groups.now bytes.now max (with_spans picked spans.new)) }
        ensures chosen { IfOk result (λ picked. with_spans picked spans.new ≡ decide self.now.entries groups.now bytes.now max) }
        ensures within { IfOk result (λ picked. IsListed (length self.now.entries) (with_spans picked spans.new)) }
        ensures none { IfOk result (λ picked. LeavesNone self.now.entries groups.now bytes.now (with_spans picked spans.new)) }
    {
        for (index, entry) in self.entries.as_slice().iter().enumerate() {
            let found = match_in(alloc, matchers, groups, entry, bytes, sought, spans)?;
            if found {
                return Ok(Picked::Pattern(index));
            }
        }
        if max <= bytes.len() && self.at_full(groups).is_some() {
            Ok(Picked::Full)
        } else {
            Ok(Picked::None)
        }
    }
}
