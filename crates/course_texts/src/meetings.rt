//! The text of what a script's `expect` commands match.

ghost use Rattle.std.specs.Prelude.{◌≡◌, ◌++◌, drop, length, IfOk, OnOk, false};
ghost use Rattle.course_texts.specs.Meetings.{group_name as group_name_of, groups_of, plain_text, shown_text, stored_line, stored_part, places_part, group_part, group_lines, of_child, met_line, buffer_part, entry_lines, number_of, plan_lines, meeting_text};

use crate::patterns::push_want;
use crate::waits::{SHOWN, push_margin, push_requests, tail};
use exp_match::{Entry, Want};
use expect_core::{Met, Place, Plan};
use report_texts::{push_labelled, push_quoted};
use secret_words::{Secret, Secrets, masked};
use session::{Request, Watcher};
use std::alloc::{AllocError, Global};
use tcl_subst::Vars;
use tcl_words::Text;

/// Returns the requests from a place on.
pub(crate) fn rest_of(requests: &[Request], from: usize) -> &[Request]
    ensures { result.now ≡ drop from requests.now }
{
    if requests.len() <= from {
        return &[];
    }
    &requests[from..]
}

/// Returns the name of an element of `expect_out` for a group.
#[tactic(auto, unfolding(crate::specs::Meetings::group_name))]
fn group_name(alloc: Global, digit: u8, what: &[u8]) -> Result<Text, AllocError>
    ensures { IfOk result (λ t. t ≡ group_name_of digit what.now) }
{
    let mut name = Text::new(alloc);
    name.extend(b"expect_out(")?;
    name.push(digit)?;
    name.push(b',')?;
    name.extend(what)?;
    name.push(b')')?;
    Ok(name)
}

/// Returns the digits of the groups that a match can have.
fn groups(want: &Want) -> &'static [u8]
    ensures { result.now ≡ groups_of want.now }
{
    match want {
        Want::Exact { .. } => b"0",
        Want::Glob { .. } => b"0",
        Want::Regular(_) => b"0123456789",
        Want::Keyword(_) => b"",
    }
}

/// Appends a value in quotes. If it has more than `SHOWN` bytes, appends its length and its last
/// bytes.
#[tactic(auto, unfolding(crate::specs::Meetings::plain_text))]
fn push_plain(alloc: Global, text: &mut Text, bytes: &[u8]) -> Result<(), AllocError>
    ensures { OnOk result (text.new ≡ text.old ++ plain_text bytes.now) }
{
    if bytes.len() <= SHOWN {
        return push_quoted(alloc, text, bytes);
    }
    push_labelled(alloc, text, b"of ", bytes.len() as u128)?;
    text.extend(b" bytes, the last are ")?;
    push_quoted(alloc, text, tail(bytes))
}

/// Appends the same of a value with names in place of secrets.
fn push_shown(
    alloc: Global,
    text: &mut Text,
    secrets: &[Secret],
    bytes: &[u8],
) -> Result<(), AllocError>
    ensures { OnOk result (text.new ≡ text.old ++ shown_text secrets.now bytes.now) }
{
    if secrets.is_empty() {
        return push_plain(alloc, text, bytes);
    }
    let shown = masked(alloc, secrets, bytes)?;
    push_plain(alloc, text, shown.as_slice())
}

/// Appends the line of a variable.
#[tactic(auto, unfolding(crate::specs::Meetings::stored_line))]
fn push_stored(
    alloc: Global,
    text: &mut Text,
    secrets: &[Secret],
    name: &[u8],
    bytes: &[u8],
) -> Result<(), AllocError>
    ensures { OnOk result (text.new ≡ text.old ++ stored_line secrets.now name.now bytes.now) }
{
    push_margin(text)?;
    text.extend(b"  ")?;
    text.extend(name)?;
    text.push(b' ')?;
    push_shown(alloc, text, secrets, bytes)?;
    text.extend(b"\n")
}

/// Appends the line of a variable, if it has a value.
fn push_value(
    alloc: Global,
    text: &mut Text,
    secrets: &[Secret],
    vars: &Vars,
    name: &[u8],
) -> Result<(), AllocError>
    ensures { OnOk result (text.new ≡ text.old ++ stored_part secrets.now name.now vars.now) }
{
    match vars.peek(name) {
        Ok(bytes) => push_stored(alloc, text, secrets, name, bytes),
        Err(_) => Ok(()),
    }
}

/// Appends the lines of a group's indices, if `indices`.
fn push_places(
    alloc: Global,
    text: &mut Text,
    secrets: &[Secret],
    vars: &Vars,
    indices: bool,
    digit: u8,
) -> Result<(), AllocError>
    ensures { OnOk result (text.new ≡ text.old ++ places_part secrets.now indices digit vars.now) }
{
    if !indices {
        return Ok(());
    }
    let start = group_name(alloc, digit, b"start")?;
    push_value(alloc, text, secrets, vars, start.as_slice())?;
    let end = group_name(alloc, digit, b"end")?;
    push_value(alloc, text, secrets, vars, end.as_slice())
}

/// Appends the lines of a group.
fn push_group(
    alloc: Global,
    text: &mut Text,
    secrets: &[Secret],
    vars: &Vars,
    indices: bool,
    digit: u8,
) -> Result<(), AllocError>
    ensures { OnOk result (text.new ≡ text.old ++ group_part secrets.now indices vars.now digit) }
{
    push_places(alloc, text, secrets, vars, indices, digit)?;
    let string = group_name(alloc, digit, b"string")?;
    push_value(alloc, text, secrets, vars, string.as_slice())
}

fn push_groups(
    alloc: Global,
    text: &mut Text,
    secrets: &[Secret],
    vars: &Vars,
    indices: bool,
    digits: &[u8],
) -> Result<(), AllocError>
    ensures { OnOk result (text.new ≡ text.old ++ group_lines secrets.now indices vars.now digits.now) }
{
    for digit in digits {
        push_group(alloc, text, secrets, vars, indices, *digit)?;
    }
    Ok(())
}

/// Appends the child whose output matched, if any.
#[tactic(auto, unfolding(crate::specs::Meetings::of_child))]
fn push_of_child(alloc: Global, text: &mut Text, child: Option<u8>) -> Result<(), AllocError>
    ensures { OnOk result (text.new ≡ text.old ++ of_child child) }
{
    match child {
        Some(child) => push_labelled(alloc, text, b" by child ", u128::from(child)),
        None => Ok(()),
    }
}

/// Appends the line of what matched.
#[tactic(auto, unfolding(crate::specs::Meetings::met_line))]
fn push_met(
    alloc: Global,
    text: &mut Text,
    secrets: &[Secret],
    want: &Want,
    child: Option<u8>,
) -> Result<(), AllocError>
    ensures { OnOk result (text.new ≡ text.old ++ met_line secrets.now want.now child) }
{
    push_margin(text)?;
    push_want(alloc, text, secrets, want)?;
    text.extend(b" was met")?;
    push_of_child(alloc, text, child)?;
    text.extend(b"\n")
}

/// Appends the line of `expect_out(buffer)`, if a child's output matched.
fn push_buffer(
    alloc: Global,
    text: &mut Text,
    secrets: &[Secret],
    vars: &Vars,
    child: Option<u8>,
) -> Result<(), AllocError>
    ensures { OnOk result (text.new ≡ text.old ++ buffer_part secrets.now child vars.now) }
{
    match child {
        Some(_) => push_value(alloc, text, secrets, vars, b"expect_out(buffer)"),
        None => Ok(()),
    }
}

/// Appends the lines of an entry that matched, and of the values in `expect_out`.
fn push_entry(
    alloc: Global,
    text: &mut Text,
    secrets: &[Secret],
    vars: &Vars,
    entry: &Entry,
    child: Option<u8>,
) -> Result<(), AllocError>
    ensures { OnOk result (text.new ≡ text.old ++ entry_lines secrets.now vars.now child entry.now) }
{
    push_met(alloc, text, secrets, &entry.want, child)?;
    push_groups(
        alloc,
        text,
        secrets,
        vars,
        entry.indices,
        groups(&entry.want),
    )?;
    push_buffer(alloc, text, secrets, vars, child)
}

/// Returns the number of the child at a place, from 1.
fn number(place: Option<Place>) -> Option<u8>
    ensures { result ≡ number_of place }
{
    match place {
        Some(place) => Some(place.number()),
        None => None,
    }
}

/// Appends the lines of what an `expect` matched.
fn push_plan(
    alloc: Global,
    text: &mut Text,
    secrets: &[Secret],
    plan: &Plan,
    vars: &Vars,
) -> Result<(), AllocError>
    ensures { OnOk result (text.new ≡ text.old ++ plan_lines secrets.now plan.now vars.now) }
{
    let Some(Met { entry, child }) = plan.met else {
        return Ok(());
    };
    match plan.list.entries.as_slice().get(entry) {
        Some(entry) => push_entry(alloc, text, secrets, vars, entry, number(child)),
        None => Ok(()),
    }
}

/// Writes down each match, after the requests before it.
#[derive(Drop)]
pub(crate) struct Teller {
    alloc: Global,
    /// Names stand in place of these secrets.
    secrets: Secrets,
    /// The text written so far.
    text: Text,
    /// The number of requests written.
    told: usize,
    /// Whether memory was refused. From then on, nothing is written.
    refused: bool,
}

impl Teller {
    /// Creates a teller that appends to a text. It counts the first `told` requests as written.
    pub(crate) fn new(alloc: Global, secrets: Secrets, text: Text, told: usize) -> Teller
        ensures state { (result.text ≡ text) × (result.told ≡ told) × (result.refused ≡ false) }
        ensures secrets { result.secrets ≡ secrets }
    {
        Teller {
            alloc,
            secrets,
            text,
            told,
            refused: false,
        }
    }

    pub(crate) fn is_refused(&self) -> bool
        ensures { result ≡ self.now.refused }
    {
        self.refused
    }

    /// Returns the number of requests written.
    pub(crate) fn told(&self) -> usize
        ensures { result ≡ self.now.told }
    {
        self.told
    }

    pub(crate) fn into_text(self) -> Text
        ensures { result ≡ self.text }
    {
        let Teller { text, .. } = self;
        text
    }

    fn write(&mut self, plan: &Plan, vars: &Vars, asked: &[Request]) -> Result<(), AllocError>
        ensures written { OnOk result (self.new.text ≡ self.old.text ++ meeting_text self.old.secrets self.old.told plan.now vars.now asked.now) }
        ensures told { OnOk result (self.new.told ≡ length asked.now) }
        ensures same { (self.new.refused ≡ self.old.refused) × (self.new.secrets ≡ self.old.secrets) }
    {
        let secrets = self.secrets.as_slice();
        push_requests(
            self.alloc,
            &mut self.text,
            secrets,
            rest_of(asked, self.told),
        )?;
        push_plan(self.alloc, &mut self.text, secrets, plan, vars)?;
        self.told = asked.len();
        Ok(())
    }
}

impl Watcher for Teller {
    ghost use Rattle.course_texts.specs.Meetings.{Writes};

    ghost sees = { Writes };

    fn met(&mut self, plan: &Plan, vars: &Vars, asked: &[Request]) {
        if self.refused {
            return;
        }
        if self.write(plan, vars, asked).is_err() {
            self.refused = true;
        }
    }
}
