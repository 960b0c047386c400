//! `close`, `wait` and `exp_pid` (expect(1)).

ghost use Rattle.std.specs.Prelude.{◌≡◌, ◌+◌, ◌++◌, ◌∷◌, IfOk};
ghost use Rattle.std.specs.Fmt.{decimal as decimal_of};
ghost use Rattle.tcl_results.specs.Says.{Says};
ghost use Rattle.expect_core.specs.Ends.{broken as broken_of, closed as closed_of, closing, closing_by, closing_child, end_text as end_text_of, failed_by, if_unwaited, numbering, waited as waited_of, waited_text as waited_text_of, waiting, waiting_on};
ghost use Rattle.expect_core.specs.Owned.{child_of};

use crate::child::{Change, Standing};
use crate::effect::{Effect, Effects};
use crate::flags::arguments;
use crate::ids::{open_to, spoken_to};
use crate::own::Own;
use crate::place::Place;
use crate::reading::close_channel;
use crate::request::Act;
use crate::texts::{decimal, number_of_cause, waited_for, with_cause};
use crate::turn::{Deed, Next, Purpose, Reaction, done};
use child_events::{Answer, Cause};
use command_table::ExpectCommand;
use std::alloc::{AllocError, Global};
use tcl_results::{Complaint, wrong_args};
use tcl_subst::Vars;
use tcl_values::Value;
use tcl_words::Text;

/// Returns the child, or an error if a `wait` has already asked for its end.
fn unwaited(alloc: Global, i: Place, own: &Own) -> Result<Place, Complaint>
    ensures { Says result (if_unwaited i own.now) }
{
    if own.children.is_waited(i) {
        return Err(Complaint::Said(waited_for(alloc, own.children.id(i))?));
    }
    Ok(i)
}

/// Returns what the `close` of a child does.
fn close_child(alloc: Global, id: &Option<Value>, vars: &Vars, own: &Own) -> Result<Deed, Complaint>
    ensures { Says result (closing_child id.now vars.now own.now) }
{
    let i = open_to(alloc, id, vars, own)?;
    let effects = Effects::one(alloc, Effect::Ask(Act::Close))?;
    let next = Next::Await(Purpose::Close);
    Ok(Deed::To(i, Reaction { effects, next }))
}

/// Returns what the `close` of a child or a channel does.
fn close_by(
    alloc: Global,
    name: &[u8],
    id: &Option<Value>,
    args: &[Value],
    vars: &Vars,
    own: &Own,
) -> Result<Deed, Complaint>
    ensures { Says result (closing_by name.now id.now args.now vars.now own.now) }
{
    match (args, id) {
        ([], _) => close_child(alloc, id, vars, own),
        ([channel, ..], None) => close_channel(alloc, channel.as_slice(), own),
        ([_, ..], Some(_)) => Err(Complaint::Said(wrong_args(alloc, name)?)),
    }
}

/// Returns what `close ?-i spawn_id?` or `close channelId` does.
pub(crate) fn close(
    alloc: Global,
    name: &[u8],
    args: &[Value],
    vars: &Vars,
    own: &Own,
) -> Result<Deed, Complaint>
    ensures { Says result (closing name.now args.now vars.now own.now) }
{
    let (flags, at) = arguments(alloc, ExpectCommand::Close, name, args)?;
    close_by(alloc, name, &flags.id, &args[at..], vars, own)
}

/// Returns what `wait ?-nowait? ?-i spawn_id?` does.
pub(crate) fn wait(
    alloc: Global,
    name: &[u8],
    args: &[Value],
    vars: &Vars,
    own: &Own,
) -> Result<Deed, Complaint>
    ensures { Says result (waiting name.now args.now vars.now own.now) }
{
    let (flags, _) = arguments(alloc, ExpectCommand::Wait, name, args)?;
    let i = unwaited(alloc, spoken_to(alloc, &flags.id, vars, own)?, own)?;
    Ok(Deed::To(i, wait_on(alloc, flags.on, i, own)?))
}

/// Returns what a `wait` for a child does. With `-nowait` the child's end is not awaited.
fn wait_on(alloc: Global, nowait: bool, i: Place, own: &Own) -> Result<Reaction, AllocError>
    ensures { IfOk result (λ r. r ≡ waiting_on nowait i own.now) }
{
    let effects = Effects::one(alloc, Effect::Alter(Change::Waited))?;
    if nowait {
        let text = waited_text(alloc, i, Answer::Exit(0), own)?;
        let next = Next::Finish(done(Value::from_text(alloc, text)?));
        return Ok(Reaction { effects, next });
    }
    let effects = effects.with(Effect::Ask(Act::Wait))?;
    let next = Next::Await(Purpose::Wait);
    Ok(Reaction { effects, next })
}

/// Returns what `exp_pid ?-i spawn_id?` does: it returns the child's number.
pub(crate) fn exp_pid(
    alloc: Global,
    name: &[u8],
    args: &[Value],
    vars: &Vars,
    own: &Own,
) -> Result<Deed, Complaint>
    ensures { Says result (numbering name.now args.now vars.now own.now) }
{
    let (flags, _) = arguments(alloc, ExpectCommand::ExpPid, name, args)?;
    let i = spoken_to(alloc, &flags.id, vars, own)?;
    let number = Value::from_text(alloc, decimal(alloc, usize::from(i.number()))?)?;
    Ok(Deed::Alone(Effects::new(alloc), done(number)))
}

/// Returns what follows the answer to a `close`. The child is closed even if the request failed.
pub(crate) fn closed(alloc: Global, cause: Option<Cause>) -> Result<Reaction, AllocError>
    ensures { IfOk result (λ r. r ≡ closed_of cause) }
{
    let effects = Effects::one(alloc, Effect::Alter(Change::Stand(Standing::Closed)))?;
    match cause {
        None => Ok(Reaction::well(alloc, effects)),
        Some(cause) => {
            let text = with_cause(alloc, b"close failed", cause)?;
            Reaction::badly(alloc, effects, text)
        }
    }
}

/// Returns the error after a failed read. The child is closed.
pub(crate) fn broken(alloc: Global, cause: Cause) -> Result<Reaction, AllocError>
    ensures { IfOk result (λ r. r ≡ broken_of cause) }
{
    let effects = Effects::one(alloc, Effect::Alter(Change::Stand(Standing::Closed)))?;
    let text = with_cause(alloc, b"read failed", cause)?;
    Reaction::badly(alloc, effects, text)
}

/// Returns the text for a `wait` that failed: -1 and an error number.
fn failed_text(alloc: Global, cause: Cause) -> Result<Text, AllocError>
    ensures { IfOk result (λ t. t ≡ failed_by cause) }
{
    let mut text = Text::from_slice(alloc, b"-1 ")?;
    text.extend(decimal(alloc, number_of_cause(cause))?.as_slice())?;
    Ok(text)
}

/// Returns the text that says how a child ended.
fn end_text(alloc: Global, answer: Answer) -> Result<Text, AllocError>
    ensures { IfOk result (λ t. t ≡ end_text_of answer) }
{
    match answer {
        Answer::Exit(status) => {
            let mut text = Text::from_slice(alloc, b"0 ")?;
            text.extend(decimal(alloc, usize::from(status))?.as_slice())?;
            Ok(text)
        }
        Answer::Killed => Text::from_slice(alloc, b"0 -1 CHILDKILLED unknown unknown"),
        Answer::Fail(cause) => failed_text(alloc, cause),
        Answer::Ok => failed_text(alloc, Cause::Other),
    }
}

/// Returns the result of a `wait`: the child's number, its spawn id, and how it ended.
fn waited_text(alloc: Global, i: Place, answer: Answer, own: &Own) -> Result<Text, AllocError>
    ensures { IfOk result (λ t. t ≡ waited_text_of i answer own.now) }
{
    let mut text = decimal(alloc, usize::from(i.number()))?;
    text.push(b' ')?;
    text.extend(own.children.id(i))?;
    text.push(b' ')?;
    text.extend(end_text(alloc, answer)?.as_slice())?;
    Ok(text)
}

/// Returns what follows the answer to a `wait`.
pub(crate) fn waited(
    alloc: Global,
    i: Place,
    answer: Answer,
    own: &Own,
) -> Result<Reaction, AllocError>
    ensures { IfOk result (λ r. r ≡ waited_of i answer own.now) }
{
    let text = waited_text(alloc, i, answer, own)?;
    let next = Next::Finish(done(Value::from_text(alloc, text)?));
    Ok(Reaction {
        effects: Effects::new(alloc),
        next,
    })
}
