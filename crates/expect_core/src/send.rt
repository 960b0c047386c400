//! `send` (expect(1)).

ghost use Rattle.std.specs.Prelude.{◌≡◌, ◌++◌, IfOk};
ghost use Rattle.tcl_results.specs.Says.{Says};
ghost use Rattle.expect_core.specs.Sending.{act_of as act_meant, counting, handed as handed_of, handing, refused as refused_text, sending};

use crate::child::Change;
use crate::effect::{Effect, Effects};
use crate::flags::{arguments, text};
use crate::ids::open_to;
use crate::own::Own;
use crate::request::Act;
use crate::spread::{Spread, begin, going_on, pace_if};
use crate::texts::with_cause;
use crate::turn::{Deed, Next, Purpose, Reaction};
use child_events::Cause;
use command_table::ExpectCommand;
use std::alloc::{AllocError, Global};
use tcl_host::Pile;
use tcl_results::Complaint;
use tcl_subst::Vars;
use tcl_values::Value;
use tcl_words::Text;
use tty::{Action, Actions};

/// Returns what `send ?-s? ?-h? ?-i spawn_id? ?--? text` does.
pub(crate) fn send(
    alloc: Global,
    name: &[u8],
    args: &[Value],
    vars: &Vars,
    own: &Own,
) -> Result<Deed, Complaint>
    ensures { Says result (sending name.now args.now vars.now own.now) }
{
    let (flags, at) = arguments(alloc, ExpectCommand::Send, name, args)?;
    let pace = pace_if(alloc, flags.choice, vars)?;
    let i = open_to(alloc, &flags.id, vars, own)?;
    let text = text(alloc, &args[at..])?;
    let effects = Effects::new(alloc);
    let next = begin(alloc, own.clock, text, pace)?;
    Ok(Deed::To(i, Reaction { effects, next }))
}

/// Returns the request for what the terminal hands over.
fn act_of(alloc: Global, action: &Action) -> Result<Act, AllocError>
    ensures { IfOk result (λ a. a ≡ act_meant action.now) }
{
    match action {
        Action::Write(text) => Ok(Act::Write(text.copied(alloc)?)),
        Action::End => Ok(Act::End),
    }
}

/// Returns the error if such a request fails.
fn refused(alloc: Global, action: &Action, cause: Cause) -> Result<Text, AllocError>
    ensures { IfOk result (λ t. t ≡ refused_text action.now cause) }
{
    match action {
        Action::Write(_) => with_cause(alloc, b"write failed", cause),
        Action::End => with_cause(alloc, b"end failed", cause),
    }
}

/// Returns the actions as a pile, the first on top.
fn piled(alloc: Global, mut actions: Actions) -> Result<Pile<Action>, AllocError>
    ensures { IfOk result (λ p. p ≡ actions) }
{
    let mut pile = Pile::new(alloc);
    'actions: while let Some(action) = actions.list.pop() {
        pile.push(action)?;
    }
    Ok(pile)
}

/// Adds the request for the first of the remaining actions to other effects. Without one, more is
/// sent.
fn hand_behind(
    alloc: Global,
    clock: u64,
    effects: Effects,
    mut rest: Pile<Action>,
    more: Option<Spread>,
) -> Result<Reaction, AllocError>
    ensures { IfOk result (λ r. r ≡ record { effects = effects ++ (handing clock rest more).effects; next = (handing clock rest more).next }) }
{
    let Some(action) = rest.pop() else {
        let next = going_on(alloc, clock, more)?;
        return Ok(Reaction { effects, next });
    };
    let effects = effects.with(Effect::Ask(act_of(alloc, &action)?))?;
    let next = Next::Await(Purpose::Send(action, rest, more));
    Ok(Reaction { effects, next })
}

/// Returns the requests for what the terminal hands over. Each follows the answer to the one
/// before. Then more is sent.
pub(crate) fn hand(
    alloc: Global,
    clock: u64,
    actions: Actions,
    more: Option<Spread>,
) -> Result<Reaction, AllocError>
    ensures { IfOk result (λ r. r ≡ handing clock actions more) }
{
    let rest = piled(alloc, actions)?;
    hand_behind(alloc, clock, Effects::new(alloc), rest, more)
}

/// Returns the effect that counts the accepted bytes.
fn count(alloc: Global, action: &Action) -> Result<Effects, AllocError>
    ensures { IfOk result (λ e. e ≡ counting action.now) }
{
    match action {
        Action::Write(text) => Effects::one(alloc, Effect::Alter(Change::Sent(text.len() as u64))),
        Action::End => Ok(Effects::new(alloc)),
    }
}

/// Returns what follows the answer to such a request: the next request, or an error.
pub(crate) fn handed(
    alloc: Global,
    clock: u64,
    action: &Action,
    rest: Pile<Action>,
    more: Option<Spread>,
    cause: Option<Cause>,
) -> Result<Reaction, AllocError>
    ensures { IfOk result (λ r. r ≡ handed_of clock action.now rest more cause) }
{
    match cause {
        None => {
            let effects = count(alloc, action)?;
            hand_behind(alloc, clock, effects, rest, more)
        }
        Some(cause) => {
            let text = refused(alloc, action, cause)?;
            Reaction::badly(alloc, Effects::new(alloc), text)
        }
    }
}
