//! `spawn` (expect(1)).

ghost use Rattle.std.specs.Prelude.{◌≡◌, ◌++◌, ◌∷◌, [], codes, drop, IfOk};
ghost use Rattle.tcl_results.specs.Says.{Says};
ghost use Rattle.expect_core.specs.Spawning.{announcing, begun as begun_of, gone as gone_of, heard_first as heard_first_of, missed as missed_of, missing as missing_of, ordering, spawned as spawned_of, spawning, spawning_as, started as started_of};
ghost use Rattle.expect_core.specs.Texts.{id_at as id_of};

use crate::child::{Change, Standing};
use crate::effect::{Effect, Effects};
use crate::order::{SpawnOrder, order_of};
use crate::own::Own;
use crate::place::Place;
use crate::request::Act;
use crate::stored::Stores;
use crate::texts::{decimal, id_at, not_executed, spawn_line};
use crate::turn::{Aim, Deed, Next, Purpose, Reaction, done};
use child_events::{Cause, Item};
use std::alloc::{AllocError, Global};
use tcl_results::Complaint;
use tcl_subst::Vars;
use tcl_values::Value;
use tcl_words::{Text, Texts};

/// Adds the line for the transcript to other effects, unless the order is quiet.
fn announce(effects: Effects, alloc: Global, order: &SpawnOrder) -> Result<Effects, AllocError>
    ensures { IfOk result (λ e. e ≡ effects ++ announcing order.now.quiet order.now.shown order.now.words) }
{
    if order.quiet {
        return Ok(effects);
    }
    let line = spawn_line(alloc, order.shown.as_slice(), order.words.as_slice())?;
    effects.with(Effect::Log(line))
}

/// Returns the effects that add a child and request its start.
fn order(alloc: Global, order: &SpawnOrder) -> Result<Effects, AllocError>
    ensures { IfOk result (λ e. e ≡ ordering order.now) }
{
    let effects = Effects::one(alloc, Effect::Add(order.modes))?;
    let effects = announce(effects, alloc, order)?;
    effects.with(Effect::Ask(Act::Spawn(order.asked.copied(alloc)?)))
}

/// Returns what a `spawn` does, or an error if there are 16 children.
fn spawn_as(alloc: Global, ordered: SpawnOrder, own: &Own) -> Result<Deed, Complaint>
    ensures { Says result (spawning_as ordered own.now) }
{
    let Some(i) = Place::new(own.children.len()) else {
        let text = Text::from_slice(alloc, b"too many spawned children")?;
        return Err(Complaint::Said(text));
    };
    let effects = order(alloc, &ordered)?;
    let next = Next::Await(Purpose::Spawn(ordered.terminal, ordered.words));
    Ok(Deed::To(i, Reaction { effects, next }))
}

/// Returns what `spawn ?flag ..? ?--? program arg ..` does.
pub(crate) fn spawn(
    alloc: Global,
    name: &[u8],
    args: &[Value],
    vars: &Vars,
    own: &Own,
) -> Result<Deed, Complaint>
    ensures { Says result (spawning name.now args.now vars.now own.now) }
{
    let order = order_of(alloc, name, args, vars, own.host)?;
    spawn_as(alloc, order, own)
}

/// Returns the variable `spawn_id` with the spawn id of the child at a place.
fn current(alloc: Global, i: Place) -> Result<Stores, AllocError>
    ensures { IfOk result (λ s. s ≡ (codes "spawn_id", id_of i) ∷ []) }
{
    let mut stores = Stores::new(alloc);
    stores.push(b"spawn_id", Value::from_text(alloc, id_at(alloc, i)?)?)?;
    Ok(stores)
}

/// Returns the end of a `spawn` whose child is there, after other effects: the child's number.
fn begun(alloc: Global, i: Place, effects: Effects) -> Result<Reaction, AllocError>
    ensures { IfOk result (λ r. r ≡ begun_of i effects) }
{
    let effects = effects
        .with(Effect::Alter(Change::Stand(Standing::Open)))?
        .with(Effect::Store(current(alloc, i)?))?;
    let number = decimal(alloc, usize::from(i.number()))?;
    let next = Next::Finish(done(Value::from_text(alloc, number)?));
    Ok(Reaction { effects, next })
}

/// Returns what follows if the child was started. On a terminal of the system its first item is
/// awaited.
fn started(alloc: Global, terminal: bool, i: Place, words: Texts) -> Result<Reaction, AllocError>
    ensures { IfOk result (λ r. r ≡ started_of terminal i words) }
{
    if terminal {
        return Ok(Reaction {
            effects: Effects::new(alloc),
            next: Next::Hear(Aim::Spawn(words)),
        });
    }
    begun(alloc, i, Effects::new(alloc))
}

/// Returns what follows the answer to a `spawn`.
pub(crate) fn spawned(
    alloc: Global,
    terminal: bool,
    i: Place,
    words: Texts,
    cause: Option<Cause>,
) -> Result<Reaction, AllocError>
    ensures { IfOk result (λ r. r ≡ spawned_of terminal i words cause) }
{
    match cause {
        None => started(alloc, terminal, i, words),
        Some(cause) => {
            let text = not_executed(alloc, words.as_slice(), cause)?;
            Reaction::badly(alloc, Effects::new(alloc), text)
        }
    }
}

/// Returns the request to close a terminal of the system without a program.
fn missing(alloc: Global, words: Texts) -> Result<Reaction, AllocError>
    ensures { IfOk result (λ r. r ≡ missing_of words) }
{
    Ok(Reaction {
        effects: Effects::one(alloc, Effect::Ask(Act::Close))?,
        next: Next::Await(Purpose::Missing(words)),
    })
}

/// Returns the request for the end of the closed terminal.
pub(crate) fn missed(alloc: Global, words: Texts) -> Result<Reaction, AllocError>
    ensures { IfOk result (λ r. r ≡ missed_of words) }
{
    Ok(Reaction {
        effects: Effects::one(alloc, Effect::Ask(Act::Wait))?,
        next: Next::Await(Purpose::Gone(words)),
    })
}

/// Returns the error for a program that isn't there, once its terminal is gone.
pub(crate) fn gone(alloc: Global, words: &Texts) -> Result<Reaction, AllocError>
    ensures { IfOk result (λ r. r ≡ gone_of words.now) }
{
    let text = not_executed(alloc, words.as_slice(), Cause::NotFound)?;
    Reaction::badly(alloc, Effects::new(alloc), text)
}

/// Returns the bytes after the first one.
fn behind_first(bytes: &[u8]) -> &[u8]
    ensures { result.now ≡ drop 1 bytes.now }
{
    match bytes {
        [] => &[],
        [_, rest @ ..] => rest,
    }
}

/// Returns what follows the first piece of output. Its first byte only says that the program is
/// there.
fn heard_piece(alloc: Global, i: Place, piece: &[u8]) -> Result<Reaction, AllocError>
    ensures { IfOk result (λ r. r ≡ begun_of i (Effect.Receive (drop 1 piece.now) ∷ [])) }
{
    let output = Text::from_slice(alloc, behind_first(piece))?;
    begun(alloc, i, Effects::one(alloc, Effect::Receive(output))?)
}

/// Returns what follows the first item of a terminal of the system.
pub(crate) fn heard_first(
    alloc: Global,
    words: Texts,
    i: Place,
    item: &Item,
) -> Result<Reaction, AllocError>
    ensures { IfOk result (λ r. r ≡ heard_first_of words i item.now) }
{
    match item {
        Item::Out(piece) => heard_piece(alloc, i, piece.as_slice()),
        Item::Eof => missing(alloc, words),
        Item::ReadFail(_) => missing(alloc, words),
    }
}
