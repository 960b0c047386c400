//! A script's line: its open request, and the answers.

ghost use Rattle.std.specs.Prelude.{◌≡◌, ◌+◌, ◌<◌, ◌↔◌, [], ◌∷◌, false, length, IsTrue, Some, None};
ghost use Rattle.dialogue_sched.specs.declared.script.Script.{Script};
ghost use Rattle.child_desk.specs.Book.{HasRoom, logged};
ghost use Rattle.child_desk.specs.Told.{Rings, Stops, telling_of, telling, asking};
ghost use Rattle.child_desk.specs.Line.{Keeping, answer_at, InLine, Keeps, Goes};
ghost use Rattle.child_desk.specs.Heard.{Unheard};
ghost use Rattle.child_desk.specs.Turn.{Comes, IsAwaited, IsTold, HasNoRequest, Waits};

use crate::book::Book;
use crate::entering::enter;
use child_events::{Answer, HallEvent, What};
use child_hands::{Answered, Keeper};
use expect_core::Request;
use session::Ending;

/// A desk's state of a script.
#[derive(Drop)]
pub struct ScriptState {
    /// The name of its keeper.
    pub name: u64,
    /// The number of the keeper's last call whose answer was entered.
    pub last: u64,
    /// The open request: it awaits its answer.
    pub awaited: Option<Request>,
    /// Whether that request was put to the hand, or waits for room in the ring to it.
    pub sent: bool,
    /// Whether the script has ended.
    pub over: bool,
}

impl ScriptState {
    /// Creates the line of a new script. Its keeper has this name, and has made this number of
    /// calls.
    pub fn new(name: u64, calls: u64) -> ScriptState
        ensures { result ≡ record { name = name; last = calls; awaited = None; sent = false; over = false } }
    {
        ScriptState {
            name,
            last: calls,
            awaited: None,
            sent: false,
            over: false,
        }
    }
}

/// Takes a script's next request from the hall, if none is open. No other script changes.
pub fn ask_next(book: &mut Book, line: &mut ScriptState, at: usize)
    requires { (at < length book.old.hall) × (at < 64) }
    ensures kept { (rings : Rings) → Keeps rings rings at line.old book.old line.new book.new }
    ensures log { logged book.new ≡ logged book.old }
    ensures comes { Comes at book.old book.new }
    ensures line { line.new ≡ record line.old { awaited = line.new.awaited } }
    ensures next { line.new.awaited ≡ None → HasNoRequest at book.new }
{
    if line.awaited.is_some() {
        return;
    }
    line.awaited = book.hall.request(at + 1);
}

/// Returns whether this is the awaited answer: of the keeper's next call, to the request that was
/// sent.
fn is_awaited<K: Keeper>(line: &ScriptState, answered: &Answered<K>) -> bool
    ensures { IsTrue result ↔ IsAwaited line.now (telling_of answered.now) }
{
    line.sent
        && is_to_request(line, &answered.request)
        && is_next(line, answered.name, answered.call)
}

/// Returns whether this is the open request.
fn is_to_request(line: &ScriptState, request: &Request) -> bool
    ensures { IsTrue result ↔ (line.now.awaited ≡ Some request.now) }
{
    match &line.awaited {
        Some(awaited) => awaited.is_same(request),
        None => false,
    }
}

/// Returns whether this is the next call of the script's keeper.
fn is_next(line: &ScriptState, name: u64, call: u64) -> bool
    ensures { IsTrue result ↔ (name ≡ line.now.name) × (call ≡ line.now.last + 1) }
{
    name == line.name && line.last < call && call - line.last == 1
}

/// Returns the event of an answer. `at` is the script's index.
fn answer_event(at: usize, child: u8, moment: u64, answer: Answer) -> HallEvent
    requires { at < 64 }
    ensures { result ≡ answer_at at child moment answer }
{
    HallEvent::Child {
        script: (at + 1) as u8,
        child: u16::from(child),
        moment,
        what: What::Answer(answer),
    }
}

/// Closes the open request: this call has answered it.
fn go_on(line: &mut ScriptState, call: u64)
    ensures { line.new ≡ record line.old { last = call; awaited = None; sent = false } }
{
    line.last = call;
    line.awaited = None;
    line.sent = false;
}

/// Enters an answer, if it is the awaited one. Any other is dropped. Returns whether it was
/// entered.
pub fn enter_answer<K: Keeper>(
    book: &mut Book,
    line: &mut ScriptState,
    at: usize,
    answered: Answered<K>,
) -> bool
    requires place { at < 64 }
    requires room { HasRoom book.old }
    ensures kept { (rings : Rings) → Keeps rings (telling rings (telling_of answered ∷ [])) at line.old book.old line.new book.new }
    ensures silent { Unheard (logged book.old) (logged book.new) }
    ensures comes { Comes at book.old book.new }
    ensures entered { (rings : Rings) (keeper : Keeping) (script : Script) → InLine rings keeper script at line.old book.old → IsTold at line.old (telling_of answered) book.old book.new }
{
    if !is_awaited(line, &answered) {
        return false;
    }
    let call = answered.call;
    let child = answered.request.child;
    let answer = answered.answer;
    let event = answer_event(at, child, book.stamp, answer);
    let copy = answer_event(at, child, book.stamp, answer);
    if !enter(book, event, copy) {
        return false;
    }
    go_on(line, call);
    true
}

/// Returns whether a script with this ending goes on. `None` counts as going on.
fn goes_on(ending: Option<Ending>) -> bool
    ensures { Goes ending result }
{
    match ending {
        Some(Ending::Waiting) => true,
        Some(_) => false,
        None => true,
    }
}

/// Marks a script as over, if it has ended. Returns whether it has.
pub fn enter_end(book: &Book, line: &mut ScriptState, at: usize) -> bool
    requires place { at < 64 }
    requires goes { line.old.over ≡ false }
    ensures ended { IsTrue result → ((rings : Rings) → Keeps rings (asking rings (Stops ∷ [])) at line.old book.now line.new book.now) × IsTrue line.new.over }
    ensures waits { result ≡ false → (line.new ≡ line.old) × Waits at book.now }
{
    if goes_on(book.hall.ending(at + 1)) {
        return false;
    }
    line.over = true;
    true
}
