//! The items of the rings between a desk, a hand and a child's reader.

ghost use Rattle.std.specs.Prelude.{◌≡◌};

use crate::keeper::Keeper;
use crate::piece::Piece;
use child_events::{Answer, Cause};
use expect_core::Request;
use std::marker::PhantomData;

/// A keeper's answer, with the proof that the keeper gave it in that call.
#[derive(Drop)]
pub struct Answered<K: Keeper> {
    /// The name of the keeper.
    pub name: u64,
    /// The number of the call.
    pub call: u64,
    /// The request.
    pub request: Request,
    /// The answer.
    pub answer: Answer,
    of: PhantomData<K>,
    pub ghost told: { ∥ K.told name call request answer ∥₁ },
}

impl<K: Keeper> Answered<K> {
    /// Creates the answer of a call.
    pub fn new(name: u64, call: u64, request: Request, answer: Answer) -> Self
        requires { K.told name call request answer }
        ensures { (result.name ≡ name) × (result.call ≡ call) × (result.request ≡ request) × (result.answer ≡ answer) }
    {
        Answered {
            name,
            call,
            request,
            answer,
            of: PhantomData,
        }
    }
}

/// An item of a ring. Scripts are numbered 1 to 64, children 1 to 16.
#[derive(Drop)]
pub enum RingItem<K: Keeper> {
    /// From a reader: a child wrote this piece.
    Out { script: u8, child: u8, piece: Piece },
    /// The last item of a reader: the child's output has ended.
    End { script: u8, child: u8 },
    /// The last item of a reader: reading the child's output failed.
    ReadFail { script: u8, child: u8, cause: Cause },
    /// From a hand: the answer to a request.
    Answer { script: u8, answered: Answered<K> },
    /// To a hand: a request to carry out.
    Ask(Request),
    /// To a hand: no further request.
    Stop,
}
