//! The state that a script's commands change.

ghost use Rattle.std.specs.Prelude.{◌≡◌, ◌++◌, OnOk};
ghost use Rattle.expect_core.specs.Heard.{deadline_from as deadline_of};
ghost use Rattle.expect_core.specs.Owned.{at_moment, bytes_of, told, logged, asked, received, seen, with_bytes, size_at, removes_at};

use crate::bodies::Bodies;
use crate::channels::Channels;
use crate::child::Children;
use crate::kept::behind;
use crate::place::Place;
use crate::plan::Span;
use crate::request::{Act, Request, Requests};
use crate::standing::StandingList;
use std::alloc::{AllocError, Global};
use std::mem;
use tcl_words::Text;

/// The state that a script's commands change.
#[derive(Drop)]
pub struct Own {
    /// The moment in milliseconds of the last item, answer or timeout that was taken.
    pub clock: u64,
    /// What the script wrote, and the output that it took while `log_user` was on.
    pub transcript: Text,
    /// Its requests to its children.
    pub requests: Requests,
    /// The children that it requested.
    pub children: Children,
    /// Whether output goes to the transcript.
    pub log_user: bool,
    /// Whether a `spawn` without `-tty` and `-notty` is on a terminal of the system.
    pub host: bool,
    /// The size in bytes of the match buffers of later children.
    pub size: usize,
    /// Whether NUL bytes are removed from the output of later children.
    pub remove_nulls: bool,
    /// The channels that are open.
    pub channels: Channels,
    /// The child that writes to standard error, once there is one.
    pub errors: Option<Place>,
    /// A time of day, and the clock's moment when it was that. Both are in milliseconds.
    pub day: Option<(u64, u64)>,
    /// The patterns of `expect_before`.
    pub before: StandingList,
    /// The patterns of `expect_after`.
    pub after: StandingList,
    /// The scripts that commands evaluate, the innermost first.
    pub bodies: Bodies,
}

/// Returns the last moment in time for a wait that begins at `clock`, or `None` if it never times
/// out.
pub(crate) fn deadline_from(clock: u64, span: Span) -> Option<u128>
    ensures { result ≡ deadline_of clock span }
{
    match span {
        Span::Never => None,
        Span::Seconds(count) => Some(u128::from(clock) + u128::from(count) * 1000),
    }
}

impl Own {
    /// Moves the clock to a moment, but never back.
    pub(crate) fn advance(&mut self, moment: u64)
        ensures { self.new ≡ at_moment moment self.old }
    {
        self.clock = self.clock.max(moment);
    }

    /// Appends to the transcript.
    pub(crate) fn tell(&mut self, text: &[u8]) -> Result<(), AllocError>
        ensures { OnOk result (self.new ≡ told text.now self.old) }
    {
        self.transcript.extend(text)
    }

    /// Appends to the transcript if `log_user` is on.
    pub(crate) fn log(&mut self, text: &[u8]) -> Result<(), AllocError>
        ensures { OnOk result (self.new ≡ logged text.now self.old) }
    {
        if self.log_user {
            self.tell(text)
        } else {
            Ok(())
        }
    }

    /// Appends a request to the child at a place.
    pub(crate) fn ask(&mut self, i: Place, act: Act) -> Result<(), AllocError>
        ensures { OnOk result (self.new ≡ asked i act self.old) }
    {
        self.requests.push(Request {
            child: i.number(),
            act,
        })
    }

    /// Appends a piece of a child's output to the transcript and to the match buffer, as it is
    /// seen.
    #[tactic(auto, using(crate::proofs::Receiving::put_behind))]
    fn receive_told(&mut self, alloc: Global, i: Place, piece: &[u8]) -> Result<(), AllocError>
        ensures { OnOk result (self.new ≡ with_bytes i (bytes_of i self.old ++ seen i piece.now self.old) (told (seen i piece.now self.old) self.old)) }
    {
        let before = self.transcript.len();
        let transcript = mem::replace(&mut self.transcript, Text::new(alloc));
        self.transcript = self.children.seen_behind(transcript, i, piece)?;
        self.children
            .keep(i, behind(self.transcript.as_slice(), before))
    }

    /// Appends a piece of a child's output to the match buffer, as it is seen.
    fn receive_untold(&mut self, i: Place, piece: &[u8]) -> Result<(), AllocError>
        ensures { OnOk result (self.new ≡ with_bytes i (bytes_of i self.old ++ seen i piece.now self.old) self.old) }
    {
        let seen = self.children.seen(i, piece);
        self.children.keep_seen(i, seen)
    }

    /// Appends a piece of a child's output to the match buffer, and to the transcript if `log_user`
    /// is on.
    pub(crate) fn receive(
        &mut self,
        alloc: Global,
        i: Place,
        piece: &[u8],
    ) -> Result<(), AllocError>
        ensures { OnOk result (self.new ≡ received i piece.now self.old) }
    {
        if self.log_user {
            self.receive_told(alloc, i, piece)
        } else {
            self.receive_untold(i, piece)
        }
    }

    /// Returns the size in bytes of a child's match buffer, or that of later children.
    pub(crate) fn size_at(&self, at: Option<Place>) -> usize
        ensures { result ≡ size_at at self.now }
    {
        match at {
            Some(i) => self.children.size(i),
            None => self.size,
        }
    }

    /// Returns whether NUL bytes are removed from the output of a child, or of later children.
    pub(crate) fn removes_at(&self, at: Option<Place>) -> bool
        ensures { result ≡ removes_at at self.now }
    {
        match at {
            Some(i) => self.children.removes_nulls(i),
            None => self.remove_nulls,
        }
    }
}
