//! Events of children and of time.

ghost use Rattle.std.specs.Prelude.{◌≡◌, IfOk};
ghost use Rattle.child_events.specs.World.{own_of};

use std::alloc::{AllocError, Global};
use tcl_words::Text;

/// Why a request to a child, or reading its output, failed.
#[derive(Clone, Copy, PartialEq, Eq)]
pub enum Cause {
    NotFound,
    Denied,
    Broken,
    Memory,
    Other,
}

/// The answer to a request to a child.
#[derive(Clone, Copy, PartialEq, Eq)]
pub enum Answer {
    /// The request was carried out.
    Ok,
    /// The request failed.
    Fail(Cause),
    /// The child had exited with this status.
    Exit(u8),
    /// A signal had ended the child.
    Killed,
}

/// The content of a child's event.
#[derive(Drop)]
pub enum What {
    /// Bytes that the child wrote.
    Out(Text),
    /// The end of the child's output.
    Eof,
    /// Reading the child's output failed. It is not tried again.
    ReadFail(Cause),
    /// The answer to a request.
    Answer(Answer),
}

impl What {
    /// Returns a copy.
    pub fn copied(&self, alloc: Global) -> Result<What, AllocError>
        ensures { IfOk result (λ w. w ≡ self.now) }
    {
        match self {
            What::Out(piece) => Ok(What::Out(piece.copied(alloc)?)),
            What::Eof => Ok(What::Eof),
            What::ReadFail(cause) => Ok(What::ReadFail(*cause)),
            What::Answer(answer) => Ok(What::Answer(*answer)),
        }
    }
}

/// An item that comes from a child, in order.
#[derive(Drop)]
pub enum Item {
    /// Bytes that the child wrote.
    Out(Text),
    /// The end of the child's output.
    Eof,
    /// Reading the child's output failed. No item follows.
    ReadFail(Cause),
}

/// An event of one script: of one of its children, or a tick of the clock. Moments are in
/// milliseconds.
#[derive(Drop)]
pub enum Event {
    Child { child: u16, moment: u64, what: What },
    Tick { moment: u64 },
}

/// An event of any script. Moments are in milliseconds.
#[derive(Drop)]
pub enum HallEvent {
    Child {
        script: u8,
        child: u16,
        moment: u64,
        what: What,
    },
    Tick {
        moment: u64,
    },
}

impl HallEvent {
    /// Returns a copy.
    pub fn copied(&self, alloc: Global) -> Result<HallEvent, AllocError>
        ensures { IfOk result (λ e. e ≡ self.now) }
    {
        match self {
            HallEvent::Child {
                script,
                child,
                moment,
                what,
            } => Ok(HallEvent::Child {
                script: *script,
                child: *child,
                moment: *moment,
                what: what.copied(alloc)?,
            }),
            HallEvent::Tick { moment } => Ok(HallEvent::Tick { moment: *moment }),
        }
    }
}

/// Returns a copy of the event as this script sees it. `None` if it is of another script's child.
pub fn own_event(alloc: Global, script: u8, event: &HallEvent) -> Result<Option<Event>, AllocError>
    ensures { IfOk result (λ e. e ≡ own_of script event.now) }
{
    match event {
        HallEvent::Child {
            script: of,
            child,
            moment,
            what,
        } => {
            if *of != script {
                return Ok(None);
            }
            Ok(Some(Event::Child {
                child: *child,
                moment: *moment,
                what: what.copied(alloc)?,
            }))
        }
        HallEvent::Tick { moment } => Ok(Some(Event::Tick { moment: *moment })),
    }
}
