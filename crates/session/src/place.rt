//! The places that an error passed.

ghost use Rattle.std.specs.Prelude.{◌≡◌, IfOk, map, [], List};
ghost use Rattle.session.specs.Play.{name_of as name_meant, place_of as place_meant};

use std::alloc::{AllocError, Global};
use std::marker::Model;
use tcl_eval::Origin;
use tcl_host::Values;
use tcl_words::Text;

/// A place that an error passed.
#[derive(Drop)]
pub enum ErrorPlace {
    /// A command of the script with this text. `at` is the index in the text from which the command
    /// was read: the end of the command before it.
    Command { script: Text, at: usize },
    /// The end of the procedure with this name.
    Procedure { name: Text },
}

/// The places that an error passed, the innermost one first. A contract sees a list.
#[derive(Drop)]
pub struct ErrorPlaces {
    /// The places.
    pub list: Vec<ErrorPlace>,
}

impl Model for ErrorPlaces {
    ghost use Rattle.std.specs.Prelude.{List};
    ghost use Rattle.session.specs.declared.place.ErrorPlace.{ErrorPlace};

    ghost Value = { List ErrorPlace };

    ghost view = { λ p. p.list.items };
}

impl ErrorPlace {
    /// Returns a copy.
    fn copied(&self, alloc: Global) -> Result<ErrorPlace, AllocError>
        ensures { IfOk result (λ p. p ≡ self.now) }
    {
        match self {
            ErrorPlace::Command { script, at } => Ok(ErrorPlace::Command {
                script: script.copied(alloc)?,
                at: *at,
            }),
            ErrorPlace::Procedure { name } => Ok(ErrorPlace::Procedure {
                name: name.copied(alloc)?,
            }),
        }
    }
}

impl ErrorPlaces {
    /// Creates an empty list.
    pub fn new(alloc: Global) -> ErrorPlaces
        ensures { result ≡ [] }
    {
        ErrorPlaces {
            list: Vec::new(alloc),
        }
    }

    /// Returns the places as a slice.
    pub fn as_slice(&self) -> &[ErrorPlace]
        ensures { result.now ≡ self.now }
    {
        self.list.as_slice()
    }

    /// Returns a copy.
    pub fn copied(&self, alloc: Global) -> Result<ErrorPlaces, AllocError>
        ensures { IfOk result (λ p. p ≡ self.now) }
    {
        let mut list = Vec::new(alloc);
        for place in self.list.as_slice() {
            list.push(place.copied(alloc)?)?;
        }
        Ok(ErrorPlaces { list })
    }

    /// Converts the trail of an error.
    pub(crate) fn of(alloc: Global, trail: &[Origin]) -> Result<ErrorPlaces, AllocError>
        ensures { IfOk result (λ p. p ≡ map place_meant trail.now) }
    {
        let mut list = Vec::new(alloc);
        for origin in trail {
            list.push(place_of(alloc, origin)?)?;
        }
        Ok(ErrorPlaces { list })
    }
}

/// Returns the name of the procedure that these words called.
fn name_of(alloc: Global, words: &Values) -> Result<Text, AllocError>
    ensures { IfOk result (λ t. t ≡ name_meant words.now) }
{
    match words.as_slice() {
        [] => Ok(Text::new(alloc)),
        [name, ..] => Text::from_slice(alloc, name.as_slice()),
    }
}

fn place_of(alloc: Global, origin: &Origin) -> Result<ErrorPlace, AllocError>
    ensures { IfOk result (λ p. p ≡ place_meant origin.now) }
{
    match origin {
        Origin::Command { script, at } => Ok(ErrorPlace::Command {
            script: Text::from_slice(alloc, script.text())?,
            at: *at,
        }),
        Origin::Procedure { words } => Ok(ErrorPlace::Procedure {
            name: name_of(alloc, words)?,
        }),
    }
}
