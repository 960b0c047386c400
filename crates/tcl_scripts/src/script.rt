//! The commands of a text.

ghost use Rattle.std.specs.Prelude.{◌≡◌, ℕ, List, [], ◌∷◌, MatchOption, Err, drop, length, IfOk, Option, Result};
ghost use Rattle.tcl_words.specs.Commands.{Fails};
ghost use Rattle.tcl_words.specs.Pieces.{Spelled};
ghost use Rattle.tcl_scripts.specs.Commands.{commands};
ghost use Rattle.tcl_scripts.specs.Gathered.{all_words};

use crate::words::Words;
use std::alloc::{AllocError, Global};
use std::marker::Model;
use std::rc::Rc;
use tcl_values::Value;
use tcl_words::{WordFault, next_command};

/// A command of a script, with its index in the text.
#[derive(Drop)]
pub enum Reading {
    /// A command with its words, at least one.
    Command { at: usize, words: Words },
    /// A malformed command. It is the last one.
    Malformed { at: usize, fault: WordFault },
}

/// A text with its commands.
#[derive(Drop)]
pub struct ReadText {
    text: Value,
    readings: Vec<Reading>,
}

/// A script with its parsed commands, shared between owners. A contract sees its text.
#[derive(Drop)]
pub struct Script {
    read: Rc<ReadText>,
}

impl Model for Script {
    ghost use Rattle.std.specs.Prelude.{◌≡◌, List, ℕ};
    ghost use Rattle.tcl_scripts.specs.Commands.{commands};

    ghost Value = { List ℕ };

    ghost view = { λ s. s.read.value.text };

    ghost invariant = { λ s. s.read.value.readings.items ≡ commands s.read.value.text };
}

/// Returns an error of the text itself. Refused memory becomes an `AllocError`.
fn told(fault: WordFault) -> Result<WordFault, AllocError>
    ensures { IfOk result (λ f. (read : Result (Option (List Spelled × ℕ)) WordFault) → Fails fault read → read ≡ Err f) }
{
    match fault {
        WordFault::MissingBrace => Ok(WordFault::MissingBrace),
        WordFault::MissingBracket => Ok(WordFault::MissingBracket),
        WordFault::MissingQuote => Ok(WordFault::MissingQuote),
        WordFault::ExtraAfterQuote => Ok(WordFault::ExtraAfterQuote),
        WordFault::ExtraAfterBrace => Ok(WordFault::ExtraAfterBrace),
        WordFault::TooDeep => Ok(WordFault::TooDeep),
        WordFault::MissingParen => Ok(WordFault::MissingParen),
        WordFault::Memory => Err(AllocError),
    }
}

/// Parses the commands of a text. Time is linear in its length, except for nested brackets.
fn readings(alloc: Global, source: &[u8]) -> Result<Vec<Reading>, AllocError>
    ensures { IfOk result (λ rs. rs.items ≡ commands source.now) }
{
    let mut readings = Vec::new(alloc);
    let mut at = 0;
    'commands: loop {
        match next_command(alloc, source, at) {
            Ok(Some((command, to))) => {
                let words = Words::new(alloc, command.words.as_slice())?;
                readings.push(Reading::Command { at, words })?;
                at = to;
            }
            Ok(None) => return Ok(readings),
            Err(fault) => {
                let fault = told(fault)?;
                readings.push(Reading::Malformed { at, fault })?;
                return Ok(readings);
            }
        }
    }
}

impl Script {
    /// Parses a script. Time is linear in its length, except for nested brackets.
    pub fn read(alloc: Global, text: Value) -> Result<Script, AllocError>
        ensures { IfOk result (λ s. s ≡ text) }
    {
        let readings = readings(alloc, text.as_slice())?;
        Ok(Script {
            read: Rc::new(alloc, ReadText { text, readings })?,
        })
    }

    /// Returns the text.
    pub fn text(&self) -> &[u8]
        ensures { result.now ≡ self.now }
    {
        self.read.text.as_slice()
    }

    /// Returns the command with index `at`, counted from 0, and the next index. `None` after the
    /// last command.
    pub fn next(&self, at: usize) -> Option<(&Reading, usize)>
        ensures { MatchOption result (drop at (commands self.now) ≡ []) (λ p. drop at (commands self.now) ≡ p.0.now ∷ drop p.1 (commands self.now)) }
    {
        match self.read.readings.get(at) {
            None => None,
            Some(reading) => Some((reading, at + 1)),
        }
    }

    /// Returns the words of all commands in order, up to a malformed one, and its error.
    pub fn all_words(&self, alloc: Global) -> Result<(Words, Option<WordFault>), AllocError>
        ensures { IfOk result (λ r. all_words (commands self.now) ≡ (r.0, r.1)) }
    {
        let mut list = Vec::new(alloc);
        let mut at = 0;
        'commands: loop {
            match self.next(at) {
                None => return Ok((Words::of(alloc, list)?, None)),
                Some((Reading::Malformed { fault, .. }, _)) => {
                    return Ok((Words::of(alloc, list)?, Some(*fault)));
                }
                Some((Reading::Command { words, .. }, to)) => {
                    words.copy_to(&mut list)?;
                    at = to;
                }
            }
        }
    }

    /// Returns the number of commands, including a malformed one.
    pub fn len(&self) -> usize
        ensures { result ≡ length (commands self.now) }
    {
        self.read.readings.len()
    }

    /// Returns the same script for another owner, without copying it.
    pub fn shared(&self) -> Result<Script, AllocError>
        ensures { IfOk result (λ s. s ≡ self.now) }
    {
        Ok(Script {
            read: self.read.clone()?,
        })
    }
}
