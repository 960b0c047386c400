//! Commands, words and their parts.

ghost use Rattle.std.specs.Prelude.{◌≡◌, IfOk};
ghost use Rattle.tcl_words.specs.Pieces.{part_view, parts_view, word_view};

use crate::bytes::Text;
use std::alloc::{AllocError, Global};

/// A part of a word.
#[derive(Drop)]
pub enum Part {
    /// Bytes that stand for themselves. Escapes are already replaced.
    Lit(Text),
    /// A variable with its name, or an element of an array with the array's name and the parts of
    /// the index. It stands for the value.
    Var(Text, Option<Vec<Part>>),
    /// A script, given without its brackets. It stands for the value of its last command.
    Script(Text),
}

/// A word. Its value is the concatenation of the values of its parts.
#[derive(Drop)]
pub struct Word {
    /// Whether `{*}` stands before the word. Its value is then split as a list, and each element is
    /// a word.
    pub expand: bool,
    /// The parts, in order. The readers never put two literals side by side.
    pub parts: Vec<Part>,
}

/// A command.
#[derive(Drop)]
pub struct Command {
    /// The words in order, at least one.
    pub words: Vec<Word>,
}

/// Returns a copy of a part.
#[cycle(copy)]
pub fn copied_part(alloc: Global, part: &Part) -> Result<Part, AllocError>
    ensures { IfOk result (λ p. part_view p ≡ part_view part.now) }
{
    match part {
        Part::Lit(text) => Ok(Part::Lit(text.copied(alloc)?)),
        Part::Var(name, index) => {
            let name = name.copied(alloc)?;
            match index {
                None => Ok(Part::Var(name, None)),
                Some(index) => Ok(Part::Var(name, Some(copied_parts(alloc, index.as_slice())?))),
            }
        }
        Part::Script(text) => Ok(Part::Script(text.copied(alloc)?)),
    }
}

/// Returns a copy of parts.
#[cycle(copy)]
pub fn copied_parts(alloc: Global, parts: &[Part]) -> Result<Vec<Part>, AllocError>
    ensures { IfOk result (λ ps. parts_view ps.items ≡ parts_view parts.now) }
{
    let mut list = Vec::new(alloc);
    for part in parts {
        list.push(copied_part(alloc, part)?)?;
    }
    Ok(list)
}

impl Word {
    /// Returns a copy.
    pub fn copied(&self, alloc: Global) -> Result<Word, AllocError>
        ensures { IfOk result (λ w. word_view w ≡ word_view self.now) }
    {
        Ok(Word {
            expand: self.expand,
            parts: copied_parts(alloc, self.parts.as_slice())?,
        })
    }
}
