//! The words of a command, kept for repeated substitution.

ghost use Rattle.std.specs.Prelude.{◌≡◌, [], ◌∷◌, ◌++◌, MatchOption, drop, length, IfOk, IfSome, OnOk};
ghost use Rattle.tcl_words.specs.Pieces.{script, no_pieces, piece, word_view, words_view};
ghost use Rattle.tcl_subst.specs.Filling.{fill};
ghost use Rattle.tcl_subst.specs.Plain.{is_plain, TellsValue};
ghost use Rattle.tcl_subst.specs.Recipes.{begun, steps_onto};
ghost use Rattle.tcl_subst.specs.Variables.{Variables};
ghost use Rattle.tcl_scripts.specs.Literals.{IsLiteral, AreLiterals};

use std::alloc::{AllocError, Global};
use std::marker::Model;
use std::rc::Rc;
use tcl_subst::{Filler, Recipe, Vars};
use tcl_values::Value;
use tcl_words::{Part, Text, Word};

/// A word, kept as the steps that substitute it. A contract sees its parts.
#[derive(Drop)]
pub struct KeptWord {
    /// Whether its value is split as a list.
    expand: bool,
    /// The steps.
    recipe: Rc<Recipe>,
}

impl Model for KeptWord {
    ghost use Rattle.std.specs.Prelude.{◌≡◌, []};
    ghost use Rattle.tcl_words.specs.Pieces.{Spelled};
    ghost use Rattle.tcl_expr.specs.Codes.{coded_spelled};
    ghost use Rattle.tcl_subst.specs.Recipes.{steps_onto};
    ghost use Rattle.tcl_scripts.specs.Kept.{pieces_of};

    ghost Value = { Spelled };

    ghost coded = { coded_spelled };

    ghost view = { λ w. record { expand = w.expand; pieces = pieces_of w.recipe.value.steps.items } };

    ghost invariant = { λ w. w.recipe.value.steps.items ≡ steps_onto (pieces_of w.recipe.value.steps.items) [] };
}

impl KeptWord {
    /// Keeps a word. If `as_list` is true and the word is one literal, it is also parsed as a list,
    /// once for all uses.
    pub fn new(alloc: Global, word: &Word, as_list: bool) -> Result<KeptWord, AllocError>
        ensures { IfOk result (λ w. w ≡ word_view word.now) }
    {
        let recipe = recipe_of(alloc, word, as_list)?;
        Ok(KeptWord {
            expand: word.expand,
            recipe: Rc::new(alloc, recipe)?,
        })
    }

    /// Returns the same word for another owner, without copying it.
    fn shared(&self) -> Result<KeptWord, AllocError>
        ensures { IfOk result (λ w. w ≡ self.now) }
    {
        Ok(KeptWord {
            expand: self.expand,
            recipe: self.recipe.clone()?,
        })
    }

    /// Returns whether the value is split as a list, so that each element is a word.
    pub fn is_expanded(&self) -> bool
        ensures { result ≡ self.now.expand }
    {
        self.expand
    }

    /// Returns the value if the word contains no script. `None` for other words, and if the
    /// substitution fails.
    pub fn plain_value(&self, alloc: Global, vars: &mut Vars) -> Result<Option<Value>, AllocError>
        ensures value { IfOk result (λ o. TellsValue o (is_plain self.now.pieces) (fill self.now.pieces vars.old)) }
        ensures same { vars.new ≡ vars.old }
    {
        self.recipe.plain_value(alloc, vars)
    }

    /// Returns the value if the word is one literal and isn't split as a list.
    fn literal(&self, alloc: Global) -> Result<Option<Value>, AllocError>
        ensures { IfOk result (λ o. IfSome o (λ value. IsLiteral self.now value)) }
    {
        if self.expand {
            return Ok(None);
        }
        self.recipe.literal(alloc)
    }

    /// Returns the script if the word is exactly one command substitution.
    pub fn only_script(&self) -> Option<&Text>
        ensures { IfSome result (λ text. (vars : Variables) → fill self.now.pieces vars ≡ fill (piece (script text.now) no_pieces) vars) }
    {
        self.recipe.only_script()
    }

    /// Returns a filler at the first step of the word.
    pub fn filler(&self, alloc: Global) -> Result<Filler, AllocError>
        ensures { IfOk result (λ f. f ≡ begun (steps_onto self.now.pieces [])) }
    {
        Ok(Filler::new(alloc, self.recipe.clone()?))
    }
}

/// Words, with their values if each word is one literal.
#[derive(Drop)]
pub struct KeptWords {
    list: Vec<KeptWord>,
    literals: Option<Vec<Value>>,
}

/// The words of a command, shared between owners. A contract sees their list.
#[derive(Drop)]
pub struct Words {
    kept: Rc<KeptWords>,
}

impl Model for Words {
    ghost use Rattle.std.specs.Prelude.{List, IfSome};
    ghost use Rattle.std.specs.Coded.{coded_list};
    ghost use Rattle.tcl_words.specs.Pieces.{Spelled};
    ghost use Rattle.tcl_expr.specs.Codes.{coded_spelled};
    ghost use Rattle.tcl_scripts.specs.Literals.{AreLiterals};

    ghost Value = { List Spelled };

    ghost coded = { coded_list coded_spelled };

    ghost view = { λ w. w.kept.value.list.items };

    ghost invariant = { λ w. IfSome w.kept.value.literals (λ v. AreLiterals w.kept.value.list.items v.items) };
}

impl Words {
    /// Keeps words, in order.
    pub fn new(alloc: Global, words: &[Word]) -> Result<Words, AllocError>
        ensures { IfOk result (λ w. w ≡ words_view words.now) }
    {
        let lists = lists_of(words);
        let mut list = Vec::new(alloc);
        for word in words {
            let as_list = list.len() < lists;
            list.push(KeptWord::new(alloc, word, as_list)?)?;
        }
        Words::of(alloc, list)
    }

    /// Returns the word at index `at`, and the next index. `None` after the last word.
    pub fn next(&self, at: usize) -> Option<(&KeptWord, usize)>
        ensures { MatchOption result (drop at self.now ≡ []) (λ p. drop at self.now ≡ p.0.now ∷ drop p.1 self.now) }
    {
        match self.kept.list.get(at) {
            None => None,
            Some(word) => Some((word, at + 1)),
        }
    }

    /// Returns the number of words.
    pub fn len(&self) -> usize
        ensures { result ≡ length self.now }
    {
        self.kept.list.len()
    }

    /// Returns the values if each word is one literal no longer than a value may be.
    pub fn literals(&self) -> Option<&[Value]>
        ensures { IfSome result (λ values. AreLiterals self.now values.now) }
    {
        match &self.kept.literals {
            None => None,
            Some(values) => Some(values.as_slice()),
        }
    }

    /// Keeps words that are already parsed, in order.
    pub(crate) fn of(alloc: Global, list: Vec<KeptWord>) -> Result<Words, AllocError>
        ensures { IfOk result (λ w. w ≡ list.items) }
    {
        let literals = literals(alloc, list.as_slice())?;
        Ok(Words {
            kept: Rc::new(alloc, KeptWords { list, literals })?,
        })
    }

    /// Appends the words to a list. Their steps are shared.
    pub(crate) fn copy_to(&self, list: &mut Vec<KeptWord>) -> Result<(), AllocError>
        ensures { OnOk result (list.new.items ≡ list.old.items ++ self.now) }
    {
        for word in self.kept.list.as_slice() {
            list.push(word.shared()?)?;
        }
        Ok(())
    }

    /// Returns the same words for another owner, without copying them.
    pub fn shared(&self) -> Result<Words, AllocError>
        ensures { IfOk result (λ w. w ≡ self.now) }
    {
        Ok(Words {
            kept: self.kept.clone()?,
        })
    }
}

/// Returns the steps of a word. A word of several parts is no literal, so its literals are not
/// parsed as lists.
fn recipe_of(alloc: Global, word: &Word, as_list: bool) -> Result<Recipe, AllocError>
    ensures { IfOk result (λ r. r.steps.items ≡ steps_onto (word_view word.now).pieces []) }
{
    if as_list {
        if word.parts.len() == 1 {
            return Recipe::of_list(alloc, word);
        }
    }
    Recipe::of(alloc, word)
}

/// Returns how many of a command's first words may be read as lists, by the command's literal name.
/// Only the running time depends on it, so it has no contract.
fn lists_of(words: &[Word]) -> usize {
    let Some(first) = words.first() else {
        return 0;
    };
    let [part] = first.parts.as_slice() else {
        return 0;
    };
    match part {
        Part::Lit(name) => lists_by(name.as_slice(), words.len()),
        Part::Var(_, _) => 0,
        Part::Script(_) => 0,
    }
}

/// Returns how many of `count` words a command of this name may read as lists. The last word of a
/// `foreach` is its script.
fn lists_by(name: &[u8], count: usize) -> usize {
    match name {
        b"join" => count,
        b"lassign" => count,
        b"lindex" => count,
        b"linsert" => count,
        b"llength" => count,
        b"lrange" => count,
        b"lreplace" => count,
        b"lreverse" => count,
        b"lsearch" => count,
        b"lsort" => count,
        b"switch" => count,
        b"foreach" => count.saturating_sub(1),
        _ => 0,
    }
}

/// Returns the values of words if each word is one literal.
fn literals(alloc: Global, words: &[KeptWord]) -> Result<Option<Vec<Value>>, AllocError>
    ensures { IfOk result (λ o. IfSome o (λ v. AreLiterals words.now v.items)) }
{
    let mut values = Vec::new(alloc);
    for word in words {
        match word.literal(alloc)? {
            None => return Ok(None),
            Some(value) => values.push(value)?,
        }
    }
    Ok(Some(values))
}
