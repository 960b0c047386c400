//! The elements of a pattern, with the literals that a search looks for.

ghost use Rattle.std.specs.Prelude.{◌≡◌, ◌≤◌, ◌+◌, ◌∷◌, ℕ, Bool, List, drop, length, IfOk};
ghost use Rattle.exp_glob.specs.Endings.{IsEnding, IsSoughtBy};
ghost use Rattle.exp_glob.specs.Literals.{only_byte as only_byte_of, byte_at, IsLiteral, AreLiterals};
ghost use Rattle.exp_glob.specs.declared.element.Element.{Element as ElementOf};

use crate::element::{Element, Elements, Single};
use crate::ending::{ending_of, no_ending};
use crate::literal::{Literal, Literals};
use crate::places::after;
use crate::runs::{is_star, star_end};
use std::alloc::{AllocError, Global};
use std::marker::Model;

/// Elements with their literals. A contract sees the elements.
#[derive(Drop)]
pub struct SearchElements {
    elements: Elements,
    /// The literals of a search with case.
    cased: Literals,
    /// The literals of a search without case.
    caseless: Literals,
}

impl Model for SearchElements {
    ghost use Rattle.std.specs.Prelude.{List, true, false};
    ghost use Rattle.exp_glob.specs.Endings.{IsSoughtBy};
    ghost use Rattle.exp_glob.specs.declared.element.Element.{Element};

    ghost Value = { List Element };

    ghost view = { λ p. p.elements };

    ghost invariant = { λ p. IsSoughtBy false p.elements p.cased × IsSoughtBy true p.elements p.caseless };
}

impl SearchElements {
    /// Computes the literals of these elements for searches with or without case. Other searches
    /// have no literals. It allocates only if there are elements.
    pub(crate) fn new(
        alloc: Global,
        elements: Elements,
        nocase: bool,
    ) -> Result<SearchElements, AllocError>
        ensures { IfOk result (λ p. p ≡ elements) }
    {
        let sought = literals(alloc, elements.as_slice(), nocase)?;
        if nocase {
            return Ok(SearchElements {
                elements,
                cased: no_literals(alloc),
                caseless: sought,
            });
        }
        Ok(SearchElements {
            elements,
            cased: sought,
            caseless: no_literals(alloc),
        })
    }

    /// Returns the elements, in order.
    pub fn as_slice(&self) -> &[Element]
        ensures { result.now ≡ self.now }
    {
        self.elements.as_slice()
    }

    /// Returns a copy, with the literals of a search with or without case.
    pub(crate) fn copied(&self, alloc: Global, nocase: bool) -> Result<SearchElements, AllocError>
        ensures { IfOk result (λ p. p ≡ self.now) }
    {
        SearchElements::new(alloc, self.elements.copied(alloc)?, nocase)
    }

    /// Returns the literals of a search.
    pub(crate) fn literals(&self, nocase: bool) -> &Literals
        ensures runs { AreLiterals nocase self.now result.now.runs.items }
        ensures ending { IsEnding nocase self.now result.now.ending.back result.now.ending.bytes.items }
    {
        if nocase { &self.caseless } else { &self.cased }
    }
}

/// Returns the only byte that the element matches. `None` if there are several.
fn only_byte(single: &Single, nocase: bool) -> Option<u8>
    ensures { result ≡ only_byte_of nocase single.now }
{
    match single {
        Single::Any => None,
        Single::Byte(b) => {
            if nocase && b.is_ascii_alphabetic() {
                None
            } else {
                Some(*b)
            }
        }
        Single::Class(_) => None,
    }
}

/// Returns the only byte that a match of this element can begin with. `None` if there are several,
/// or no byte.
fn first_byte(element: &Element, nocase: bool) -> Option<u8>
    ensures { (es : List ElementOf) → result ≡ byte_at nocase (element.now ∷ es) 0 }
{
    match element {
        Element::Star => None,
        Element::One(single) => only_byte(single, nocase),
        Element::End => None,
    }
}

/// Returns the index in the first run at which its longest literal begins.
fn longest_literal(elements: &[Element], nocase: bool) -> usize
    ensures within { result ≤ length elements.now }
    ensures onwards { (j : ℕ) → byte_at nocase elements.now (result + j) ≡ byte_at nocase (drop result elements.now) j }
{
    let mut best = 0;
    let mut most = 0;
    let mut start = 0;
    for (i, element) in elements.iter().enumerate() {
        let Element::One(single) = element else {
            return best;
        };
        if only_byte(single, nocase).is_none() {
            start = i + 1;
        } else if most < i + 1 - start {
            best = start;
            most = i + 1 - start;
        }
    }
    best
}

/// Returns the bytes that each match of the first run begins with.
fn front_bytes(alloc: Global, elements: &[Element], nocase: bool) -> Result<Vec<u8>, AllocError>
    ensures { IfOk result (λ bytes. IsLiteral nocase elements.now 0 bytes.items) }
{
    let mut bytes = Vec::new(alloc);
    for element in elements {
        let Some(byte) = first_byte(element, nocase) else {
            return Ok(bytes);
        };
        bytes.push(byte)?;
    }
    Ok(bytes)
}

/// Returns the longest literal of the first run.
pub(crate) fn literal(
    alloc: Global,
    elements: &[Element],
    nocase: bool,
) -> Result<Literal, AllocError>
    ensures { IfOk result (λ l. IsLiteral nocase elements.now l.offset l.bytes.items) }
{
    let offset = longest_literal(elements, nocase);
    let bytes = front_bytes(alloc, after(elements, offset), nocase)?;
    Ok(Literal { offset, bytes })
}

/// Returns one literal per run. It allocates only if there are elements.
fn run_literals(
    alloc: Global,
    elements: &[Element],
    nocase: bool,
) -> Result<Vec<Literal>, AllocError>
    ensures { IfOk result (λ ls. AreLiterals nocase elements.now ls.items) }
{
    let mut made = Vec::new(alloc);
    let mut left = elements;
    while !left.is_empty() {
        made.push(literal(alloc, left, nocase)?)?;
        let Some(n) = star_end(left) else {
            return Ok(made);
        };
        left = after(left, n);
    }
    Ok(made)
}

/// Returns the run with the longest literal, or 0 if no earlier search would be saved.
fn sought_ahead(elements: &[Element], literals: &[Literal]) -> usize {
    let mut longest = 0;
    let mut most = 0;
    for (i, literal) in literals.iter().enumerate() {
        if most < literal.bytes.len() {
            longest = i;
            most = literal.bytes.len();
        }
    }
    if longest <= empty_runs(elements) {
        return 0;
    }
    longest
}

/// Returns the number of leading runs without elements. Each of them ends with a star.
fn empty_runs(elements: &[Element]) -> usize {
    match elements.iter().position(|element| !is_star(element)) {
        Some(n) => n,
        None => elements.len(),
    }
}

/// Returns no literals. They fit all elements.
fn no_literals(alloc: Global) -> Literals
    ensures { (nocase : Bool) → (es : List ElementOf) → IsSoughtBy nocase es result }
{
    Literals {
        runs: Vec::new(alloc),
        ahead: 0,
        ending: no_ending(alloc),
    }
}

/// Returns the literals of a search.
fn literals(alloc: Global, elements: &[Element], nocase: bool) -> Result<Literals, AllocError>
    ensures { IfOk result (λ l. IsSoughtBy nocase elements.now l) }
{
    let runs = run_literals(alloc, elements, nocase)?;
    let ahead = sought_ahead(elements, runs.as_slice());
    let ending = ending_of(alloc, elements, nocase)?;
    Ok(Literals {
        runs,
        ahead,
        ending,
    })
}
