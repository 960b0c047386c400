//! The findings of a source.

ghost use Rattle.std.specs.Prelude.{◌≡◌, [], length, IfOk, IsTrue, is_some};
ghost use Rattle.tcl_subst.specs.Entries.{find};
ghost use Rattle.script_check.specs.Findings.{names_of, reported, findings};

use crate::problem::Finding;
use crate::sights::{Sight, sights};
use crate::span::Span;
use std::alloc::{AllocError, Global};
use std::marker::Model;
use tcl_subst::Names;

/// The greatest nesting of scripts, as in a run.
const DEEPEST: u8 = 200;

/// The findings of a source, in the order of their positions. A contract sees a list.
#[derive(Drop)]
pub struct Findings {
    list: Vec<Finding>,
}

impl Model for Findings {
    ghost use Rattle.std.specs.Prelude.{List};
    ghost use Rattle.script_check.specs.declared.problem.Finding.{Finding};

    ghost Value = { List Finding };

    ghost view = { λ f. f.list.items };
}

impl Findings {
    /// Returns the findings, in order.
    pub fn as_slice(&self) -> &[Finding]
        ensures { result.now ≡ self.now }
    {
        self.list.as_slice()
    }
}

/// Returns the names of the procedures that are defined.
fn names_of(alloc: Global, sights: &[Sight]) -> Result<Names<bool>, AllocError>
    ensures { IfOk result (λ n. n ≡ names_of [] sights.now) }
{
    let mut names = Names::new(alloc);
    let mut rest = sights;
    while let [sight, more @ ..] = rest {
        if let Sight::Defines(name) = sight {
            names.insert(alloc, name.as_slice(), true)?;
        }
        rest = more;
    }
    Ok(names)
}

/// Returns whether a procedure with this name is defined.
fn is_defined(names: &Names<bool>, name: &[u8]) -> bool
    ensures { result ≡ is_some (find name.now names.now) }
{
    names.get(name).is_some()
}

/// Returns the errors in a list of errors and procedure definitions.
fn reported(alloc: Global, names: &Names<bool>, sights: Vec<Sight>) -> Result<Findings, AllocError>
    ensures { IfOk result (λ f. f ≡ reported names.now sights.items) }
{
    let mut list = Vec::new(alloc);
    for sight in sights {
        match sight {
            Sight::Defines(_name) => {}
            Sight::Finds(finding) => list.push(finding)?,
            Sight::Unless(name, finding) => {
                if !is_defined(names, name.as_slice()) {
                    list.push(finding)?;
                }
            }
        }
    }
    Ok(Findings { list })
}

/// Checks a source without running it. Returns its errors in the order of their positions.
///
/// Words with substitutions aren't checked, and neither are arguments if one of them stands after
/// `{*}`. For each level of nested scripts, time is linear in the length of the source. A regular
/// pattern whose program would be too big counts as refused memory, as in a run.
#[tactic(auto, unfolding(crate::specs::Findings::findings))]
pub fn check(alloc: Global, source: &[u8]) -> Result<Findings, AllocError>
    ensures { IfOk result (λ fs. fs ≡ findings source.now) }
{
    let mut seen = Vec::new(alloc);
    let whole = Span {
        from: 0,
        to: source.len(),
    };
    sights(alloc, source, whole, DEEPEST, &mut seen)?;
    let names = names_of(alloc, seen.as_slice())?;
    reported(alloc, &names, seen)
}
