//! Decides whether the substitution of a word may run a command.

ghost use Rattle.std.specs.Prelude.{◌≡◌};
ghost use Rattle.tcl_words.specs.Pieces.{part_view, parts_view};
ghost use Rattle.tcl_expr.specs.Script.{is_scripted, has_script};

use tcl_words::Part;

/// Returns whether a part contains a script.
#[cycle(script)]
fn is_scripted(part: &Part) -> bool
    ensures { result ≡ is_scripted (part_view part.now) }
{
    match part {
        Part::Lit(_) => false,
        Part::Var(_, index) => match index {
            None => false,
            Some(index) => has_script(index.as_slice()),
        },
        Part::Script(_) => true,
    }
}

/// Returns whether one of the parts contains a script.
#[cycle(script)]
pub(crate) fn has_script(parts: &[Part]) -> bool
    ensures { result ≡ has_script (parts_view parts.now) }
{
    for part in parts {
        if is_scripted(part) {
            return true;
        }
    }
    false
}
