//! The meaning of a substitution.

ghost use Rattle.std.specs.Prelude.{◌≡◌, ◌≢◌, [], false};
ghost use Rattle.tcl_words.specs.Pieces.{Pieces};
ghost use Rattle.tcl_words.specs.Scripts.{has_script};
ghost use Rattle.tcl_subst.specs.declared.whole.Filled.TheVariants.{Script};
ghost use Rattle.tcl_subst.specs.Filled.{filled};
ghost use Rattle.tcl_subst.specs.Filling.{fill};
ghost use Rattle.tcl_subst.specs.Recipes.{Filling, IsOnward, steps_onto, begun, filling};
ghost use Rattle.tcl_subst.specs.Rests.{rest, told};
ghost use Rattle.tcl_subst.specs.Variables.{Variables};

/// States the laws of a filler. A new filler performs the substitution of its word. Each result,
/// together with the state after it, stands for the rest of the substitution. A filler that asks
/// for a script is past it afterwards, so it asks for each script once. It does nothing at run
/// time.
pub fn filling_is_fill()
    ensures begun { (ps : Pieces) (vars : Variables) → rest (begun (steps_onto ps [])) vars ≡ fill ps vars }
    ensures onward { (f : Filling) (vars : Variables) → IsOnward f (filling f vars) }
    ensures told { (f : Filling) (vars : Variables) → told (filling f vars) ≡ rest f vars }
{}

/// States a law: the substitution of a word without scripts needs the value of none. It does nothing
/// at run time.
pub fn no_script_is_asked_for()
    ensures { (ps : Pieces) (vars : Variables) → has_script ps ≡ false → filled (fill ps vars) ≢ Script }
{}
