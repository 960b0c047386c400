//! Laws of the definitions. Each function does nothing at run time: its contract is the law.

ghost use Rattle.std.specs.Prelude.{◌≡◌, ◌↔◌, ◌<◌, ℕ, ℤ, List, Some, Ok, length};
ghost use Rattle.std.specs.Int.{w64};
ghost use Rattle.std.specs.Int.RustNames.{FitsSigned};
ghost use Rattle.tcl_words.specs.Pieces.{Spelled};
ghost use Rattle.tcl_expr.specs.Number.{number_of, number_text};
ghost use Rattle.tcl_expr.specs.Grammar.{parsed};
ghost use Rattle.tcl_expr.specs.Rules.{IsExpression};
ghost use Rattle.tcl_expr.specs.Tree.{Tree};
ghost use Rattle.tcl_expr.specs.Value.{outcome, needs, operands_in};

/// States that an expression needs no more operands than it contains.
pub fn operands_are_bounded()
    ensures { (t : Tree) (given : List (List ℕ)) (w : Spelled) → outcome t given ≡ needs w → length given < operands_in t }
{}

/// States that the text of a number reads as that number, and that each number has only this text.
pub fn numbers_round_trip()
    ensures reads { (z : ℤ) → FitsSigned w64 z → number_of (number_text z) ≡ Some z }
    ensures one { (text : List ℕ) (z : ℤ) → number_of text ≡ Some z → text ≡ number_text z }
{}

/// States the law of the grammar: the parser gives a text a tree exactly if the rules do. The rules
/// give a text at most one tree.
pub fn expression_rules()
    ensures rules { (text : List ℕ) (t : Tree) → (parsed text ≡ Ok t) ↔ IsExpression text t }
    ensures one { (text : List ℕ) (t u : Tree) → IsExpression text t → IsExpression text u → t ≡ u }
{}
