//! Parses expressions.

ghost use Rattle.std.specs.Prelude.{◌≡◌, MatchOption};
ghost use Rattle.tcl_words.specs.Pieces.{word_view};
ghost use Rattle.tcl_expr.specs.Numbered.{operand_at};
ghost use Rattle.tcl_expr.specs.Grammar.{parsed};
ghost use Rattle.tcl_expr.specs.Reads.{Gives};

use crate::code::Code;
use crate::faults::ExprFault;
use crate::grammar::{DEEPEST, whole};
use crate::white::{after, gap};
use std::alloc::Global;
use std::marker::Model;
use tcl_words::Word;

/// A parsed expression. A contract sees its tree.
#[derive(Drop)]
pub struct Expr {
    pub(crate) code: Code,
}

impl Model for Expr {
    ghost use Rattle.std.specs.Prelude.{◌≡◌};
    ghost use Rattle.std.specs.Coded.{codes, coded_list, code_by};
    ghost use Rattle.std.specs.Prelude.{List};
    ghost use Rattle.tcl_expr.specs.Codes.{coded_spelled};
    ghost use Rattle.tcl_expr.specs.Tree.{Tree};
    ghost use Rattle.tcl_expr.specs.Instr.{Instr, tree_of, postfix};
    ghost use Rattle.tcl_expr.specs.Built.{tree_of-postfix};

    ghost Value = { Tree };

    ghost coded = { code_by (List Instr) (Prim.hlevel (codes, coded_spelled)) postfix tree_of tree_of-postfix };

    ghost view = { λ e. tree_of e.code };

    ghost invariant = { λ e. e.code ≡ postfix (tree_of e.code) };
}

/// Parses a whole text as an expression, in linear time.
///
/// `Syntax` if it is no expression, also if a word in it is malformed. `TooDeep` if a parenthesis,
/// a prefix operator or a branch of `?:` opens inside 200 others, whatever follows it.
#[tactic(auto, unfolding(crate::specs::Grammar::parsed))]
pub fn parse(alloc: Global, text: &[u8]) -> Result<Expr, ExprFault>
    ensures { Gives result (parsed text.now) }
{
    let text = after(text, gap(text, 0));
    let mut code = Code::new(alloc);
    let n = whole(alloc, &mut code, text, DEEPEST)?;
    if text.len() != n {
        return Err(ExprFault::Syntax);
    }
    Ok(Expr { code })
}

impl Expr {
    /// Returns the operand with a number that [`Expr::advance`] returned, for substitution. `None`
    /// if there is no operand with this number.
    pub fn operand(&self, number: usize) -> Option<&Word>
        ensures { MatchOption result (operand_at self.now number ≡ None) (λ w. operand_at self.now number ≡ Some (word_view w.now)) }
    {
        match self.code.ops.get(number) {
            None => None,
            Some(op) => op.operand(),
        }
    }
}
