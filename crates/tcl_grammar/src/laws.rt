//! The law of the grammar. Its function does nothing at run time: its contract is the law.

ghost use Rattle.std.specs.Prelude.{◌≡◌, ◌↔◌, ℕ, List, Ok, Err, Some, None};
ghost use Rattle.tcl_words.specs.Pieces.{Spelled};
ghost use Rattle.tcl_words.specs.Commands.{next_command};
ghost use Rattle.tcl_words.specs.declared.faults.WordFault.{WordFault};
ghost use Rattle.tcl_grammar.specs.CommandRules.{IsNext, IsLast};

/// States the law of the grammar. From an index on, the reader finds a command exactly if the rules
/// give it, with the same words and the same end. It finds none exactly if the rules leave no
/// bytes. The rules therefore give at most one command, and none if the reader returns an error.
pub fn command_rules()
    ensures some { (text : List ℕ) (at next : ℕ) (words : List Spelled) → (next_command text at ≡ Ok (Some (words, next))) ↔ IsNext text at words next }
    ensures none { (text : List ℕ) (at : ℕ) → (next_command text at ≡ Ok None) ↔ IsLast text at }
    ensures one { (text : List ℕ) (at j k : ℕ) (v w : List Spelled) → IsNext text at v j → IsNext text at w k → (v ≡ w) × (j ≡ k) }
    ensures fault { (text : List ℕ) (at next : ℕ) (words : List Spelled) (e : WordFault) → next_command text at ≡ Err e → (¬ IsNext text at words next) × (¬ IsLast text at) }
{}
