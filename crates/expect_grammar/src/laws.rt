//! The laws of the rules. The functions do nothing at run time: their contracts are the laws.

ghost use Rattle.std.specs.Prelude.{◌≡◌, ◌↔◌, ◌⊎◌, ℕ, Bool, true, List, Ok, Err};
ghost use Rattle.regex.specs.Failures.{IsPattern};
ghost use Rattle.regex_syntax.specs.Verdict.{Refuses};
ghost use Rattle.regex_syntax.specs.declared.error.ErrorKind.{ErrorKind};
ghost use Rattle.regex_syntax.specs.declared.error.ErrorKind.TheVariants.{OutOfMemory};
ghost use Rattle.exp_match.specs.Arguments.{patterns_of};
ghost use Rattle.exp_match.specs.Grammar.{RePattern};
ghost use Rattle.exp_match.specs.Scan.{is_pattern};
ghost use Rattle.exp_match.specs.Unbuilt.{IsGivenFor, IsUnbuilt};
ghost use Rattle.exp_match.specs.Written.{Written, config_of};
ghost use Rattle.exp_match.specs.declared.faults.PatternFault.{PatternFault};
ghost use Rattle.exp_match.specs.declared.list.PatternList.{PatternList};
ghost use Rattle.tty.specs.Modes.{read};
ghost use Rattle.tty.specs.declared.modes.BadMode.{BadMode};
ghost use Rattle.tty.specs.declared.modes.Modes.{Modes};
ghost use Rattle.expect_core.specs.Flags.{flags_of};
ghost use Rattle.expect_core.specs.declared.flags.Flags.{Flags};
ghost use Rattle.command_table.specs.declared.flags.Flags.{Flags as Takes};
ghost use Rattle.expect_grammar.specs.ArgumentRules.{Write, AreBad};
ghost use Rattle.expect_grammar.specs.FlagRules.{Say, Fail};
ghost use Rattle.expect_grammar.specs.ModeRules.{SetModes, FirstBad};
ghost use Rattle.expect_grammar.specs.PatternTexts.{IsRead};

/// States the law of the arguments of `expect`. They are read as a list of patterns exactly if the
/// rules give that list. An error is returned exactly if the rules find that first bad argument.
/// The rules therefore give one list or one bad argument, and never both.
pub fn argument_rules()
    ensures list { (args : List (List ℕ)) (list : PatternList) → (patterns_of args ≡ Ok list) ↔ Write args list }
    ensures fault { (args : List (List ℕ)) (f : PatternFault) → (patterns_of args ≡ Err f) ↔ AreBad args f }
    ensures one { (args : List (List ℕ)) (v w : PatternList) → Write args v → Write args w → v ≡ w }
    ensures one_bad { (args : List (List ℕ)) (f g : PatternFault) → AreBad args f → AreBad args g → f ≡ g }
    ensures never_both { (args : List (List ℕ)) (list : PatternList) (f : PatternFault) → Write args list → ¬ AreBad args f }
{}

/// States the law of the words of `stty_init`. They give modes exactly if the rules give them, and
/// an error exactly if the rules find that first bad word. The rules therefore give one set of
/// modes or one bad word, and never both.
pub fn mode_rules()
    ensures modes { (words : List (List ℕ)) (m : Modes) → (read words ≡ Ok m) ↔ SetModes words m }
    ensures fault { (words : List (List ℕ)) (e : BadMode) → (read words ≡ Err e) ↔ FirstBad words e.at }
    ensures one { (words : List (List ℕ)) (m n : Modes) → SetModes words m → SetModes words n → m ≡ n }
    ensures one_bad { (words : List (List ℕ)) (i j : ℕ) → FirstBad words i → FirstBad words j → i ≡ j }
    ensures never_both { (words : List (List ℕ)) (m : Modes) (at : ℕ) → SetModes words m → ¬ FirstBad words at }
{}

/// States the law of the flags of commands other than `expect`. They are read with a meaning and a
/// rest exactly if the rules give these. A command fails with a text exactly if the rules find that
/// first error.
///
/// For any words, the rules therefore give one meaning and one rest, or one text, and never both.
pub fn flag_rules()
    ensures flags { (name : List ℕ) (takes : Takes) (words : List (List ℕ)) (f : Flags) (rest : List (List ℕ)) → (flags_of name takes words ≡ Ok (f, rest)) ↔ Say takes words f rest }
    ensures fault { (name : List ℕ) (takes : Takes) (words : List (List ℕ)) (text : List ℕ) → (flags_of name takes words ≡ Err text) ↔ Fail name takes words text }
    ensures one { (takes : Takes) (words : List (List ℕ)) (f g : Flags) (rest behind : List (List ℕ)) → Say takes words f rest → Say takes words g behind → (f ≡ g) × (rest ≡ behind) }
    ensures one_fault { (name : List ℕ) (takes : Takes) (words : List (List ℕ)) (v w : List ℕ) → Fail name takes words v → Fail name takes words w → v ≡ w }
    ensures never_both { (name : List ℕ) (takes : Takes) (words : List (List ℕ)) (f : Flags) (rest : List (List ℕ)) (text : List ℕ) → Say takes words f rest → ¬ Fail name takes words text }
    ensures always { (name : List ℕ) (takes : Takes) (words : List (List ℕ)) → ((f : Flags) × (rest : List (List ℕ)) × Say takes words f rest) ⊎ ((text : List ℕ) × Fail name takes words text) }
{}

/// States the law of regular patterns. `regex` parses the text that it gets for each pattern, with
/// or without case and line anchors, and the text nests no deeper than `regex` allows. It therefore
/// refuses none, except for memory. A build that fails for another reason fails because the program
/// would be too big.
pub fn patterns_are_read()
    ensures rules { (text : List ℕ) (nocase lines : Bool) → RePattern text → IsRead nocase lines text }
    ensures read { (text : List ℕ) (nocase lines : Bool) → is_pattern text ≡ true → IsRead nocase lines text }
    ensures memory { (text given : List ℕ) (nocase lines : Bool) (kind : ErrorKind) → is_pattern text ≡ true → IsGivenFor text given → Refuses (config_of nocase lines) given kind → kind ≡ OutOfMemory }
    ensures refused { (w : Written) → IsUnbuilt w → (given : List ℕ) × IsGivenFor w.source given × IsPattern (config_of w.nocase w.lines) given }
{}
