//! A cache of parsed texts.

ghost use Rattle.std.specs.Prelude.{◌≡◌, Ok, IfOk, IfSome};
ghost use Rattle.tcl_expr.specs.Grammar.{parsed};
ghost use Rattle.tcl_expr.specs.Reads.{Gives};

use crate::evaluation::Test;
use crate::places::Places;
use std::alloc::{AllocError, Global};
use std::marker::Model;
use tcl_expr::ExprFault;
use tcl_scripts::Script;
use tcl_values::Value;

/// A cache of parsed scripts and expressions.
///
/// A text of at most 512 bytes has one of 128 places among the scripts, and one among the
/// expressions. A place keeps the last text parsed. A lookup therefore takes one pass over the text
/// and at most one comparison. Longer texts are parsed each time.
///
/// A contract sees nothing of the cache: results are the same with and without it.
#[derive(Drop)]
pub(crate) struct ReadTexts {
    scripts: Places<Script>,
    tests: Places<Test>,
}

impl Model for ReadTexts {
    ghost use Rattle.std.specs.Prelude.{⊤};

    ghost Value = { ⊤ };

    ghost view = { λ _. tt };
}

impl ReadTexts {
    /// Creates an empty cache without allocating.
    pub(crate) fn new(alloc: Global) -> ReadTexts {
        ReadTexts {
            scripts: Places::new(alloc),
            tests: Places::new(alloc),
        }
    }

    /// Returns the script of these bytes. They are copied only if they are parsed.
    pub(crate) fn script(&mut self, alloc: Global, text: &[u8]) -> Result<Script, AllocError>
        ensures { IfOk result (λ s. s ≡ text.now) }
    {
        if let Some(script) = self.kept_script(text) {
            return script.shared();
        }
        let script = Script::read(alloc, Value::from_slice(alloc, text)?)?;
        self.keep_script(&script);
        Ok(script)
    }

    /// Returns the script of a text, without copying it.
    pub(crate) fn script_of(&mut self, alloc: Global, text: &Value) -> Result<Script, AllocError>
        ensures { IfOk result (λ s. s ≡ text.now) }
    {
        if let Some(script) = self.kept_script(text.as_slice()) {
            return script.shared();
        }
        let script = Script::read(alloc, text.shared(alloc)?)?;
        self.keep_script(&script);
        Ok(script)
    }

    /// Returns the expression of a text, without copying it.
    pub(crate) fn test(&mut self, alloc: Global, text: &Value) -> Result<Test, ExprFault>
        ensures { Gives result (parsed text.now) }
    {
        if let Some(test) = self.kept_test(text.as_slice()) {
            return Ok(test.shared()?);
        }
        let test = Test::parse(alloc, text)?;
        self.keep_test(&test);
        Ok(test)
    }

    /// Returns the script of a text, if it is in the cache.
    fn kept_script(&self, text: &[u8]) -> Option<&Script>
        ensures { IfSome result (λ s. s.now ≡ text.now) }
    {
        let script = self.scripts.at(text)?;
        if script.text() == text {
            return Some(script);
        }
        None
    }

    /// Keeps a script, if its text is short enough and memory allows.
    fn keep_script(&mut self, script: &Script) {
        if let Ok(kept) = script.shared() {
            self.scripts.keep(script.text(), kept);
        }
    }

    /// Returns the expression of a text, if it is in the cache.
    fn kept_test(&self, text: &[u8]) -> Option<&Test>
        ensures { IfSome result (λ t. parsed text.now ≡ Ok t.now) }
    {
        let test = self.tests.at(text)?;
        if test.text() == text {
            return Some(test);
        }
        None
    }

    /// Keeps an expression, if its text is short enough and memory allows.
    fn keep_test(&mut self, test: &Test) {
        if let Ok(kept) = test.shared() {
            self.tests.keep(test.text(), kept);
        }
    }
}
