//! The commands of the language that evaluate scripts or expressions.

ghost use Rattle.std.specs.Prelude.{◌≡◌, [], Some};
ghost use Rattle.tcl_results.specs.Texts.{wrong_args};
ghost use Rattle.tcl_results.specs.declared.code.Code.TheVariants as code;
ghost use Rattle.tcl_control.specs.Verbs.{exit_status};
ghost use Rattle.tcl_host.specs.declared.ending.Ending.TheVariants.{Exit};
ghost use Rattle.tcl_eval.specs.declared.frame.End.TheVariants.{Stopped};
ghost use Rattle.tcl_eval.specs.Meaning.{Next, eval, invoked, while_command, for_command, proc_command, catch_command, on_said};
ghost use Rattle.tcl_eval.specs.Native.{Knows, Spent, CameIs, left, leave_weight, owed};
ghost use Rattle.tcl_eval.specs.Tree.{Over, State};

use crate::engine::Engine;
use crate::frame::{End, Mode, Onward, Turning};
use crate::out::{Exception, Leave, came, given};
use crate::procs::reserved;
use crate::stops::{onward_below, stopped};
use std::alloc::Global;
use tcl_commands::plain;
use tcl_control::{Verb, arms_of, body_of_switch, each_of, exit_status, verb_of};
use tcl_host::Ending;
use tcl_lists::{eval_text, expr_text};
use tcl_results::wrong_args;
use tcl_values::Value;

/// Returns the error `wrong # args`.
fn wrong(alloc: Global, name: &[u8]) -> Leave
    ensures rest { Knows result → (k : Next) (st : State) → left result st k ≡ k code.Error (wrong_args name.now) st }
    ensures weight { leave_weight result ≡ 0 }
{
    match wrong_args(alloc, name) {
        Ok(text) => match Value::from_text(alloc, text) {
            Ok(text) => Leave::Gone(Exception::Error, text),
            Err(_) => Leave::Memory,
        },
        Err(_) => Leave::Memory,
    }
}

impl Engine {
    /// Carries out a command of the language.
    #[cycle(native)]
    pub(crate) fn verb(
        &mut self,
        verb: Verb,
        name: &[u8],
        args: &[Value],
        depth: u32,
    ) -> Result<Value, Leave>
        ensures measures { Spent self.old self.new 6 (owed 0 result) }
        ensures rest { CameIs self.old result self.new (λ k st. invoked (eval depth) verb name.now args.now k st) }
    {
        match verb {
            Verb::Plain(kind) => {
                let patterns = &mut self.patterns;
                let (code, value) = plain(self.alloc, patterns, kind, name, args, &mut self.vars)?;
                came(code, value)
            }
            Verb::If => self.if_command(name, args, depth),
            Verb::While => self.while_command(name, args, depth),
            Verb::For => self.for_command(name, args, depth),
            Verb::Foreach => self.foreach_command(name, args, depth),
            Verb::Proc => self.proc_command(name, args),
            Verb::Expr => self.expr_command(name, args, depth),
            Verb::Eval => self.eval_command(name, args, depth),
            Verb::Catch => self.catch_command(name, args, depth),
            Verb::Exit => self.exit_command(name, args),
            Verb::Switch => self.switch_command(name, args, depth),
        }
    }

    /// Carries out `if c ?then? b ?elseif c ?then? b? .. ?else? ?b?`.
    #[cycle(native)]
    #[inline(never)]
    fn if_command(&mut self, name: &[u8], args: &[Value], depth: u32) -> Result<Value, Leave>
        ensures measures { Spent self.old self.new 6 (owed 0 result) }
        ensures rest { CameIs self.old result self.new (λ k st. invoked (eval depth) Verb.If name.now args.now k st) }
    {
        let arms = given(self.alloc, arms_of(self.alloc, name, args))?;
        self.choose(arms, depth)
    }

    /// Carries out `while c b`.
    #[cycle(native)]
    #[inline(never)]
    fn while_command(&mut self, name: &[u8], args: &[Value], depth: u32) -> Result<Value, Leave>
        ensures measures { Spent self.old self.new 6 (owed 0 result) }
        ensures rest { CameIs self.old result self.new (λ k st. while_command (eval depth) name.now args.now k st) }
    {
        let [test, body] = args else {
            return Err(wrong(self.alloc, name));
        };
        let test = self.test(test)?;
        let body = self.read.script_of(self.alloc, body)?;
        let turning = Turning {
            test,
            body,
            next: None,
            bound: self.left,
        };
        self.turns(turning, depth)
    }

    /// Carries out `for a c n b`.
    #[cycle(native)]
    #[inline(never)]
    #[tactic(auto, unfolding(crate::specs::Rest::onward_rest))]
    fn for_command(&mut self, name: &[u8], args: &[Value], depth: u32) -> Result<Value, Leave>
        ensures measures { Spent self.old self.new 6 (owed 0 result) }
        ensures rest { CameIs self.old result self.new (λ k st. for_command (eval depth) name.now args.now k st) }
    {
        let [start, test, next, body] = args else {
            return Err(wrong(self.alloc, name));
        };
        match self.text(start, depth) {
            Ok(_) => self.started(test, next, body, depth),
            Err(leave) => {
                let start = Onward::Start {
                    test: test.shared(self.alloc)?,
                    next: next.shared(self.alloc)?,
                    body: body.shared(self.alloc)?,
                    depth,
                };
                Err(onward_below(leave, start))
            }
        }
    }

    /// Carries out `foreach names list b`.
    #[cycle(native)]
    #[inline(never)]
    fn foreach_command(&mut self, name: &[u8], args: &[Value], depth: u32) -> Result<Value, Leave>
        ensures measures { Spent self.old self.new 6 (owed 0 result) }
        ensures rest { CameIs self.old result self.new (λ k st. invoked (eval depth) Verb.Foreach name.now args.now k st) }
    {
        let (groups, body) = given(self.alloc, each_of(self.alloc, name, args))?;
        let body = self.read.script_of(self.alloc, &body)?;
        self.each_turns(groups, &body, depth)
    }

    /// Carries out `proc name args b`.
    #[inline(never)]
    fn proc_command(&mut self, name: &[u8], args: &[Value]) -> Result<Value, Leave>
        ensures measures { Spent self.old self.new 6 (owed 0 result) }
        ensures rest { CameIs self.old result self.new (λ k st. proc_command name.now args.now k st) }
    {
        let [new, formals, body] = args else {
            return Err(wrong(self.alloc, name));
        };
        if let Some(_) = verb_of(new.as_slice()) {
            let text = reserved(self.alloc, new.as_slice())?;
            return Err(Leave::Gone(Exception::Error, text));
        }
        let at = Mode::Define {
            name: new.shared(self.alloc)?,
            formals: formals.shared(self.alloc)?,
            body: body.shared(self.alloc)?,
        };
        Err(stopped(self.alloc, at))
    }

    /// Carries out `expr word ..`.
    #[cycle(native)]
    #[inline(never)]
    fn expr_command(&mut self, name: &[u8], args: &[Value], depth: u32) -> Result<Value, Leave>
        ensures measures { Spent self.old self.new 6 (owed 0 result) }
        ensures rest { CameIs self.old result self.new (λ k st. invoked (eval depth) Verb.Expr name.now args.now k st) }
    {
        let text = given(self.alloc, expr_text(self.alloc, name, args))?;
        let test = self.test(&text)?;
        self.result(test, depth)
    }

    /// Carries out `eval word ..`.
    #[cycle(native)]
    #[inline(never)]
    fn eval_command(&mut self, name: &[u8], args: &[Value], depth: u32) -> Result<Value, Leave>
        ensures measures { Spent self.old self.new 6 (owed 0 result) }
        ensures rest { CameIs self.old result self.new (λ k st. invoked (eval depth) Verb.Eval name.now args.now k st) }
    {
        let text = given(self.alloc, eval_text(self.alloc, name, args))?;
        self.text(&text, depth)
    }

    /// Carries out `catch script ?name?`.
    #[cycle(native)]
    #[inline(never)]
    #[tactic(auto, unfolding(crate::specs::Rest::frame_rest))]
    fn catch_command(&mut self, name: &[u8], args: &[Value], depth: u32) -> Result<Value, Leave>
        ensures measures { Spent self.old self.new 6 (owed 0 result) }
        ensures rest { CameIs self.old result self.new (λ k st. catch_command (eval depth) name.now args.now k st) }
    {
        match args {
            [script] => {
                let out = self.text(script, depth);
                self.caught_as(None, out)
            }
            [script, variable] => {
                let variable = variable.shared(self.alloc)?;
                let out = self.text(script, depth);
                self.caught_as(Some(variable), out)
            }
            _ => Err(wrong(self.alloc, name)),
        }
    }

    /// Carries out `switch ?flags? text {pattern body ..}`.
    #[cycle(native)]
    #[inline(never)]
    fn switch_command(&mut self, name: &[u8], args: &[Value], depth: u32) -> Result<Value, Leave>
        ensures measures { Spent self.old self.new 6 (owed 0 result) }
        ensures rest { CameIs self.old result self.new (λ k st. invoked (eval depth) Verb.Switch name.now args.now k st) }
    {
        let body = body_of_switch(self.alloc, &mut self.patterns, name, args);
        match given(self.alloc, body)? {
            None => Ok(Value::new(self.alloc)),
            Some(body) => self.text(&body, depth),
        }
    }

    /// Carries out `exit ?n?`.
    #[inline(never)]
    fn exit_command(&mut self, name: &[u8], args: &[Value]) -> Result<Value, Leave>
        ensures measures { Spent self.old self.new 6 (owed 0 result) }
        ensures rest { CameIs self.old result self.new (λ k st. on_said (exit_status name.now args.now) k (λ n st. Over (Stopped (Exit n)) st) st) }
    {
        let status = given(self.alloc, exit_status(self.alloc, name, args))?;
        let end = End::Stopped(Ending::Exit(status));
        Err(stopped(self.alloc, Mode::Ended(end)))
    }
}
