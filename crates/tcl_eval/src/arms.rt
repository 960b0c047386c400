//! Evaluates the conditions and bodies of `if`.

ghost use Rattle.tcl_eval.specs.Meaning.{eval, otherwise as otherwise_of, arms as arms_of};
ghost use Rattle.tcl_eval.specs.Native.{CameIs, Spent, owed};

use crate::engine::Engine;
use crate::frame::Onward;
use crate::out::Leave;
use crate::stops::onward_below;
use tcl_control::Arms;
use tcl_values::Value;

impl Engine {
    /// Evaluates the body of the first condition that is true, or the body after `else`.
    #[cycle(native)]
    #[tactic(auto, unfolding(crate::specs::Rest::onward_rest))]
    pub(crate) fn choose(&mut self, arms: Arms, depth: u32) -> Result<Value, Leave>
        ensures measures { Spent self.old self.new 0 (owed 0 result) }
        ensures rest { CameIs self.old result self.new (λ k st. arms_of (eval depth) arms.0 arms.1 k st) }
    {
        let mut left = arms;
        'arms: loop {
            let Some((test, body)) = left.take() else {
                return self.otherwise(left, depth);
            };
            match self.text_truth(&test, depth) {
                Ok(true) => return self.text(&body, depth),
                Ok(false) => {}
                Err(leave) => {
                    let arms = left;
                    return Err(onward_below(leave, Onward::Arm { body, arms, depth }));
                }
            }
        }
    }

    /// Evaluates the body after `else`, if there is one.
    #[cycle(native)]
    fn otherwise(&mut self, arms: Arms, depth: u32) -> Result<Value, Leave>
        ensures measures { Spent self.old self.new 0 (owed 0 result) }
        ensures rest { CameIs self.old result self.new (λ k st. otherwise_of (eval depth) arms.1 k st) }
    {
        match arms.otherwise() {
            None => Ok(Value::new(self.alloc)),
            Some(body) => self.text(&body, depth),
        }
    }
}
