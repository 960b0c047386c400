//! `exp_continue`: an action goes back to its `expect` (expect(1)).

ghost use Rattle.std.specs.Prelude.{◌≡◌};
ghost use Rattle.tcl_results.specs.Says.{Says};
ghost use Rattle.expect_core.specs.Again.{again_code, continued as continued_of, continuing};

use crate::effect::Effects;
use crate::flags::{Flags, arguments};
use crate::turn::{Deed, Reply};
use command_table::ExpectCommand;
use std::alloc::Global;
use tcl_results::{Code, Complaint};
use tcl_values::Value;

/// Returns the code with which `exp_continue` ends.
fn continued(alloc: Global, name: &[u8], args: &[Value]) -> Result<Code, Complaint>
    ensures { Says result (continued_of name.now args.now) }
{
    let (flags, _) = arguments(alloc, ExpectCommand::ExpContinue, name, args)?;
    Ok(code_of(&flags))
}

/// Returns the code that keeps the timeout running with `-continue_timer`, or else restarts it.
fn code_of(flags: &Flags) -> Code
    ensures { result ≡ again_code flags.now }
{
    if flags.on {
        Code::AgainLater
    } else {
        Code::Again
    }
}

/// Returns what `exp_continue ?-continue_timer?` does.
pub(crate) fn exp_continue(alloc: Global, name: &[u8], args: &[Value]) -> Result<Deed, Complaint>
    ensures { Says result (continuing name.now args.now) }
{
    let code = continued(alloc, name, args)?;
    Ok(Deed::Alone(Effects::new(alloc), Reply::Done(code, Value::new(alloc))))
}
