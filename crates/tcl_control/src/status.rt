//! The exit status of `exit`.

ghost use Rattle.tcl_results.specs.Says.{Says};
ghost use Rattle.tcl_control.specs.Verbs.{status_of, exit_status};
ghost use Rattle.tcl_expr.specs.Number.{number_of};

use std::alloc::Global;
use tcl_expr::read_number;
use tcl_results::{Complaint, quoted, wrong};
use tcl_values::Value;

/// Returns the exit status of `exit ?status?`: a number from 0 to 255, by default 0.
pub fn exit_status(alloc: Global, command: &[u8], args: &[Value]) -> Result<u8, Complaint>
    ensures { Says result (exit_status command.now args.now) }
{
    match args {
        [] => Ok(0),
        [status] => status_of(alloc, status.as_slice()),
        [_, _, ..] => Err(wrong(alloc, command)),
    }
}

fn status_of(alloc: Global, text: &[u8]) -> Result<u8, Complaint>
    ensures { Says result (status_of text.now (number_of text.now)) }
{
    match read_number(text) {
        None => Err(Complaint::Said(quoted(alloc, b"bad exit status ", text)?)),
        Some(number) => {
            if 0 <= number && number <= 255 {
                return Ok(number as u8);
            }
            Err(Complaint::Said(quoted(alloc, b"bad exit status ", text)?))
        }
    }
}
