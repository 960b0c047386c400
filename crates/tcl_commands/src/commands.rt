//! The commands that evaluate no script.

ghost use Rattle.std.specs.Prelude.{◌≡◌, IfOk};
ghost use Rattle.tcl_commands.specs.Plain.{allowed, plain};

use crate::arrays::array;
use crate::ends::returns;
use crate::substituting::subst;
use crate::upvars::upvar;
use crate::variables::{append, global, incr, info, lappend, set, unset_names};
use crate::versions::{exp_version, package_command};
use command_table::{ValueCommand, fits, value_row};
use exp_match::Compiled;
use std::alloc::{AllocError, Global};
use tcl_formats::{format, scan};
use tcl_lists::{
    concat, join, lassign, lindex, linsert, list, llength, lrange, lrepeat, lreplace, lreverse,
    lsearch, lset, lsort, split,
};
use tcl_patterns::{regexp, regsub};
use tcl_results::given::arg;
use tcl_results::{Code, error, told, wrong_call};
use tcl_strings::string;
use tcl_subst::Vars;
use tcl_values::Value;
use tcl_words::Text;

/// Runs a command. Its row must allow the number of arguments.
fn allowed(
    alloc: Global,
    patterns: &mut Compiled,
    kind: ValueCommand,
    command: &[u8],
    args: &[Value],
    vars: &mut Vars,
) -> Result<(Code, Value), AllocError>
    ensures { IfOk result (λ r. allowed kind command.now args.now vars.old ≡ (r.0, r.1, vars.new)) }
{
    match kind {
        ValueCommand::Set => set(alloc, args, vars),
        ValueCommand::Unset => unset_names(alloc, args, vars),
        ValueCommand::Incr => incr(alloc, args, vars),
        ValueCommand::Append => append(alloc, args, vars),
        ValueCommand::Lappend => lappend(alloc, args, vars),
        ValueCommand::List => told(alloc, list(alloc, args)),
        ValueCommand::Llength => told(alloc, llength(alloc, args)),
        ValueCommand::Lindex => told(alloc, lindex(alloc, args)),
        ValueCommand::Lrange => told(alloc, lrange(alloc, args)),
        ValueCommand::Break => Ok((Code::Break, Value::new(alloc))),
        ValueCommand::Continue => Ok((Code::Continue, Value::new(alloc))),
        ValueCommand::Return => returns(alloc, command, args, vars),
        ValueCommand::Global => global(alloc, args, vars),
        ValueCommand::Upvar => upvar(alloc, args, vars),
        ValueCommand::Subst => subst(alloc, command, args, vars),
        ValueCommand::Error => error(alloc, Text::from_slice(alloc, arg(args, 0))?),
        ValueCommand::String => told(alloc, string(alloc, command, args)),
        ValueCommand::Info => told(alloc, info(alloc, command, args, vars)),
        ValueCommand::Split => told(alloc, split(alloc, args)),
        ValueCommand::Join => told(alloc, join(alloc, args)),
        ValueCommand::Concat => told(alloc, concat(alloc, args)),
        ValueCommand::Linsert => told(alloc, linsert(alloc, args)),
        ValueCommand::Lreplace => told(alloc, lreplace(alloc, args)),
        ValueCommand::Lset => lset(alloc, args, vars),
        ValueCommand::Lreverse => told(alloc, lreverse(alloc, args)),
        ValueCommand::Lrepeat => told(alloc, lrepeat(alloc, args)),
        ValueCommand::Lassign => lassign(alloc, args, vars),
        ValueCommand::Lsearch => told(alloc, lsearch(alloc, patterns, command, args)),
        ValueCommand::Lsort => told(alloc, lsort(alloc, command, args)),
        ValueCommand::Array => array(alloc, command, args, vars),
        ValueCommand::Format => told(alloc, format(alloc, command, args)),
        ValueCommand::Scan => scan(alloc, command, args, vars),
        ValueCommand::Regexp => regexp(alloc, patterns, command, args, vars),
        ValueCommand::Regsub => regsub(alloc, patterns, command, args, vars),
        ValueCommand::Package => told(alloc, package_command(alloc, command, args)),
        ValueCommand::ExpVersion => told(alloc, exp_version(alloc, command, args)),
        ValueCommand::Ignored => Ok((Code::Ok, Value::new(alloc))),
    }
}

/// Runs a command. Returns how it ended, and its value or the text of its error. `patterns` is a
/// cache.
///
/// On `AllocError` variables may have changed.
pub fn plain(
    alloc: Global,
    patterns: &mut Compiled,
    kind: ValueCommand,
    command: &[u8],
    args: &[Value],
    vars: &mut Vars,
) -> Result<(Code, Value), AllocError>
    ensures { IfOk result (λ r. plain kind command.now args.now vars.old ≡ (r.0, r.1, vars.new)) }
{
    if !fits(value_row(kind).count, args.len()) {
        return wrong_call(alloc, command);
    }
    allowed(alloc, patterns, kind, command, args, vars)
}
