//! Reads flags at the front of the arguments.

ghost use Rattle.std.specs.Prelude.{◌≡◌, false, codes};
ghost use Rattle.tcl_results.specs.Front.{front, front_of, has_flag, start_word, SaysFront};

use crate::complaint::Complaint;
use crate::given::{arg, behind};
use crate::texts::{bad_flag, wrong};
use command_table::{
    Switches, begins_with_minus, fits, is, is_end, switch_of, takes_value, words_behind,
};
use std::alloc::Global;
use tcl_values::Value;

/// Returns the number of flags with their values, and the index of the first argument after them.
/// At least `tail` words follow each flag.
#[tactic(auto, using(crate::proofs::Fronts::front_value, crate::proofs::Fronts::front_short, crate::proofs::Fronts::front_plain, crate::proofs::Fronts::front_bad, crate::proofs::Fronts::front_stop, crate::proofs::Fronts::front_on, crate::proofs::Fronts::front_out))]
pub fn front(
    alloc: Global,
    allowed: Switches,
    tail: usize,
    args: &[Value],
) -> Result<(usize, usize), Complaint>
    ensures { SaysFront args.now result (front allowed tail args.now) }
{
    let mut at = 0;
    let mut due = false;
    while at < args.len() {
        if due {
            due = false;
            at += 1;
            continue;
        }
        let word = arg(args, at);
        if args.len() - at <= tail {
            return Ok((at, at));
        }
        if !begins_with_minus(word) {
            return Ok((at, at));
        }
        let Some(switch) = switch_of(allowed, word) else {
            return Err(Complaint::Said(bad_flag(alloc, word)?));
        };
        if is_end(switch) {
            return Ok((at, at + 1));
        }
        due = takes_value(switch);
        at += 1;
    }
    Ok((at, at))
}

/// Does the same for a command with flags before all its words. The error is `wrong # args` unless
/// as many words follow as the command allows.
pub fn front_of(
    alloc: Global,
    allowed: Switches,
    command: &[u8],
    args: &[Value],
) -> Result<(usize, usize), Complaint>
    ensures { SaysFront args.now result (front_of allowed command.now args.now) }
{
    let (count, from) = front(alloc, allowed, 0, args)?;
    if fits(words_behind(allowed), behind(args, from).len()) {
        return Ok((count, from));
    }
    Err(wrong(alloc, command))
}

/// Returns whether a flag is given.
pub fn has_flag(flags: &[Value], flag: &[u8]) -> bool
    ensures { result ≡ has_flag flag.now flags.now }
{
    flags.iter().any(|f| is(f.as_slice(), flag))
}

/// Returns the value of the last `-start`, by default 0.
pub fn start_word(flags: &[Value]) -> &[u8]
    ensures { result.now ≡ start_word false (codes "0") flags.now }
{
    let mut last: &[u8] = b"0";
    let mut due = false;
    let mut rest = flags;
    while let [word, more @ ..] = rest {
        let word = word.as_slice();
        rest = more;
        if due {
            last = word;
            due = false;
            continue;
        }
        due = is(word, b"-start");
    }
    last
}
