//! The text of a script's requests.

ghost use Rattle.std.specs.Prelude.{◌≡◌, ◌++◌, OnOk};
ghost use Rattle.report_texts.specs.Report.{labelled, ask_words, ask_line, ask_lines, asks_part};

use crate::acts::{Spelling, push_act};
use crate::texts::push_labelled;
use session::Request;
use std::alloc::{AllocError, Global};
use tcl_words::Text;

/// Appends a request, with the number of its child.
#[tactic(auto, unfolding(crate::specs::Report::ask_words))]
pub(crate) fn push_ask_words(
    alloc: Global,
    text: &mut Text,
    request: &Request,
) -> Result<(), AllocError>
    ensures { OnOk result (text.new ≡ text.old ++ ask_words request.now) }
{
    push_labelled(alloc, text, b"ask ", u128::from(request.child))?;
    text.push(b' ')?;
    push_act(alloc, text, Spelling::Hex, &request.act)
}

/// Appends the line of a request.
fn push_ask(alloc: Global, text: &mut Text, request: &Request) -> Result<(), AllocError>
    ensures { OnOk result (text.new ≡ text.old ++ ask_line request.now) }
{
    push_ask_words(alloc, text, request)?;
    text.push(b'\n')
}

fn push_asks(alloc: Global, text: &mut Text, requests: &[Request]) -> Result<(), AllocError>
    ensures { OnOk result (text.new ≡ text.old ++ ask_lines requests.now) }
{
    for request in requests {
        push_ask(alloc, text, request)?;
    }
    Ok(())
}

/// Appends the lines of requests, in order, if they are shown.
pub fn push_shown_asks(
    alloc: Global,
    text: &mut Text,
    shown: bool,
    requests: &[Request],
) -> Result<(), AllocError>
    ensures { OnOk result (text.new ≡ text.old ++ asks_part shown requests.now) }
{
    if !shown {
        return Ok(());
    }
    push_asks(alloc, text, requests)
}
