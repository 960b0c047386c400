//! Advice on commands that have no row: what to use instead.

ghost use Rattle.std.specs.Prelude.{◌≡◌};
ghost use Rattle.command_table.specs.Advice.{first_of, waiting, choosing, lists, texts, files, telling, expecting, starting, advice_for};

use crate::commands::is;

/// Returns advice on commands that wait or tell the time.
fn waiting(word: &[u8]) -> &'static [u8]
    ensures { result.now ≡ waiting word.now }
{
    if is(word, b"update") || is(word, b"vwait") {
        b"expect waits"
    } else if is(word, b"time") {
        b"a record has the time of each event"
    } else {
        b""
    }
}

/// Returns advice on choices, procedures and errors.
fn choosing(word: &[u8]) -> &'static [u8]
    ensures { result.now ≡ choosing word.now }
{
    if is(word, b"case") {
        b"use switch"
    } else if is(word, b"apply") {
        b"use proc"
    } else if is(word, b"try") {
        b"use catch"
    } else if is(word, b"throw") {
        b"use error"
    } else if is(word, b"uplevel") {
        b"use global, or return the value"
    } else if is(word, b"namespace") || is(word, b"variable") {
        b"use a prefix of the names"
    } else {
        b""
    }
}

/// Returns advice on commands for lists and arrays.
fn lists(word: &[u8]) -> &'static [u8]
    ensures { result.now ≡ lists word.now }
{
    if is(word, b"dict") {
        b"use the elements of an array"
    } else if is(word, b"lmap") {
        b"use foreach and lappend"
    } else {
        b""
    }
}

/// Returns advice on commands for texts.
fn texts(word: &[u8]) -> &'static [u8]
    ensures { result.now ≡ texts word.now }
{
    if is(word, b"binary") || is(word, b"encoding") {
        b"texts are bytes"
    } else {
        b""
    }
}

/// Returns advice on commands for files and the system.
fn files(word: &[u8]) -> &'static [u8]
    ensures { result.now ≡ files word.now }
{
    if is(word, b"seek")
        || is(word, b"tell")
        || is(word, b"fconfigure")
        || is(word, b"fcopy")
        || is(word, b"fileevent")
        || is(word, b"fblocked")
        || is(word, b"socket")
    {
        b"use a child that reads or writes: spawn cat FILE"
    } else if is(word, b"cd") {
        b"use spawn sh -c {cd folder && exec program}"
    } else if is(word, b"glob") {
        b"use exec ls"
    } else {
        b""
    }
}

/// Returns advice on commands for output and logging.
fn telling(word: &[u8]) -> &'static [u8]
    ensures { result.now ≡ telling word.now }
{
    if is(word, b"send_tty") || is(word, b"send_log") {
        b"use send_user"
    } else if is(word, b"exp_send_tty") || is(word, b"exp_send_log") {
        b"use send_user"
    } else if is(word, b"tclLog") {
        b"use puts"
    } else if is(word, b"log_file") || is(word, b"exp_log_file") {
        b"the report has the transcript; --record writes every event"
    } else {
        b""
    }
}

/// Returns advice on Expect commands that wait.
fn expecting(word: &[u8]) -> &'static [u8]
    ensures { result.now ≡ expecting word.now }
{
    if is(word, b"interact") || is(word, b"exp_interact") {
        b"keep expect for scripts that interact"
    } else if is(word, b"expect_user") || is(word, b"expect_tty") {
        b"set the answer at the top of the script"
    } else if is(word, b"expect_background") {
        b"use several -i in one expect"
    } else {
        b""
    }
}

/// Returns advice on Expect commands for terminals and processes.
fn starting(word: &[u8]) -> &'static [u8]
    ensures { result.now ≡ starting word.now }
{
    if is(word, b"stty") || is(word, b"exp_stty") {
        b"set stty_init before the spawn"
    } else if is(word, b"fork") || is(word, b"exp_fork") {
        b"run several scripts together"
    } else if is(word, b"disconnect") || is(word, b"exp_disconnect") {
        b"start exprun in the background: nohup exprun run FILE &"
    } else {
        b""
    }
}

/// Returns the first of two texts unless it is empty, otherwise the second.
fn first_of(a: &'static [u8], b: &'static [u8]) -> &'static [u8]
    ensures { result.now ≡ first_of a.now b.now }
{
    if a.is_empty() { b } else { a }
}

/// Returns what to use instead of a command that has no row. Empty if there is no advice.
#[tactic(auto, unfolding(crate::specs::Advice::advice_for))]
pub fn advice_for(word: &[u8]) -> &'static [u8]
    ensures { result.now ≡ advice_for word.now }
{
    first_of(
        waiting(word),
        first_of(
            choosing(word),
            first_of(
                lists(word),
                first_of(
                    texts(word),
                    first_of(
                        files(word),
                        first_of(telling(word), first_of(expecting(word), starting(word))),
                    ),
                ),
            ),
        ),
    )
}
