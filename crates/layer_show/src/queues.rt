//! Shows the order in which a child's items and the echo of sent bytes are taken.

use crate::calls::{name_in, number};
use crate::complaint::Complaint;
use crate::spell::{alloc_of, push_hex_line, push_string};
use child_events::{Item, Queue};
use std::alloc::{AllocError, Global};
use tcl_words::Text;

/// Appends a line for an item: its moment, and its bytes, `end` or `failed`.
fn push_item(text: &mut Text, moment: u64, item: &Item) -> Result<(), AllocError> {
    let alloc = alloc_of(text);
    push_string(text, format!(in alloc; "{moment} "))?;
    match item {
        Item::Out(bytes) => push_hex_line(text, bytes.as_slice()),
        Item::Eof => text.extend(b"end\n"),
        Item::ReadFail(_) => text.extend(b"failed\n"),
    }
}

/// Takes an item and appends its line, or `none` if there is no item.
fn push_next(text: &mut Text, queue: &mut Queue) -> Result<(), AllocError> {
    let Some((moment, item)) = queue.next() else {
        return text.extend(b"none\n");
    };
    push_item(text, moment, &item)
}

/// Carries out `out` or `echo`, with a moment and bytes.
fn put_bytes(
    alloc: Global,
    queue: &mut Queue,
    name: &str,
    moment: &Text,
    bytes: &Text,
) -> Result<(), Complaint> {
    let moment = number(moment)?;
    match name {
        "out" => Ok(queue.push(moment, Item::Out(bytes.copied(alloc)?))?),
        "echo" => Ok(queue.insert_echo(moment, bytes.as_slice())?),
        _ => Err(Complaint::Call),
    }
}

fn put_end(queue: &mut Queue, moment: &Text) -> Result<(), Complaint> {
    Ok(queue.push(number(moment)?, Item::Eof)?)
}

fn on_call(text: &mut Text, queue: &mut Queue, call: &[Text]) -> Result<(), Complaint> {
    match call {
        [name] if name.as_slice() == b"next".as_slice() => Ok(push_next(text, queue)?),
        [name, moment] if name.as_slice() == b"end".as_slice() => put_end(queue, moment),
        [name, moment, bytes] => {
            put_bytes(
                alloc_of(text),
                queue,
                name_in(name.as_slice()),
                moment,
                bytes,
            )
        }
        _ => Err(Complaint::Call),
    }
}

fn on_calls(text: &mut Text, queue: &mut Queue, calls: &[Vec<Text>]) -> Result<(), Complaint> {
    'calls: for call in calls {
        on_call(text, queue, call.as_slice())?;
    }
    Ok(())
}

/// Carries out calls of a queue. `out`, a moment and bytes: output of the child. `echo`, a moment
/// and bytes: bytes sent to it. `end` and a moment: the end of its output. `next`: takes an item,
/// and appends its line.
pub fn push_queue(text: &mut Text, calls: &[Vec<Text>]) -> Result<(), Complaint> {
    let mut queue = Queue::new(alloc_of(text));
    on_calls(text, &mut queue, calls)
}
