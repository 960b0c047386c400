//! Shows what a layer of exprun returns for standard input.
#![tactic(auto)]

mod buffers;
mod calls;
mod complaint;
mod expressions;
mod fills;
mod globs;
mod hosts;
mod patterns;
mod queues;
mod runs;
mod scans;
mod spell;
mod terminal;
mod variables;
mod words;

use crate::buffers::push_buffer;
use crate::calls::calls;
use crate::complaint::Complaint;
use crate::expressions::push_expressions;
use crate::globs::push_globs;
use crate::patterns::push_patterns;
use crate::queues::push_queue;
use crate::runs::push_runs;
use crate::scans::push_scan;
use crate::spell::alloc_of;
use crate::terminal::push_terminal;
use crate::variables::push_variables;
use crate::words::{push_commands, push_list, push_operand};
use std::alloc::Global;
use std::env;
use std::env::Env;
use std::io::{self, Read, Write};
use std::process::ExitCode;
use tcl_words::Text;

/// The exit status after an error.
const FAULT: u8 = 2;

/// What standard input is read as.
#[derive(Clone, Copy)]
enum Layer {
    /// A script, shown as its commands.
    Commands,
    /// A list.
    List,
    /// The text of an expression, shown as the operand at its front.
    Operand,
    /// Expressions, each with values of operands.
    Expression,
    /// The modes of a terminal, and texts that are sent to it.
    Terminal,
    /// Globs, each with a text.
    Glob,
    /// The arguments of an `expect`, and texts that are tested.
    Pattern,
    /// Calls of a match buffer.
    Buffer,
    /// Calls of a child's queue.
    Queue,
    /// The arguments of an `expect`, and data that is searched for its patterns.
    Scan,
    /// Calls on variables, and words whose values are shown.
    Variables,
    /// Scripts, each with a step limit, over a host that can wait.
    Scripts,
}

fn layer_of(name: &str) -> Option<Layer> {
    match name {
        "commands" => Some(Layer::Commands),
        "list" => Some(Layer::List),
        "operand" => Some(Layer::Operand),
        "expression" => Some(Layer::Expression),
        "terminal" => Some(Layer::Terminal),
        "glob" => Some(Layer::Glob),
        "pattern" => Some(Layer::Pattern),
        "buffer" => Some(Layer::Buffer),
        "queue" => Some(Layer::Queue),
        "scan" => Some(Layer::Scan),
        "variables" => Some(Layer::Variables),
        "scripts" => Some(Layer::Scripts),
        _ => None,
    }
}

fn asked(rt: &(impl Env + AllocGlobal), alloc: Global) -> Result<Layer, Complaint> {
    let words: Vec<String> = env::args(rt)?.collect(alloc)?;
    match words.as_slice() {
        [_, word] => layer_of(word.as_str()).ok_or(Complaint::Usage),
        _ => Err(Complaint::Usage),
    }
}

/// Appends what a layer returns for calls.
fn push_calls(text: &mut Text, layer: Layer, calls: &[Vec<Text>]) -> Result<(), Complaint> {
    match layer {
        Layer::Expression => push_expressions(text, calls),
        Layer::Terminal => push_terminal(text, calls),
        Layer::Glob => push_globs(text, calls),
        Layer::Pattern => push_patterns(text, calls),
        Layer::Buffer => push_buffer(text, calls),
        Layer::Queue => push_queue(text, calls),
        Layer::Variables => push_variables(text, calls),
        Layer::Scripts => push_runs(text, calls),
        _ => Err(Complaint::Usage),
    }
}

/// Appends what a layer returns for standard input.
fn push_shown(text: &mut Text, layer: Layer, src: &[u8]) -> Result<(), Complaint> {
    let alloc = alloc_of(text);
    match layer {
        Layer::Commands => Ok(push_commands(text, src)?),
        Layer::List => Ok(push_list(text, src)?),
        Layer::Operand => Ok(push_operand(text, src)?),
        Layer::Scan => push_scan(text, src),
        _ => push_calls(text, layer, &calls(alloc, src)?),
    }
}

fn run(rt: &HostRuntime) -> Result<(), Complaint> {
    let alloc = rt.alloc();
    let layer = asked(rt, alloc)?;
    let mut src = Vec::new(alloc);
    rt.stdin().read_to_end(&mut src)?;
    let mut text = Text::new(alloc);
    push_shown(&mut text, layer, &src)?;
    Ok(io::writer(rt).write_all(text.as_slice())?)
}

fn main(rt: HostRuntime) -> ExitCode {
    let complaint = match run(&rt) {
        Ok(()) => return ExitCode::SUCCESS,
        Err(Complaint::Usage) =>
            "usage: layer_show commands|list|operand|expression|terminal|glob|pattern|buffer|queue|scan|variables|scripts",
        Err(Complaint::Device) => "cannot read or write",
        Err(Complaint::Call) => "no call of this layer",
        Err(Complaint::Memory) => "out of memory",
    };
    let _ = eprintln!(rt; "layer_show: {complaint}");
    ExitCode::from(FAULT)
}
