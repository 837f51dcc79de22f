//! What lines state.

ghost use Rattle.std.specs.Prelude.{◌≡◌, pos, IfOk, map};
ghost use Rattle.script_reader.specs.Statements as definitions;

use crate::operand::{Addressee, addressee_in, begins_number};
use crate::operands::{Operands, token_bytes};
use crate::word::Word;
use hist_model::event::Disposition;
use hist_model::request::Node;
use hist_model::script::{Figures, Insn, Instr, MapRange, Whom};
use hist_model::text::{Sequence, TaskName, Text};
use lex_core::{Token, TokenBytes};
use std::alloc::{AllocError, Global};
use step_requests::Asked;
use step_requests::names::task_name;
use sys_abi::calls::call_number;
use sys_abi::memory::NoMemory;

/// What a line states, from its own tokens alone. Numbers keep the ranges of their operands.
#[derive(Drop)]
pub enum Statement<'a> {
    /// `pidmax`, 1 to 4194304.
    Pidmax(u32),
    /// `pidbase`, 0 to 4194303.
    Pidbase(u32),
    /// `firstid`.
    Firstid(u64),
    /// `rlimit`, 0 to 4096.
    Rlimit(u32),
    /// `killable`: the listener has SECCOMP_FILTER_FLAG_WAIT_KILLABLE_RECV.
    Killable,
    /// A node of the tree.
    Node {
        path: TokenBytes<'a>,
        node: Node,
    },
    /// `attr`, an attribute of a stated node.
    Attr {
        path: TokenBytes<'a>,
        name: Text,
        value: Text,
    },
    /// `root`, the container's root.
    Root {
        path: TokenBytes<'a>,
    },
    /// `broker`, a descriptor that is open in the broker.
    Broker(u32),
    /// `map`.
    Map(MapRange),
    /// `cgroup`, the limits of a control group, in bytes.
    Cgroup {
        memory: u64,
        swap: u64,
    },
    /// `figures`. Those of the control groups are 0.
    Figures(Figures),
    /// `notify`, the filter with the listener that notifies on these calls.
    Notify(Sequence<i32>),
    /// `filter`, which opens the block of a filter.
    Filter {
        listener: bool,
    },
    /// An instruction of the filter that is open.
    Insn(Insn),
    /// `prog`, which opens the block of a program.
    Prog {
        name: TokenBytes<'a>,
    },
    /// An instruction of the program that is open, but for those that start programs.
    Does(Instr),
    /// `spawn`, or `thread`.
    Starts {
        thread: bool,
        name: TokenBytes<'a>,
    },
    /// `schedule`, which opens the block of the schedule.
    Schedule,
    /// `t`, steps of a task.
    Steps {
        task: TaskName,
        count: u32,
    },
    /// `w` with a count, or alone: steps of a worker, 0 to 15.
    Counts {
        worker: u8,
        count: u32,
    },
    /// `w` with a request: what a worker of another broker asks the kernel for, 0 to 15.
    Asks {
        worker: u8,
        asked: Asked,
    },
    /// `end`, of the block that is open.
    End,
}

/// The bytes of the operand at a place; none after the last one.
fn bytes_at<'a>(operands: &Operands<'a>, place: usize) -> &'a [u8]
    ensures { result.now ≡ definitions.bytes_at operands.now place }
{
    match operands.tokens().get(place) {
        Some(token) => token_bytes(token),
        None => &[],
    }
}

/// A copy of the bytes of the operand at a place; none after the last one.
fn text_at(alloc: Global, operands: &Operands<'_>, place: usize) -> Result<Text, AllocError>
    ensures { IfOk result (λ text. text ≡ definitions.bytes_at operands.now place) }
{
    Ok(Text::new(Vec::from_slice(alloc, bytes_at(operands, place))?))
}

/// The number of 8 bits at a place, and 0 where there is none.
fn byte_at(operands: &Operands<'_>, place: usize) -> u8
    ensures { result ≡ definitions.byte_at operands.now place }
{
    u8::try_from(operands.number_at(place)).unwrap_or(0)
}

/// The number of 16 bits at a place, and 0 where there is none.
fn half_at(operands: &Operands<'_>, place: usize) -> u16
    ensures { result ≡ definitions.half_at operands.now place }
{
    u16::try_from(operands.number_at(place)).unwrap_or(0)
}

/// The number of 32 bits at a place, and 0 where there is none.
fn word_at(operands: &Operands<'_>, place: usize) -> u32
    ensures { result ≡ definitions.word_at operands.now place }
{
    u32::try_from(operands.number_at(place)).unwrap_or(0)
}

/// The number of 64 bits at a place, and 0 where there is none.
fn wide_at(operands: &Operands<'_>, place: usize) -> u64
    ensures { result ≡ definitions.wide_at operands.now place }
{
    u64::try_from(operands.number_at(place)).unwrap_or(0)
}

/// An argument of a call, modulo 2^64; 0 where it is missing.
fn argument_at(operands: &Operands<'_>, place: usize) -> u64
    ensures { result ≡ definitions.argument_at operands.now place }
{
    (operands.number_at(place).cast_unsigned() % (1 << 64)) as u64
}

/// The number of the call with this name, and 0 where there is none.
fn call_named(name: &[u8]) -> i32
    ensures { result ≡ definitions.call_named name.now }
{
    call_number(name).unwrap_or(0)
}

/// The number of a call at a place, below 2^31, and 0 where there is none.
fn call_number_at(operands: &Operands<'_>, place: usize) -> i32
    ensures { result ≡ pos (definitions.limited_at (2147483648) operands.now place) }
{
    match u32::try_from(operands.number_at(place)) {
        Ok(number) if number < 0x8000_0000 => number as i32,
        _ => 0,
    }
}

/// The number of the call that the first operand states by its number or its name.
fn first_call(operands: &Operands<'_>) -> i32
    ensures { result ≡ definitions.call_at operands.now 0 }
{
    if begins_number(bytes_at(operands, 0)) {
        call_number_at(operands, 0)
    } else {
        operands.call(0).unwrap_or(0)
    }
}

/// How often an actor of the schedule steps.
fn count_at(operands: &Operands<'_>, place: usize) -> u32
    ensures { result ≡ definitions.count_at operands.now place }
{
    if operands.tokens().len() == 1 {
        1
    } else {
        word_at(operands, place)
    }
}

fn disposition_of(name: &[u8]) -> Disposition
    ensures { result ≡ definitions.disposition_of name.now }
{
    if name == b"restart".as_slice() {
        Disposition::Restart
    } else if name == b"plain".as_slice() {
        Disposition::Plain
    } else {
        Disposition::Default
    }
}

fn kill(operands: &Operands<'_>) -> Instr
    ensures { result ≡ definitions.kill_of (definitions.addressee_in operands.now) operands.now }
{
    let (whom, sig) = match addressee_in(operands.tokens()) {
        Addressee::Child => (Whom::Child(word_at(operands, 1)), byte_at(operands, 2)),
        Addressee::Pid => (Whom::Pid(word_at(operands, 1)), byte_at(operands, 2)),
        Addressee::Parent => (Whom::Parent, byte_at(operands, 1)),
        _ => (Whom::Own, byte_at(operands, 1)),
    };
    Instr::Kill { whom, sig }
}

fn figures(operands: &Operands<'_>) -> Figures
    ensures { result ≡ definitions.stated_figures operands.now }
{
    Figures {
        uptime: wide_at(operands, 0),
        used: wide_at(operands, 1),
        shared: wide_at(operands, 2),
        buffers: wide_at(operands, 3),
        swap_used: wide_at(operands, 4),
        memory: 0,
        swap: 0,
        host_memory: 0,
        host_swap: 0,
        procs: half_at(operands, 5),
    }
}

fn arguments(operands: &Operands<'_>) -> [u64; 6]
    ensures { result ≡ definitions.arguments operands.now }
{
    [
        argument_at(operands, 1),
        argument_at(operands, 2),
        argument_at(operands, 3),
        argument_at(operands, 4),
        argument_at(operands, 5),
        argument_at(operands, 6),
    ]
}

fn call(operands: &Operands<'_>) -> Instr
    ensures { result ≡ definitions.call_of operands.now }
{
    Instr::Call {
        nr: first_call(operands),
        args: arguments(operands),
    }
}

/// The bytes of the first operand, where they stand; none where there is none.
fn first_bytes<'a>(operands: &Operands<'a>) -> TokenBytes<'a>
    ensures { result ≡ definitions.bytes_at operands.now 0 }
{
    TokenBytes::in_line(bytes_at(operands, 0))
}

fn node<'a>(operands: &Operands<'a>, node: Node) -> Statement<'a>
    ensures { result ≡ definitions.node_stated operands.now node }
{
    Statement::Node {
        path: first_bytes(operands),
        node,
    }
}

fn link<'a>(alloc: Global, operands: &Operands<'a>) -> Result<Statement<'a>, AllocError>
    ensures { IfOk result (λ s. s ≡ definitions.link_stated operands.now) }
{
    Ok(node(operands, Node::Link(text_at(alloc, operands, 1)?)))
}

fn attr<'a>(alloc: Global, operands: &Operands<'a>) -> Result<Statement<'a>, AllocError>
    ensures { IfOk result (λ s. s ≡ definitions.attr_stated operands.now) }
{
    Ok(Statement::Attr {
        path: first_bytes(operands),
        name: text_at(alloc, operands, 1)?,
        value: text_at(alloc, operands, 2)?,
    })
}

fn poke(alloc: Global, operands: &Operands<'_>) -> Result<Instr, AllocError>
    ensures { IfOk result (λ i. i ≡ definitions.poke_of operands.now) }
{
    Ok(Instr::Poke {
        addr: wide_at(operands, 0),
        bytes: text_at(alloc, operands, 1)?,
    })
}

fn call_numbers(alloc: Global, names: &[Token<'_>]) -> Result<Vec<i32>, AllocError>
    ensures { IfOk result (λ numbers. numbers.items ≡ definitions.calls_named names.now) }
{
    names
        .iter()
        .map(|name| call_named(token_bytes(name)))
        .collect(alloc)
}

fn steps<'a>(alloc: Global, operands: &Operands<'a>) -> Result<Statement<'a>, NoMemory>
    ensures { IfOk result (λ s. s ≡ definitions.steps_stated operands.now) }
{
    Ok(Statement::Steps {
        task: task_name(alloc, bytes_at(operands, 0))?,
        count: count_at(operands, 1),
    })
}

fn counts<'a>(operands: &Operands<'a>) -> Statement<'a>
    ensures { result ≡ definitions.counts_stated operands.now }
{
    Statement::Counts {
        worker: byte_at(operands, 0),
        count: count_at(operands, 1),
    }
}

/// What a line with this word states, where its operands have no fault. Texts that the script keeps are copied, but for paths and names.
pub fn statement_of<'a>(
    alloc: Global,
    word: Word,
    operands: &Operands<'a>,
) -> Result<Statement<'a>, NoMemory>
    ensures { IfOk result (λ s. s ≡ definitions.statement word operands.now) }
{
    Ok(match word {
        Word::Pidmax => Statement::Pidmax(word_at(operands, 0)),
        Word::Pidbase => Statement::Pidbase(word_at(operands, 0)),
        Word::Firstid => Statement::Firstid(wide_at(operands, 0)),
        Word::Rlimit => Statement::Rlimit(word_at(operands, 0)),
        Word::Killable => Statement::Killable,
        Word::Dir => node(operands, Node::Dir),
        Word::Reg => node(operands, Node::Reg),
        Word::Fifo => node(operands, Node::Fifo),
        Word::Sock => node(operands, Node::Sock),
        Word::Link => link(alloc, operands)?,
        Word::Chr => {
            let device = Node::Chr(word_at(operands, 1), word_at(operands, 2));
            node(operands, device)
        }
        Word::Blk => {
            let device = Node::Blk(word_at(operands, 1), word_at(operands, 2));
            node(operands, device)
        }
        Word::Attr => attr(alloc, operands)?,
        Word::Root => Statement::Root {
            path: first_bytes(operands),
        },
        Word::Broker => Statement::Broker(word_at(operands, 0)),
        Word::Map => Statement::Map(MapRange {
            start: wide_at(operands, 0),
            pages: word_at(operands, 1),
        }),
        Word::Cgroup => Statement::Cgroup {
            memory: wide_at(operands, 0),
            swap: wide_at(operands, 1),
        },
        Word::Figures => Statement::Figures(figures(operands)),
        Word::Notify => Statement::Notify(Sequence::new(call_numbers(alloc, operands.tokens())?)),
        Word::Filter => Statement::Filter {
            listener: !operands.tokens().is_empty(),
        },
        Word::Prog => Statement::Prog {
            name: first_bytes(operands),
        },
        Word::Poke => Statement::Does(poke(alloc, operands)?),
        Word::Fill => Statement::Does(Instr::Fill {
            addr: wide_at(operands, 0),
            len: word_at(operands, 1),
            byte: byte_at(operands, 2),
        }),
        Word::Call => Statement::Does(call(operands)),
        Word::Spawn => Statement::Starts {
            thread: false,
            name: first_bytes(operands),
        },
        Word::Thread => Statement::Starts {
            thread: true,
            name: first_bytes(operands),
        },
        Word::Kill => Statement::Does(kill(operands)),
        Word::Handler => Statement::Does(Instr::Handler {
            sig: byte_at(operands, 0),
            disposition: disposition_of(bytes_at(operands, 1)),
        }),
        Word::Wait => Statement::Does(Instr::Wait),
        Word::Exit => Statement::Does(Instr::Exit),
        Word::Schedule => Statement::Schedule,
        Word::Task => steps(alloc, operands)?,
        Word::Worker => counts(operands),
        Word::End => Statement::End,
    })
}
