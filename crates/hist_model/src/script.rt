//! Scripts, as plain data: the settings of a container, its programs, and the order of steps.

use crate::event::{Actor, Disposition};
use crate::request::{Node, NodeRef};
use crate::text::{Sequence, Text};
use std::marker::Model;

/// A line of the tree: a node below a stated directory, or an attribute of a stated node.
#[derive(Debug, Drop)]
pub enum TreeLine {
    Made {
        parent: NodeRef,
        name: Text,
        node: Node,
    },
    Attr {
        on: NodeRef,
        name: Text,
        value: Text,
    },
}

/// Pages of 4096 bytes that are mapped in every address space, from an address on.
#[derive(Clone, Copy, PartialEq, Eq, Debug)]
pub struct MapRange {
    /// A multiple of 4096.
    pub start: u64,
    pub pages: u32,
}

/// An instruction of a filter (bpf(4), seccomp(2)).
#[derive(Clone, Copy, PartialEq, Eq, Debug)]
pub struct Insn {
    pub code: u16,
    pub jt: u8,
    pub jf: u8,
    pub k: u32,
}

/// A filter, and whether it has the listener.
#[derive(Debug, Drop)]
pub struct FilterLine {
    pub insns: Sequence<Insn>,
    pub listener: bool,
}

/// Whom a signal is for.
#[derive(Clone, Copy, PartialEq, Eq, Debug)]
pub enum Whom {
    Own,
    /// The number that the parent had when the task was made.
    Parent,
    /// The number that the K-th child got.
    Child(u32),
    Pid(u32),
}

/// An instruction of a program. A program is named by its place in the script, from 0.
#[derive(Debug, Drop)]
pub enum Instr {
    Poke { addr: u64, bytes: Text },
    /// Stores one byte `len` times.
    Fill { addr: u64, len: u32, byte: u8 },
    Call { nr: i32, args: [u64; 6] },
    Spawn { program: u32 },
    Thread { program: u32 },
    Kill { whom: Whom, sig: u8 },
    Handler { sig: u8, disposition: Disposition },
    Wait,
    Exit,
}

/// A line of the schedule: a task or a worker, and how often it steps.
#[derive(Debug, Drop)]
pub struct Step {
    pub who: Actor,
    pub count: u32,
}

/// What sysinfo(2) tells, in bytes, seconds for `uptime`, and tasks for `procs`. `memory` and `swap` are the
/// smallest limits of the container's control groups, and the host's are those of the first one.
#[derive(Clone, Copy, PartialEq, Eq, Debug)]
pub struct Figures {
    pub uptime: u64,
    pub used: u64,
    pub shared: u64,
    pub buffers: u64,
    pub swap_used: u64,
    pub memory: u64,
    pub swap: u64,
    pub host_memory: u64,
    pub host_swap: u64,
    pub procs: u16,
}

impl Figures {
    /// All are 0.
    pub const NONE: Figures = Figures {
        uptime: 0,
        used: 0,
        shared: 0,
        buffers: 0,
        swap_used: 0,
        memory: 0,
        swap: 0,
        host_memory: 0,
        host_swap: 0,
        procs: 0,
    };
}

/// What a task of a program does, with all tasks that it starts.
#[derive(Clone, Copy, PartialEq, Eq, Debug)]
pub struct Totals {
    /// How many instructions are executed, the end of a program that has no `exit` among them.
    pub executed: u64,
    pub calls: u64,
    /// How many tasks are started.
    pub starts: u64,
    /// How many bytes are stored by `poke` and `fill`.
    pub stored: u64,
    /// 0 if it starts no program, else one more than the greatest depth of those that it starts.
    pub depth: u64,
}

/// A container: its settings, its programs, of which the last one is the first task's, and a schedule. Every script keeps
/// the rules of its format: the ranges and limits of its parts, what one part says of another, and the names in its tree,
/// of which none stands twice in a directory.
#[derive(Debug)]
pub struct Script {
    /// PIDs go from `pidbase + 1` to `pidbase + pidmax`.
    pub pidbase: u32,
    pub pidmax: u32,
    /// The id of the first notification.
    pub firstid: u64,
    /// The number below which descriptors are installed.
    pub rlimit: u32,
    /// Whether the listener has SECCOMP_FILTER_FLAG_WAIT_KILLABLE_RECV.
    pub killable: bool,
    /// The container's root directory.
    pub root: NodeRef,
    pub figures: Figures,
    pub tree: Sequence<TreeLine>,
    /// The descriptors that are open in the broker.
    pub broker: Sequence<u32>,
    pub map: Sequence<MapRange>,
    /// The oldest filter first.
    pub filters: Sequence<FilterLine>,
    pub programs: Sequence<Sequence<Instr>>,
    pub schedule: Sequence<Step>,
}

impl Model for Script {
    ghost use Rattle.hist_model.specs.Records.{ScriptRecord};
    ghost use Rattle.hist_model.specs.ScriptRules.{IsScript};

    ghost Value = { ScriptRecord };

    ghost view = { λ s. record { pidbase = s.pidbase; pidmax = s.pidmax; firstid = s.firstid; rlimit = s.rlimit; killable = s.killable; root = s.root; figures = s.figures; tree = s.tree; broker = s.broker; map = s.map; filters = s.filters; programs = s.programs; schedule = s.schedule } };

    ghost invariant = { λ s. IsScript (record { pidbase = s.pidbase; pidmax = s.pidmax; firstid = s.firstid; rlimit = s.rlimit; killable = s.killable; root = s.root; figures = s.figures; tree = s.tree; broker = s.broker; map = s.map; filters = s.filters; programs = s.programs; schedule = s.schedule }) };
}

// (written out, so that what letting one go comes to is proved here once, and not in each crate that owns one)
impl Drop for Script {
    fn drop(self) {
        let Script {
            pidbase: _pidbase,
            pidmax: _pidmax,
            firstid: _firstid,
            rlimit: _rlimit,
            killable: _killable,
            root: _root,
            figures: _figures,
            tree: _tree,
            broker: _broker,
            map: _map,
            filters: _filters,
            programs: _programs,
            schedule: _schedule,
        } = self;
    }
}
