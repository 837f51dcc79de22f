//! The filters that lines state.

ghost use Rattle.std.specs.Prelude.{◌≡◌, IfOk};
ghost use Rattle.script_reader.specs.Blocks.{insns_fault};
ghost use Rattle.script_reader.specs.Faults.{Judges};

use crate::error::Fault;
use crate::fault::{full, wrong_if};
use bpf_filter::{Filter, notify_on};
use hist_model::script::{FilterLine, Insn};
use hist_model::text::Sequence;
use lex_core::Reason;
use std::alloc::Global;
use std::marker::Model;
use std::mem;
use sys_abi::memory::{NoMemory, OrNoMemory};

/// The most filters of a script.
const MOST_FILTERS: usize = 16;

/// The filters that the lines above state: those that are closed, and the one that is open. Contracts see both.
#[derive(Drop)]
pub struct Filters {
    alloc: Global,
    closed: Vec<FilterLine>,
    insns: Vec<Insn>,
    listener: bool,
}

impl Model for Filters {
    ghost use Rattle.script_reader.specs.Blocks.{FiltersState};

    ghost Value = { FiltersState };

    ghost view = { λ f. record { closed = f.closed.items; insns = f.insns.items; listener = f.listener } };
}

impl Filters {
    ghost use Rattle.std.specs.Prelude.{◌≤◌, length, OnOk, true};
    ghost use Rattle.hist_model.specs.Filters.{notify_filter};
    ghost use Rattle.script_reader.specs.Faults.{Admits};
    ghost use Rattle.script_reader.specs.Blocks as definitions;

    /// No filters.
    pub fn new(alloc: Global) -> Filters
        ensures { result ≡ definitions.no_filters }
    {
        Filters {
            alloc,
            closed: Vec::new(alloc),
            insns: Vec::new(alloc),
            listener: false,
        }
    }

    /// Whether a closed filter has the listener.
    pub fn has_listener(&self) -> bool
        ensures { result ≡ definitions.has_listener self.now }
    {
        self.closed.iter().any(|filter| filter.listener)
    }

    /// Refuses a second filter with the listener (`SecondListener`), and more than 16 filters.
    fn refuse_filter(&self, listener: bool) -> Result<(), Fault>
        ensures { Judges (definitions.filter_fault self.now listener) result }
    {
        wrong_if(listener && self.has_listener(), Reason::SecondListener)?;
        full(MOST_FILTERS, self.closed.len())
    }

    /// Adds a filter that is accepted.
    fn push(&mut self, insns: Vec<Insn>, listener: bool) -> Result<(), NoMemory>
        ensures { OnOk result (self.new ≡ definitions.with_filter insns.items listener self.old) }
    {
        self.closed.push(FilterLine {
            insns: Sequence::new(insns),
            listener,
        })?;
        Ok(())
    }

    /// Adds the filter with the listener that notifies on these calls.
    pub fn add_notify(&mut self, calls: &[i32]) -> Result<(), OrNoMemory<Fault>>
        requires { length calls.now ≤ 64 }
        ensures { Admits (definitions.filter_fault self.old true) (definitions.with_filter (notify_filter calls.now) true self.old) result self.new }
    {
        self.refuse_filter(true).map_err(OrNoMemory::Refused)?;
        let filter = notify_on(self.alloc, calls)?;
        self.push(filter.into_insns(), true)?;
        Ok(())
    }

    /// Opens the block of a filter.
    pub fn open(&mut self, listener: bool) -> Result<(), OrNoMemory<Fault>>
        ensures { Admits (definitions.filter_fault self.old listener) (definitions.open_filter listener self.old) result self.new }
    {
        self.refuse_filter(listener).map_err(OrNoMemory::Refused)?;
        self.insns = Vec::new(self.alloc);
        self.listener = listener;
        Ok(())
    }

    /// Adds an instruction to the filter that is open.
    pub fn push_insn(&mut self, insn: Insn) -> Result<(), NoMemory>
        ensures { OnOk result (self.new ≡ definitions.with_insn insn self.old) }
    {
        self.insns.push(insn)?;
        Ok(())
    }

    /// Closes the block of the filter that is open. `BadFilter` comes where it isn't accepted.
    pub fn close(&mut self) -> Result<(), OrNoMemory<Fault>>
        ensures { Admits (definitions.insns_fault self.old.insns) (definitions.close_filter self.old) result self.new }
    {
        let insns = mem::replace(&mut self.insns, Vec::new(self.alloc));
        let filter = accepted(insns).map_err(OrNoMemory::Refused)?;
        self.push(filter.into_insns(), self.listener)?;
        self.listener = false;
        Ok(())
    }

    /// The filters that are closed.
    pub fn into_closed(self) -> Vec<FilterLine>
        ensures { result.items ≡ self.closed }
    {
        let Filters { closed, .. } = self;
        closed
    }
}

/// The filter of these instructions, where it is accepted.
fn accepted(insns: Vec<Insn>) -> Result<Filter, Fault>
    ensures judged { Judges (insns_fault insns.items) result }
    ensures same { IfOk result (λ f. f ≡ insns.items) }
{
    match Filter::check(insns) {
        Ok(filter) => Ok(filter),
        Err(_) => Err(Fault::Wrong(Reason::BadFilter)),
    }
}
