//! The programs that lines state.

ghost use Rattle.std.specs.Prelude.{◌≡◌};
ghost use Rattle.script_reader.specs.Capped.{capped};
ghost use Rattle.script_reader.specs.Faults.{Judges};
ghost use Rattle.script_reader.specs.Programs.{instr_fault, starting};
ghost use Rattle.hist_model.specs.Totals.{totals_of};

use crate::error::Fault;
use crate::fault::{full, too_large_if, wrong_if};
use crate::ranges::are_mapped;
use crate::totals::{NOTHING, added_by, are_too_many, with_end, with_totals};
use hist_model::script::{Instr, MapRange, Totals};
use hist_model::text::Sequence;
use lex_core::Reason;
use std::alloc::Global;
use std::collections::BTreeMap;
use std::mem;
use sys_abi::memory::{NoMemory, OrNoMemory};

/// The most programs of a script.
const MOST_PROGRAMS: usize = 4096;

/// The programs that the lines above state: those that are closed, and the one that is open. What each comes to is
/// kept, not counted again.
#[derive(Drop)]
pub struct Programs {
    alloc: Global,
    places: BTreeMap<Vec<u8>, u32>,
    bodies: Vec<Sequence<Instr>>,
    totals: Vec<Totals>,
    name: Vec<u8>,
    body: Vec<Instr>,
    running: Totals,
    ghost counted: { running ≡ capped (totals_of totals.items body.items) },
}

/// Refuses an instruction that stores a byte where nothing is mapped.
pub fn refuse_instr(ranges: &[MapRange], instr: &Instr) -> Result<(), Fault>
    ensures { Judges (instr_fault ranges.now instr.now) result }
{
    match instr {
        Instr::Poke { addr, bytes } => wrong_if(
            !are_mapped(ranges, *addr, bytes.items().len()),
            Reason::Unmapped,
        ),
        Instr::Fill { addr, len, .. } => {
            wrong_if(!are_mapped(ranges, *addr, *len as usize), Reason::Unmapped)
        }
        _ => Ok(()),
    }
}

fn starting(thread: bool, program: u32) -> Instr
    ensures { result ≡ starting thread program }
{
    if thread {
        Instr::Thread { program }
    } else {
        Instr::Spawn { program }
    }
}

impl Programs {
    ghost use Rattle.std.specs.Prelude.{◌<◌, true, length, IfOk, OnOk, not};
    ghost use Rattle.script_reader.specs.Scripts.{has_items};
    ghost use Rattle.script_reader.specs.Views.{programs_in};
    ghost use Rattle.script_reader.specs.Faults.{Admits};
    ghost use Rattle.script_reader.specs.Programs as definitions;

    /// No programs.
    pub fn new(alloc: Global) -> Programs
        ensures { programs_in result ≡ definitions.no_programs }
    {
        Programs {
            alloc,
            places: BTreeMap::new(alloc),
            bodies: Vec::new(alloc),
            totals: Vec::new(alloc),
            name: Vec::new(alloc),
            body: Vec::new(alloc),
            running: NOTHING,
        }
    }

    /// The place of the closed program with this name.
    fn place(&self, name: &[u8]) -> Option<u32>
        ensures { result ≡ (programs_in self.now).place name.now }
    {
        self.places.get(name).copied()
    }

    /// Refuses a name that stands again, and more than 4096 programs.
    fn refuse_prog(&self, name: &[u8]) -> Result<(), Fault>
        ensures { Judges (definitions.prog_fault (programs_in self.now) name.now) result }
    {
        wrong_if(self.place(name).is_some(), Reason::Duplicate)?;
        full(MOST_PROGRAMS, self.bodies.len())
    }

    /// Opens the block of a program.
    pub fn open(&mut self, name: &[u8]) -> Result<(), OrNoMemory<Fault>>
        ensures { Admits (definitions.prog_fault (programs_in self.old) name.now) (definitions.open_program name.now (programs_in self.old)) result (programs_in self.new) }
    {
        self.refuse_prog(name).map_err(OrNoMemory::Refused)?;
        self.name = Vec::from_slice(self.alloc, name)?;
        self.body = Vec::new(self.alloc);
        self.running = NOTHING;
        Ok(())
    }

    /// Adds an instruction to the program that is open.
    #[inline(always)]
    #[tactic(auto, using(crate::proofs::Counts::totals_more))]
    pub fn push(&mut self, instr: Instr) -> Result<(), NoMemory>
        ensures { OnOk result (programs_in self.new ≡ definitions.with_instr instr (programs_in self.old)) }
    {
        let running = with_totals(self.running, added_by(&self.totals, &instr));
        self.body.push(instr)?;
        self.running = running;
        Ok(())
    }

    /// Adds an instruction that starts a program. `UnknownName` comes where no closed program has the name.
    pub fn push_start(&mut self, thread: bool, name: &[u8]) -> Result<(), OrNoMemory<Fault>>
        ensures { Admits (definitions.start_fault (programs_in self.old) name.now) (definitions.with_start thread name.now (programs_in self.old)) result (programs_in self.new) }
    {
        let Some(place) = self.place(name) else {
            return Err(OrNoMemory::Refused(Fault::Wrong(Reason::UnknownName)));
        };
        self.push(starting(thread, place))?;
        Ok(())
    }

    /// The name of the program that was open stands for a place.
    fn place_name(&mut self, place: u32) -> Result<(), NoMemory>
        ensures { OnOk result (programs_in self.new ≡ definitions.with_name place (programs_in self.old)) }
    {
        let name = mem::replace(&mut self.name, Vec::new(self.alloc));
        self.places.insert(name, place)?;
        Ok(())
    }

    /// What the program that is open comes to, where it isn't too much.
    fn open_totals(&self, exited: bool) -> Result<Totals, Fault>
        ensures judged { Judges (definitions.totals_fault exited (programs_in self.now)) result }
        ensures totals { IfOk result (λ t. t ≡ definitions.open_totals exited (programs_in self.now)) }
    {
        let totals = with_end(exited, self.running);
        too_large_if(are_too_many(totals))?;
        Ok(totals)
    }

    /// The program that is open joins the closed ones, with what it comes to.
    fn push_program(&mut self, totals: Totals) -> Result<(), NoMemory>
        ensures { OnOk result (programs_in self.new ≡ definitions.with_program totals (programs_in self.old)) }
    {
        let body = mem::replace(&mut self.body, Vec::new(self.alloc));
        self.running = NOTHING;
        self.bodies.push(Sequence::new(body))?;
        self.totals.push(totals)?;
        Ok(())
    }

    /// Closes the block of the program that is open.
    pub fn close(&mut self, exited: bool) -> Result<(), OrNoMemory<Fault>>
        ensures { Admits (definitions.totals_fault exited (programs_in self.old)) (definitions.close_program exited (programs_in self.old)) result (programs_in self.new) }
    {
        let totals = self.open_totals(exited).map_err(OrNoMemory::Refused)?;
        let place = u32::try_from(self.bodies.len()).map_err(|_| NoMemory)?;
        self.push_program(totals)?;
        self.place_name(place)?;
        Ok(())
    }

    /// Whether a program is closed.
    pub fn is_empty(&self) -> bool
        ensures { result ≡ not (has_items self.now.bodies.items) }
    {
        self.bodies.is_empty()
    }

    /// The programs that are closed.
    pub fn into_bodies(self) -> Vec<Sequence<Instr>>
        ensures { result.items ≡ (programs_in self).bodies }
    {
        let Programs { bodies, .. } = self;
        bodies
    }
}
