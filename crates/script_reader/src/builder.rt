//! What the lines above state.

ghost use Rattle.std.specs.Prelude.{◌≡◌};
ghost use Rattle.script_reader.specs.Above.{opened_by, opens, section_after};

use crate::blocks::Filters;
use crate::error::{Fault, ScriptError};
use crate::fault::wrong_if;
use crate::file::ScriptFile;
use crate::plain::{PlainTurn, plain_turn};
use crate::programs::{Programs, refuse_instr};
use crate::ranges::{in_force, refuse_broker, refuse_range};
use crate::reading::read_line;
use crate::schedule::Schedule;
use crate::settings::{
    Settings, figures_of, no_settings, pidmax_of, refuse_again, refuse_pidbase, with_group,
};
use crate::statement::Statement;
use crate::totals::is_exit;
use crate::tree::StatedTree;
use crate::word::{Section, in_block};
use hist_model::request::{Node, NodeRef};
use hist_model::script::{Figures, Insn, Instr, MapRange, Script};
use hist_model::text::{Sequence, TaskName, Text};
use lex_core::{Line, Reason};
use std::alloc::Global;
use step_requests::Asked;
use step_requests::names::task_name;
use sys_abi::memory::{NoMemory, OrNoMemory};

/// What the lines above state, section by section.
#[derive(Drop)]
pub struct Builder {
    alloc: Global,
    section: Section,
    opened: u32,
    settings: Settings,
    tree: StatedTree,
    broker: Vec<u32>,
    map: Vec<MapRange>,
    filters: Filters,
    programs: Programs,
    schedule: Schedule,
}

/// The answer of a step of the builder.
type Admitted = Result<(), OrNoMemory<Fault>>;

/// Whether a statement opens a block.
fn opens(statement: &Statement<'_>) -> bool
    ensures { result ≡ opens statement.now }
{
    matches!(
        statement,
        Statement::Filter { .. } | Statement::Prog { .. } | Statement::Schedule
    )
}

impl Builder {
    ghost use Rattle.std.specs.Prelude.{◌<◌, ◌≤◌, false, true, length, is_some, IfOk, OnOk};
    ghost use Rattle.script_reader.specs.Faults.{Admits};
    ghost use Rattle.script_reader.specs.Above.{with_statement, statement_fault, nothing_above, end_fault, close_block, program_part};
    ghost use Rattle.script_reader.specs.Rules.{IsKept, IsSound};
    ghost use Rattle.script_reader.specs.Views.{above_in};
    ghost use Rattle.script_reader.specs.declared.statement.Statement.TheVariants as states;
    ghost use Rattle.script_reader.specs.declared.word.Section.TheVariants as section;

    /// Nothing is stated.
    pub fn new(alloc: Global) -> Result<Builder, NoMemory>
        ensures begins { IfOk result (λ b. above_in b ≡ nothing_above) }
        ensures kept { IfOk result (λ b. IsKept (above_in b)) }
    {
        Ok(Builder {
            alloc,
            section: Section::Settings,
            opened: 0,
            settings: no_settings(),
            tree: StatedTree::new(alloc)?,
            broker: Vec::new(alloc),
            map: Vec::new(alloc),
            filters: Filters::new(alloc),
            programs: Programs::new(alloc),
            schedule: Schedule::new(alloc),
        })
    }

    fn pidmax(&mut self, n: u32) -> Admitted
        ensures { Admits (statement_fault (states.Pidmax n) (above_in self.old)) (with_statement (states.Pidmax n) (above_in self.old)) result (above_in self.new) }
    {
        refuse_again(self.settings.pidmax.is_some()).map_err(OrNoMemory::Refused)?;
        self.settings.pidmax = Some(n);
        Ok(())
    }

    fn pidbase(&mut self, n: u32) -> Admitted
        ensures { Admits (statement_fault (states.Pidbase n) (above_in self.old)) (with_statement (states.Pidbase n) (above_in self.old)) result (above_in self.new) }
    {
        refuse_pidbase(&self.settings, n).map_err(OrNoMemory::Refused)?;
        self.settings.pidbase = Some(n);
        Ok(())
    }

    fn firstid(&mut self, n: u64) -> Admitted
        ensures { Admits (statement_fault (states.Firstid n) (above_in self.old)) (with_statement (states.Firstid n) (above_in self.old)) result (above_in self.new) }
    {
        refuse_again(self.settings.firstid.is_some()).map_err(OrNoMemory::Refused)?;
        self.settings.firstid = Some(n);
        Ok(())
    }

    fn rlimit(&mut self, n: u32) -> Admitted
        ensures { Admits (statement_fault (states.Rlimit n) (above_in self.old)) (with_statement (states.Rlimit n) (above_in self.old)) result (above_in self.new) }
    {
        refuse_again(self.settings.rlimit.is_some()).map_err(OrNoMemory::Refused)?;
        self.settings.rlimit = Some(n);
        Ok(())
    }

    fn killable(&mut self) -> Admitted
        ensures { Admits (statement_fault states.Killable (above_in self.old)) (with_statement states.Killable (above_in self.old)) result (above_in self.new) }
    {
        refuse_again(self.settings.killable).map_err(OrNoMemory::Refused)?;
        wrong_if(!self.filters.has_listener(), Reason::NoListener).map_err(OrNoMemory::Refused)?;
        self.settings.killable = true;
        Ok(())
    }

    fn figures(&mut self, figures: Figures) -> Admitted
        ensures { Admits (statement_fault (states.Figures figures) (above_in self.old)) (with_statement (states.Figures figures) (above_in self.old)) result (above_in self.new) }
    {
        refuse_again(self.settings.figures.is_some()).map_err(OrNoMemory::Refused)?;
        self.settings.figures = Some(figures);
        Ok(())
    }

    fn cgroup(&mut self, memory: u64, swap: u64) -> Admitted
        ensures { Admits (statement_fault (states.Cgroup memory swap) (above_in self.old)) (with_statement (states.Cgroup memory swap) (above_in self.old)) result (above_in self.new) }
    {
        self.settings.limits = Some(with_group(memory, swap, self.settings.limits));
        Ok(())
    }

    fn root(&mut self, path: &[u8]) -> Admitted
        ensures { Admits (statement_fault (states.Root path.now) (above_in self.old)) (with_statement (states.Root path.now) (above_in self.old)) result (above_in self.new) }
    {
        wrong_if(!self.tree.leads_to_directory(path), Reason::BadPath).map_err(
            OrNoMemory::Refused,
        )?;
        refuse_again(self.settings.root.is_some()).map_err(OrNoMemory::Refused)?;
        self.settings.root = Some(self.tree.node_at(path));
        Ok(())
    }

    fn node(&mut self, path: &[u8], node: Node) -> Admitted
        ensures { Admits (statement_fault (states.Node path.now node) (above_in self.old)) (with_statement (states.Node path.now node) (above_in self.old)) result (above_in self.new) }
    {
        self.tree.add_node(self.alloc, path, node)
    }

    fn attr(&mut self, path: &[u8], name: Text, value: Text) -> Admitted
        ensures { Admits (statement_fault (states.Attr path.now name value) (above_in self.old)) (with_statement (states.Attr path.now name value) (above_in self.old)) result (above_in self.new) }
    {
        self.tree.add_attr(path, name, value)
    }

    fn broker(&mut self, n: u32) -> Admitted
        ensures { Admits (statement_fault (states.Broker n) (above_in self.old)) (with_statement (states.Broker n) (above_in self.old)) result (above_in self.new) }
    {
        refuse_broker(&self.broker, n).map_err(OrNoMemory::Refused)?;
        self.broker.push(n)?;
        Ok(())
    }

    fn map(&mut self, range: MapRange) -> Admitted
        ensures { Admits (statement_fault (states.Map range) (above_in self.old)) (with_statement (states.Map range) (above_in self.old)) result (above_in self.new) }
    {
        refuse_range(&self.map, range).map_err(OrNoMemory::Refused)?;
        self.map.push(range)?;
        Ok(())
    }

    fn notify(&mut self, calls: &[i32]) -> Admitted
        requires { length calls.now ≤ 64 }
        ensures { Admits (statement_fault (states.Notify calls.now) (above_in self.old)) (with_statement (states.Notify calls.now) (above_in self.old)) result (above_in self.new) }
    {
        self.filters.add_notify(calls)
    }

    fn filter(&mut self, listener: bool) -> Admitted
        ensures { Admits (statement_fault (states.Filter listener) (above_in self.old)) (with_statement (states.Filter listener) (above_in self.old)) result (above_in self.new) }
    {
        self.filters.open(listener)?;
        self.section = Section::Filter;
        Ok(())
    }

    fn insn(&mut self, insn: Insn) -> Admitted
        ensures { Admits (statement_fault (states.Insn insn) (above_in self.old)) (with_statement (states.Insn insn) (above_in self.old)) result (above_in self.new) }
    {
        self.filters.push_insn(insn)?;
        Ok(())
    }

    fn prog(&mut self, name: &[u8]) -> Admitted
        ensures { Admits (statement_fault (states.Prog name.now) (above_in self.old)) (with_statement (states.Prog name.now) (above_in self.old)) result (above_in self.new) }
    {
        self.programs.open(name)?;
        self.section = Section::Program;
        Ok(())
    }

    fn does(&mut self, instr: Instr) -> Admitted
        ensures { Admits (statement_fault (states.Does instr) (above_in self.old)) (with_statement (states.Does instr) (above_in self.old)) result (above_in self.new) }
    {
        refuse_instr(&self.map, &instr).map_err(OrNoMemory::Refused)?;
        let exits = is_exit(&instr);
        self.programs.push(instr)?;
        self.section = section_after(exits, self.section);
        Ok(())
    }

    fn starts(&mut self, thread: bool, name: &[u8]) -> Admitted
        ensures { Admits (statement_fault (states.Starts thread name.now) (above_in self.old)) (with_statement (states.Starts thread name.now) (above_in self.old)) result (above_in self.new) }
    {
        self.programs.push_start(thread, name)
    }

    fn schedule(&mut self) -> Admitted
        ensures { Admits (statement_fault states.Schedule (above_in self.old)) (with_statement states.Schedule (above_in self.old)) result (above_in self.new) }
    {
        self.section = Section::Schedule;
        Ok(())
    }

    fn steps(&mut self, task: TaskName, count: u32) -> Admitted
        ensures { Admits (statement_fault (states.Steps task count) (above_in self.old)) (with_statement (states.Steps task count) (above_in self.old)) result (above_in self.new) }
    {
        self.schedule.push_task(task, count)
    }

    fn counts(&mut self, worker: u8, count: u32) -> Admitted
        requires { worker < 16 }
        ensures { Admits (statement_fault (states.Counts worker count) (above_in self.old)) (with_statement (states.Counts worker count) (above_in self.old)) result (above_in self.new) }
    {
        self.schedule.push_worker(worker, count)
    }

    fn asks(&mut self, worker: u8, asked: Asked) -> Admitted
        requires { worker < 16 }
        ensures { Admits (statement_fault (states.Asks worker asked) (above_in self.old)) (with_statement (states.Asks worker asked) (above_in self.old)) result (above_in self.new) }
    {
        self.schedule.push_request(worker, asked)
    }

    fn close_filter(&mut self) -> Admitted
        ensures { Admits (end_fault section.Filter (above_in self.old)) (close_block section.Filter (above_in self.old)) result (above_in self.new) }
    {
        self.filters.close()?;
        self.section = Section::Settings;
        Ok(())
    }

    fn close_program(&mut self, exited: bool) -> Admitted
        ensures { Admits (end_fault (program_part exited) (above_in self.old)) (close_block (program_part exited) (above_in self.old)) result (above_in self.new) }
    {
        self.programs.close(exited)?;
        self.section = Section::Programs;
        Ok(())
    }

    fn close_schedule(&mut self) -> Admitted
        ensures { Admits (end_fault section.Schedule (above_in self.old)) (close_block section.Schedule (above_in self.old)) result (above_in self.new) }
    {
        self.section = Section::Over;
        Ok(())
    }

    /// Closes the block that is open.
    fn end(&mut self) -> Admitted
        ensures { Admits (statement_fault states.End (above_in self.old)) (with_statement states.End (above_in self.old)) result (above_in self.new) }
    {
        match self.section {
            Section::Filter => self.close_filter(),
            Section::Program => self.close_program(false),
            Section::Exited => self.close_program(true),
            Section::Schedule => self.close_schedule(),
            _ => Ok(()),
        }
    }

    /// One more statement, or its fault beside the lines above. After an error nothing is said of the builder.
    fn admit(&mut self, statement: Statement<'_>) -> Admitted
        requires { IsSound self.old.section (is_some self.old.settings.pidbase) statement }
        ensures { Admits (statement_fault statement.entry (above_in self.old)) (with_statement statement.entry (above_in self.old)) result (above_in self.new) }
    {
        match statement {
            Statement::Pidmax(n) => self.pidmax(n),
            Statement::Pidbase(n) => self.pidbase(n),
            Statement::Firstid(n) => self.firstid(n),
            Statement::Rlimit(n) => self.rlimit(n),
            Statement::Killable => self.killable(),
            Statement::Node { path, node } => self.node(path.items(), node),
            Statement::Attr { path, name, value } => self.attr(path.items(), name, value),
            Statement::Root { path } => self.root(path.items()),
            Statement::Broker(n) => self.broker(n),
            Statement::Map(range) => self.map(range),
            Statement::Cgroup { memory, swap } => self.cgroup(memory, swap),
            Statement::Figures(figures) => self.figures(figures),
            Statement::Notify(calls) => self.notify(calls.items()),
            Statement::Filter { listener } => self.filter(listener),
            Statement::Insn(insn) => self.insn(insn),
            Statement::Prog { name } => self.prog(name.items()),
            Statement::Does(instr) => self.does(instr),
            Statement::Starts { thread, name } => self.starts(thread, name.items()),
            Statement::Schedule => self.schedule(),
            Statement::Steps { task, count } => self.steps(task, count),
            Statement::Counts { worker, count } => self.counts(worker, count),
            Statement::Asks { worker, asked } => self.asks(worker, asked),
            Statement::End => self.end(),
        }
    }
}

/// Where the lines after an instruction stand.
fn section_after(exits: bool, section: Section) -> Section
    ensures { result ≡ section_after exits section }
{
    if exits { Section::Exited } else { section }
}

/// The line that opened the last block.
fn opened_by(opens: bool, line: u32, before: u32) -> u32
    ensures { result ≡ opened_by opens line before }
{
    if opens { line } else { before }
}

impl Builder {
    ghost use Rattle.std.specs.Prelude.{Ok, is_some, true, IfOk, OnOk};
    ghost use Rattle.script_reader.specs.Above.{statement_fault, with_statement};
    ghost use Rattle.script_reader.specs.Lines.{line_statement, unless_faulty};
    ghost use Rattle.script_reader.specs.Faults.{Admits};
    ghost use Rattle.script_reader.specs.Outcomes.{Becomes, States, with_reading};
    ghost use Rattle.script_reader.specs.Plain.{AreSound, stated};
    ghost use Rattle.script_reader.specs.Rules.{AreTurns, IsKept, IsSound};
    ghost use Rattle.script_reader.specs.Scripts.{file_at_end, file_of, has_items};
    ghost use Rattle.script_reader.specs.Views.{above_in};

    /// A line with this number joins those above, where its statement has no fault beside them.
    fn join(&mut self, number: u32, statement: Statement<'_>) -> Admitted
        requires { IsSound self.old.section (is_some self.old.settings.pidbase) statement }
        ensures becomes { Becomes (with_reading number (unless_faulty (statement_fault statement.entry (above_in self.old)) statement.entry) (above_in self.old)) result (above_in self.new) }
        ensures kept { OnOk result (IsKept (above_in self.old) → IsKept (above_in self.new)) }
    {
        let opens = opens(&statement);
        self.admit(statement)?;
        self.opened = opened_by(opens, number, self.opened);
        Ok(())
    }

    /// A plain line joins those above, where it has no fault beside them. After an error nothing is said of the builder.
    fn turn(&mut self, turn: PlainTurn<'_>) -> Admitted
        requires { AreSound turn }
        ensures { Admits (statement_fault (stated turn.entry) (above_in self.old)) (with_statement (stated turn.entry) (above_in self.old)) result (above_in self.new) }
    {
        match turn {
            PlainTurn::Task { name, count } => {
                let task = task_name(self.alloc, name)?;
                self.steps(task, count)
            }
            PlainTurn::Worker { worker, count } => self.counts(worker, count),
        }
    }

    /// Reads a line after those above. After an error nothing is said of the builder.
    #[inline(always)]
    pub fn read(&mut self, line: &Line<'_>) -> Admitted
        ensures becomes { Becomes (with_reading line.now.number (line_statement (above_in self.old) (Ok line.now.tokens)) (above_in self.old)) result (above_in self.new) }
        ensures kept { OnOk result (IsKept (above_in self.old) → IsKept (above_in self.new)) }
    {
        if let Some(turn) = plain_turn(self.section, line.tokens.items()) {
            return self.turn(turn);
        }
        let base_is_stated = self.settings.pidbase.is_some();
        let statement = read_line(self.alloc, self.section, base_is_stated, line)?;
        self.join(line.number, statement)
    }

    /// What the lines make, where all blocks are closed and there is a program.
    pub fn finish(self) -> Result<ScriptFile, OrNoMemory<ScriptError>>
        requires { IsKept (above_in self) }
        ensures made { States (file_at_end (above_in self)) result }
        ensures turns { IfOk result (λ file. AreTurns file.turns) }
    {
        if in_block(self.section) {
            return Err(OrNoMemory::Refused(ScriptError::BadLine {
                line: self.opened,
                reason: Reason::NotClosed,
            }));
        }
        if self.programs.is_empty() {
            return Err(OrNoMemory::Refused(ScriptError::BadLine {
                line: 0,
                reason: Reason::NoProgram,
            }));
        }
        Ok(self.into_file()?)
    }

    /// The script of all settings, each that isn't stated having its default, and the turns.
    fn into_file(self) -> Result<ScriptFile, NoMemory>
        requires kept { IsKept (above_in self) }
        requires some { has_items self.programs.bodies.items ≡ true }
        ensures { IfOk result (λ file. file ≡ file_of (above_in self)) }
    {
        let Builder {
            alloc,
            settings,
            tree,
            broker,
            map,
            filters,
            programs,
            schedule,
            ..
        } = self;
        let (counts, turns) = schedule.into_lines();
        let script = Script {
            pidbase: settings.pidbase.unwrap_or(0),
            pidmax: pidmax_of(&settings),
            firstid: settings.firstid.unwrap_or(1),
            rlimit: settings.rlimit.unwrap_or(1024),
            killable: settings.killable,
            root: settings.root.unwrap_or(NodeRef { ordinal: 0 }),
            figures: figures_of(&settings),
            tree: Sequence::new(tree.into_lines()),
            broker: Sequence::new(broker),
            map: Sequence::new(Vec::from_slice(alloc, in_force(&map))?),
            filters: Sequence::new(filters.into_closed()),
            programs: Sequence::new(programs.into_bodies()),
            schedule: Sequence::new(counts),
        };
        Ok(ScriptFile {
            script,
            turns: Sequence::new(turns),
        })
    }
}
