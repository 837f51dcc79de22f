//! The script of generated input.

ghost use Rattle.std.specs.Prelude.{◌≡◌, ◌<◌, ◌≤◌, ◌++◌, ◌∷◌, [], IfOk, OnOk, pos};
ghost use Rattle.hist_model.specs.declared.script.Instr.TheVariants.{Call};
ghost use Rattle.sys_abi.specs.Calls.{nr_mknod};
ghost use Rattle.generated_input.specs.GeneratedScript as definitions;

use crate::fate::{Fate, fate_of};
use bpf_filter::notify_on;
use hist_model::event::Actor;
use hist_model::request::NodeRef;
use hist_model::script::{Figures, FilterLine, Instr, MapRange, Script, Step, Whom};
use hist_model::text::{Sequence, TaskName, Text};
use std::alloc::Global;
use sys_abi::calls;
use sys_abi::memory::NoMemory;
use sys_abi::signals::SIGKILL;

/// Where a call's task stores the path.
const PATH_ADDRESS: u64 = 0x10000;

/// Where the figures of sysinfo(2) go.
const FIGURES_ADDRESS: u64 = 0x11000;

/// The mode of a character device with 0666 (mknod(2)).
const DEVICE_MODE: u64 = 0o020666;

/// The mode of a FIFO with 0666 (mknod(2)).
const FIFO_MODE: u64 = 0o010666;

/// The device 1:3, `/dev/null` (null(4)).
const NULL_DEVICE: u64 = 259;

/// The device 1:1, `/dev/mem` (mem(4)).
const MEMORY_DEVICE: u64 = 257;

/// The path of call i, with the zero byte that ends it.
fn path_of(alloc: Global, i: u32) -> Result<Text, NoMemory>
    ensures { IfOk result (λ t. t ≡ definitions.path_of i) }
{
    let path = format!(in alloc; "/a{i}\0")?;
    Ok(Text::new(path.into_bytes()))
}

/// A mknod of the path.
fn mknod_call(mode: u64, dev: u64) -> Instr
    ensures { result ≡ Call (pos nr_mknod) (definitions.mknod_arguments mode dev) }
{
    Instr::Call {
        nr: calls::MKNOD,
        args: [PATH_ADDRESS, mode, dev, 0, 0, 0],
    }
}

/// The call of a fate.
fn call_of(fate: Fate) -> Instr
    ensures { result ≡ definitions.call_of fate }
{
    match fate {
        Fate::Granted | Fate::Killed => mknod_call(DEVICE_MODE, NULL_DEVICE),
        Fate::Denied => mknod_call(DEVICE_MODE, MEMORY_DEVICE),
        Fate::Passed => mknod_call(FIFO_MODE, 0),
        Fate::Informed => Instr::Call {
            nr: calls::SYSINFO,
            args: [FIGURES_ADDRESS, 0, 0, 0, 0, 0],
        },
    }
}

/// The program of call i's task.
fn caller(alloc: Global, from: u64, i: u32) -> Result<Sequence<Instr>, NoMemory>
    ensures { IfOk result (λ p. p ≡ definitions.caller from i) }
{
    let poke = Instr::Poke {
        addr: PATH_ADDRESS,
        bytes: path_of(alloc, i)?,
    };
    let body = vec![in alloc; poke, call_of(fate_of(from, i))]?;
    Ok(Sequence::new(body))
}

/// The programs of the calls' tasks.
#[tactic(auto, using(crate::proofs::Each::each_none, crate::proofs::Each::each_more))]
fn callers(alloc: Global, from: u64, count: u32) -> Result<Vec<Sequence<Instr>>, NoMemory>
    ensures { IfOk result (λ v. v.items ≡ definitions.callers from count) }
{
    let mut programs = Vec::new(alloc);
    for i in 0..count {
        programs.push(caller(alloc, from, i)?)?;
    }
    Ok(programs)
}

/// Adds what the first task does for call i.
fn push_starts(body: &mut Vec<Instr>, fate: Fate, i: u32) -> Result<(), NoMemory>
    requires { i < 4000 }
    ensures { OnOk result (body.new.items ≡ body.old.items ++ definitions.starts fate i) }
{
    body.push(Instr::Spawn { program: i })?;
    if matches!(fate, Fate::Killed) {
        body.push(Instr::Kill {
            whom: Whom::Child(i + 1),
            sig: SIGKILL,
        })?;
    }
    body.push(Instr::Wait)?;
    Ok(())
}

/// The program of the first task.
#[tactic(auto, using(crate::proofs::Each::each_none, crate::proofs::Each::each_more))]
fn first_program(alloc: Global, from: u64, count: u32) -> Result<Sequence<Instr>, NoMemory>
    requires { count ≤ 4000 }
    ensures { IfOk result (λ p. p ≡ definitions.first_program from count) }
{
    let mut body = Vec::new(alloc);
    for i in 0..count {
        push_starts(&mut body, fate_of(from, i), i)?;
    }
    Ok(Sequence::new(body))
}

/// Steps of the first task.
fn first_steps(alloc: Global, count: u32) -> Result<Step, NoMemory>
    ensures { IfOk result (λ s. s ≡ definitions.first_steps count) }
{
    let who = Actor::Task(TaskName::new(vec![in alloc; 0]?));
    Ok(Step { who, count })
}

/// Steps of call i's task.
fn caller_steps(alloc: Global, i: u32, count: u32) -> Result<Step, NoMemory>
    requires { i < 4000 }
    ensures { IfOk result (λ s. s ≡ definitions.caller_steps i count) }
{
    let who = Actor::Task(TaskName::new(vec![in alloc; 0, i + 1]?));
    Ok(Step { who, count })
}

/// Steps of the worker.
fn worker_steps(count: u32) -> Step
    ensures { result ≡ definitions.worker_steps count }
{
    Step {
        who: Actor::Worker(0),
        count,
    }
}

/// Adds the steps by which a call is answered, in so many deeds of the worker, and so many steps of its task up to its end.
fn push_answered(schedule: &mut Vec<Step>, i: u32, deeds: u32, steps: u32) -> Result<(), NoMemory>
    requires { i < 4000 }
    ensures { OnOk result (schedule.new.items ≡ schedule.old.items ++ definitions.answered i deeds steps) }
{
    let alloc = *schedule.allocator();
    schedule.push(first_steps(alloc, 1)?)?;
    schedule.push(caller_steps(alloc, i, 2)?)?;
    schedule.push(worker_steps(deeds))?;
    schedule.push(caller_steps(alloc, i, steps)?)?;
    schedule.push(first_steps(alloc, 1)?)?;
    Ok(())
}

/// Adds the steps by which a call is cut short.
fn push_interrupted(schedule: &mut Vec<Step>, i: u32) -> Result<(), NoMemory>
    requires { i < 4000 }
    ensures { OnOk result (schedule.new.items ≡ schedule.old.items ++ definitions.interrupted i) }
{
    let alloc = *schedule.allocator();
    schedule.push(first_steps(alloc, 1)?)?;
    schedule.push(caller_steps(alloc, i, 2)?)?;
    schedule.push(worker_steps(1))?;
    schedule.push(first_steps(alloc, 1)?)?;
    schedule.push(caller_steps(alloc, i, 1)?)?;
    schedule.push(first_steps(alloc, 1)?)?;
    schedule.push(worker_steps(2))?;
    Ok(())
}

/// Adds the steps for call i.
fn push_turns(schedule: &mut Vec<Step>, fate: Fate, i: u32) -> Result<(), NoMemory>
    requires { i < 4000 }
    ensures { OnOk result (schedule.new.items ≡ schedule.old.items ++ definitions.turns fate i) }
{
    match fate {
        Fate::Granted => push_answered(schedule, i, 9, 2),
        Fate::Denied => push_answered(schedule, i, 8, 2),
        Fate::Passed => push_answered(schedule, i, 8, 3),
        Fate::Informed => push_answered(schedule, i, 7, 2),
        Fate::Killed => push_interrupted(schedule, i),
    }
}

/// The steps for all calls.
#[tactic(auto, using(crate::proofs::Each::each_none, crate::proofs::Each::each_more))]
fn turns(alloc: Global, from: u64, count: u32) -> Result<Vec<Step>, NoMemory>
    requires { count ≤ 4000 }
    ensures { IfOk result (λ v. v.items ≡ definitions.all_turns from count) }
{
    let mut schedule = Vec::new(alloc);
    for i in 0..count {
        push_turns(&mut schedule, fate_of(from, i), i)?;
    }
    Ok(schedule)
}

/// The schedule: at the end the first task ends.
fn schedule_of(alloc: Global, from: u64, count: u32) -> Result<Sequence<Step>, NoMemory>
    requires { count ≤ 4000 }
    ensures { IfOk result (λ s. s ≡ definitions.schedule_of from count) }
{
    let mut schedule = turns(alloc, from, count)?;
    schedule.push(first_steps(alloc, 1)?)?;
    Ok(Sequence::new(schedule))
}

/// The programs, the first task's at the end.
fn programs_of(alloc: Global, from: u64, count: u32) -> Result<Sequence<Sequence<Instr>>, NoMemory>
    requires { count ≤ 4000 }
    ensures { IfOk result (λ p. p ≡ definitions.programs_of from count) }
{
    let mut programs = callers(alloc, from, count)?;
    programs.push(first_program(alloc, from, count)?)?;
    Ok(Sequence::new(programs))
}

/// The filter with the listener.
fn listener_filter(alloc: Global) -> Result<FilterLine, NoMemory>
    ensures { IfOk result (λ f. f ≡ definitions.listener_filter) }
{
    let filter = notify_on(alloc, &[calls::MKNOD, calls::SYSINFO])?;
    Ok(FilterLine {
        insns: Sequence::new(filter.into_insns()),
        listener: true,
    })
}

/// The script of generated input with so many calls, from 1 to 4000. `from` says with which fate they begin, and counts
/// modulo 5.
pub fn generated_script(alloc: Global, from: u64, count: u32) -> Result<Script, NoMemory>
    requires { count ≤ 4000 }
    ensures { IfOk result (λ s. s ≡ definitions.generated_script from count) }
{
    Ok(Script {
        pidbase: 0,
        pidmax: 2,
        firstid: 1,
        rlimit: 1024,
        killable: false,
        root: NodeRef { ordinal: 0 },
        figures: Figures::NONE,
        tree: Sequence::new(Vec::new(alloc)),
        broker: Sequence::new(Vec::new(alloc)),
        map: Sequence::new(vec![in alloc;
            MapRange {
                start: 0x10000,
                pages: 16
            },
        ]?),
        filters: Sequence::new(vec![in alloc; listener_filter(alloc)?]?),
        programs: programs_of(alloc, from, count)?,
        schedule: schedule_of(alloc, from, count)?,
    })
}
