//! What is printed of what exploring came to.

ghost use Rattle.std.specs.Prelude.{◌≡◌, ◌++◌, IfOk, OnOk, decimal, length, option_copied};
ghost use Rattle.std.specs.List.{flat_map};
ghost use Rattle.audit_log.specs.Written.{Wrote};
ghost use Rattle.long_count.specs.Texts.{decimal_of};
ghost use Rattle.explorer.specs.Printed.{actor_words, blocks, bounds_words, counts_line, counts_words, delays_word, or_none, outcome_block, schedule_block, step_line, whole_word};
ghost use Rattle.explore_words.specs.Explorations.{exploration_text};

use audit_log::error::ReportError;
use audit_log::line::LineBuffer;
use audit_log::part::write_line;
use audit_log::words::push_name;
use explorer::{Exploration, Outcome};
use hist_model::event::Actor;
use hist_model::script::Step;
use io_edge::sink::Sink;
use long_count::LongCount;
use std::alloc::Global;
use sys_abi::memory::NoMemory;

/// Adds a word and a number.
fn push_count(line: &mut LineBuffer, word: &str, number: u64) -> Result<(), NoMemory>
    ensures { OnOk result (line.new ≡ line.old ++ (word.now ++ decimal number)) }
{
    line.push(word)?;
    line.push_number(number)
}

/// Adds a word and a count.
fn push_long_count(
    alloc: Global,
    line: &mut LineBuffer,
    word: &str,
    count: &LongCount,
) -> Result<(), NoMemory>
    ensures { OnOk result (line.new ≡ line.old ++ (word.now ++ decimal_of count.now)) }
{
    line.push(word)?;
    line.push_bytes(count.text(alloc)?.as_slice())
}

/// Adds the bound of delays, or `all` where there is none.
fn push_delays(line: &mut LineBuffer, delays: Option<u64>) -> Result<(), NoMemory>
    ensures { OnOk result (line.new ≡ line.old ++ delays_word delays) }
{
    match delays {
        Some(delays) => line.push_number(delays),
        None => line.push("all"),
    }
}

/// The word for whether no history is left: of all, or of those within the bound.
fn whole_word(delays: Option<u64>, whole: bool) -> &'static str
    ensures { result.now ≡ whole_word delays whole }
{
    match (delays, whole) {
        (None, true) => "yes",
        (Some(_), true) => "bound",
        (_, false) => "no",
    }
}

/// Adds the last worker and the bound of delays.
fn push_bounds(line: &mut LineBuffer, workers: u8, delays: Option<u64>) -> Result<(), NoMemory>
    ensures { OnOk result (line.new ≡ line.old ++ bounds_words workers delays) }
{
    push_count(line, "explored workers=", u64::from(workers))?;
    line.push(" delays=")?;
    push_delays(line, delays)
}

/// Adds how many histories were explored, how many events they have, how many the longest, and how many outcomes there are.
fn push_counts(alloc: Global, line: &mut LineBuffer, found: &Exploration) -> Result<(), NoMemory>
    ensures { OnOk result (line.new ≡ line.old ++ counts_words found.now.histories found.now.events found.now.longest (length found.now.outcomes.items)) }
{
    push_long_count(alloc, line, " histories=", &found.histories)?;
    push_long_count(alloc, line, " events=", &found.events)?;
    push_count(line, " longest=", found.longest)?;
    push_count(line, " outcomes=", found.outcomes.len() as u64)
}

/// The line that says what was explored, how many histories and outcomes there are, and whether no history is left.
fn counts_line(
    alloc: Global,
    workers: u8,
    delays: Option<u64>,
    found: &Exploration,
) -> Result<LineBuffer, NoMemory>
    ensures { IfOk result (λ line. line ≡ counts_line workers delays found.now.histories found.now.events found.now.longest (length found.now.outcomes.items) found.now.whole) }
{
    let mut line = LineBuffer::new(alloc);
    push_bounds(&mut line, workers, delays)?;
    push_counts(alloc, &mut line, found)?;
    line.push(" whole=")?;
    line.push(whole_word(delays, found.whole))?;
    line.push("\n")?;
    Ok(line)
}

/// Adds an actor as a schedule names it.
fn push_actor(line: &mut LineBuffer, who: &Actor) -> Result<(), NoMemory>
    ensures { OnOk result (line.new ≡ line.old ++ actor_words who.now) }
{
    match who {
        Actor::Task(name) => {
            line.push("t ")?;
            push_name(line, name)
        }
        Actor::Worker(number) => push_count(line, "w ", u64::from(*number)),
        _ => Ok(()),
    }
}

/// Adds a line of a schedule.
fn push_step(line: &mut LineBuffer, step: &Step) -> Result<(), NoMemory>
    ensures { OnOk result (line.new ≡ line.old ++ step_line step.now) }
{
    push_actor(line, &step.who)?;
    push_count(line, " ", u64::from(step.count))?;
    line.push("\n")
}

/// Adds the lines of a schedule, from the first on.
fn push_steps(line: &mut LineBuffer, steps: &[Step]) -> Result<(), NoMemory>
    ensures { OnOk result (line.new ≡ line.old ++ flat_map step_line steps.now) }
{
    for step in steps {
        push_step(line, step)?;
    }
    Ok(())
}

/// Adds the block with which a script plays a history; without a schedule, that it would be too long.
fn push_schedule(line: &mut LineBuffer, schedule: Option<&[Step]>) -> Result<(), NoMemory>
    ensures { OnOk result (line.new ≡ line.old ++ schedule_block (option_copied schedule.entry)) }
{
    match schedule {
        None => line.push("schedule too long\n"),
        Some(steps) => {
            line.push("schedule\n")?;
            push_steps(line, steps)?;
            line.push("end\n")
        }
    }
}

/// Adds the lines of an outcome, or `none` where it has none.
fn push_or_none(line: &mut LineBuffer, text: &[u8]) -> Result<(), NoMemory>
    ensures { OnOk result (line.new ≡ line.old ++ or_none text.now) }
{
    if text.is_empty() {
        line.push("none\n")
    } else {
        line.push_bytes(text)
    }
}

/// An outcome with its number.
fn outcome_block(alloc: Global, number: u64, outcome: &Outcome) -> Result<LineBuffer, NoMemory>
    ensures { IfOk result (λ line. line ≡ outcome_block number outcome.now) }
{
    let mut line = LineBuffer::new(alloc);
    push_count(&mut line, "outcome ", number)?;
    push_long_count(alloc, &mut line, " histories=", outcome.histories())?;
    line.push("\n")?;
    push_or_none(&mut line, outcome.text())?;
    push_schedule(&mut line, outcome.schedule())?;
    Ok(line)
}

/// Writes an outcome with its number.
fn write_outcome<O: Sink>(
    alloc: Global,
    number: u64,
    outcome: &Outcome,
    out: &mut O,
) -> Result<(), ReportError>
    ensures { Wrote (O.state out.old) (outcome_block number outcome.now) result (O.state out.new) }
{
    let block = outcome_block(alloc, number, outcome)?;
    write_line(&block, out)
}

/// Writes the outcomes, numbered from 1 on.
fn write_outcomes<O: Sink>(
    alloc: Global,
    outcomes: &[Outcome],
    out: &mut O,
) -> Result<(), ReportError>
    ensures { Wrote (O.state out.old) (blocks 1 outcomes.now) result (O.state out.new) }
{
    for index in 0..outcomes.len() {
        write_outcome(alloc, index as u64 + 1, &outcomes[index], out)?;
    }
    Ok(())
}

/// Writes what was explored, and how many histories and outcomes there are.
fn write_counts<O: Sink>(
    alloc: Global,
    workers: u8,
    delays: Option<u64>,
    found: &Exploration,
    out: &mut O,
) -> Result<(), ReportError>
    ensures { Wrote (O.state out.old) (counts_line workers delays found.now.histories found.now.events found.now.longest (length found.now.outcomes.items) found.now.whole) result (O.state out.new) }
{
    let line = counts_line(alloc, workers, delays, found)?;
    write_line(&line, out)
}

/// Writes what exploring came to, by workers up to a last one, with so many delays at most, or all.
pub(crate) fn write_exploration<O: Sink>(
    alloc: Global,
    workers: u8,
    delays: Option<u64>,
    found: &Exploration,
    out: &mut O,
) -> Result<(), ReportError>
    ensures { Wrote (O.state out.old) (exploration_text workers delays found.now) result (O.state out.new) }
{
    write_counts(alloc, workers, delays, found, out)?;
    write_outcomes(alloc, found.outcomes.as_slice(), out)
}
