//! The parts of a report that have a line for some of the events.

ghost use Rattle.std.specs.Prelude.{◌≡◌, ◌++◌, OnErr, OnOk, reverse};
ghost use Rattle.hist_model.specs.ReportJournal.{lines_of, title};
ghost use Rattle.audit_log.specs.Written.{Gathered, Wrote};

use crate::error::ReportError;
use crate::line::LineBuffer;
use hist_model::event::Event;
use io_edge::sink::Sink;
use sys_abi::memory::NoMemory;

/// A part of a report: it has a line for some of the events.
pub trait Part {
    ghost use Rattle.std.specs.Prelude.{List, ℕ};
    ghost use Rattle.hist_model.specs.declared.event.Event.{Event};

    /// The line of an event, with the byte that ends it, where the events before it are given the newest first; empty where it has none.
    ghost text: { Self → List Event → Event → List ℕ };

    /// Adds the line of the event that comes after `before`.
    fn push_line(
        &self,
        line: &mut LineBuffer,
        before: &[Event],
        event: &Event,
    ) -> Result<(), NoMemory>
        ensures { OnOk result (line.new ≡ line.old ++ text self.now (reverse before.now) event.now) };
}

/// Writes a line, in one write; nothing where it is empty.
#[inline(always)]
pub fn write_line<O: Sink>(line: &LineBuffer, out: &mut O) -> Result<(), ReportError>
    ensures { Wrote (O.state out.old) line.now result (O.state out.new) }
{
    if line.bytes().is_empty() {
        return Ok(());
    }
    out.write(line.bytes())?;
    Ok(())
}

/// Whether the lines that were gathered are as many bytes as the sink has them gathered.
fn are_many<O: Sink>(lines: &LineBuffer, out: &O) -> bool {
    lines.bytes().len() >= out.gathers()
}

/// Writes the lines that were gathered, once they are many, and keeps them otherwise.
#[inline(always)]
pub(crate) fn write_if_many<O: Sink>(lines: &mut LineBuffer, out: &mut O) -> Result<(), ReportError>
    ensures gathered { OnOk result (Gathered (O.state out.old) lines.old lines.new (O.state out.new)) }
    ensures failed { OnErr result (Wrote (O.state out.old) lines.old result (O.state out.new)) }
{
    if !are_many(lines, out) {
        return Ok(());
    }
    write_line(lines, out)?;
    lines.clear();
    Ok(())
}

/// Adds the title of a part that has so many lines.
fn push_title(line: &mut LineBuffer, word: &str, count: usize) -> Result<(), NoMemory>
    ensures { OnOk result (line.new ≡ line.old ++ title word.now count) }
{
    line.push(word)?;
    line.push(" ")?;
    line.push_number(count as u64)?;
    line.push("\n")
}

/// Writes the title of a part.
pub(crate) fn write_title<O: Sink>(
    line: &mut LineBuffer,
    word: &str,
    count: usize,
    out: &mut O,
) -> Result<(), ReportError>
    ensures { Wrote (O.state out.old) (title word.now count) result (O.state out.new) }
{
    line.clear();
    push_title(line, word, count)?;
    write_line(line, out)
}

/// Writes the lines of the events, from the oldest on, many lines at a time.
pub fn write_lines<P: Part, O: Sink>(
    part: &P,
    line: &mut LineBuffer,
    events: &[Event],
    out: &mut O,
) -> Result<(), ReportError>
    ensures { Wrote (O.state out.old) (lines_of (P.text part.now) (reverse events.now)) result (O.state out.new) }
{
    line.clear();
    for place in 0..events.len() {
        part.push_line(line, &events[..place], &events[place])?;
        write_if_many(line, out)?;
    }
    write_line(line, out)
}
