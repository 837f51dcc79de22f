//! What is printed of containers that were served side by side: a part for each, and the sums of their summaries.

ghost use Rattle.std.specs.Prelude.{◌≡◌, IfOk, OnOk};
ghost use Rattle.audit_log.specs.Counts.{no_counts, plus};
ghost use Rattle.audit_log.specs.Written.{Wrote};
ghost use Rattle.run_words.specs.PodText.{container_title, counts_in, kept_in, part, parts, pod_line, pod_text, sums_of};
ghost use Rattle.program_files.specs.Refusals.{Stands};

use audit_log::error::ReportError;
use audit_log::line::LineBuffer;
use audit_log::part::write_line;
use audit_log::summary::{Counts, push_counts};
use io_edge::sink::Sink;
use play_words::printing::write_played_counting;
use std::alloc::Global;
use sys_abi::memory::NoMemory;
use worker_gate::Played;

/// The line above the report of the container with this number.
fn container_title(alloc: Global, number: usize) -> Result<LineBuffer, NoMemory>
    ensures { IfOk result (λ line. line ≡ container_title number) }
{
    let mut line = LineBuffer::new(alloc);
    line.push("container ")?;
    line.push_number(number as u64)?;
    line.push("\n")?;
    Ok(line)
}

/// Writes the number of a container, its report, and its ledgers, where workers were to be replaced, and adds the counts of its summary to
/// those before.
fn write_part<O: Sink>(
    alloc: Global,
    number: usize,
    ended: &Played,
    sums: &mut Counts,
    out: &mut O,
) -> Result<(), ReportError>
    ensures wrote { Wrote (O.state out.old) (part kept_in number ended.now) result (O.state out.new) }
    ensures sums { OnOk result (sums.new ≡ plus sums.old (counts_in ended.now)) }
{
    let title = container_title(alloc, number)?;
    write_line(&title, out)?;
    let mut counts = Counts::none();
    write_played_counting(alloc, ended, &mut counts, out)?;
    *sums = sums.plus(&counts)?;
    Ok(())
}

/// Writes the parts of all containers, in order, and tells the sums of their counts.
fn write_parts<O: Sink>(
    alloc: Global,
    ended: &[Played],
    sums: &mut Counts,
    out: &mut O,
) -> Result<(), ReportError>
    requires { sums.old ≡ no_counts }
    ensures wrote { Wrote (O.state out.old) (parts kept_in 0 ended.now) result (O.state out.new) }
    ensures sums { OnOk result (sums.new ≡ sums_of ended.now) }
{
    for number in 0..ended.len() {
        write_part(alloc, number, &ended[number], sums, out)?;
    }
    Ok(())
}

/// The last line: how many containers there were, and the sums.
fn pod_line(alloc: Global, containers: usize, sums: &Counts) -> Result<LineBuffer, NoMemory>
    ensures { IfOk result (λ line. line ≡ pod_line containers sums.now) }
{
    let mut line = LineBuffer::new(alloc);
    line.push("pod containers=")?;
    line.push_number(containers as u64)?;
    push_counts(&mut line, sums)?;
    Ok(line)
}

/// Writes the last line.
fn write_sums<O: Sink>(
    alloc: Global,
    containers: usize,
    sums: &Counts,
    out: &mut O,
) -> Result<(), ReportError>
    ensures { Wrote (O.state out.old) (pod_line containers sums.now) result (O.state out.new) }
{
    let line = pod_line(alloc, containers, sums)?;
    write_line(&line, out)
}

/// Writes the parts and the sums.
fn write_pod<O: Sink>(alloc: Global, ended: &[Played], out: &mut O) -> Result<(), ReportError>
    ensures { Wrote (O.state out.old) (pod_text kept_in ended.now) result (O.state out.new) }
{
    let mut sums = Counts::none();
    write_parts(alloc, ended, &mut sums, out)?;
    write_sums(alloc, ended.len(), &sums, out)
}

/// Writes the parts and the sums, and flushes them.
#[tactic(auto, using(program_files::proofs::Printing::flushed))]
pub fn print_pod<O: Sink>(alloc: Global, ended: &[Played], out: &mut O) -> Result<(), ReportError>
    ensures wrote { Wrote (O.state out.old) (pod_text kept_in ended.now) result (O.state out.new) }
    ensures stands { OnOk result (Stands (O.state out.new)) }
{
    write_pod(alloc, ended, out)?;
    out.flush()?;
    Ok(())
}
