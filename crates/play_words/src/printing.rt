//! What is printed of a history.

ghost use Rattle.std.specs.Prelude.{◌≡◌, ◌++◌, List, IfOk, OnOk};
ghost use Rattle.std.specs.List.{flat_map};
ghost use Rattle.hist_model.specs.Report.{report};
ghost use Rattle.hist_model.specs.ReportAudit.{Judging, judging_by};
ghost use Rattle.hist_model.specs.declared.event.Event.{Event};
ghost use Rattle.hist_model.specs.declared.policy.Rule.{Rule};
ghost use Rattle.audit_log.specs.Counts.{counts_of};
ghost use Rattle.audit_log.specs.Tables.{TellsTables};
ghost use Rattle.audit_log.specs.Written.{Wrote};
ghost use Rattle.handover.specs.Keeping.{all_handed, handed_as};
ghost use Rattle.worker_gate.specs.Replacing.{handed_in};
ghost use Rattle.play_words.specs.Handovers.{handovers, handovers_title, ledger_line, report_and};
ghost use Rattle.play_words.specs.Printouts.{IsPrintable, text_of};
ghost use Rattle.play_words.specs.Findings.{findings, finished_text, yes_line};
ghost use Rattle.program_files.specs.Refusals.{Stands};

use audit_check::trail::write_trail;
use audit_log::error::ReportError;
use audit_log::journal::write_journal;
use audit_log::line::LineBuffer;
use audit_log::part::write_line;
use audit_log::report::{write_rest_counting, write_summary};
use audit_log::summary::Counts;
use audit_log::tables::Tables;
use handover::Handover;
use hist_model::history::History;
use hist_model::policy::Policy;
use io_edge::sink::Sink;
use std::alloc::Global;
use sys_abi::memory::NoMemory;
use worker_gate::Played;

/// What is printed of a history.
#[derive(Clone, Copy)]
pub enum Printout<'a> {
    /// The whole report.
    Report,
    /// The whole report, and the ledgers from which workers were replaced.
    Handovers { handed: &'a [Handover] },
    /// Only the last line of the report.
    Summary,
    /// What is found of it where a report tells it: whether it is finished, and the trail of its calls, by the history's tables.
    Findings { finished: bool, tables: &'a Tables },
}

/// Writes the report, and tells the counts in its summary, where all was written.
fn write_report_counting<O: Sink>(
    alloc: Global,
    policy: &Policy,
    history: &History,
    counts: &mut Counts,
    out: &mut O,
) -> Result<(), ReportError>
    ensures wrote { Wrote (O.state out.old) (report (judging_by policy.now.rules) history.now.events) result (O.state out.new) }
    ensures counts { OnOk result (counts.new ≡ counts_of (judging_by policy.now.rules) history.now.events) }
{
    write_journal(alloc, history, out)?;
    write_rest_counting(alloc, policy, history, counts, out)
}

/// Writes the report.
fn write_report<O: Sink>(
    alloc: Global,
    policy: &Policy,
    history: &History,
    out: &mut O,
) -> Result<(), ReportError>
    ensures { Wrote (O.state out.old) (report (judging_by policy.now.rules) history.now.events) result (O.state out.new) }
{
    let mut counts = Counts::none();
    write_report_counting(alloc, policy, history, &mut counts, out)
}

/// The end of the line that says whether a history is finished.
fn finished_text(finished: bool) -> &'static str
    ensures { result.now ≡ finished_text finished }
{
    if finished {
        " finished=yes\n"
    } else {
        " finished=no\n"
    }
}

/// The line that says how many events a history has, and whether it is finished.
fn yes_line(alloc: Global, events: usize, finished: bool) -> Result<LineBuffer, NoMemory>
    ensures { IfOk result (λ line. line ≡ yes_line events finished) }
{
    let mut line = LineBuffer::new(alloc);
    line.push("yes events=")?;
    line.push_number(events as u64)?;
    line.push(finished_text(finished))?;
    Ok(line)
}

/// Writes how many events a history has, and whether it is finished.
fn write_yes<O: Sink>(
    alloc: Global,
    events: usize,
    finished: bool,
    out: &mut O,
) -> Result<(), ReportError>
    ensures { Wrote (O.state out.old) (yes_line events finished) result (O.state out.new) }
{
    let line = yes_line(alloc, events, finished)?;
    write_line(&line, out)
}

/// Writes what is found of a history that a report tells.
fn write_findings<O: Sink>(
    alloc: Global,
    policy: &Policy,
    history: &History,
    finished: bool,
    tables: &Tables,
    out: &mut O,
) -> Result<(), ReportError>
    requires { TellsTables policy.now.rules history.now.events tables.now }
    ensures { Wrote (O.state out.old) (findings (judging_by policy.now.rules) history.now.events finished) result (O.state out.new) }
{
    write_yes(alloc, history.len(), finished, out)?;
    write_trail(alloc, policy, history, tables, out)
}

/// The line that says how many workers were replaced.
fn handovers_title(alloc: Global, count: usize) -> Result<LineBuffer, NoMemory>
    ensures { IfOk result (λ line. line ≡ handovers_title count) }
{
    let mut line = LineBuffer::new(alloc);
    line.push("handovers ")?;
    line.push_number(count as u64)?;
    line.push("\n")?;
    Ok(line)
}

/// The line of a ledger from which a worker was replaced.
fn ledger_line(alloc: Global, handover: &Handover) -> Result<LineBuffer, NoMemory>
    ensures { IfOk result (λ line. line ≡ ledger_line (handed_as handover.now)) }
{
    let mut line = LineBuffer::new(alloc);
    line.push("ledger ")?;
    line.push_number(handover.place as u64)?;
    line.push(" w")?;
    line.push_number(u64::from(handover.worker))?;
    line.push(" ")?;
    line.push_bytes(handover.ledger.as_slice())?;
    line.push("\n")?;
    Ok(line)
}

/// Writes the line of a ledger from which a worker was replaced.
fn write_ledger<O: Sink>(alloc: Global, handover: &Handover, out: &mut O) -> Result<(), ReportError>
    ensures { Wrote (O.state out.old) (ledger_line (handed_as handover.now)) result (O.state out.new) }
{
    let line = ledger_line(alloc, handover)?;
    write_line(&line, out)
}

/// Writes the lines of the ledgers from which workers were replaced.
fn write_ledgers<O: Sink>(
    alloc: Global,
    handed: &[Handover],
    out: &mut O,
) -> Result<(), ReportError>
    ensures { Wrote (O.state out.old) (flat_map ledger_line (all_handed handed.now)) result (O.state out.new) }
{
    for index in 0..handed.len() {
        write_ledger(alloc, &handed[index], out)?;
    }
    Ok(())
}

/// Writes how many workers were replaced, and the ledgers.
fn write_handovers<O: Sink>(
    alloc: Global,
    handed: &[Handover],
    out: &mut O,
) -> Result<(), ReportError>
    ensures { Wrote (O.state out.old) (handovers (all_handed handed.now)) result (O.state out.new) }
{
    let title = handovers_title(alloc, handed.len())?;
    write_line(&title, out)?;
    write_ledgers(alloc, handed, out)
}

/// Writes the report, and the ledgers from which workers were replaced.
fn write_handed<O: Sink>(
    alloc: Global,
    policy: &Policy,
    history: &History,
    handed: &[Handover],
    out: &mut O,
) -> Result<(), ReportError>
    ensures { Wrote (O.state out.old) (report (judging_by policy.now.rules) history.now.events ++ handovers (all_handed handed.now)) result (O.state out.new) }
{
    write_report(alloc, policy, history, out)?;
    write_handovers(alloc, handed, out)
}

/// What is printed of what was played or served: the report, and the ledgers from which workers were replaced, where they were to be.
pub fn printout_of(played: &Played) -> Printout<'_>
    ensures text { (J : Judging) → (H : List Event) → text_of result J H ≡ report_and J H (handed_in played.now.handed) }
    ensures printable { (rules : List Rule) → (H : List Event) → IsPrintable result rules H }
{
    match &played.handed {
        Some(handed) => Printout::Handovers {
            handed: handed.as_slice(),
        },
        None => Printout::Report,
    }
}

/// Writes the same, and tells the counts in the report's summary, where all was written.
pub fn write_played_counting<O: Sink>(
    alloc: Global,
    played: &Played,
    counts: &mut Counts,
    out: &mut O,
) -> Result<(), ReportError>
    ensures wrote { Wrote (O.state out.old) (report_and (judging_by played.now.policy.rules) played.now.history.events (handed_in played.now.handed)) result (O.state out.new) }
    ensures counts { OnOk result (counts.new ≡ counts_of (judging_by played.now.policy.rules) played.now.history.events) }
{
    write_report_counting(alloc, &played.policy, &played.history, counts, out)?;
    match &played.handed {
        Some(handed) => write_handovers(alloc, handed.as_slice(), out),
        None => Ok(()),
    }
}

/// Writes what is printed.
fn write_printout<O: Sink>(
    alloc: Global,
    printout: Printout<'_>,
    policy: &Policy,
    history: &History,
    out: &mut O,
) -> Result<(), ReportError>
    requires { IsPrintable printout policy.now.rules history.now.events }
    ensures { Wrote (O.state out.old) (text_of printout.entry (judging_by policy.now.rules) history.now.events) result (O.state out.new) }
{
    match printout {
        Printout::Report => write_report(alloc, policy, history, out),
        Printout::Handovers { handed } => write_handed(alloc, policy, history, handed, out),
        Printout::Summary => write_summary(alloc, policy, history, out),
        Printout::Findings { finished, tables } => {
            write_findings(alloc, policy, history, finished, tables, out)
        }
    }
}

/// Writes what is printed, and flushes it.
#[tactic(auto, using(program_files::proofs::Printing::flushed))]
pub fn print_history<O: Sink>(
    alloc: Global,
    printout: Printout<'_>,
    policy: &Policy,
    history: &History,
    out: &mut O,
) -> Result<(), ReportError>
    requires { IsPrintable printout policy.now.rules history.now.events }
    ensures wrote { Wrote (O.state out.old) (text_of printout.entry (judging_by policy.now.rules) history.now.events) result (O.state out.new) }
    ensures stands { OnOk result (Stands (O.state out.new)) }
{
    write_printout(alloc, printout, policy, history, out)?;
    out.flush()?;
    Ok(())
}
