//! The report so far.

ghost use Rattle.std.specs.Prelude.{◌≡◌, ◌+◌, ◌-◌, ◌^◌, ◌++◌, [], length, true, false, min, OnOk, IfOk};
ghost use Rattle.hist_model.specs.Report.{report};
ghost use Rattle.hist_model.specs.ReportAudit.{judging_by};
ghost use Rattle.step_session.specs.Answers.{report_text};

use crate::origin::Origin;
use crate::texts::push_sized;
use audit_log::error::ReportError;
use audit_log::journal::write_journal;
use audit_log::line::LineBuffer;
use audit_log::report::write_rest;
use hist_model::history::History;
use hist_model::policy::Policy;
use io_edge::fault::Failed;
use io_edge::sink::Sink;
use std::alloc::Global;
use sys_abi::memory::NoMemory;

/// A sink that keeps what it takes. It fails only for want of memory, and then has taken nothing of the piece.
#[derive(Drop)]
struct Kept {
    text: Vec<u8>,
    faults: u64,
}

impl Sink for Kept {
    ghost use Rattle.io_edge.specs.SinkState.{SinkState};

    ghost state = { λ k. record { tells = true; taken = k.text.items; faults = k.faults; pending = false } };

    fn write(&mut self, piece: &[u8]) -> Result<(), Failed> {
        match self.text.extend_from_slice(piece) {
            Ok(()) => Ok(()),
            Err(_) => {
                self.faults = self.faults.saturating_add(1);
                Err(Failed)
            }
        }
    }

    fn flush(&mut self) -> Result<(), Failed> {
        Ok(())
    }
}

/// Writes the report of a history to a sink that keeps it.
fn write_report(
    alloc: Global,
    policy: &Policy,
    history: &History,
    kept: &mut Kept,
) -> Result<(), ReportError>
    ensures { OnOk result (kept.new.text.items ≡ kept.old.text.items ++ report (judging_by policy.now.rules) history.now.events) }
{
    write_journal(alloc, history, kept)?;
    write_rest(alloc, policy, history, kept)
}

/// The report of a history.
fn report_of(alloc: Global, policy: &Policy, history: &History) -> Result<Vec<u8>, NoMemory>
    ensures { IfOk result (λ text. text.items ≡ report (judging_by policy.now.rules) history.now.events) }
{
    let mut kept = Kept {
        text: Vec::new(alloc),
        faults: 0,
    };
    match write_report(alloc, policy, history, &mut kept) {
        Ok(()) => Ok(kept.text),
        // The sink fails for want of memory alone.
        Err(ReportError::WriteFault | ReportError::NoMemory) => Err(NoMemory),
    }
}

/// Adds the report so far, behind a line that tells its length.
pub(crate) fn push_report(
    alloc: Global,
    origin: &Origin,
    history: &History,
    line: &mut LineBuffer,
) -> Result<(), NoMemory>
    ensures { OnOk result (line.new ≡ line.old ++ report_text origin.now history.now.events) }
{
    let text = report_of(alloc, &origin.policy, history)?;
    push_sized(line, "report", text.as_slice())
}
