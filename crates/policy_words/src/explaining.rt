//! Which rule of a policy decides each call of a file.

ghost use Rattle.std.specs.Prelude.{◌≡◌, ◌≤◌, length, OnOk};
ghost use Rattle.audit_log.specs.Written.{Wrote};
ghost use Rattle.program_files.specs.Printed.{Printed, status_of};
ghost use Rattle.policy_words.specs.Explanations.{BytesExplainEnds, ExplainEnds};
ghost use Rattle.program_files.specs.Refusals.{Stands};
ghost use Rattle.policy_explain.specs.Blocks.{block_text, explained};

use audit_log::error::ReportError;
use audit_log::line::LineBuffer;
use audit_log::part::write_line;
use call_lines::Call;
use hist_model::policy::Policy;
use io_edge::files::Files;
use io_edge::sink::Sink;
use policy_explain::push_block;
use program_files::inputs::{read_calls, read_policy};
use program_files::status::{Refusal, Status};
use std::alloc::Global;
use sys_abi::memory::OrNoMemory;

/// Writes what is told of a call.
fn write_block<O: Sink>(
    alloc: Global,
    text: &mut LineBuffer,
    policy: &Policy,
    call: &Call,
    out: &mut O,
) -> Result<(), ReportError>
    ensures { Wrote (O.state out.old) (block_text policy.now.rules call.now) result (O.state out.new) }
{
    text.clear();
    push_block(alloc, text, policy, call)?;
    write_line(text, out)
}

/// Writes what is told of calls, one after another.
fn write_blocks<O: Sink>(
    alloc: Global,
    policy: &Policy,
    calls: &[Call],
    out: &mut O,
) -> Result<(), ReportError>
    ensures { Wrote (O.state out.old) (explained policy.now.rules calls.now) result (O.state out.new) }
{
    let mut text = LineBuffer::new(alloc);
    for index in 0..calls.len() {
        write_block(alloc, &mut text, policy, &calls[index], out)?;
    }
    Ok(())
}

/// Writes what is told of calls, and flushes it.
#[tactic(auto, using(program_files::proofs::Printing::flushed))]
fn write_flushed<O: Sink>(
    alloc: Global,
    policy: &Policy,
    calls: &[Call],
    out: &mut O,
) -> Result<(), ReportError>
    ensures wrote { Wrote (O.state out.old) (explained policy.now.rules calls.now) result (O.state out.new) }
    ensures stands { OnOk result (Stands (O.state out.new)) }
{
    write_blocks(alloc, policy, calls, out)?;
    out.flush()?;
    Ok(())
}

/// Prints what is told of calls.
#[tactic(auto, using(program_files::proofs::Printing::printed_whole, program_files::proofs::Printing::printed_part))]
fn print_explained<O: Sink>(
    alloc: Global,
    policy: &Policy,
    calls: &[Call],
    out: &mut O,
) -> Result<(), Status>
    ensures { Printed (explained policy.now.rules calls.now) (O.state out.old) (O.state out.new) result }
{
    write_flushed(alloc, policy, calls, out)?;
    Ok(())
}

/// Explains the calls that bytes state, and prints what is told of them.
fn explain_bytes<O: Sink>(
    alloc: Global,
    policy: &Policy,
    bytes: &[u8],
    out: &mut O,
) -> Result<(), Status>
    requires { length bytes.now ≤ 8388608 }
    ensures { BytesExplainEnds policy.now bytes.now (O.state out.old) (O.state out.new) (status_of result) }
{
    match call_lines::read_calls(alloc, bytes) {
        Ok(calls) => print_explained(alloc, policy, calls.items(), out),
        Err(OrNoMemory::Refused(error)) => Err(Status::Refused(Refusal::BadCalls(error))),
        Err(OrNoMemory::NoMemory) => Err(Status::NoMemory),
    }
}

/// Explains the calls of one file under the policy of another, and prints what is told of them.
#[tactic(auto, using(crate::proofs::ExplainEnds::policy_stops, crate::proofs::ExplainEnds::calls_stop))]
pub fn explain_files<F: Files, O: Sink>(
    alloc: Global,
    files: &mut F,
    policy: &str,
    calls: &str,
    out: &mut O,
) -> Result<(), Status>
    ensures { ExplainEnds (F.state files.old) (F.state files.new) (O.state out.old) (O.state out.new) policy.now calls.now (status_of result) }
{
    let policy = read_policy(alloc, files, policy)?;
    let calls = read_calls(alloc, files, calls)?;
    explain_bytes(alloc, &policy, calls.as_slice(), out)
}
