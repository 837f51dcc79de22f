//! The line on standard error that says how the program ended.

ghost use Rattle.std.specs.Prelude.{◌≡◌, ◌++◌, codes, decimal};
ghost use Rattle.io_edge.specs.SinkState.{Writes};
ghost use Rattle.broker_app.specs.Answers.{Said};
ghost use Rattle.broker_app.specs.Lines.{calls_line, container_front, line_of, overlap_line, rules_line, refusal_line, script_line, numbered_line, file_named};

use call_lines::CallsError;
use io_edge::fault::Failed;
use io_edge::sink::Sink;
use policy_reader::PolicyError;
use program_files::status::{InputFile, Refusal, Status};
use script_reader::ScriptError;
use step_session::reasons::reason_text;

/// The name of a file, with the byte that ends the line.
fn file_named(file: InputFile) -> &'static [u8]
    ensures { result.now ≡ file_named file }
{
    match file {
        InputFile::Policy => b"policy\n",
        InputFile::NewPolicy => b"new policy\n",
        InputFile::Script => b"script\n",
        InputFile::Report => b"report\n",
        InputFile::Calls => b"calls\n",
        InputFile::Claims => b"claims\n",
        InputFile::Requests => b"requests\n",
    }
}

/// Writes what a line begins with, and what ends it.
#[tactic(auto, using(crate::proofs::Saying::writes_front, crate::proofs::Saying::writes_more))]
fn write_two<E: Sink>(beginning: &[u8], end: &[u8], err: &mut E) -> Result<(), Failed>
    ensures { Writes (E.state err.old) (beginning.now ++ end.now) result (E.state err.new) }
{
    err.write(beginning)?;
    err.write(end)
}

/// Writes what a line begins with, a text, and the byte that ends the line.
#[tactic(auto, using(crate::proofs::Saying::writes_front, crate::proofs::Saying::writes_more))]
fn write_ended<E: Sink>(beginning: &[u8], text: &[u8], err: &mut E) -> Result<(), Failed>
    ensures { Writes (E.state err.old) (beginning.now ++ (text.now ++ codes "\n")) result (E.state err.new) }
{
    err.write(beginning)?;
    write_two(text, b"\n", err)
}

/// Writes what is refused of rules.
fn write_rules_line<E: Sink>(error: &PolicyError, err: &mut E) -> Result<(), Failed>
    ensures { Writes (E.state err.old) (rules_line error.now) result (E.state err.new) }
{
    match error {
        PolicyError::NotJson => err.write(b"not JSON\n"),
        PolicyError::BadKey { path } => write_ended(b"unknown key at ", path.items(), err),
        PolicyError::BadValue { path } => write_ended(b"bad value at ", path.items(), err),
        PolicyError::TooMany => err.write(b"too many rules\n"),
    }
}

/// Writes why rules are refused, behind what has them.
#[tactic(auto, using(crate::proofs::Saying::writes_front, crate::proofs::Saying::writes_more))]
fn write_rules_of<E: Sink>(front: &[u8], error: &PolicyError, err: &mut E) -> Result<(), Failed>
    ensures { Writes (E.state err.old) (front.now ++ rules_line error.now) result (E.state err.new) }
{
    err.write(front)?;
    write_rules_line(error, err)
}

/// Writes the number of a line, and what is wrong with it.
#[tactic(auto, using(crate::proofs::Saying::writes_front, crate::proofs::Saying::writes_more))]
fn write_numbered<E: Sink>(number: u32, reason: &[u8], err: &mut E) -> Result<(), Failed>
    ensures { Writes (E.state err.old) (decimal number ++ (codes ": " ++ (reason.now ++ codes "\n"))) result (E.state err.new) }
{
    let mut digits = itoa::Buffer::new();
    err.write(digits.format(number).as_bytes())?;
    write_ended(b": ", reason, err)
}

/// Writes the number of a file's line behind a front, and what is wrong with the line.
fn write_line_of<E: Sink>(
    front: &[u8],
    number: u32,
    reason: &[u8],
    err: &mut E,
) -> Result<(), Failed>
    ensures { Writes (E.state err.old) (numbered_line front.now number reason.now) result (E.state err.new) }
{
    err.write(front)?;
    write_numbered(number, reason, err)
}

/// Writes why calls are refused.
fn write_calls_line<E: Sink>(error: &CallsError, err: &mut E) -> Result<(), Failed>
    ensures { Writes (E.state err.old) (calls_line error.now) result (E.state err.new) }
{
    write_line_of(b"calls: line ", error.line, reason_text(error.reason), err)
}

/// Writes why a script is refused.
fn write_script_line<E: Sink>(error: &ScriptError, err: &mut E) -> Result<(), Failed>
    ensures { Writes (E.state err.old) (script_line error.now) result (E.state err.new) }
{
    match *error {
        ScriptError::BadLine { line, reason } => {
            write_line_of(b"script: line ", line, reason_text(reason), err)
        }
        ScriptError::TooLarge { line } => {
            write_line_of(b"script: line ", line, b"too large", err)
        }
    }
}

/// Writes the first line at which a report can't be right.
fn write_report_line<E: Sink>(line: u32, err: &mut E) -> Result<(), Failed>
    ensures { Writes (E.state err.old) (codes "report: line " ++ (decimal line ++ codes "\n")) result (E.state err.new) }
{
    let mut digits = itoa::Buffer::new();
    write_ended(b"report: line ", digits.format(line).as_bytes(), err)
}

/// Writes why a file wasn't taken.
fn write_refusal<E: Sink>(refusal: &Refusal, err: &mut E) -> Result<(), Failed>
    ensures { Writes (E.state err.old) (refusal_line refusal.now) result (E.state err.new) }
{
    match refusal {
        Refusal::ReadFault(file) => write_two(b"read fault: ", file_named(*file), err),
        Refusal::TooLong(file) => write_two(b"too long: ", file_named(*file), err),
        Refusal::BadPolicy(error) => write_rules_of(b"policy: ", error, err),
        Refusal::BadNewPolicy(error) => write_rules_of(b"new policy: ", error, err),
        Refusal::BadClaims(error) => write_rules_of(b"claims: ", error, err),
        Refusal::BadScript(error) => write_script_line(error, err),
        Refusal::BadCalls(error) => write_calls_line(error, err),
        Refusal::HasRequests => err.write(b"script: requests in the schedule\n"),
    }
}

/// Writes the number of a container, and what stands between it and why its file wasn't taken.
#[tactic(auto, using(crate::proofs::Saying::writes_front, crate::proofs::Saying::writes_more))]
fn write_container<E: Sink>(container: u8, err: &mut E) -> Result<(), Failed>
    ensures { Writes (E.state err.old) (container_front container) result (E.state err.new) }
{
    let mut digits = itoa::Buffer::new();
    err.write(b"container ")?;
    write_two(digits.format(container).as_bytes(), b": ", err)
}

/// Writes the number of a container, and why its file wasn't taken.
#[tactic(auto, using(crate::proofs::Saying::writes_front, crate::proofs::Saying::writes_more))]
fn write_container_refusal<E: Sink>(
    container: u8,
    refusal: &Refusal,
    err: &mut E,
) -> Result<(), Failed>
    ensures { Writes (E.state err.old) (container_front container ++ refusal_line refusal.now) result (E.state err.new) }
{
    write_container(container, err)?;
    write_refusal(refusal, err)
}

/// Writes which containers have ranges that overlap.
#[tactic(auto, using(crate::proofs::Saying::writes_front, crate::proofs::Saying::writes_more))]
fn write_overlap_line<E: Sink>(first: u8, second: u8, err: &mut E) -> Result<(), Failed>
    ensures { Writes (E.state err.old) (overlap_line first second) result (E.state err.new) }
{
    let mut digits = itoa::Buffer::new();
    write_two(b"pod: pids overlap: ", digits.format(first).as_bytes(), err)?;
    let mut digits = itoa::Buffer::new();
    write_ended(b" ", digits.format(second).as_bytes(), err)
}

/// Writes the line of a status.
fn write_status<E: Sink>(status: &Status, err: &mut E) -> Result<(), Failed>
    ensures { Writes (E.state err.old) (line_of status.now) result (E.state err.new) }
{
    match status {
        Status::Done | Status::Otherwise | Status::Undecided => err.write(b""),
        Status::Usage => err.write(
            b"usage: play POLICY SCRIPT | run POLICY SCRIPT WORKERS CPUS [every EVERY] | stress FROM COUNT | audit-check POLICY SCRIPT REPORT | lanes POLICY SCRIPT CPUS [every EVERY] | handover POLICY SCRIPT EVERY | pod WORKERS CPUS [every EVERY] POLICY SCRIPT .. | pod lanes CPUS [every EVERY] POLICY SCRIPT .. | explore POLICY SCRIPT WORKERS DELAYS | step POLICY SCRIPT | judge POLICY SCRIPT | explain POLICY CALLS | compare OLD NEW [SCRIPT] | check POLICY CLAIMS | lint POLICY\n",
        ),
        Status::Refused(refusal) => write_refusal(refusal, err),
        Status::ContainerRefused { container, refusal } => {
            write_container_refusal(*container, refusal, err)
        }
        Status::WriteFault => err.write(b"write fault\n"),
        Status::NoMemory => err.write(b"no memory\n"),
        Status::NotReport { line } => write_report_line(*line, err),
        Status::PidsOverlap { first, second } => write_overlap_line(*first, *second, err),
    }
}

/// Writes the line of a status, and flushes it.
#[tactic(auto, using(crate::proofs::Saying::said_cut, crate::proofs::Saying::said_flushed))]
fn write_line<E: Sink>(status: &Status, err: &mut E) -> Result<(), Failed>
    ensures { Said (E.state err.old) (line_of status.now) (E.state err.new) }
{
    write_status(status, err)?;
    err.flush()
}

/// Says how the program ended, or nothing if the whole report was written. The answer is the same if the line can't be written.
pub(crate) fn say<E: Sink>(status: &Status, err: &mut E)
    ensures { Said (E.state err.old) (line_of status.now) (E.state err.new) }
{
    if matches!(status, Status::Done) {
        return;
    }
    let _ = write_line(status, err);
}
