//! A script whose tasks and workers step as requests on the standard input ask for.

ghost use Rattle.program_files.specs.Printed.{status_of};
ghost use Rattle.step_words.specs.Stepping.{StepEnds};

use io_edge::files::Files;
use io_edge::sink::Sink;
use program_files::inputs::{Inputs, read_stated};
use program_files::status::{InputFile, Refusal, Status};
use script_reader::ScriptFile;
use std::alloc::Global;
use step_session::laws::histories_are_of_the_kernel;
use step_session::{Origin, StepFault, serve};

/// The file of the requests: the standard input (proc_pid_fd(5)).
const REQUESTS: &str = "/dev/stdin";

/// Steps the script in one file as the requests on the standard input ask for, and writes the answers.
#[tactic(auto, using(crate::proofs::StepEnds::step_stops))]
pub fn step_files<F: Files, O: Sink>(
    alloc: Global,
    files: &mut F,
    policy: &str,
    script: &str,
    out: &mut O,
) -> Result<(), Status>
    ensures { StepEnds (F.state files.old) (F.state files.new) (O.state out.old) (O.state out.new) policy.now script.now (status_of result) }
{
    let Inputs {
        policy,
        file,
        bytes,
    } = read_stated(alloc, files, policy, script)?;
    histories_are_of_the_kernel();
    let origin = Origin::new(alloc, policy, bytes.as_slice())?;
    let ScriptFile { script, .. } = file;
    match serve(alloc, &origin, script, files, REQUESTS, out) {
        Ok(()) => Ok(()),
        Err(StepFault::ReadFault) => Err(Status::Refused(Refusal::ReadFault(InputFile::Requests))),
        Err(StepFault::WriteFault) => Err(Status::WriteFault),
        Err(StepFault::NoMemory) => Err(Status::NoMemory),
    }
}
