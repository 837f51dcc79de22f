//! Runs with threads: of one container, and of several side by side.

ghost use Rattle.std.specs.Prelude.{◌≡◌, ◌≤◌, length, true, IfSome};
ghost use Rattle.play_words.specs.Handovers.{IsAfterSteps};
ghost use Rattle.run_words.specs.Pairs.{are_pairs, in_pairs, texts};
ghost use Rattle.program_files.specs.Printed.{Printed, status_of};
ghost use Rattle.run_words.specs.Pods.{PodEnds};
ghost use Rattle.run_words.specs.PodText.{kept_in, pod_text};
ghost use Rattle.run_words.specs.Runs.{RunEnds, by_servers};

use crate::pod_printing::print_pod;
use crate::pods::{read_containers, see_ranges};
use crate::serving::{run_container, serve_containers};
use crew::Gate;
use io_edge::files::Files;
use io_edge::sink::Sink;
use play_words::players::{Player, TurnTaker};
use play_words::plays::print_whole;
use program_files::inputs::read_inputs;
use program_files::status::Status;
use std::alloc::Global;
use std::sync::Wait;
use std::thread::Threads;
use worker_gate::Played;

/// Prints the reports of containers that were served side by side, and the sums of their summaries.
#[tactic(auto, using(program_files::proofs::Printing::printed_whole, program_files::proofs::Printing::printed_part))]
fn print_containers<O: Sink>(alloc: Global, ended: &[Played], out: &mut O) -> Result<(), Status>
    ensures { Printed (pod_text kept_in ended.now) (O.state out.old) (O.state out.new) result }
{
    print_pod(alloc, ended, out)?;
    Ok(())
}

/// Runs the script of a file with threads under the policy of another, with workers up to this one or by lanes, and writes the report, and
/// the ledgers from which workers were replaced, where they were to be.
#[tactic(auto, using(crate::proofs::Runs::run_stops, crate::proofs::Runs::run_unserved))]
pub fn run_files<R: Threads + Wait + Sync, F: Files, O: Sink, G: Gate + Sync>(
    rt: &R,
    alloc: Global,
    files: &mut F,
    policy: &str,
    script: &str,
    workers: Option<u8>,
    cpus: u8,
    every: Option<u32>,
    out: &mut O,
    gate: &G,
) -> Result<(), Status>
    requires numbers { IfSome workers (λ w. w ≤ 16) × (cpus ≤ 16) }
    requires every { IsAfterSteps every }
    ensures { RunEnds (F.state files.old) (F.state files.new) (O.state out.old) (O.state out.new) policy.now script.now (by_servers workers) every (status_of result) }
{
    let (policy, script) = read_inputs(alloc, files, policy, script)?;
    let ended = run_container(rt, alloc, policy, script, workers, cpus, every, gate)?;
    let printed = print_whole(alloc, &ended, out);
    TurnTaker { rt }.let_go(ended);
    printed
}

/// Serves the containers of pairs of files side by side, and writes the report of each, the ledgers from which its workers were replaced,
/// where they were to be, and the sums of the summaries.
#[tactic(auto, using(crate::proofs::Containers::pairs_stop, crate::proofs::Containers::pod_unserved))]
pub fn serve_files<R: Threads + Wait + Sync, F: Files, O: Sink, G: Gate + Sync>(
    rt: &R,
    alloc: Global,
    files: &mut F,
    names: &[String],
    workers: Option<u8>,
    cpus: u8,
    every: Option<u32>,
    out: &mut O,
    gate: &G,
) -> Result<(), Status>
    requires numbers { IfSome workers (λ w. w ≤ 16) × (cpus ≤ 16) }
    requires every { IsAfterSteps every }
    requires pairs { are_pairs (length names.now) ≡ true }
    ensures { PodEnds (F.state files.old) (F.state files.new) (O.state out.old) (O.state out.new) (by_servers workers) every (in_pairs (texts names.now)) (status_of result) }
{
    let containers = read_containers(alloc, files, names)?;
    see_ranges(containers.as_slice())?;
    let ended = serve_containers(rt, alloc, containers, workers, cpus, every, gate)?;
    print_containers(alloc, ended.as_slice(), out)
}
