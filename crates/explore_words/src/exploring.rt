//! What a script can come to: its histories are explored, and what was found is printed.

ghost use Rattle.std.specs.Prelude.{◌≡◌, ◌≤◌, ℕ, List, OnOk};
ghost use Rattle.audit_log.specs.Written.{Wrote};
ghost use Rattle.program_files.specs.Printed.{Printed, status_of};
ghost use Rattle.explore_words.specs.Explorations.{ExploreEnds, IsExploredText, exploration_text};
ghost use Rattle.program_files.specs.Refusals.{Stands};
ghost use Rattle.hist_model.specs.ScriptRules.{IsScript};

use crate::outcomes::write_exploration;
use audit_log::error::ReportError;
use delay_bounded::laws::{all_finished_is_complete, explored_are_finished, explored_are_legal};
use explorer::{Exploration, explore};
use hist_model::policy::Policy;
use hist_model::script::Script;
use io_edge::files::Files;
use io_edge::sink::Sink;
use program_files::inputs::read_inputs;
use program_files::status::Status;
use std::alloc::Global;

/// Writes what was found, and flushes it.
#[tactic(auto, using(program_files::proofs::Printing::flushed))]
fn write_flushed<O: Sink>(
    alloc: Global,
    workers: u8,
    delays: Option<u64>,
    found: &Exploration,
    out: &mut O,
) -> Result<(), ReportError>
    ensures wrote { Wrote (O.state out.old) (exploration_text workers delays found.now) result (O.state out.new) }
    ensures stands { OnOk result (Stands (O.state out.new)) }
{
    write_exploration(alloc, workers, delays, found, out)?;
    out.flush()?;
    Ok(())
}

/// Prints what was found.
#[tactic(auto, using(program_files::proofs::Printing::printed_whole, program_files::proofs::Printing::printed_part))]
fn print_exploration<O: Sink>(
    alloc: Global,
    workers: u8,
    delays: Option<u64>,
    found: &Exploration,
    out: &mut O,
) -> Result<(), Status>
    ensures { Printed (exploration_text workers delays found.now) (O.state out.old) (O.state out.new) result }
{
    write_flushed(alloc, workers, delays, found, out)?;
    Ok(())
}

/// Explores a script under a policy, and prints what was found.
fn print_explored<O: Sink>(
    alloc: Global,
    policy: &Policy,
    script: Script,
    workers: u8,
    delays: Option<u64>,
    out: &mut O,
) -> Result<(), Status>
    requires { workers ≤ 15 }
    ensures { (text : List ℕ) × IsExploredText workers delays policy.now script text × Printed text (O.state out.old) (O.state out.new) result }
{
    let found = explore(alloc, policy, script, workers, delays)?;
    print_exploration(alloc, workers, delays, &found, out)
}

/// A script keeps the rules of its format.
fn keeps_rules(script: &Script)
    ensures { IsScript script.now }
{
    let _base = script.pidbase;
}

/// Explores the script in one file under the policy in another, and prints what was found.
#[tactic(auto, using(crate::proofs::Explored::explore_stops))]
pub fn explore_files<F: Files, O: Sink>(
    alloc: Global,
    files: &mut F,
    policy: &str,
    script: &str,
    workers: u8,
    delays: Option<u64>,
    out: &mut O,
) -> Result<(), Status>
    requires { workers ≤ 15 }
    ensures { ExploreEnds (F.state files.old) (F.state files.new) (O.state out.old) (O.state out.new) policy.now script.now workers delays (status_of result) }
{
    let (policy, script) = read_inputs(alloc, files, policy, script)?;
    explored_are_legal();
    explored_are_finished();
    all_finished_is_complete();
    keeps_rules(&script);
    print_explored(alloc, &policy, script, workers, delays, out)
}
