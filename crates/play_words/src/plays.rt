//! What is printed of a history, and of the history that a script plays.

ghost use Rattle.std.specs.Prelude.{List};
ghost use Rattle.hist_model.specs.Legal.{played};
ghost use Rattle.hist_model.specs.Mediated.{Mediated};
ghost use Rattle.hist_model.specs.ReportAudit.{judging_by};
ghost use Rattle.hist_model.specs.declared.event.Event.{Event};
ghost use Rattle.play_words.specs.Printouts.{IsPrintable, printout_of, text_of};
ghost use Rattle.program_files.specs.Printed.{Printed};
ghost use Rattle.play_words.specs.Handovers.{report_and};
ghost use Rattle.worker_gate.specs.Replacing.{handed_in};

use crate::players::Player;
use crate::printing::{Printout, print_history, printout_of};
use hist_model::history::History;
use hist_model::policy::Policy;
use hist_model::script::Script;
use io_edge::sink::Sink;
use program_files::status::Status;
use std::alloc::Global;
use worker_gate::Played;

/// Prints what is asked of a history.
#[tactic(auto, using(program_files::proofs::Printing::printed_whole, program_files::proofs::Printing::printed_part))]
pub fn print_text<O: Sink>(
    alloc: Global,
    printout: Printout<'_>,
    policy: &Policy,
    history: &History,
    out: &mut O,
) -> Result<(), Status>
    requires { IsPrintable printout policy.now.rules history.now.events }
    ensures { Printed (text_of printout.entry (judging_by policy.now.rules) history.now.events) (O.state out.old) (O.state out.new) result }
{
    print_history(alloc, printout, policy, history, out)?;
    Ok(())
}

/// Plays a script under a policy and prints what is asked of it.
#[tactic(auto, using(crate::proofs::Ends::ends_printed, program_files::proofs::Printing::ends_unplayed))]
pub fn print_played<P: Player, O: Sink>(
    player: &P,
    alloc: Global,
    printout: Printout<'_>,
    policy: Policy,
    script: Script,
    out: &mut O,
) -> Result<(), Status>
    requires { (H : List Event) → IsPrintable printout policy.rules H }
    ensures { Printed (printout_of printout.entry policy script) (O.state out.old) (O.state out.new) result }
{
    let Played {
        policy,
        script,
        history,
        ..
    } = player.play(alloc, policy, script, None)?;
    // (a report takes memory for its tables, and has no use for the script)
    drop(script);
    let printed = print_text(alloc, printout, &policy, &history, out);
    player.let_go(policy);
    player.let_go(history);
    printed
}

/// What a script plays under a policy is mediated.
#[tactic(auto, using(mediation::proofs::PlayedScripts::played_is_mediated))]
pub fn is_mediated(policy: &Policy, script: &Script)
    ensures { Mediated policy.now script.now (played policy.now script.now) }
{
    let _schedule = &script.schedule;
}

/// Prints the report of what was played or served, and the ledgers from which workers were replaced, where they were to be.
pub fn print_whole<O: Sink>(alloc: Global, played: &Played, out: &mut O) -> Result<(), Status>
    ensures { Printed (report_and (judging_by played.now.policy.rules) played.now.history.events (handed_in played.now.handed)) (O.state out.old) (O.state out.new) result }
{
    let printout = printout_of(played);
    print_text(alloc, printout, &played.policy, &played.history, out)
}
