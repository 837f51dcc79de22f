//! Plays of two files, also by lines in which a worker of another broker has requests.

ghost use Rattle.std.specs.Prelude.{◌≡◌, true, None, Err};
ghost use Rattle.hist_model.specs.ReportAudit.{judging_by};
ghost use Rattle.program_files.specs.Printed.{Printed, status_of};
ghost use Rattle.step_words.specs.Plays.{IsLawfullyPlayed, as_report, report_of};
ghost use Rattle.play_words.specs.Printings.{PlayEnds};
ghost use Rattle.hist_model.specs.Report.{report};
ghost use Rattle.script_reader.specs.Rules.{AreTurns};
ghost use Rattle.std.specs.List.{All};
ghost use Rattle.step_requests.specs.Turns.{AreApart};
ghost use Rattle.turn_player.specs.Turns.{IsTurn, turned};
ghost use Rattle.program_files.specs.declared.status.InputFile.TheVariants.{Policy as PolicyFile};
ghost use Rattle.program_files.specs.declared.status.Refusal.TheVariants.{ReadFault};
ghost use Rattle.program_files.specs.declared.status.Status.TheVariants.{Refused};

use hist_model::policy::Policy;
use hist_model::script::Script;
use io_edge::files::Files;
use io_edge::sink::Sink;
use play_words::players::Player;
use play_words::plays::{is_mediated, print_played, print_text};
use play_words::printing::Printout;
use program_files::inputs::{Inputs, read_stated};
use program_files::status::Status;
use script_reader::ScriptFile;
use std::alloc::Global;
use step_requests::Turn;
use turn_player::laws::turned_is_of_the_kernel;
use turn_player::play_turns;

/// Plays a script by the lines of a schedule in which a worker of another broker has requests, and prints the report.
fn print_turned<O: Sink>(
    alloc: Global,
    policy: &Policy,
    script: Script,
    turns: &[Turn],
    out: &mut O,
) -> Result<(), Status>
    requires turns { All IsTurn turns.now }
    requires apart { AreApart turns.now }
    ensures { Printed (report (judging_by policy.now.rules) (turned policy.now script turns.now)) (O.state out.old) (O.state out.new) result }
{
    let (_script, history) = play_turns(alloc, policy, script, turns)?;
    print_text(alloc, Printout::Report, policy, &history, out)
}

/// Plays what the file of a script states, and prints the report.
fn print_file_played<P: Player, O: Sink>(
    player: &P,
    alloc: Global,
    policy: Policy,
    file: ScriptFile,
    out: &mut O,
) -> Result<(), Status>
    requires { AreTurns file.turns }
    ensures { Printed (report_of policy file) (O.state out.old) (O.state out.new) result }
{
    let ScriptFile { script, turns } = file;
    if turns.items().is_empty() {
        return print_played(player, alloc, Printout::Report, policy, script, out);
    }
    print_turned(alloc, &policy, script, turns.items(), out)
}

/// What the file of a script states is played lawfully: it is mediated, or the history is one of the kernel.
fn is_lawful(policy: &Policy, file: &ScriptFile)
    requires { AreTurns file.now.turns }
    ensures { IsLawfullyPlayed policy.now file.now.script file.now.turns }
{
    is_mediated(policy, &file.script);
    turned_is_of_the_kernel();
}

/// Plays the script in one file under the policy in another, and writes the report.
#[tactic(auto, using(play_words::proofs::Ends::play_stops))]
pub fn play_files<P: Player, F: Files, O: Sink>(
    player: &P,
    alloc: Global,
    files: &mut F,
    policy: &str,
    script: &str,
    out: &mut O,
) -> Result<(), Status>
    ensures ends { PlayEnds (F.state files.old) (F.state files.new) (O.state out.old) (O.state out.new) policy.now script.now as_report (status_of result) }
    ensures absent { (F.state files.old).sound ≡ true → (F.state files.old).bytes policy.now ≡ None → result ≡ Err (Refused (ReadFault PolicyFile)) }
{
    let Inputs {
        policy,
        file,
        bytes,
    } = read_stated(alloc, files, policy, script)?;
    // (a play takes more memory than reading does, and has no use for the script's text)
    drop(bytes);
    is_lawful(&policy, &file);
    print_file_played(player, alloc, policy, file, out)
}
