//! The check of a report.

ghost use Rattle.std.specs.Prelude.{◌≤◌, ℕ, List, length};
ghost use Rattle.audit_check.specs.Reported.{IsUnique};
ghost use Rattle.hist_model.specs.declared.script.Script.{Script};
ghost use Rattle.program_files.specs.Printed.{status_of};
ghost use Rattle.hist_model.specs.Report.{report};
ghost use Rattle.play_words.specs.Checks.{BytesCheckEnds, CheckEnds};

use crate::players::Player;
use crate::plays::print_text;
use crate::printing::Printout;
use audit_check::check::check_report;
use audit_check::found::Checked;
use hist_model::policy::Policy;
use hist_model::script::Script;
use io_edge::files::Files;
use io_edge::sink::Sink;
use program_files::inputs::{read_inputs, read_report};
use program_files::status::Status;
use std::alloc::Global;

/// Bytes are the report of one history under a policy at most, and have one fault line at most, and not both.
fn is_unique(policy: &Policy)
    ensures { (S : Script) (bytes : List ℕ) → IsUnique policy.now S bytes }
{
    let _rules = &policy.rules;
}

/// Checks the bytes of a report, and prints what is found of the history that it tells.
#[tactic(auto, using(crate::proofs::Checks::found_ends, crate::proofs::Checks::not_found_ends))]
fn check_bytes<P: Player, O: Sink>(
    player: &P,
    alloc: Global,
    policy: &Policy,
    script: Script,
    report: &[u8],
    out: &mut O,
) -> Result<(), Status>
    requires { length report.now ≤ 33554432 }
    ensures { BytesCheckEnds policy.now script report.now (O.state out.old) (O.state out.new) (status_of result) }
{
    is_unique(policy);
    match check_report(alloc, policy, script, report)? {
        Checked::Yes {
            history,
            finished,
            tables,
        } => {
            let printout = Printout::Findings {
                finished,
                tables: &tables,
            };
            let printed = print_text(alloc, printout, policy, &history, out);
            player.let_go(tables);
            player.let_go(history);
            printed
        }
        Checked::No { line } => Err(Status::NotReport { line }),
    }
}

/// Checks the report of a file under the policy and the script of two others, and prints what is found.
#[tactic(auto, using(crate::proofs::Checks::check_stops, crate::proofs::Checks::report_stops, crate::proofs::Checks::read_ends))]
pub fn check_files<P: Player, F: Files, O: Sink>(
    player: &P,
    alloc: Global,
    files: &mut F,
    policy: &str,
    script: &str,
    report: &str,
    out: &mut O,
) -> Result<(), Status>
    ensures { CheckEnds (F.state files.old) (F.state files.new) (O.state out.old) (O.state out.new) policy.now script.now report.now (status_of result) }
{
    let (policy, script) = read_inputs(alloc, files, policy, script)?;
    let report = read_report(alloc, files, report)?;
    check_bytes(player, alloc, &policy, script, report.as_slice(), out)
}
