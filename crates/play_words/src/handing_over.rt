//! Plays whose workers are replaced.

ghost use Rattle.std.specs.Prelude.{◌<◌};
ghost use Rattle.program_files.specs.Printed.{Printed, status_of};
ghost use Rattle.play_words.specs.Handovers.{HandoverEnds, handover_report};

use crate::players::Player;
use crate::plays::{is_mediated, print_whole};
use hist_model::policy::Policy;
use hist_model::script::Script;
use io_edge::files::Files;
use io_edge::sink::Sink;
use program_files::inputs::{Inputs, read_stated};
use program_files::status::{Refusal, Status};
use script_reader::ScriptFile;
use std::alloc::Global;

/// Plays a script under a policy with workers that are replaced, and prints the report and the ledgers.
fn print_handed_play<P: Player, O: Sink>(
    player: &P,
    alloc: Global,
    policy: Policy,
    script: Script,
    every: u32,
    out: &mut O,
) -> Result<(), Status>
    requires { 0 < every }
    ensures { Printed (handover_report every policy script) (O.state out.old) (O.state out.new) result }
{
    let played = player.play(alloc, policy, script, Some(every))?;
    let printed = print_whole(alloc, &played, out);
    player.let_go(played);
    printed
}

/// Plays the script in one file under the policy in another with workers that are replaced, and writes the report and the ledgers. One
/// whose schedule says what another broker's workers ask for is refused: nobody can replace those.
#[tactic(auto, using(crate::proofs::Ends::handover_stops))]
pub fn hand_over_files<P: Player, F: Files, O: Sink>(
    player: &P,
    alloc: Global,
    files: &mut F,
    policy: &str,
    script: &str,
    every: u32,
    out: &mut O,
) -> Result<(), Status>
    requires { 0 < every }
    ensures { HandoverEnds (F.state files.old) (F.state files.new) (O.state out.old) (O.state out.new) policy.now script.now every (status_of result) }
{
    let Inputs {
        policy,
        file,
        bytes: _bytes,
    } = read_stated(alloc, files, policy, script)?;
    let ScriptFile { script, turns } = file;
    if !turns.items().is_empty() {
        return Err(Status::Refused(Refusal::HasRequests));
    }
    is_mediated(&policy, &script);
    print_handed_play(player, alloc, policy, script, every, out)
}
