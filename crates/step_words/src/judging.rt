//! The word that judges a broker: whether the workers of a script's schedule mediate.

ghost use Rattle.std.specs.Prelude.{◌≡◌, IfOk, List, None, Some, true};
ghost use Rattle.std.specs.List.{All};
ghost use Rattle.program_files.specs.Printed.{status_of};
ghost use Rattle.step_words.specs.Judgements.{IsToldOf, JudgeEnds, judged_history, lines_by};
ghost use Rattle.hist_model.specs.declared.event.Event.{Event};
ghost use Rattle.judge_pass.specs.Closed.{is_closed};
ghost use Rattle.judge_pass.specs.Counted.{AreCounted};
ghost use Rattle.judge_pass.specs.Finding.{as_finding, finding};
ghost use Rattle.judge_pass.specs.declared.watch.FirstFault.{FirstFault as FirstFaultValue};
ghost use Rattle.script_reader.specs.Rules.{AreTurns};
ghost use Rattle.step_requests.specs.Turns.{AreApart};
ghost use Rattle.turn_player.specs.Turns.{IsTurn};

use audit_log::line::LineBuffer;
use hist_model::policy::Policy;
use hist_model::script::Script;
use hist_model::text::{Sequence, Text};
use io_edge::files::Files;
use io_edge::sink::Sink;
use judge_pass::heads::{push_broken, push_mediated};
use judge_pass::watch::FirstFault;
use policy_classes::ending::{Ending, Told};
use policy_words::telling::tell;
use program_files::inputs::{Inputs, read_stated};
use program_files::status::Status;
use script_reader::ScriptFile;
use std::alloc::Global;
use step_requests::Turn;
use sys_abi::memory::NoMemory;
use turn_player::{Judgement, play_judged, turns_of};

/// The lines that are played: those of a schedule with requests, or the steps of one without.
fn lines_of(
    alloc: Global,
    script: &Script,
    turns: Sequence<Turn>,
) -> Result<Sequence<Turn>, NoMemory>
    requires { AreTurns turns }
    ensures are { IfOk result (λ lines. lines ≡ lines_by turns script.now) }
    ensures turns { IfOk result (λ lines. All IsTurn lines) }
    ensures apart { IfOk result (λ lines. AreApart lines) }
{
    if turns.items().is_empty() {
        return Ok(Sequence::new(turns_of(alloc, script)?));
    }
    Ok(turns)
}

/// What is told where an event breaks a clause.
fn told_broken(alloc: Global, found: &FirstFault, reasons: &[u8]) -> Result<Told, NoMemory>
    ensures { IfOk result (λ told. (K : List Event) → IsToldOf (Some (as_finding found.now)) K told) }
{
    let mut line = LineBuffer::new(alloc);
    push_broken(&mut line, found.place as u64, &found.fault)?;
    line.push_bytes(reasons)?;
    Ok(Told {
        text: Text::new(line.into_bytes()),
        ending: Ending::Otherwise,
    })
}

/// What is told where none does.
#[tactic(auto, using(crate::proofs::Judged::mediated_told))]
fn told_mediated(alloc: Global, judgement: &Judgement) -> Result<Told, NoMemory>
    ensures { IfOk result (λ told. (K : List Event) → is_closed K ≡ true → judgement.now.history.events ≡ K → AreCounted K judgement.now.counts → IsToldOf None K told) }
{
    let events = judgement.history.len().saturating_sub(1);
    let mut line = LineBuffer::new(alloc);
    push_mediated(&mut line, events as u64, &judgement.counts)?;
    Ok(Told {
        text: Text::new(line.into_bytes()),
        ending: Ending::Alike,
    })
}

/// What is told of a play that was judged.
fn told_of(alloc: Global, judgement: &Judgement) -> Result<Told, NoMemory>
    ensures broken { IfOk result (λ told. (K : List Event) (found : FirstFaultValue) → judgement.now.found ≡ Some found → IsToldOf (Some (as_finding found)) K told) }
    ensures mediated { IfOk result (λ told. (K : List Event) → judgement.now.found ≡ None → is_closed K ≡ true → judgement.now.history.events ≡ K → AreCounted K judgement.now.counts → IsToldOf None K told) }
{
    match &judgement.found {
        Some(found) => told_broken(alloc, found, judgement.reasons.as_slice()),
        None => told_mediated(alloc, judgement),
    }
}

/// What is told of what a script's file plays under a policy.
fn judged(alloc: Global, policy: &Policy, file: ScriptFile) -> Result<Told, NoMemory>
    requires { AreTurns file.turns }
    ensures { IfOk result (λ told. IsToldOf (finding policy.now file.script (judged_history policy.now file)) (judged_history policy.now file) told) }
{
    let ScriptFile { script, turns } = file;
    let lines = lines_of(alloc, &script, turns)?;
    let judgement = play_judged(alloc, policy, script, lines.items())?;
    let told = told_of(alloc, &judgement)?;
    Ok(told)
}

/// Plays the script in one file under the policy in another, and prints whether the workers of its schedule mediate.
#[tactic(auto, using(crate::proofs::Judged::inputs_stop))]
pub fn judge_files<F: Files, O: Sink>(
    alloc: Global,
    files: &mut F,
    policy: &str,
    script: &str,
    out: &mut O,
) -> Result<(), Status>
    ensures { JudgeEnds (F.state files.old) (F.state files.new) (O.state out.old) (O.state out.new) policy.now script.now (status_of result) }
{
    let Inputs {
        policy,
        file,
        bytes: _bytes,
    } = read_stated(alloc, files, policy, script)?;
    let told = judged(alloc, &policy, file)?;
    tell(&told, out)
}
