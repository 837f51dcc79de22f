//! The top call.

ghost use Rattle.std.specs.Prelude.{◌≡◌, IfSome};
ghost use Rattle.run_words.specs.Pairs.{texts};
ghost use Rattle.broker_app.specs.Words.{form};
ghost use Rattle.std.specs.Option.{option_map};
ghost use Rattle.broker_app.specs.Forms.{IsJobInRange, IsInRange, form_of, job_of};
ghost use Rattle.broker_app.specs.Answers.{Answers, Said};
ghost use Rattle.program_files.specs.Printed.{status_of};
ghost use Rattle.broker_app.specs.Lines.{line_of};

use crate::lines::say;
use crate::words::{Form, Job, read_form};
use crew::Gate;
use explore_words::exploring::explore_files;
use io_edge::files::Files;
use io_edge::sink::Sink;
use play_words::checking::check_files;
use play_words::generated::stress;
use play_words::handing_over::hand_over_files;
use play_words::players::{Player, TurnTaker};
use policy_words::explaining::explain_files;
use policy_words::telling::{check_claims, compare_files, lint_file};
use program_files::status::Status;
use run_words::running::{run_files, serve_files};
use std::alloc::Global;
use std::sync::Wait;
use std::thread::Threads;
use step_words::judging::judge_files;
use step_words::playing::play_files;
use step_words::stepping::step_files;

/// Does a job; none is a usage error.
fn answer<P: Player, F: Files, O: Sink>(
    player: &P,
    alloc: Global,
    job: Option<Job<'_>>,
    files: &mut F,
    out: &mut O,
) -> Result<(), Status>
    requires { IfSome job (λ j. IsJobInRange j) }
    ensures { Answers (option_map job_of job.entry) (F.state files.old) (F.state files.new) (O.state out.old) (O.state out.new) (status_of result) }
{
    match job {
        None => Err(Status::Usage),
        Some(Job::Play { policy, script }) => play_files(player, alloc, files, policy, script, out),
        Some(Job::Stress { from, count }) => stress(player, alloc, from, count, out),
        Some(
            Job::AuditCheck {
                policy,
                script,
                report,
            },
        ) => check_files(player, alloc, files, policy, script, report, out),
        Some(
            Job::Handover {
                policy,
                script,
                every,
            },
        ) => hand_over_files(player, alloc, files, policy, script, every, out),
        Some(
            Job::Explore {
                policy,
                script,
                workers,
                delays,
            },
        ) => explore_files(alloc, files, policy, script, workers, delays, out),
        Some(Job::Step { policy, script }) => step_files(alloc, files, policy, script, out),
        Some(Job::Judge { policy, script }) => judge_files(alloc, files, policy, script, out),
        Some(Job::Explain { policy, calls }) => explain_files(alloc, files, policy, calls, out),
        Some(Job::Compare { old, new, script }) => {
            compare_files(alloc, files, old, new, script, out)
        }
        Some(Job::Check { policy, claims }) => check_claims(alloc, files, policy, claims, out),
        Some(Job::Lint { policy }) => lint_file(alloc, files, policy, out),
    }
}

/// Does what a form of the words asks for; none is a usage error.
fn answer_form<R: Threads + Wait + Sync, F: Files, O: Sink, G: Gate + Sync>(
    rt: &R,
    alloc: Global,
    form: Option<Form<'_>>,
    files: &mut F,
    out: &mut O,
    gate: &G,
) -> Result<(), Status>
    requires { IfSome form (λ f. IsInRange f) }
    ensures { Answers (option_map form_of form.entry) (F.state files.old) (F.state files.new) (O.state out.old) (O.state out.new) (status_of result) }
{
    let player = TurnTaker { rt };
    match form {
        None => answer(&player, alloc, None, files, out),
        Some(Form::Job(job)) => answer(&player, alloc, Some(job), files, out),
        Some(
            Form::Run {
                policy,
                script,
                workers,
                cpus,
                every,
            },
        ) => run_files(
            rt,
            alloc,
            files,
            policy,
            script,
            Some(workers),
            cpus,
            every,
            out,
            gate,
        ),
        Some(
            Form::Lanes {
                policy,
                script,
                cpus,
                every,
            },
        ) => run_files(
            rt, alloc, files, policy, script, None, cpus, every, out, gate,
        ),
        Some(
            Form::Pod {
                workers,
                cpus,
                every,
                pairs,
            },
        ) => serve_files(rt, alloc, files, pairs, workers, cpus, every, out, gate),
    }
}

/// The status that an outcome is. Says on `err` why it isn't `Done`, in one line.
fn tell<E: Sink>(outcome: Result<(), Status>, err: &mut E) -> Status
    ensures status { result ≡ status_of outcome }
    ensures said { Said (E.state err.old) (line_of result) (E.state err.new) }
{
    let status = match outcome {
        Ok(()) => Status::Done,
        Err(status) => status,
    };
    say(&status, err);
    status
}

/// Does a job, or writes one line to `err` that says why it couldn't. Without a job that is the usage line. The player plays what
/// is to be played.
pub fn carry_out<P: Player, F: Files, O: Sink, E: Sink>(
    player: &P,
    alloc: Global,
    job: Option<Job<'_>>,
    files: &mut F,
    out: &mut O,
    err: &mut E,
) -> Status
    requires { IfSome job (λ j. IsJobInRange j) }
    ensures answers { Answers (option_map job_of job.entry) (F.state files.old) (F.state files.new) (O.state out.old) (O.state out.new) result }
    ensures said { Said (E.state err.old) (line_of result) (E.state err.new) }
{
    tell(answer(player, alloc, job, files, out), err)
}

/// Does what the words ask for, and says on `err` why it didn't, in one line. Where a script is run with threads, each worker's
/// hand calls at the gate.
pub fn broker<R: Threads + Wait + Sync, F: Files, O: Sink, E: Sink, G: Gate + Sync>(
    rt: &R,
    alloc: Global,
    words: &[String],
    files: &mut F,
    out: &mut O,
    err: &mut E,
    gate: &G,
) -> Status
    ensures answers { Answers (form (texts words.now)) (F.state files.old) (F.state files.new) (O.state out.old) (O.state out.new) result }
    ensures said { Said (E.state err.old) (line_of result) (E.state err.new) }
{
    tell(
        answer_form(rt, alloc, read_form(words), files, out, gate),
        err,
    )
}
