//! The outcome of a call of the library.

ghost use Rattle.std.specs.Prelude.{◌≡◌, ◌^◌, ◌<◌, ◌&&◌, codes, length, nat_le, nat_lt, Some, None, if◌then◌else◌};
ghost use Rattle.std.specs.Option.{ForSome, option_map};
ghost use Rattle.broker_app.specs.Words.{Explore, Handover, Stress};
ghost use Rattle.broker_app.specs.Answers.{Said};
ghost use Rattle.broker_app.specs.Forms.{IsJobInRange, job_of};
ghost use Rattle.broker_app.specs.Lines.{line_of};
ghost use Rattle.step_words.specs.Plays.{as_report};
ghost use Rattle.broker_c.specs.Held.{empty_sink};
ghost use Rattle.broker_c.specs.Outcomes.{CheckGives, ExploreGives, HandoverGives, JudgeGives, PlayGives, Says, StressGives, bound_meant, explore_asked, settled};

use crate::given::{GivenFiles, POLICY, REPORT, SCRIPT};
use crate::held::HeldBytes;
use broker_app::broker::carry_out;
use broker_app::words::Job;
use io_edge::sink::Sink;
use play_words::players::LoneThread;
use program_files::status::Status;
use std::alloc::Global;

/// The number of delays that means all of them.
const ALL_DELAYS: u32 = u32::MAX;

/// How many bytes of a line are held at most.
const LINE_ROOM: usize = 1 << 30;

/// The outcome of a call: its status, what it printed, and the line that it said.
#[derive(Drop)]
pub(crate) struct Outcome {
    pub(crate) status: Status,
    pub(crate) printed: Vec<u8>,
    pub(crate) said: Vec<u8>,
}

/// The status that is told of one that the top call answered, where more was printed than there is room for (`over`), or the
/// line couldn't be held (`failed`). A sink in memory that isn't full fails only for want of memory.
fn settled(status: Status, over: bool, failed: bool) -> Status
    ensures { result ≡ settled over failed status }
{
    match status {
        _ if over => Status::WriteFault,
        Status::WriteFault => Status::NoMemory,
        _ if failed => Status::NoMemory,
        status => status,
    }
}

/// What the top call's status and its sinks come to, with room for so many bytes of a report.
fn outcome_of(status: Status, room: usize, out: HeldBytes, err: HeldBytes) -> Outcome
    requires { Said empty_sink (line_of status) (⟦<HeldBytes as Sink>⟧.state err) }
    ensures printed { result.printed.items ≡ (⟦<HeldBytes as Sink>⟧.state out).taken }
    ensures status { result.status ≡ settled (nat_lt room (length (⟦<HeldBytes as Sink>⟧.state out).taken)) (nat_lt 0 (⟦<HeldBytes as Sink>⟧.state err).faults) status }
    ensures says { Says result.status result.said.items }
{
    let failed = err.has_failed();
    let printed = out.into_taken();
    let over = printed.len() > room;
    Outcome {
        status: settled(status, over, failed),
        printed,
        said: err.into_taken(),
    }
}

/// Plays a script under a policy, with room for so many bytes of a report.
pub(crate) fn play(alloc: Global, policy: &[u8], script: &[u8], room: usize) -> Outcome
    requires { room < 2 ^ 63 }
    ensures gives { PlayGives as_report policy.now script.now room result.printed.items result.status }
    ensures says { Says result.status result.said.items }
{
    let mut files = GivenFiles::new(policy, script, &[]);
    let mut out = HeldBytes::new(alloc, room + 1);
    let mut err = HeldBytes::new(alloc, LINE_ROOM);
    let job = Job::Play {
        policy: POLICY,
        script: SCRIPT,
    };
    let status = carry_out(
        &LoneThread,
        alloc,
        Some(job),
        &mut files,
        &mut out,
        &mut err,
    );
    outcome_of(status, room, out, err)
}

/// Checks a report under a policy and a script, with room for so many bytes of what is found.
pub(crate) fn check(
    alloc: Global,
    policy: &[u8],
    script: &[u8],
    report: &[u8],
    room: usize,
) -> Outcome
    requires { room < 2 ^ 63 }
    ensures gives { CheckGives policy.now script.now report.now room result.printed.items result.status }
    ensures says { Says result.status result.said.items }
{
    let mut files = GivenFiles::new(policy, script, report);
    let mut out = HeldBytes::new(alloc, room + 1);
    let mut err = HeldBytes::new(alloc, LINE_ROOM);
    let job = Job::AuditCheck {
        policy: POLICY,
        script: SCRIPT,
        report: REPORT,
    };
    let status = carry_out(
        &LoneThread,
        alloc,
        Some(job),
        &mut files,
        &mut out,
        &mut err,
    );
    outcome_of(status, room, out, err)
}

/// Plays generated input of so many calls, with room for so many bytes of a summary.
pub(crate) fn stress(alloc: Global, from: u64, count: u32, room: usize) -> Outcome
    requires { room < 2 ^ 63 }
    ensures gives { StressGives from count room result.printed.items result.status }
    ensures says { Says result.status result.said.items }
{
    let mut files = GivenFiles::new(&[], &[], &[]);
    let mut out = HeldBytes::new(alloc, room + 1);
    let mut err = HeldBytes::new(alloc, LINE_ROOM);
    let status = carry_out(
        &LoneThread,
        alloc,
        stress_job(from, count),
        &mut files,
        &mut out,
        &mut err,
    );
    outcome_of(status, room, out, err)
}

/// Plays a script under a policy with workers that are replaced, with room for so many bytes of the report and the ledgers.
pub(crate) fn play_handing(
    alloc: Global,
    policy: &[u8],
    script: &[u8],
    every: u32,
    room: usize,
) -> Outcome
    requires { room < 2 ^ 63 }
    ensures gives { HandoverGives policy.now script.now every room result.printed.items result.status }
    ensures says { Says result.status result.said.items }
{
    let mut files = GivenFiles::new(policy, script, &[]);
    let mut out = HeldBytes::new(alloc, room + 1);
    let mut err = HeldBytes::new(alloc, LINE_ROOM);
    let status = carry_out(
        &LoneThread,
        alloc,
        handover_job(every),
        &mut files,
        &mut out,
        &mut err,
    );
    outcome_of(status, room, out, err)
}

/// Explores a script under a policy, with room for so many bytes of what is found.
pub(crate) fn explore(
    alloc: Global,
    policy: &[u8],
    script: &[u8],
    workers: u32,
    delays: u32,
    room: usize,
) -> Outcome
    requires { room < 2 ^ 63 }
    ensures gives { ExploreGives policy.now script.now workers delays room result.printed.items result.status }
    ensures says { Says result.status result.said.items }
{
    let mut files = GivenFiles::new(policy, script, &[]);
    let mut out = HeldBytes::new(alloc, room + 1);
    let mut err = HeldBytes::new(alloc, LINE_ROOM);
    let status = carry_out(
        &LoneThread,
        alloc,
        explore_job(workers, delays),
        &mut files,
        &mut out,
        &mut err,
    );
    outcome_of(status, room, out, err)
}

/// Judges whether the workers of a script's schedule mediate, with room for so many bytes of what is found.
pub(crate) fn judge(alloc: Global, policy: &[u8], script: &[u8], room: usize) -> Outcome
    requires { room < 2 ^ 63 }
    ensures gives { JudgeGives policy.now script.now room result.printed.items result.status }
    ensures says { Says result.status result.said.items }
{
    let mut files = GivenFiles::new(policy, script, &[]);
    let mut out = HeldBytes::new(alloc, room + 1);
    let mut err = HeldBytes::new(alloc, LINE_ROOM);
    let job = Job::Judge {
        policy: POLICY,
        script: SCRIPT,
    };
    let status = carry_out(
        &LoneThread,
        alloc,
        Some(job),
        &mut files,
        &mut out,
        &mut err,
    );
    outcome_of(status, room, out, err)
}

/// The bound that a number of delays means, 0 to 8, or none where it means all; nothing where it means neither.
fn bound_meant(delays: u32) -> Option<Option<u64>>
    ensures { result ≡ bound_meant delays }
{
    if delays == ALL_DELAYS {
        Some(None)
    } else if delays <= 8 {
        Some(Some(u64::from(delays)))
    } else {
        None
    }
}

/// The job that asks for what a script can come to, by workers up to this one and with this bound, if there can be such.
fn explore_job<'a>(workers: u32, delays: u32) -> Option<Job<'a>>
    ensures meant { option_map job_of result ≡ explore_asked workers (bound_meant delays) }
    ensures few { ForSome result IsJobInRange }
{
    let delays = bound_meant(delays)?;
    if workers > 15 {
        return None;
    }
    Some(Job::Explore {
        policy: POLICY,
        script: SCRIPT,
        workers: workers as u8,
        delays,
    })
}

/// The job that asks for workers that are replaced after each so many of their steps, if they can be.
fn handover_job<'a>(every: u32) -> Option<Job<'a>>
    ensures meant { option_map job_of result ≡ (if nat_le 1 every && nat_le every 200000 then Some (Handover (codes "policy") (codes "script") every) else None) }
    ensures few { ForSome result IsJobInRange }
{
    if (1..=200_000).contains(&every) {
        Some(Job::Handover {
            policy: POLICY,
            script: SCRIPT,
            every,
        })
    } else {
        None
    }
}

/// The job that asks for generated input of so many calls, if it can have so many.
fn stress_job<'a>(from: u64, count: u32) -> Option<Job<'a>>
    ensures meant { option_map job_of result ≡ (if nat_le 1 count && nat_le count 4000 then Some (Stress from count) else None) }
    ensures few { ForSome result IsJobInRange }
{
    if (1..=4000).contains(&count) {
        Some(Job::Stress { from, count })
    } else {
        None
    }
}
