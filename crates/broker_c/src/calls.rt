//! The functions that C calls.

ghost use Rattle.std.specs.Prelude.{◌≡◌, length, min, take};
ghost use Rattle.broker_app.specs.Lines.{line_of};
ghost use Rattle.step_words.specs.Plays.{as_report};
ghost use Rattle.policy_classes.specs.declared.ending.Ending.TheVariants.{Alike, Otherwise};
ghost use Rattle.broker_c.specs.Buffers.{Holds, Tells, number_of};
ghost use Rattle.broker_c.specs.Outcomes.{CheckGives, ExploreGives, HandoverGives, IsAskedExploration, IsFindings, IsHandover, IsJudgement, IsReport, IsSummary, JudgeGives, PlayGives, Says, StressGives};

use crate::outcome::{Outcome, check, explore, judge, play, play_handing, stress};
use program_files::status::Status;
use std::alloc::Global;

/// How many bytes a report may have at most, whatever the caller asks for.
const ROOM_LIMIT: usize = 1 << 30;

/// The number that says that a whole report doesn't fit into its buffer.
const SHORT_BUFFER: u32 = 100;

/// Copies a text into a caller's buffer, as far as it fits, and tells its whole length.
fn hand_over(text: &[u8], buffer: &mut [u8], told: &mut usize)
    ensures { Holds text.now buffer.old buffer.new told.new }
{
    let fits = text.len().min(buffer.len());
    buffer[..fits].copy_from_slice(&text[..fits]);
    *told = text.len();
}

/// The line of a status, given what was said.
fn line_of<'a>(status: &Status, said: &'a [u8]) -> &'a [u8]
    requires { Says status.now said.now }
    ensures { result.now ≡ line_of status.now }
{
    match status {
        Status::WriteFault => b"write fault\n",
        Status::NoMemory => b"no memory\n",
        _ => said,
    }
}

/// The number of a status, with a report of so many bytes and a buffer of so many.
fn number_of(status: &Status, report: usize, buffer: usize) -> u32
    ensures { result ≡ number_of status.now report buffer }
{
    if matches!(status, Status::Done | Status::Otherwise) && buffer < report {
        return SHORT_BUFFER;
    }
    u32::from(status.code())
}

/// Copies what was printed and the status's line into the caller's buffers, and tells the status's number.
fn tell(
    outcome: &Outcome,
    out: &mut [u8],
    out_length: &mut usize,
    line: &mut [u8],
    line_length: &mut usize,
) -> u32
    requires { Says outcome.now.status outcome.now.said.items }
    ensures number { result ≡ number_of outcome.now.status (length outcome.now.printed.items) (length out.old) }
    ensures out { Holds outcome.now.printed.items out.old out.new out_length.new }
    ensures line { Holds (line_of outcome.now.status) line.old line.new line_length.new }
{
    hand_over(outcome.printed.as_slice(), out, out_length);
    let said = line_of(&outcome.status, outcome.said.as_slice());
    hand_over(said, line, line_length);
    number_of(&outcome.status, outcome.printed.len(), out.len())
}

/// Plays a script under a policy, as `play POLICY SCRIPT` does, and tells its report and its line.
#[unsafe(no_mangle)]
pub extern "C" fn broker_play(
    alloc: Global,
    policy: &[u8],
    script: &[u8],
    room: usize,
    out: &mut [u8],
    out_length: &mut usize,
    line: &mut [u8],
    line_length: &mut usize,
) -> u32
    ensures done { result ≡ 0 → IsReport policy.now script.now (take out_length.new out.new) }
    ensures tells { Tells (PlayGives as_report policy.now script.now (min room ROOM_LIMIT)) result out.old out.new out_length.new line.old line.new line_length.new }
{
    let outcome = play(alloc, policy, script, room.min(ROOM_LIMIT));
    tell(&outcome, out, out_length, line, line_length)
}

/// Plays generated input, as `stress FROM COUNT` does, and tells its summary and its line.
#[unsafe(no_mangle)]
pub extern "C" fn broker_stress(
    alloc: Global,
    from: u64,
    count: u32,
    room: usize,
    out: &mut [u8],
    out_length: &mut usize,
    line: &mut [u8],
    line_length: &mut usize,
) -> u32
    ensures done { result ≡ 0 → IsSummary from count (take out_length.new out.new) }
    ensures tells { Tells (StressGives from count (min room ROOM_LIMIT)) result out.old out.new out_length.new line.old line.new line_length.new }
{
    let outcome = stress(alloc, from, count, room.min(ROOM_LIMIT));
    tell(&outcome, out, out_length, line, line_length)
}

/// Checks a report under a policy and a script, as `audit-check POLICY SCRIPT REPORT` does, and tells what is found of it and its
/// line.
#[unsafe(no_mangle)]
pub extern "C" fn broker_audit_check(
    alloc: Global,
    policy: &[u8],
    script: &[u8],
    report: &[u8],
    room: usize,
    out: &mut [u8],
    out_length: &mut usize,
    line: &mut [u8],
    line_length: &mut usize,
) -> u32
    ensures done { result ≡ 0 → IsFindings policy.now script.now report.now (take out_length.new out.new) }
    ensures tells { Tells (CheckGives policy.now script.now report.now (min room ROOM_LIMIT)) result out.old out.new out_length.new line.old line.new line_length.new }
{
    let outcome = check(alloc, policy, script, report, room.min(ROOM_LIMIT));
    tell(&outcome, out, out_length, line, line_length)
}

/// Plays a script under a policy with workers that are replaced, as `handover POLICY SCRIPT EVERY` does, and tells the report, the
/// ledgers and its line.
#[unsafe(no_mangle)]
pub extern "C" fn broker_handover(
    alloc: Global,
    policy: &[u8],
    script: &[u8],
    every: u32,
    room: usize,
    out: &mut [u8],
    out_length: &mut usize,
    line: &mut [u8],
    line_length: &mut usize,
) -> u32
    ensures done { result ≡ 0 → IsHandover policy.now script.now every (take out_length.new out.new) }
    ensures tells { Tells (HandoverGives policy.now script.now every (min room ROOM_LIMIT)) result out.old out.new out_length.new line.old line.new line_length.new }
{
    let outcome = play_handing(alloc, policy, script, every, room.min(ROOM_LIMIT));
    tell(&outcome, out, out_length, line, line_length)
}

/// Explores a script under a policy, as `explore POLICY SCRIPT WORKERS DELAYS` does, and tells what is found and its line.
#[unsafe(no_mangle)]
pub extern "C" fn broker_explore(
    alloc: Global,
    policy: &[u8],
    script: &[u8],
    workers: u32,
    delays: u32,
    room: usize,
    out: &mut [u8],
    out_length: &mut usize,
    line: &mut [u8],
    line_length: &mut usize,
) -> u32
    ensures done { result ≡ 0 → IsAskedExploration policy.now script.now workers delays (take out_length.new out.new) }
    ensures tells { Tells (ExploreGives policy.now script.now workers delays (min room ROOM_LIMIT)) result out.old out.new out_length.new line.old line.new line_length.new }
{
    let outcome = explore(alloc, policy, script, workers, delays, room.min(ROOM_LIMIT));
    tell(&outcome, out, out_length, line, line_length)
}

/// Judges whether the workers of a script's schedule mediate, as `judge POLICY SCRIPT` does, and tells what is found and its line.
#[unsafe(no_mangle)]
pub extern "C" fn broker_judge(
    alloc: Global,
    policy: &[u8],
    script: &[u8],
    room: usize,
    out: &mut [u8],
    out_length: &mut usize,
    line: &mut [u8],
    line_length: &mut usize,
) -> u32
    ensures mediated { result ≡ 0 → IsJudgement policy.now script.now Alike (take out_length.new out.new) }
    ensures broken { result ≡ 11 → IsJudgement policy.now script.now Otherwise (take out_length.new out.new) }
    ensures tells { Tells (JudgeGives policy.now script.now (min room ROOM_LIMIT)) result out.old out.new out_length.new line.old line.new line_length.new }
{
    let outcome = judge(alloc, policy, script, room.min(ROOM_LIMIT));
    tell(&outcome, out, out_length, line, line_length)
}
