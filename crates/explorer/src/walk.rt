//! Walks on, turn by turn, and from the end of a walk to where the next one begins.

ghost use Rattle.std.specs.Prelude.{◌≡◌, ◌≤◌, OnOk, IfOk};
ghost use Rattle.hist_model.specs.Legal.{started};
ghost use Rattle.explorer.specs.Frames.{AreTurns, behind, left_from};
ghost use Rattle.explorer.specs.Runs.{script_in};
ghost use Rattle.explorer.specs.Walking.{HasCome, IsAtEnd, LeadsTo, TurnsLater};

use crate::frames::{Frame, last_place};
use crate::run::Run;
use hist_model::policy::Policy;
use hist_model::script::Script;
use std::alloc::Global;
use sys_abi::memory::NoMemory;

/// Where the next walk begins. Where there is none, the script comes back.
#[derive(Drop)]
pub(crate) enum Next {
    Walks {
        run: Run,
        /// How many delays are left.
        left: u64,
    },
    Over(Script),
}

/// Goes on without a delay until nobody is able to step.
pub(crate) fn walk_on(
    alloc: Global,
    policy: &Policy,
    workers: u8,
    run: &mut Run,
    frames: &mut Vec<Frame>,
    left: u64,
) -> Result<(), NoMemory>
    requires workers { workers ≤ 15 }
    requires come { HasCome policy.now (script_in run.old) workers frames.old.items run.old }
    ensures { OnOk result (IsAtEnd policy.now (script_in run.old) workers (left_from policy.now (script_in run.old) workers frames.old.items left) left frames.new.items run.new) }
{
    'turns: loop {
        run.has_few_events();
        let last = last_place(frames);
        let Some(turn) = run.next_turn(alloc, policy, workers, last, 0)? else {
            return Ok(());
        };
        frames.push(Frame {
            place: turn.place,
            next: turn.next,
            left,
        })?;
    }
}

/// A run of a script that begins with these turns.
pub(crate) fn replay(
    alloc: Global,
    policy: &Policy,
    workers: u8,
    script: Script,
    frames: &[Frame],
) -> Result<Run, NoMemory>
    requires workers { workers ≤ 15 }
    requires turns { AreTurns policy.now script workers (started script) frames.now }
    ensures { IfOk result (λ run. HasCome policy.now script workers frames.now run) }
{
    let mut run = Run::begin(alloc, script)?;
    for frame in frames {
        run.turn(alloc, policy, frame.place)?;
    }
    Ok(run)
}

/// A turn of the next actor that is able to step, where some were tried after these turns.
fn turn_later(
    alloc: Global,
    policy: &Policy,
    workers: u8,
    script: Script,
    frames: &mut Vec<Frame>,
    tried: usize,
    left: u64,
) -> Result<Next, NoMemory>
    requires workers { workers ≤ 15 }
    requires turns { AreTurns policy.now script workers (started script) frames.old.items }
    ensures { IfOk result (λ next. TurnsLater policy.now script workers frames.old.items tried left frames.new.items next) }
{
    let mut run = replay(alloc, policy, workers, script, frames)?;
    let last = last_place(frames);
    let Some(turn) = run.next_turn(alloc, policy, workers, last, tried)? else {
        let (script, _history) = run.closed()?;
        return Ok(Next::Over(script));
    };
    frames.push(Frame {
        place: turn.place,
        next: turn.next,
        left,
    })?;
    Ok(Next::Walks { run, left })
}

/// Where the walk begins that comes after all with these turns.
pub(crate) fn next_walk(
    alloc: Global,
    policy: &Policy,
    workers: u8,
    mut script: Script,
    frames: &mut Vec<Frame>,
) -> Result<Next, NoMemory>
    requires workers { workers ≤ 15 }
    requires turns { AreTurns policy.now script workers (started script) frames.old.items }
    ensures { IfOk result (λ next. LeadsTo policy.now script workers (behind policy.now script workers frames.old.items) frames.new.items next) }
{
    'frames: while let Some(frame) = frames.pop() {
        let Some(left) = frame.left.checked_sub(1) else {
            continue;
        };
        match turn_later(alloc, policy, workers, script, frames, frame.next, left)? {
            Next::Over(back) => script = back,
            Next::Walks { run, left } => return Ok(Next::Walks { run, left }),
        }
    }
    Ok(Next::Over(script))
}
