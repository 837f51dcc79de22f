//! The walks of a script, one after another.

ghost use Rattle.std.specs.Prelude.{◌≡◌, ◌≤◌, ℕ, List, IfOk};
ghost use Rattle.hist_model.specs.declared.policy.Policy.{Policy as PolicyValue};
ghost use Rattle.hist_model.specs.declared.script.Script.{Script as ScriptValue};
ghost use Rattle.delay_bounded.specs.Explored.{Walk, walks_of};
ghost use Rattle.explorer.specs.Frames.{left_from};
ghost use Rattle.explorer.specs.Runs.{script_in};
ghost use Rattle.explorer.specs.Walking.{EndsWalk, HasCome};

use crate::frames::Frame;
use crate::run::Run;
use crate::walk::{Next, next_walk, walk_on};
use hist_model::history::History;
use hist_model::policy::Policy;
use hist_model::script::Script;
use std::alloc::Global;
use sys_abi::memory::NoMemory;

/// The walks that are left: where the next one begins, with the turns that lead there.
#[derive(Drop)]
pub(crate) struct Walker {
    next: Next,
    frames: Vec<Frame>,
}

/// The end of the next walk, or of all.
#[derive(Drop)]
pub(crate) enum Walked {
    Ended {
        /// How many delays the walk has left.
        left: u64,
        history: History,
        /// The places of the effects that a later one took from sight.
        hidden: Vec<usize>,
        /// The walks that are left.
        rest: Walker,
    },
    All(Script),
}

/// Goes on to the end of the walk, which gives its history, the places of the effects in it that are out of sight, and the script.
fn walk_out(
    alloc: Global,
    policy: &Policy,
    workers: u8,
    mut run: Run,
    frames: &mut Vec<Frame>,
    left: u64,
) -> Result<(Script, History, Vec<usize>), NoMemory>
    requires workers { workers ≤ 15 }
    requires come { HasCome policy.now (script_in run) workers frames.old.items run }
    ensures { IfOk result (λ ended. EndsWalk policy.now (script_in run) workers (left_from policy.now (script_in run) workers frames.old.items left) left frames.new.items ended.0 ended.1.events ended.2.items) }
{
    walk_on(alloc, policy, workers, &mut run, frames, left)?;
    run.has_few_events();
    let hidden = run.hidden(alloc)?;
    let (script, history) = run.closed()?;
    Ok((script, history, hidden))
}

impl Walker {
    ghost use Rattle.explorer.specs.Walking.{GoesThrough, IsGoing, WalksNext, script_of};

    /// All walks of a script with so many delays at most.
    pub(crate) fn begin(alloc: Global, script: Script, delays: u64) -> Result<Walker, NoMemory>
        ensures { IfOk result (λ walker. (P : PolicyValue) (W : ℕ) → GoesThrough P script W (walks_of P script W delays) walker) }
    {
        let run = Run::begin(alloc, script)?;
        Ok(Walker {
            next: Next::Walks { run, left: delays },
            frames: Vec::new(alloc),
        })
    }

    /// The end of the next walk, and those that are left behind it.
    pub(crate) fn next(
        self,
        alloc: Global,
        policy: &Policy,
        workers: u8,
    ) -> Result<Walked, NoMemory>
        requires workers { workers ≤ 15 }
        requires going { IsGoing policy.now workers self }
        ensures { IfOk result (λ walked. (S : ScriptValue) (walks : List Walk) → GoesThrough policy.now S workers walks self → WalksNext policy.now S workers walks walked) }
    {
        let Walker { next, mut frames } = self;
        match next {
            Next::Over(script) => Ok(Walked::All(script)),
            Next::Walks { run, left } => {
                let (script, history, hidden) = walk_out(
                    alloc,
                    policy,
                    workers,
                    run,
                    &mut frames,
                    left,
                )?;
                let next = next_walk(alloc, policy, workers, script, &mut frames)?;
                Ok(Walked::Ended {
                    left,
                    history,
                    hidden,
                    rest: Walker { next, frames },
                })
            }
        }
    }

    /// The script.
    pub(crate) fn into_script(self) -> Result<Script, NoMemory>
        ensures { IfOk result (λ script. script ≡ script_of self) }
    {
        let Walker {
            next,
            frames: _frames,
        } = self;
        match next {
            Next::Over(script) => Ok(script),
            Next::Walks { run, left: _left } => {
                let (script, _history) = run.closed()?;
                Ok(script)
            }
        }
    }
}
