//! All containers, from their start to their close.

ghost use Rattle.std.specs.Prelude.{◌≡◌, ◌<◌, map, All, IfOk, IfSome};
ghost use Rattle.std.specs.List.{AllZip};
ghost use Rattle.crew.specs.Locks.{IsDone};
ghost use Rattle.pod_broker.specs.Pods.{GivesInRange};
ghost use Rattle.pod_broker.specs.Serving.{IsClosedAs, IsLimited, set_up_for};

use crate::contained::Contained;
use crate::container::Container;
use hist_model::policy::Policy;
use hist_model::script::Script;
use std::alloc::Global;
use sys_abi::memory::NoMemory;
use worker_gate::Played;

/// A container after its start. Workers up to this one may serve it, and are replaced after each so many of their steps, if a number is
/// given.
fn set_up<S: Contained>(
    alloc: Global,
    container: Container,
    workers: u8,
    every: Option<u32>,
) -> Result<S, NoMemory>
    requires may { S.may workers }
    requires every { IfSome every (λ n. 0 < n) }
    ensures { IfOk result (λ s. S.setup s ≡ set_up_for workers every container) }
{
    let Container { policy, script } = container;
    S::set_up(alloc, policy, script, workers, every)
}

/// Each container after its start, in order.
pub(crate) fn set_up_all<S: Contained + Drop>(
    alloc: Global,
    mut containers: Vec<Container>,
    workers: u8,
    every: Option<u32>,
) -> Result<Vec<S>, NoMemory>
    requires may { S.may workers }
    requires every { IfSome every (λ n. 0 < n) }
    ensures { IfOk result (λ v. map S.setup v.items ≡ map (set_up_for workers every) containers.items) }
{
    let mut states = Vec::with_capacity(alloc, containers.len())?;
    while !containers.is_empty() {
        let container = containers.remove(0);
        let state = set_up(alloc, container, workers, every)?;
        states.push(state)?;
    }
    Ok(states)
}

/// Each PID that a legal history of the policy and the script gives lies in the script's range.
fn keeps_range(policy: &Policy, script: &Script)
    ensures { GivesInRange policy.now script.now }
{
    let _pidbase = script.pidbase;
}

/// Closes a container's listener.
fn close<S: Contained>(state: S) -> Result<Played, NoMemory>
    requires limited { IsLimited (S.setup state) }
    requires done { IsDone S.setup S.history S.ends state }
    ensures { IfOk result (IsClosedAs S.keeps (S.setup state)) }
{
    let played = state.close()?;
    keeps_range(&played.policy, &played.script);
    Ok(played)
}

/// Closes the listeners of all containers, in order.
pub(crate) fn close_all<S: Contained + Drop>(
    alloc: Global,
    mut states: Vec<S>,
) -> Result<Vec<Played>, NoMemory>
    requires limited { All IsLimited (map S.setup states.items) }
    requires done { All (IsDone S.setup S.history S.ends) states.items }
    ensures { IfOk result (λ v. AllZip (IsClosedAs S.keeps) (map S.setup states.items) v.items) }
{
    let mut played = Vec::with_capacity(alloc, states.len())?;
    while !states.is_empty() {
        let state = states.remove(0);
        let one = close(state)?;
        played.push(one)?;
    }
    Ok(played)
}
