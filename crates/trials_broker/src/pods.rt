//! Containers that are served side by side, under a gate that holds the first until others have sent answers.

ghost use Rattle.std.specs.Prelude.{◌≡◌, ◌≤◌, ◌<◌, length, IfOk, IfSome, OnOk};

use crate::histories::answers_and_effects;
use crate::inputs::{MAKES_NODES, TWO_NODES};
use crate::waiting::wait_for;
use crew::{Gate, OpenGate, Point};
use hist_model::event::What;
use hist_model::history::History;
use pod_broker::{Container, serve_pod, serve_pod_by_lanes};
use policy_reader::read_policy;
use script_reader::read_script;
use std::alloc::Global;
use std::process::Abort;
use std::sync::Wait;
use std::sync::atomic::{AtomicU64, Ordering};
use std::test::Fail;
use std::thread::Threads;
use worker_gate::Played;

const PASSES_ALL: &str = "{}";

/// The events of a container's history, up to the close of its listener.
const EVENTS: usize = 33;

/// Holds each hand in container 0 where the second check found a notification valid, until as many answers were sent in others.
#[derive(Drop)]
struct HoldFirst {
    until: u64,
    /// How many answers were sent in other containers.
    sent: AtomicU64,
    /// How often a hand came to be held.
    came: AtomicU64,
    /// How often a hand waited to no end.
    gave_up: AtomicU64,
}

impl HoldFirst {
    fn new(until: u64) -> HoldFirst {
        HoldFirst {
            until,
            sent: AtomicU64::new(0),
            came: AtomicU64::new(0),
            gave_up: AtomicU64::new(0),
        }
    }
}

impl Gate for HoldFirst {
    fn at(&self, point: Point, container: u8, _server: u8, _id: u64) {
        if point == Point::Checked && container == 0 {
            self.came.fetch_add(1, Ordering::SeqCst);
            wait_for(&self.sent, self.until, &self.gave_up);
        } else if point == Point::Sent && container != 0 {
            self.sent.fetch_add(1, Ordering::SeqCst);
        }
    }

    fn holds(&self) -> bool {
        true
    }
}

/// The container at a place: its tasks make nodes, and get PIDs from ten times its place on. The first one's policy grants them, and
/// the others' passes them.
fn container<R: Abort>(rt: &R, alloc: Global, place: u8) -> Container
    requires { place ≤ 7 }
{
    let policy = if place == 0 { MAKES_NODES } else { PASSES_ALL };
    let base = 10 * place;
    let script = format!(in alloc; "pidmax 10\npidbase {base}\n{}", TWO_NODES).expect(rt, "memory");
    if policy.len() > 1_048_576 || script.len() > 8_388_608 {
        panic!(rt; "a text is too long");
    }
    Container {
        policy: read_policy(alloc, policy.as_bytes()).expect(rt, "policy"),
        script: read_script(alloc, script.as_bytes()).expect(rt, "script"),
    }
}

/// So many containers.
fn containers<R: Abort>(rt: &R, alloc: Global, count: u8) -> Vec<Container>
    requires { count ≤ 8 }
    ensures { length result.items ≤ 8 }
{
    let mut all = Vec::new(alloc);
    for place in 0..count {
        all.push(container(rt, alloc, place)).expect(rt, "memory");
    }
    all
}

/// Whether three tasks of a history got the three PIDs behind this one, in order.
fn gives_three(history: &History, base: u32) -> bool {
    let mut last = base;
    let mut in_order = true;
    for event in history.events() {
        if let What::Spawn {
            answer: Ok((pid, _)),
            ..
        } = event.what
        {
            last = last.saturating_add(1);
            in_order &= pid == last;
        }
    }
    in_order && last == base.saturating_add(3)
}

/// Whether the container at a place was served to its end: two answers, two effects in the first one and none in the others, and
/// PIDs of its own range.
fn is_whole(played: &Played, place: u32) -> bool {
    let effects = if place == 0 { 2 } else { 0 };
    let history = &played.history;
    history.events().len() == EVENTS
        && answers_and_effects(history) == (2, effects)
        && gives_three(history, place.saturating_mul(10))
}

/// Whether all containers were.
fn are_whole(all: &Vec<Played>, count: usize) -> bool {
    let mut whole = all.len() == count;
    let mut place = 0u32;
    for played in all {
        whole &= is_whole(played, place);
        place = place.saturating_add(1);
    }
    whole
}

/// Serves so many containers, and sees that all were served to their ends.
fn serve<R: Abort + Threads + Wait + Sync, G: Gate + Sync>(
    rt: &R,
    alloc: Global,
    count: u8,
    workers: u8,
    cpus: u8,
    every: Option<u32>,
    gate: &G,
) -> Result<(), Fail>
    requires { (count ≤ 8) × (workers ≤ 16) × (cpus ≤ 16) × IfSome every (λ n. 0 < n) }
{
    let containers = containers(rt, alloc, count);
    let played = serve_pod(rt, alloc, containers, workers, cpus, every, gate).expect(rt, "memory");
    assert!(rt; are_whole(&played, usize::from(count)));
    Ok(())
}

/// Serves so many containers by lanes, and sees that all were served to their ends.
fn serve_by_lanes<R: Abort + Threads + Wait + Sync, G: Gate + Sync>(
    rt: &R,
    alloc: Global,
    count: u8,
    cpus: u8,
    every: Option<u32>,
    gate: &G,
) -> Result<(), Fail>
    requires { (count ≤ 8) × (cpus ≤ 16) × IfSome every (λ n. 0 < n) }
{
    let containers = containers(rt, alloc, count);
    let played = serve_pod_by_lanes(rt, alloc, containers, cpus, every, gate).expect(rt, "memory");
    assert!(rt; are_whole(&played, usize::from(count)));
    Ok(())
}

#[test]
fn serves_one_container_while_another_is_held(rt: HostRuntime) -> Result<(), Fail> {
    let gate = HoldFirst::new(1);
    serve(&rt, rt.alloc(), 2, 2, 1, None, &gate)?;
    assert!(&rt; gate.came.load(Ordering::SeqCst) == 2);
    assert!(&rt; gate.gave_up.load(Ordering::SeqCst) == 0);
    Ok(())
}

#[test]
fn serves_seven_containers_while_the_first_is_held(rt: HostRuntime) -> Result<(), Fail> {
    let gate = HoldFirst::new(14);
    serve(&rt, rt.alloc(), 8, 2, 1, None, &gate)?;
    assert!(&rt; gate.came.load(Ordering::SeqCst) == 2);
    assert!(&rt; gate.gave_up.load(Ordering::SeqCst) == 0);
    Ok(())
}

#[test]
fn serves_all_by_the_calling_hand(rt: HostRuntime) -> Result<(), Fail> {
    serve(&rt, rt.alloc(), 8, 0, 0, None, &OpenGate)
}

#[test]
fn serves_all_by_many_hands(rt: HostRuntime) -> Result<(), Fail> {
    for _ in 0..50 {
        serve(&rt, rt.alloc(), 8, 4, 3, None, &OpenGate)?;
    }
    Ok(())
}

#[test]
fn a_held_lane_holds_up_no_other_container(rt: HostRuntime) -> Result<(), Fail> {
    let gate = HoldFirst::new(14);
    serve_by_lanes(&rt, rt.alloc(), 8, 1, None, &gate)?;
    assert!(&rt; gate.came.load(Ordering::SeqCst) == 2);
    assert!(&rt; gate.gave_up.load(Ordering::SeqCst) == 0);
    Ok(())
}

#[test]
fn serves_all_by_many_lanes(rt: HostRuntime) -> Result<(), Fail> {
    for _ in 0..20 {
        serve_by_lanes(&rt, rt.alloc(), 8, 3, None, &OpenGate)?;
    }
    Ok(())
}

#[test]
fn replaces_workers_while_the_first_container_is_held(rt: HostRuntime) -> Result<(), Fail> {
    let gate = HoldFirst::new(14);
    serve(&rt, rt.alloc(), 8, 2, 1, Some(1), &gate)?;
    assert!(&rt; gate.came.load(Ordering::SeqCst) == 2);
    assert!(&rt; gate.gave_up.load(Ordering::SeqCst) == 0);
    Ok(())
}

#[test]
fn replaces_workers_of_lanes_while_the_first_container_is_held(
    rt: HostRuntime,
) -> Result<(), Fail> {
    let gate = HoldFirst::new(14);
    serve_by_lanes(&rt, rt.alloc(), 8, 1, Some(1), &gate)?;
    assert!(&rt; gate.came.load(Ordering::SeqCst) == 2);
    assert!(&rt; gate.gave_up.load(Ordering::SeqCst) == 0);
    Ok(())
}

#[test]
fn replaces_workers_of_many_hands(rt: HostRuntime) -> Result<(), Fail> {
    for every in 1..20 {
        serve(&rt, rt.alloc(), 8, 4, 3, Some(every), &OpenGate)?;
    }
    Ok(())
}
