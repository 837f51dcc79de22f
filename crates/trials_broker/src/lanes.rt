//! Containers that are served by lanes, under a gate that holds one lane until others came to a point.

ghost use Rattle.std.specs.Prelude.{◌<◌, IfSome};

use crate::histories::answers_and_effects;
use crate::waiting::wait_for;
use crew::{Gate, OpenGate, Point};
use hist_model::history::History;
use pod_broker::{Container, serve_pod_by_lanes};
use policy_reader::read_policy;
use script_reader::read_script;
use std::alloc::Global;
use std::process::Abort;
use std::sync::Wait;
use std::sync::atomic::{AtomicU64, Ordering};
use std::test::Fail;
use std::thread::Threads;
use worker_gate::Played;

/// A task that makes a node, and one that asks for figures.
const TWO_KINDS: &str =
    "notify mknod sysinfo\nprog a\npoke 0x10000 \"/null\\0\"\ncall mknod 0x10000 0o020666 259\nend\nprog b\ncall sysinfo 0x11000\nend\nprog main\nspawn a\nspawn b\nwait\nwait\nend\n";

/// A task that mounts, and the beginning of one that makes nodes.
const MOUNT_AND_NODES: &str =
    "notify mknod mount\nprog a\ncall mount 0 0x10000 0 0 0\nend\nprog b\npoke 0x10000 \"/null\\0\"\n";

/// What follows the calls of the second task.
const THEIR_PARENT: &str = "end\nprog main\nspawn a\nspawn b\nwait\nwait\nend\n";

/// Holds a lane's hand where the second check found a notification valid, until as many answers were sent in another lane. The hand of
/// that one goes on from there once the first is held.
#[derive(Drop)]
struct HoldLane {
    held: u8,
    other: u8,
    until: u64,
    /// How often the lane came to be held.
    came: AtomicU64,
    /// How many answers were sent in the other lane.
    sent: AtomicU64,
    /// How often a hand waited to no end.
    gave_up: AtomicU64,
}

impl HoldLane {
    fn new(held: u8, other: u8, until: u64) -> HoldLane {
        HoldLane {
            held,
            other,
            until,
            came: AtomicU64::new(0),
            sent: AtomicU64::new(0),
            gave_up: AtomicU64::new(0),
        }
    }

    /// The second check found a notification of this lane valid.
    fn checked(&self, lane: u8) {
        if lane == self.held {
            self.came.fetch_add(1, Ordering::SeqCst);
            wait_for(&self.sent, self.until, &self.gave_up);
        } else if lane == self.other {
            wait_for(&self.came, 1, &self.gave_up);
        }
    }

    /// The answer to one of this lane was sent.
    fn sent(&self, lane: u8) {
        if lane == self.other {
            self.sent.fetch_add(1, Ordering::SeqCst);
        }
    }
}

impl Gate for HoldLane {
    fn at(&self, point: Point, _container: u8, lane: u8, _id: u64) {
        match point {
            Point::Fetched => {}
            Point::Checked => self.checked(lane),
            Point::Sent => self.sent(lane),
        }
    }

    fn holds(&self) -> bool {
        true
    }
}

/// The history of a script's container that was served by lanes, with one hand beside that steps tasks.
fn served<R: Abort + Threads + Wait + Sync, G: Gate + Sync>(
    rt: &R,
    alloc: Global,
    script: &str,
    every: Option<u32>,
    gate: &G,
) -> History
    requires { IfSome every (λ n. 0 < n) }
{
    // Mknods and sysinfos are granted, and mounts are passed.
    let policy = read_policy(
        alloc,
        b"{\"config\":{\"security.syscalls.intercept.mknod\":\"true\",\"security.syscalls.intercept.sysinfo\":\"true\"}}",
    )
    .expect(rt, "policy");
    if script.len() > 8_388_608 {
        panic!(rt; "the script is too long");
    }
    let script = read_script(alloc, script.as_bytes()).expect(rt, "script");
    let mut containers = Vec::new(alloc);
    containers
        .push(Container { policy, script })
        .expect(rt, "memory");
    let mut served = serve_pod_by_lanes(rt, alloc, containers, 1, every, gate).expect(rt, "memory");
    let Some(Played { history, .. }) = served.pop() else {
        panic!(rt; "nothing was served");
    };
    history
}

/// The script of a task that mounts, and one that makes so many nodes.
fn mount_and_nodes(alloc: Global, nodes: u32) -> Result<String, Fail> {
    let mut script = String::new(alloc);
    script.push_str(MOUNT_AND_NODES)?;
    for _ in 0..nodes {
        script.push_str("call mknod 0x10000 0o020666 259\n")?;
    }
    script.push_str(THEIR_PARENT)?;
    Ok(script)
}

#[test]
fn serves_one_lane_while_another_is_held(rt: HostRuntime) {
    let gate = HoldLane::new(0, 3, 1);
    let history = served(&rt, rt.alloc(), TWO_KINDS, None, &gate);
    assert_eq!(&rt; history.len(), 30);
    assert!(&rt; answers_and_effects(&history) == (2, 2));
    assert_eq!(&rt; gate.gave_up.load(Ordering::SeqCst), 0);
}

#[test]
fn a_mount_holds_up_no_mknod(rt: HostRuntime) -> Result<(), Fail> {
    let gate = HoldLane::new(1, 0, 50);
    let script = mount_and_nodes(rt.alloc(), 50)?;
    let history = served(&rt, rt.alloc(), script.as_str(), None, &gate);
    assert!(rt; answers_and_effects(&history).0 == 51);
    assert_eq!(rt; gate.sent.load(Ordering::SeqCst), 50);
    assert_eq!(rt; gate.gave_up.load(Ordering::SeqCst), 0);
    Ok(())
}

#[test]
fn serves_with_a_gate_that_is_open(rt: HostRuntime) {
    let history = served(&rt, rt.alloc(), TWO_KINDS, None, &OpenGate);
    assert_eq!(&rt; history.len(), 30);
}

#[test]
fn replaces_workers_while_a_lane_is_held(rt: HostRuntime) -> Result<(), Fail> {
    let gate = HoldLane::new(1, 0, 50);
    let script = mount_and_nodes(rt.alloc(), 50)?;
    let history = served(&rt, rt.alloc(), script.as_str(), Some(1), &gate);
    assert!(rt; answers_and_effects(&history).0 == 51);
    assert_eq!(rt; gate.sent.load(Ordering::SeqCst), 50);
    assert_eq!(rt; gate.gave_up.load(Ordering::SeqCst), 0);
    Ok(())
}
