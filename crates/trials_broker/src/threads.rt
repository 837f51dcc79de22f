//! The top call with threads, under a gate that holds one notification until another one was answered.

use crate::inputs::{MAKES_NODES, TWO_NODES};
use crate::top_call::{run, sound};
use crate::waiting::wait_for;
use crew::{Gate, OpenGate, Point};
use program_files::status::Status;
use std::alloc::Global;
use std::process::Abort;
use std::sync::Wait;
use std::sync::atomic::{AtomicU64, Ordering};
use std::test::Fail;
use std::thread::Threads;

/// The summary of each history of theirs, worked out by hand: a start, two spawns, two waits and an end of the first task; of each
/// other one a store, a call, nine steps of its worker, a return and an end; and the close.
const SUMMARY: &[u8] =
    b"\nsummary events=33 calls=2 notified=2 answered=2 granted=2 denied=0 passed=0 injected=0 faults=0 gone=0 lost=0\n";

/// Holds the worker of the call that was received first where the second check found it valid, until the other call was answered.
#[derive(Drop)]
struct HoldFirst {
    /// The id of the call that was received first, or 0.
    first: AtomicU64,
    /// The id of the other call, once it was answered, or 0.
    answered: AtomicU64,
    /// How often it held a worker to no end.
    gave_up: AtomicU64,
}

impl HoldFirst {
    fn new() -> HoldFirst {
        HoldFirst {
            first: AtomicU64::new(0),
            answered: AtomicU64::new(0),
            gave_up: AtomicU64::new(0),
        }
    }
}

impl Gate for HoldFirst {
    fn at(&self, point: Point, _container: u8, _server: u8, id: u64) {
        match point {
            Point::Fetched => {
                let _ = self
                    .first
                    .compare_exchange(0, id, Ordering::SeqCst, Ordering::SeqCst);
            }
            Point::Checked => {
                if self.first.load(Ordering::SeqCst) == id {
                    wait_for(&self.answered, 1, &self.gave_up);
                }
            }
            Point::Sent => {
                if self.first.load(Ordering::SeqCst) != id {
                    self.answered.store(id, Ordering::SeqCst);
                }
            }
        }
    }

    fn holds(&self) -> bool {
        true
    }
}

/// Runs the two tasks with so many workers and hands for tasks, and sees that the report ends with their summary.
fn run_two<R: Abort + Threads + Wait + Sync, G: Gate + Sync>(
    rt: &R,
    alloc: Global,
    workers: &str,
    cpus: &str,
    gate: &G,
) -> Result<(), Fail> {
    let words = ["run", "p", "s", workers, cpus];
    let answer = run(rt, alloc, sound(&words, MAKES_NODES, TWO_NODES), gate)?;
    assert_eq!(rt; answer.status, Status::Done);
    assert!(rt; answer.out.taken().ends_with(SUMMARY));
    Ok(())
}

#[test]
fn serves_one_call_while_another_is_held(rt: HostRuntime) -> Result<(), Fail> {
    let gate = HoldFirst::new();
    run_two(&rt, rt.alloc(), "2", "1", &gate)?;
    assert_eq!(rt; gate.gave_up.load(Ordering::SeqCst), 0);
    Ok(())
}

/// The line of a report that says how many workers were replaced, each after one of its nine steps for each call.
const EACH_STEP: &[u8] = b"handovers 18";

/// Does what these words ask for on the two tasks, with workers that are replaced after each of their steps, and sees that as many were.
fn replace_all<R: Abort + Threads + Wait + Sync, G: Gate + Sync>(
    rt: &R,
    alloc: Global,
    words: &[&'static str],
    gate: &G,
) -> Result<(), Fail> {
    let answer = run(rt, alloc, sound(words, MAKES_NODES, TWO_NODES), gate)?;
    assert_eq!(rt; answer.status, Status::Done);
    let mut lines = answer.out.taken().split(|byte| *byte == b'\n');
    assert!(rt; lines.any(|line| line == EACH_STEP));
    Ok(())
}

#[test]
fn replaces_workers_while_a_call_is_held(rt: HostRuntime) -> Result<(), Fail> {
    let gate = HoldFirst::new();
    let words = ["run", "p", "s", "2", "1", "every", "1"];
    replace_all(&rt, rt.alloc(), &words, &gate)?;
    assert_eq!(rt; gate.gave_up.load(Ordering::SeqCst), 0);
    Ok(())
}

#[test]
fn replaces_workers_of_lanes_and_of_pods(rt: HostRuntime) -> Result<(), Fail> {
    let alloc = rt.alloc();
    let lanes = ["lanes", "p", "s", "1", "every", "1"];
    replace_all(&rt, alloc, &lanes, &OpenGate)?;
    let pod = ["pod", "2", "1", "every", "1", "p", "s"];
    replace_all(&rt, alloc, &pod, &OpenGate)?;
    let pod_of_lanes = ["pod", "lanes", "1", "every", "1", "p", "s"];
    replace_all(&rt, alloc, &pod_of_lanes, &OpenGate)
}

#[test]
fn serves_all_by_the_calling_hand(rt: HostRuntime) -> Result<(), Fail> {
    run_two(&rt, rt.alloc(), "0", "0", &OpenGate)
}
