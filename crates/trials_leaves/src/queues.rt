//! Callers of a queue: one that fills it and empties it, and two that hand items over.

ghost use Rattle.std.specs.Prelude.{◌≡◌, [], IfSome};

use lane_queue::{Full, Handoff, LaneQueue, PLACES, PutPass, TakePass};
use std::alloc::Global;
use std::sync::Wait;
use std::thread;
use std::thread::Threads;
use sys_abi::memory::NoMemory;

/// The item with this id.
fn item(id: u64) -> Handoff {
    Handoff {
        id,
        seat: (id % 16) as u8,
    }
}

/// Puts the items from one id to below another; says whether each was taken.
fn put_from<W: Wait>(rt: &W, queue: &LaneQueue, pass: &mut PutPass, from: u64, to: u64) -> bool
    requires { pass.old.queue ≡ queue.now }
    ensures { pass.new.queue ≡ queue.now }
{
    let mut all = true;
    for id in from..to {
        all &= queue.put(rt, pass, item(id)).is_ok();
    }
    all
}

/// Takes items and compares them with those from one id to below another.
fn take_from<W: Wait>(rt: &W, queue: &LaneQueue, pass: &mut TakePass, from: u64, to: u64) -> bool
    requires { pass.old.queue ≡ queue.now }
    ensures { pass.new.queue ≡ queue.now }
{
    let mut all = true;
    for id in from..to {
        all &= queue.take(rt, pass) == Some(item(id));
    }
    all
}

/// Puts items, each once there is room for it.
fn send<W: Wait>(rt: &W, queue: &LaneQueue, mut pass: PutPass, count: u64) -> PutPass
    requires { pass.queue ≡ queue.now }
    ensures { result.queue ≡ queue.now }
{
    let mut next = 0;
    for _ in rt.forever() {
        if next >= count {
            return pass;
        }
        match queue.put(rt, &mut pass, item(next)) {
            Ok(()) => next += 1,
            Err(_) => thread::yield_now(),
        }
    }
    unreachable!()
}

/// Takes items, and counts those that aren't the next one.
fn receive<W: Wait>(rt: &W, queue: &LaneQueue, mut pass: TakePass, count: u64) -> (TakePass, u64)
    requires { pass.queue ≡ queue.now }
    ensures { result.0.queue ≡ queue.now }
{
    let mut next = 0;
    let mut wrong = 0u64;
    for _ in rt.forever() {
        if next >= count {
            return (pass, wrong);
        }
        match queue.take(rt, &mut pass) {
            Some(found) => {
                if found != item(next) {
                    wrong = wrong.saturating_add(1);
                }
                next += 1;
            }
            None => thread::yield_now(),
        }
    }
    unreachable!()
}

/// Hands so many items from one thread to another; says how many weren't the next one, and how many were left.
fn hand_over<R: Threads + Wait + Sync>(
    rt: &R,
    alloc: Global,
    count: u64,
) -> Result<(u64, usize), NoMemory> {
    let (queue, put, take) = LaneQueue::new(alloc)?;
    let (put, (take, wrong)) = thread::join(
        rt,
        || -> PutPass
            requires { put.queue ≡ queue }
            ensures { result.queue ≡ queue }
        { send(rt, &queue, put, count) },
        || -> (TakePass, u64)
            requires { take.queue ≡ queue }
            ensures { result.0.queue ≡ queue }
        { receive(rt, &queue, take, count) },
    );
    let left = queue.close(rt, alloc, put, take)?;
    Ok((wrong, left.len()))
}

#[test]
fn sixteen_items_fill_a_queue_and_come_out_in_order(rt: HostRuntime) {
    let alloc = rt.alloc();
    let (queue, mut put, mut take) = LaneQueue::new(alloc).expect(&rt, "memory");
    assert!(&rt; queue.take(&rt, &mut take).is_none());
    assert!(&rt; put_from(&rt, &queue, &mut put, 0, PLACES as u64));
    assert!(&rt; queue.put(&rt, &mut put, item(16)) == Err(Full { item: item(16) }));
    assert!(&rt; take_from(&rt, &queue, &mut take, 0, PLACES as u64));
    assert!(&rt; queue.take(&rt, &mut take).is_none());
    assert!(&rt; put_from(&rt, &queue, &mut put, 17, 18));
    assert!(&rt; take_from(&rt, &queue, &mut take, 17, 18));
}

#[test]
fn what_is_left_comes_out_at_the_close(rt: HostRuntime) {
    let alloc = rt.alloc();
    let (queue, mut put, mut take) = LaneQueue::new(alloc).expect(&rt, "memory");
    assert!(&rt; put_from(&rt, &queue, &mut put, 0, 5));
    assert!(&rt; take_from(&rt, &queue, &mut take, 0, 2));
    let left = queue.close(&rt, alloc, put, take).expect(&rt, "memory");
    assert!(&rt; left.as_slice() == [item(2), item(3), item(4)].as_slice());
}

#[test]
fn two_threads_hand_100000_items_over_in_order(rt: HostRuntime) {
    let (wrong, left) = hand_over(&rt, rt.alloc(), 100000).expect(&rt, "memory");
    assert!(&rt; wrong == 0 && left == 0);
}
