//! The calling hand at work in its own thread, and the others beside it.

ghost use Rattle.std.specs.Prelude.{◌<◌, length};
ghost use Rattle.std.specs.Fork.{AcceptsAt, AcceptsEach, ChangesAt};
ghost use Rattle.std.specs.Thread.{IsSend, IsSync};
ghost use Rattle.crew.specs.Beside.{AreWorked};

use std::thread::{Threads, for_each_mut, join_mut};

/// Lets the calling hand work in the thread of the caller, at once, and each other hand in a thread of its own where one can be had.
/// A hand for which none could be made begins only when another one is done, perhaps the calling one. So the calling hand has to be
/// one that does all kinds of work, and that stays at it until nothing is left: those that begin late then find that all is over,
/// and no other one sleeps for ever over work that only a hand which hasn't begun would do.
///
/// The number that `work` is called with means nothing.
pub(crate) fn work_beside<R: Threads + Sync, H: Send, F: Fn(usize, &mut H) + Sync>(
    rt: &R,
    calling: &mut H,
    others: &mut [H],
    work: &F,
)
    requires calling { AcceptsAt F.Fn work.now 0 calling.old }
    requires others { AcceptsEach F.Fn work.now others.old }
    ensures calling { ChangesAt F.Fn work.now 0 calling.old calling.new }
    ensures others { AreWorked F.Fn work.now others.old others.new }
{
    if others.is_empty() {
        at_work(calling, work);
    } else {
        in_threads(rt, calling, others, work);
    }
}

/// The calling hand at work in this thread, and others in a new one, and in those that it can make.
fn in_threads<R: Threads + Sync, H: Send, F: Fn(usize, &mut H) + Sync>(
    rt: &R,
    calling: &mut H,
    others: &mut [H],
    work: &F,
)
    requires some { 0 < length others.old }
    requires calling { AcceptsAt F.Fn work.now 0 calling.old }
    requires others { AcceptsEach F.Fn work.now others.old }
    ensures calling { ChangesAt F.Fn work.now 0 calling.old calling.new }
    ensures others { AreWorked F.Fn work.now others.old others.new }
{
    let threads = others.len();
    let mut beside = ||
        requires { IsSync R.row × IsSync F.row × IsSend H.row × (0 < threads) × AcceptsEach F.Fn work.now others.now }
        ensures { AreWorked F.Fn work.entry.now others.entry.now others.exit.now }
    { for_each_mut(rt, others, threads, work) };
    let mut here = ||
        requires { AcceptsAt F.Fn work.now 0 calling.now }
        ensures { ChangesAt F.Fn work.entry.now 0 calling.entry.now calling.exit.now }
    { at_work(calling, work) };
    // `join_mut` calls the second closure in this thread, and the first in a new one, or last where none can be made.
    join_mut(rt, &mut beside, &mut here);
}

/// A hand at work.
fn at_work<H, F: Fn(usize, &mut H)>(hand: &mut H, work: &F)
    requires { AcceptsAt F.Fn work.now 0 hand.old }
    ensures { ChangesAt F.Fn work.now 0 hand.old hand.new }
{
    work(0, hand);
}
