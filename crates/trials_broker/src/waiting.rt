//! How a gate holds a worker until others have come to a point.

use std::sync::atomic::{AtomicU64, Ordering};
use std::thread;

/// How often a held worker looks whether it may go on, before it gives up.
const LOOKS: u64 = 20_000_000;

/// Waits until a count has come this far. If it never does, that is counted.
pub(crate) fn wait_for(count: &AtomicU64, least: u64, gave_up: &AtomicU64) {
    for _ in 0..LOOKS {
        if count.load(Ordering::SeqCst) >= least {
            return;
        }
        thread::yield_now();
    }
    gave_up.fetch_add(1, Ordering::SeqCst);
}
