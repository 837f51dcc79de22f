//! Kinds of work.

use std::sync::atomic::{AtomicU64, Ordering};

/// How many kinds of work there are.
pub(crate) const KINDS: u32 = 8;

/// How many lanes there are.
pub(crate) const LANES: u8 = 6;

/// A set of kinds of work: calls to receive, tasks that may step, and six lanes of notifications that were received.
#[derive(Clone, Copy, PartialEq, Eq, Debug)]
pub struct Work {
    /// A byte for each kind, which is 1 or 0: so the sets of up to 255 threads can be added up.
    bytes: u64,
}

impl Work {
    /// No work.
    pub const NONE: Work = Work { bytes: 0 };

    /// Calls to receive.
    pub const CALLS: Work = Work { bytes: 1 };

    /// Tasks that may step.
    pub const TASKS: Work = Work { bytes: 256 };

    /// All kinds of work.
    pub const ALL: Work = Work {
        bytes: 0x0101_0101_0101_0101,
    };

    /// A kind by its number.
    fn kind(number: u32) -> Work {
        Work {
            bytes: 1 << (8 * (number % KINDS)),
        }
    }

    /// Notifications of a lane, 0 to 5, that were received.
    pub fn lane(number: u8) -> Work {
        Work::kind(2 + u32::from(number % LANES))
    }

    /// What is in either set.
    pub fn with(self, other: Work) -> Work {
        Work {
            bytes: self.bytes | other.bytes,
        }
    }

    /// What is in this set and not in the other.
    pub fn without(self, other: Work) -> Work {
        Work {
            bytes: self.bytes & !other.bytes,
        }
    }

    /// One of the kinds in this set, if it has one.
    pub(crate) fn first(self) -> Option<Work> {
        if self.bytes == 0 {
            return None;
        }
        Some(Work {
            bytes: self.bytes & !(self.bytes - 1),
        })
    }

    /// Whether the sets have a kind in common.
    pub fn has(self, other: Work) -> bool {
        self.bytes & other.bytes != 0
    }
}

/// How many threads seek work of each kind: each looks for it in a turn to come, before it sleeps or calls the gate.
#[derive(Drop)]
pub(crate) struct Seekers {
    /// A byte for each kind.
    bytes: AtomicU64,
}

impl Seekers {
    /// Nobody seeks anything.
    pub(crate) fn none() -> Seekers {
        Seekers {
            bytes: AtomicU64::new(0),
        }
    }

    /// A thread begins to seek.
    pub(crate) fn add(&self, sought: Work) {
        let _ = self.bytes.fetch_add(sought.bytes, Ordering::SeqCst);
    }

    /// A thread seeks no longer what it sought.
    pub(crate) fn remove(&self, sought: Work) {
        let _ = self.bytes.fetch_sub(sought.bytes, Ordering::SeqCst);
    }

    /// The kinds of this work that nobody is looking for.
    pub(crate) fn unsought(&self, work: Work) -> Work {
        let counts = self.bytes.load(Ordering::SeqCst);
        // Each byte becomes 1 where it isn't 0: its halves are laid over each other, then their halves, and theirs.
        let nibbles = (counts | (counts >> 4)) & 0x0f0f_0f0f_0f0f_0f0f;
        let pairs = (nibbles | (nibbles >> 2)) & 0x0303_0303_0303_0303;
        let bytes = (pairs | (pairs >> 1)) & Work::ALL.bytes;
        work.without(Work { bytes })
    }
}
