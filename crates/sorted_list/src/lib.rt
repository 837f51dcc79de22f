//! Lists of entries in the order of their numbers, of which each stands once: an entry is found by binary search, set between its
//! neighbours or in place of the one that has its number, and removed (`specs/Entries.antt`).
//!
//! A key access is one search, which reads no more than the numbers of the entries that it meets. What stands at a place of any list
//! after a change is shown once, in `proofs/Places.antt`. Nothing stands below; pages, descriptors and tasks under their PIDs are
//! such entries.
#![tactic(auto)]

mod list;

pub use list::{Numbered, find, remove, set};
