//! Groups of tasks: each is one address space together with one descriptor table, which threads share (clone(2) on CLONE_VM
//! and CLONE_FILES; mmap(2), open(2), close(2), dup2(2)).
//!
//! `Groups` keeps a row for each group that was made, by its ordinal, which is how many were made before it: how many living
//! tasks and open handles hold it, the list of its pages that were written, and its descriptors. A copy shares its parent's
//! pages, and the first write to a page that is shared copies it. A list is sorted by numbers (`sorted_list`).
//! Contracts see them as a state of the definitions, `State`, and each call says what it makes of each state that they hold.
//! `laws::states_follow_events` says what an event makes of the state of a history, which has beside the history two functions:
//! how many living tasks, and how many open handles, each group has.
//!
//! Below stand the definitions (`hist_model`), what one more event changes of them (`history_frames`), `sorted_list`,
//! and the kit's `slab` for the pages; native calls and the kernel, which counts tasks and handles, stand above.
#![tactic(auto)]

mod descriptors;
mod groups;
mod keys;
pub mod laws;
mod list;
mod map;
mod page_bytes;
mod pages;

pub use groups::{Groups, NR_OPEN, NotOpen, OverLimit};
