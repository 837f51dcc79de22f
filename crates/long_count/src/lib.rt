//! Counts of any length: of histories that nobody could go through one by one, and of their events.
//!
//! A count has its decimal digits, the lowest first (`count.rt`), since it is printed, and added to others, and nothing else is asked
//! of it. Its model is the number (`specs/Digits.antt`), and its text is that of `specs/Texts.antt`, which for numbers that a machine
//! holds is what `{}` writes.
//!
//! Below stands `sys_abi`, for want of memory; above stands the explorer, which counts the histories of a script.
#![tactic(auto)]

mod count;
mod digits;
pub mod laws;

pub use count::LongCount;
