//! Bytes that stand for values: keys, by which equal ones are found.
//!
//! Each part of a key ends by itself: a number has eight bytes, and a text or a list has its length before it. So two keys that are
//! equal have equal parts, one after another (`specs/Parts.antt`). Of lists, options and pairs it is shown in `proofs/Ending.antt`, for
//! values of any type whose parts end by themselves.
//!
//! Below stands `sys_abi`, for want of memory and the numbers of errors; above stands what is written into keys.
#![tactic(auto)]

pub mod laws;
mod parts;

pub use parts::{
    push_answer, push_flag, push_number, push_numbers, push_option, push_signed, push_text,
};
