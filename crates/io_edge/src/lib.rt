//! Files and sinks: the edge between the program and what it reads and writes.
//!
//! A source of files is a [`files::Files`], and a place for output a [`sink::Sink`]. Their contracts see
//! a source as the bytes of each name, the current file with what is left of it, and a count of faults,
//! and a sink as the bytes that it took and a count of faults. A call fails only where its count rose.
//! [`memory`] has both over bytes in memory, which tell all their bytes and fail where they are asked to.
//! [`machine`] has both over the machine: they tell no bytes, and are trusted to pass them on.
//! [`whole::read_all`] reads one file to its end under a limit.
//!
//! Below stands `sys_abi`, with the answer to want of memory. The readers, the report and the program's
//! top call stand above, and reach files and output through these two traits alone.
#![tactic(auto)]

pub mod fault;
pub mod files;
pub mod machine;
pub mod memory;
mod plan;
pub mod sink;
pub mod whole;
