//! The numbers and structures of the system call interface, after the manual pages of Linux on x86-64.
//!
//! Errors have a number from 1 to 4095, and those that the kernel and its workers give have a name (errno(3)).
//! Calls have a number, and the eight that policies can name have a name (syscalls(2)). The four signals that
//! programs send have a number (signal(7)). A device number stands for a driver and one of its devices
//! (makedev(3)). A notification, its answer, a request to put a descriptor into a task (seccomp_unotify(2)) and
//! what sysinfo(2) tells are plain structures, which lie in memory as the kernel's headers lay them out. Mounts
//! and attributes have flags (mount(2), setxattr(2)). Want of memory is one error for all crates.
//!
//! Contracts see an error as its number, a device number as a number, and a name as its bytes. The two tables of
//! names stand in `specs/Errnos.antt` and `specs/Calls.antt`, the signals in `specs/Signals.antt`, the layout of
//! a device number in `specs/Devices.antt`, and that of the structures in `specs/Wire.antt`; all of it computes.
//! This layer keeps no state. Nothing of the project stands below it, and every other crate stands on it.
#![tactic(auto)]

pub mod calls;
pub mod device;
pub mod errno;
pub mod flags;
pub mod memory;
mod names;
pub mod signals;
pub mod wire;
