//! Numbers of the interface (seccomp(2), bpf(4)).

/// AUDIT_ARCH_X86_64, the architecture of every call.
pub const ARCH: u32 = 0xc000003e;

// The part of an answer that is its action, and the part that is its data.
pub const ACTION: u32 = 0xffff0000;

pub const DATA: u32 = 0x0000ffff;

// Actions.
pub const KILL_PROCESS: u32 = 0x80000000;

pub const TRAP: u32 = 0x00030000;

pub const ERRNO: u32 = 0x00050000;

pub const USER_NOTIF: u32 = 0x7fc00000;

pub const TRACE: u32 = 0x7ff00000;

pub const LOG: u32 = 0x7ffc0000;

pub const ALLOW: u32 = 0x7fff0000;

// Codes of instructions that load a word, jump where the accumulator is a number, and return a number.
pub const LOAD: u16 = 0x20;

pub const JUMP_EQUAL: u16 = 0x15;

pub const RETURN: u16 = 0x06;
