//! What is read of a call's arguments.

use sys_abi::errno::Errno;

/// One text of a call, in its caller's memory.
#[derive(Clone, Copy, PartialEq, Eq, Debug)]
pub enum Part {
    /// A text that ends before its first zero byte, which is among `limit` bytes; where none of them is, this fault.
    Text { addr: u64, limit: u64, fault: Errno },
    /// A value of `size` bytes.
    Value { addr: u64, size: u64 },
}
