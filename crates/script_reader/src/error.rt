//! Why a script is refused.

use lex_core::Reason;
use thiserror::Error;

/// What is wrong with a line.
#[derive(Clone, Copy)]
pub enum Fault {
    Wrong(Reason),
    /// It takes a quantity past its limit.
    TooLarge,
}

/// Why a script is refused. The first faulty line decides, and within a line the reason that stands first in the table of
/// reasons. Faults that only the end of the file shows come last.
#[derive(Clone, Copy, PartialEq, Eq, Debug, Error)]
pub enum ScriptError {
    /// The line with this number, from 1, has this fault. `NotClosed` is at the line that opened the block, and `NoProgram`
    /// at line 0.
    #[error("line {line}: {reason}")]
    BadLine { line: u32, reason: Reason },
    /// The line takes a quantity past its limit.
    #[error("line {line}: too large")]
    TooLarge { line: u32 },
}
