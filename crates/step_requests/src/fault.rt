//! Why a line is refused.

use lex_core::Reason;
use thiserror::Error;

/// Why a line asks for nothing. Printed, it is what stands behind `refused` in the answer.
#[derive(Clone, Copy, PartialEq, Eq, Debug, Error)]
pub enum LineFault {
    /// The line has no tokens, or is a comment.
    #[error("empty line")]
    Empty,
    /// The number of the worker is above 15; the line has no other fault.
    #[error("worker")]
    Worker,
    /// The line is no request.
    #[error("line: {0}")]
    Reason(Reason),
}
