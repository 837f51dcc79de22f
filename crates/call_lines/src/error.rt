//! Why a file of calls is refused.

use lex_core::Reason;
use thiserror::Error;

/// The first line that states no call, by its number from 1, and the first of its faults from the left.
#[derive(Clone, Copy, PartialEq, Eq, Debug, Error)]
#[error("line {line}: {reason}")]
pub struct CallsError {
    pub line: u32,
    pub reason: Reason,
}
