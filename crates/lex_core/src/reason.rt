//! Why a line of a script is refused.

use thiserror::Error;

/// What is wrong with a line of a script. The lexer gives `BadByte` and `BadQuote`, the readers of scripts and
/// of filters the others. Printed, a reason is the text that the program writes.
#[derive(Clone, Copy, PartialEq, Eq, Debug, Error)]
pub enum Reason {
    /// Outside quotes, a byte that is no blank and begins no token.
    #[error("bad byte")]
    BadByte,
    /// A quote that isn't closed on its line, an unknown escape, a byte below 0x20 between quotes, or a
    /// token that touches a quoted one, before or after it.
    #[error("bad quote")]
    BadQuote,
    /// The first token isn't a word that is known in any part.
    #[error("unknown word")]
    UnknownWord,
    /// The word doesn't belong to this part, or stands after `exit`.
    #[error("out of place")]
    OutOfPlace,
    /// Too few or too many operands.
    #[error("wrong count")]
    WrongCount,
    /// A bare operand where a quoted one belongs, or the reverse.
    #[error("wrong form")]
    WrongForm,
    /// An operand isn't a number, or not the name of a task.
    #[error("bad number")]
    BadNumber,
    /// A number, a length or a byte outside its range.
    #[error("out of range")]
    OutOfRange,
    /// A path that breaks its rule, or isn't stated where it must be.
    #[error("bad path")]
    BadPath,
    /// A call, a program, a mode or a word that isn't known.
    #[error("unknown name")]
    UnknownName,
    /// A setting or a name that stands again.
    #[error("duplicate")]
    Duplicate,
    /// A byte that is stored where nothing is mapped.
    #[error("unmapped")]
    Unmapped,
    /// A second filter with the listener (seccomp(2), SECCOMP_FILTER_FLAG_NEW_LISTENER).
    #[error("second listener")]
    SecondListener,
    /// A filter that isn't accepted (bpf(4), seccomp(2)).
    #[error("bad filter")]
    BadFilter,
    /// A block without its end.
    #[error("not closed")]
    NotClosed,
    /// A script without programs.
    #[error("no program")]
    NoProgram,
    /// A setting that needs a listener, where no filter has one.
    #[error("no listener")]
    NoListener,
}

/// The first fault of a line that has no tokens: `BadByte` or `BadQuote`.
#[derive(Clone, Copy, PartialEq, Eq, Debug, Error)]
#[error("line {line}: {reason}")]
pub struct LexError {
    /// The number of the line in its file, from 1.
    pub line: u32,
    pub reason: Reason,
}
