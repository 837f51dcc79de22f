//! What is read of a line, or why it is refused.

ghost use Rattle.std.specs.Prelude.{◌≡◌, Err};
ghost use Rattle.call_lines.specs.Readings.{Gives, known};

use lex_core::Reason;
use sys_abi::memory::OrNoMemory;

/// What is read of a line or a part of one, or its first fault.
pub type Reading<T> = Result<T, OrNoMemory<Reason>>;

/// The refusal of a line for this reason.
pub fn refused<T>(reason: Reason) -> Reading<T>
    ensures { Gives result (Err reason) }
{
    Err(OrNoMemory::Refused(reason))
}

/// What a name stands for, where it is known.
pub fn known<T>(found: Option<T>) -> Reading<T>
    ensures { Gives result (known found) }
{
    match found {
        Some(value) => Ok(value),
        None => refused(Reason::UnknownName),
    }
}
