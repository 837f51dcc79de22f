//! The tests of a line.

ghost use Rattle.script_reader.specs.Faults.{Judges, full, too_large_if, wrong_if};

use crate::error::Fault;
use lex_core::Reason;

/// Refuses a line for a reason where something is wrong.
pub fn wrong_if(wrong: bool, reason: Reason) -> Result<(), Fault>
    ensures { Judges (wrong_if wrong reason) result }
{
    if wrong {
        Err(Fault::Wrong(reason))
    } else {
        Ok(())
    }
}

/// Refuses a line that takes a quantity past its limit.
pub fn too_large_if(large: bool) -> Result<(), Fault>
    ensures { Judges (too_large_if large) result }
{
    if large { Err(Fault::TooLarge) } else { Ok(()) }
}

/// Refuses one more of a quantity that is at its limit.
pub fn full(limit: usize, count: usize) -> Result<(), Fault>
    ensures { Judges (full limit count) result }
{
    too_large_if(limit <= count)
}
