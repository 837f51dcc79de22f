//! The first line of what is printed of a broker that was judged.

ghost use Rattle.std.specs.Prelude.{◌≡◌, ◌++◌, OnOk, decimal};
ghost use Rattle.judge_pass.specs.Heads.{broken_text, numbers_text};

use crate::judge::{Counts, Fault};
use audit_log::line::LineBuffer;
use broker_verdict::words::{class_name, clause_name};
use sys_abi::memory::NoMemory;

/// Adds a number behind a word.
fn push_counted(line: &mut LineBuffer, word: &str, n: u64) -> Result<(), NoMemory>
    ensures { OnOk result (line.new ≡ line.old ++ (word.now ++ decimal n)) }
{
    line.push(word)?;
    line.push_number(n)
}

/// Adds the line of a broker that has mediated, by so many events.
pub fn push_mediated(line: &mut LineBuffer, events: u64, counts: &Counts) -> Result<(), NoMemory>
    ensures { OnOk result (line.new ≡ line.old ++ numbers_text events counts.now.calls counts.now.effects counts.now.answers) }
{
    push_counted(line, "mediated events=", events)?;
    push_counted(line, " calls=", counts.calls)?;
    push_counted(line, " effects=", counts.effects)?;
    push_counted(line, " answers=", counts.answers)?;
    line.push("\n")
}

/// Adds the line of a clause that the event at a place breaks.
pub fn push_broken(line: &mut LineBuffer, place: u64, fault: &Fault) -> Result<(), NoMemory>
    ensures { OnOk result (line.new ≡ line.old ++ broken_text place fault.now.class fault.now.clause) }
{
    push_counted(line, "broken ", place)?;
    line.push(" ")?;
    line.push(class_name(fault.class))?;
    line.push(" ")?;
    line.push(clause_name(fault.clause))?;
    line.push("\n")
}
