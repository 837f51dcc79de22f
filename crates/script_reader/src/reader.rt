//! Scripts, line by line.

ghost use Rattle.std.specs.Prelude.{◌≡◌, ◌≤◌, Ok, length, IfOk, IfErr, OnOk};
ghost use Rattle.lex_core.specs.Given.{GivesFirst};
ghost use Rattle.script_reader.specs.Lines.{line_statement};
ghost use Rattle.script_reader.specs.Outcomes.{FirstRefused, GoesOn, States, with_reading};
ghost use Rattle.script_reader.specs.Rules.{AreTurns, IsKept};
ghost use Rattle.script_reader.specs.Scripts.{refusal, script, script_file};
ghost use Rattle.script_reader.specs.Views.{above_in};

use crate::builder::Builder;
use crate::error::{Fault, ScriptError};
use crate::file::ScriptFile;
use hist_model::script::Script;
use lex_core::{Line, Lines};
use std::alloc::Global;
use sys_abi::memory::OrNoMemory;

/// The refusal of a line with this fault.
fn refusal(line: u32, fault: Fault) -> ScriptError
    ensures { result ≡ refusal line fault }
{
    match fault {
        Fault::Wrong(reason) => ScriptError::BadLine { line, reason },
        Fault::TooLarge => ScriptError::TooLarge { line },
    }
}

/// The next line that has tokens.
fn next_line<'a>(lines: &mut Lines<'a>) -> Result<Option<Line<'a>>, OrNoMemory<ScriptError>>
    ensures line { IfOk result (λ line. GivesFirst lines.old line lines.new) }
    ensures refused { IfErr result (λ e. FirstRefused lines.old e) }
{
    match lines.next() {
        Ok(line) => Ok(line),
        Err(OrNoMemory::Refused(error)) => Err(OrNoMemory::Refused(ScriptError::BadLine {
            line: error.line,
            reason: error.reason,
        })),
        Err(OrNoMemory::NoMemory) => Err(OrNoMemory::NoMemory),
    }
}

/// Reads a line after those that were read.
fn read_line(builder: &mut Builder, line: &Line<'_>) -> Result<(), OrNoMemory<ScriptError>>
    ensures goes_on { GoesOn line.now.number (with_reading line.now.number (line_statement (above_in builder.old) (Ok line.now.tokens)) (above_in builder.old)) result (above_in builder.new) }
    ensures kept { OnOk result (IsKept (above_in builder.old) → IsKept (above_in builder.new)) }
{
    let number = line.number;
    match builder.read(line) {
        Ok(()) => Ok(()),
        Err(OrNoMemory::Refused(fault)) => Err(OrNoMemory::Refused(refusal(number, fault))),
        Err(OrNoMemory::NoMemory) => Err(OrNoMemory::NoMemory),
    }
}

/// What the bytes of a file state. The first faulty line decides, and within a line the reason that stands first in
/// the table of reasons; a block without its end and a script without programs are refused last.
#[tactic(auto, using(crate::proofs::Readings::file_read, crate::proofs::Readings::read_all, crate::proofs::Readings::read_more, crate::proofs::Readings::read_refused, crate::proofs::Readings::read_unread))]
pub fn read_file(alloc: Global, bytes: &[u8]) -> Result<ScriptFile, OrNoMemory<ScriptError>>
    requires { length bytes.now ≤ 8388608 }
    ensures reading { States (script_file bytes.now) result }
    ensures turns { IfOk result (λ file. AreTurns file.turns) }
{
    let mut lines = Lines::new(alloc, bytes);
    let mut builder = Builder::new(alloc)?;
    while let Some(line) = next_line(&mut lines)? {
        if let Err(error) = read_line(&mut builder, &line) {
            return Err(error);
        }
        lines.reuse(line.tokens);
    }
    builder.finish()
}

/// The script that the bytes of a file state, without its turns.
#[tactic(auto, using(crate::proofs::Readings::script_alone, crate::proofs::Readings::script_refused))]
pub fn read_script(alloc: Global, bytes: &[u8]) -> Result<Script, OrNoMemory<ScriptError>>
    requires { length bytes.now ≤ 8388608 }
    ensures { States (script bytes.now) result }
{
    let ScriptFile { script, .. } = read_file(alloc, bytes)?;
    Ok(script)
}
