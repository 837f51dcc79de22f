//! Files of calls, line by line.

ghost use Rattle.std.specs.Prelude.{◌≡◌, ◌<◌, ◌^◌, length, IfOk, IfErr, Ok};
ghost use Rattle.lex_core.specs.Given.{GivesFirst};
ghost use Rattle.call_lines.specs.Calls.{FirstRefused, calls, line_call, line_request};
ghost use Rattle.call_lines.specs.Readings.{Gives};

use crate::error::CallsError;
use crate::requests::read_request;
use hist_model::request::Request;
use hist_model::text::Sequence;
use lex_core::{Line, Lines};
use std::alloc::Global;
use sys_abi::memory::OrNoMemory;

/// A call that a line states.
#[derive(Debug, Drop)]
pub struct Call {
    /// The number of the line in its file, from 1.
    pub line: u32,
    pub request: Request,
}

/// The next line that has tokens.
fn next_line<'a>(lines: &mut Lines<'a>) -> Result<Option<Line<'a>>, OrNoMemory<CallsError>>
    ensures line { IfOk result (λ line. GivesFirst lines.old line lines.new) }
    ensures refused { IfErr result (λ e. FirstRefused lines.old e) }
{
    match lines.next() {
        Ok(line) => Ok(line),
        Err(OrNoMemory::Refused(error)) => Err(OrNoMemory::Refused(CallsError {
            line: error.line,
            reason: error.reason,
        })),
        Err(OrNoMemory::NoMemory) => Err(OrNoMemory::NoMemory),
    }
}

/// Reads the call of a line.
fn read_call(alloc: Global, line: &Line<'_>) -> Result<Call, OrNoMemory<CallsError>>
    ensures { Gives result (line_call line.now.number (line_request (Ok line.now.tokens))) }
{
    let number = line.number;
    match read_request(alloc, line.tokens.items()) {
        Ok(request) => Ok(Call {
            line: number,
            request,
        }),
        Err(OrNoMemory::Refused(reason)) => Err(OrNoMemory::Refused(CallsError {
            line: number,
            reason,
        })),
        Err(OrNoMemory::NoMemory) => Err(OrNoMemory::NoMemory),
    }
}

/// The calls that the bytes of a file state, one a line, or the first line that is refused. Blank lines and comments are skipped.
#[tactic(auto, using(crate::proofs::Lines::read_all, crate::proofs::Lines::read_more, crate::proofs::Lines::read_unread, crate::proofs::Lines::rest_shorter))]
pub fn read_calls(alloc: Global, bytes: &[u8]) -> Result<Sequence<Call>, OrNoMemory<CallsError>>
    requires { length bytes.now < 2 ^ 32 }
    ensures { Gives result (calls bytes.now) }
{
    let mut lines = Lines::new(alloc, bytes);
    let mut found = Vec::new(alloc);
    while let Some(line) = next_line(&mut lines)? {
        let call = read_call(alloc, &line)?;
        found.push(call)?;
        lines.reuse(line.tokens);
    }
    Ok(Sequence::new(found))
}
