//! The reading of a line.

ghost use Rattle.std.specs.Prelude.{◌≡◌, ◌<◌, ◌^◌, length, IfOk, IfErr, Ok};
ghost use Rattle.step_requests.specs.Readings as definitions;
ghost use Rattle.step_requests.specs.Readings.{HasSeat, Refuses};
ghost use Rattle.step_requests.specs.Requests as requests;
ghost use Rattle.step_requests.specs.declared.word.Form.TheVariants.{Worker};

use crate::asked::{asked, look_of};
use crate::fault::LineFault;
use crate::names::task_name;
use crate::operand::line_fault;
use crate::request::StepRequest;
use crate::values::{bytes_at, worker_at};
use crate::word::{Deed, Form, form_of};
use lex_core::{LexError, Lines, Reason, Token};
use std::alloc::Global;
use sys_abi::memory::OrNoMemory;

/// The refusal of a line that is no request.
fn refused(why: Reason) -> OrNoMemory<LineFault>
    ensures { result ≡ definitions.refused why }
{
    OrNoMemory::Refused(LineFault::Reason(why))
}

/// What a line of a worker asks for, where its operands have no fault.
fn worker_request(
    alloc: Global,
    deed: Deed,
    line: &[Token<'_>],
) -> Result<StepRequest, OrNoMemory<LineFault>>
    ensures reading { IfOk result (λ r. requests.request (Worker deed) line.now ≡ Ok r) }
    ensures seat { IfOk result (λ r. HasSeat r) }
    ensures refused { IfErr result (λ e. Refuses e (requests.request (Worker deed) line.now)) }
{
    let Some(number) = worker_at(line) else {
        return Err(OrNoMemory::Refused(LineFault::Worker));
    };
    Ok(StepRequest::Worker {
        number,
        asked: asked(alloc, deed, line)?,
    })
}

/// What a line asks for, where its operands have no fault.
fn request(
    alloc: Global,
    form: Form,
    line: &[Token<'_>],
) -> Result<StepRequest, OrNoMemory<LineFault>>
    ensures reading { IfOk result (λ r. requests.request form line.now ≡ Ok r) }
    ensures seat { IfOk result (λ r. HasSeat r) }
    ensures refused { IfErr result (λ e. Refuses e (requests.request form line.now)) }
{
    match form {
        Form::Able => Ok(StepRequest::Able),
        Form::Task => Ok(StepRequest::Task(task_name(alloc, bytes_at(line, 1))?)),
        Form::Worker(deed) => worker_request(alloc, deed, line),
        Form::Report => Ok(StepRequest::Report),
        Form::Script => Ok(StepRequest::Script),
        Form::Judge { idle } => Ok(StepRequest::Judge { idle }),
        Form::Look(at) => Ok(StepRequest::Look(look_of(alloc, at, line)?)),
        Form::Close => Ok(StepRequest::Close),
    }
}

/// What a line with these tokens asks for.
fn read_tokens(alloc: Global, line: &[Token<'_>]) -> Result<StepRequest, OrNoMemory<LineFault>>
    ensures reading { IfOk result (λ r. definitions.read line.now ≡ Ok r) }
    ensures seat { IfOk result (λ r. HasSeat r) }
    ensures refused { IfErr result (λ e. Refuses e (definitions.read line.now)) }
{
    let form = match form_of(line) {
        Ok(form) => form,
        Err(why) => return Err(refused(why)),
    };
    match line_fault(form, line) {
        Some(why) => Err(refused(why)),
        None => request(alloc, form, line),
    }
}

/// The refusal of a line whose tokens can't be read.
fn unread(cause: OrNoMemory<LexError>) -> OrNoMemory<LineFault>
    ensures { result ≡ definitions.unread cause }
{
    match cause {
        OrNoMemory::Refused(error) => refused(error.reason),
        OrNoMemory::NoMemory => OrNoMemory::NoMemory,
    }
}

/// What the bytes of a line ask for. Where there are several lines, the first one that has tokens counts.
///
/// A refusal comes exactly where the line is no request, with its first fault: those of its bytes, then an unknown word, a wrong
/// count of tokens, and of the faults that its operands show the one that stands first in the table of reasons. A worker's number
/// above 15 comes last.
pub fn read_request(alloc: Global, line: &[u8]) -> Result<StepRequest, OrNoMemory<LineFault>>
    requires { length line.now < 2 ^ 32 }
    ensures reading { IfOk result (λ r. definitions.reads line.now ≡ Ok r) }
    ensures seat { IfOk result (λ r. HasSeat r) }
    ensures refused { IfErr result (λ e. Refuses e (definitions.reads line.now)) }
{
    let mut lines = Lines::new(alloc, line);
    match lines.next() {
        Ok(Some(first)) => read_tokens(alloc, first.tokens.items()),
        Ok(None) => Err(OrNoMemory::Refused(LineFault::Empty)),
        Err(cause) => Err(unread(cause)),
    }
}
