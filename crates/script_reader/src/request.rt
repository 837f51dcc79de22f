//! What another broker's workers ask the kernel for, as the lines of a schedule state it.

ghost use Rattle.std.specs.Prelude.{◌≡◌, Bool, IfOk};
ghost use Rattle.script_reader.specs.Outcomes.{States};
ghost use Rattle.script_reader.specs.Requests as definitions;
ghost use Rattle.script_reader.specs.Rules.{IsSound};
ghost use Rattle.script_reader.specs.declared.word.Section.{Section};

use crate::error::Fault;
use crate::statement::Statement;
use lex_core::{Reason, Token};
use std::alloc::Global;
use step_requests::asked::asked;
use step_requests::operand::line_fault;
use step_requests::values::worker_at;
use step_requests::word::{Deed, Form, deed_named, form_of, word_of};
use sys_abi::memory::{NoMemory, OrNoMemory};

/// Whether a word says what a worker asks for, by itself or with the call after it.
fn asks(word: &[u8]) -> bool
    ensures { result ≡ definitions.asks word.now }
{
    word == b"act".as_slice() || deed_named(word).is_some()
}

/// Whether a line is a worker's.
fn is_workers(line: &[Token<'_>]) -> bool
    ensures { result ≡ definitions.is_workers line.now }
{
    match line.first() {
        Some(first) => word_of(first) == b"w".as_slice(),
        None => false,
    }
}

/// Whether the token at a place says what a worker asks for.
fn asks_at(line: &[Token<'_>], place: usize) -> bool
    ensures { result ≡ definitions.asks_at line.now place }
{
    match line.get(place) {
        Some(does) => asks(word_of(does)),
        None => false,
    }
}

/// Whether the third token of a worker's line says what the worker asks for.
pub fn is_request(line: &[Token<'_>]) -> bool
    ensures { result ≡ definitions.is_request line.now }
{
    is_workers(line) && asks_at(line, 2)
}

/// Which of a worker's requests a line of this form is.
fn deed_in(form: Result<Form, Reason>) -> Result<Deed, Reason>
    ensures { result ≡ definitions.deed_in form }
{
    match form {
        Ok(Form::Worker(deed)) => Ok(deed),
        Ok(_) => Err(Reason::UnknownWord),
        Err(why) => Err(why),
    }
}

/// The reason of a request whose worker's number is above 15, where its tokens show another one.
fn unseated(why: Reason) -> Reason
    ensures { result ≡ definitions.unseated why }
{
    match why {
        Reason::UnknownName => Reason::OutOfRange,
        _ => why,
    }
}

/// The fault of a request, where `is_seated` is whether its worker's number is at most 15, and `found` is what its tokens show
/// otherwise.
fn with_seat(is_seated: bool, found: Option<Reason>) -> Option<Reason>
    ensures { result ≡ definitions.with_seat is_seated found }
{
    if is_seated {
        return found;
    }
    match found {
        Some(why) => Some(unseated(why)),
        None => Some(Reason::OutOfRange),
    }
}

/// The fault that the tokens of a request show by themselves.
fn request_fault(deed: Deed, line: &[Token<'_>]) -> Option<Reason>
    ensures { result ≡ definitions.request_fault deed line.now }
{
    with_seat(
        worker_at(line).is_some(),
        line_fault(Form::Worker(deed), line),
    )
}

/// What a request states whose tokens have no fault.
fn request_stated<'a>(
    alloc: Global,
    deed: Deed,
    line: &[Token<'_>],
) -> Result<Statement<'a>, NoMemory>
    ensures { IfOk result (λ s. s ≡ definitions.request_stated deed line.now) }
{
    Ok(Statement::Asks {
        worker: worker_at(line).unwrap_or(0),
        asked: asked(alloc, deed, line)?,
    })
}

/// What a request states.
#[tactic(auto, using(crate::proofs::SoundRequests::sound_request))]
fn deed_statement<'a>(
    alloc: Global,
    deed: Result<Deed, Reason>,
    line: &[Token<'_>],
) -> Result<Statement<'a>, OrNoMemory<Fault>>
    ensures reading { States (definitions.deed_statement deed line.now) result }
    ensures sound { IfOk result (λ s. (p : Section) (base_is_stated : Bool) → IsSound p base_is_stated s) }
{
    let deed = match deed {
        Ok(deed) => deed,
        Err(why) => return Err(OrNoMemory::Refused(Fault::Wrong(why))),
    };
    if let Some(why) = request_fault(deed, line) {
        return Err(OrNoMemory::Refused(Fault::Wrong(why)));
    }
    Ok(request_stated(alloc, deed, line)?)
}

/// What a request in the schedule states by itself.
pub fn request_statement<'a>(
    alloc: Global,
    line: &[Token<'_>],
) -> Result<Statement<'a>, OrNoMemory<Fault>>
    ensures reading { States (definitions.request_statement line.now) result }
    ensures sound { IfOk result (λ s. (p : Section) (base_is_stated : Bool) → IsSound p base_is_stated s) }
{
    deed_statement(alloc, deed_in(form_of(line)), line)
}
