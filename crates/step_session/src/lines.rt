//! The lines of the requests, and the answer to one.

ghost use Rattle.std.specs.Prelude.{◌≡◌, ◌++◌, false, MatchOption, OnOk};
ghost use Rattle.step_session.specs.Judged.{IsStanding};
ghost use Rattle.step_session.specs.Lines.{EndsAt, IsCut, has_end, long_text};
ghost use Rattle.step_session.specs.Owing.{IsLineAnswered};

use crate::judged::JudgedContainer;
use crate::origin::Origin;
use crate::texts::push_fault;
use audit_log::line::LineBuffer;
use memchr::memchr;
use std::alloc::Global;
use step_requests::read_request;
use sys_abi::memory::{NoMemory, OrNoMemory};

/// How many bytes a line has at most, without the byte that ends it.
pub(crate) const LONGEST: usize = 65536;

/// The place of the byte that ends the first line.
#[tactic(auto, using(crate::proofs::Cuts::first_end))]
fn line_end(text: &[u8]) -> Option<usize>
    ensures { MatchOption result (has_end text.now ≡ false) (λ place. EndsAt text.now place) }
{
    memchr(b'\n', text)
}

/// The first line that ends in a text, without the byte that ends it, and what stands behind that.
pub(crate) fn first_line(text: &[u8]) -> Option<(&[u8], &[u8])>
    ensures { MatchOption result (has_end text.now ≡ false) (λ cut. IsCut text.now cut.0.now cut.1.now) }
{
    match line_end(text) {
        Some(end) => Some((&text[..end], &text[end + 1..])),
        None => None,
    }
}

/// Adds the answer to a line that is too long.
pub(crate) fn push_long(answers: &mut LineBuffer) -> Result<(), NoMemory>
    ensures { OnOk result (answers.new ≡ answers.old ++ long_text) }
{
    answers.push("refused long line\n")
}

/// Answers a line.
pub(crate) fn answer_line(
    alloc: Global,
    origin: &Origin,
    container: &mut JudgedContainer,
    line: &[u8],
    answers: &mut LineBuffer,
) -> Result<(), NoMemory>
    requires { IsStanding origin.now container.old }
    ensures answered { OnOk result (IsLineAnswered origin.now line.now container.old answers.old container.new answers.new) }
    ensures standing { OnOk result (IsStanding origin.now container.new) }
{
    if line.len() > LONGEST {
        return push_long(answers);
    }
    match read_request(alloc, line) {
        Ok(request) => container.answer(alloc, origin, &request, answers),
        Err(OrNoMemory::Refused(fault)) => push_fault(answers, fault),
        Err(OrNoMemory::NoMemory) => Err(NoMemory),
    }
}
