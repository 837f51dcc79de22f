//! The requests that a container answers by itself.

ghost use Rattle.std.specs.Prelude.{◌≡◌, Bool, OnOk};
ghost use Rattle.step_requests.specs.declared.request.StepRequest.TheVariants as step;
ghost use Rattle.step_session.specs.Answers.{IsAsked};
ghost use Rattle.step_session.specs.Stands.{IsAnswered, IsInOrder};

use crate::container::Container;
use crate::origin::Origin;
use audit_log::line::LineBuffer;
use std::alloc::Global;
use step_requests::StepRequest;
use sys_abi::memory::NoMemory;

/// Does what a request other than `judge` asks for, and adds the answer.
pub(crate) fn answer_request(
    alloc: Global,
    origin: &Origin,
    container: &mut Container,
    request: &StepRequest,
    answers: &mut LineBuffer,
) -> Result<(), NoMemory>
    requires order { IsInOrder container.old.state }
    requires asked { IsAsked request.now }
    requires other { (idle : Bool) → request.now ≡ step.Judge idle → ⊥ }
    ensures { OnOk result (IsAnswered origin.now request.now container.old answers.old answers.new container.new) }
{
    match request {
        StepRequest::Able => container.able(alloc, answers),
        StepRequest::Task(name) => container.task(alloc, name, answers),
        StepRequest::Worker { number, asked } => container.worker(alloc, *number, asked, answers),
        StepRequest::Report => container.report(alloc, origin, answers),
        StepRequest::Script => container.script(alloc, origin, answers),
        StepRequest::Judge { .. } => unreachable!(),
        StepRequest::Look(look) => container.look(alloc, look, answers),
        StepRequest::Close => container.close(alloc, answers),
    }
}
