//! What is told of a broken clause: the event, the call that it is about, and the events that show why.

ghost use Rattle.std.specs.Prelude.{◌≡◌, ◌∷◌, ◌++◌, List, OnOk, length};
ghost use Rattle.hist_model.specs.ReportJournal.{event_line};
ghost use Rattle.hist_model.specs.declared.event.Event.{Event};
ghost use Rattle.model_kernel.specs.Kernels.{past};
ghost use Rattle.judge_pass.specs.Reasons.{BeginsWith};

use crate::answer_reasons::{
    push_answer, push_first_answer, push_outcome, push_own_id, push_passed, push_says,
    push_uncaused, push_undone,
};
use crate::copy_reasons::{
    push_other_base, push_other_memory, push_stale, push_unchecked, push_unread,
};
use crate::judge::{Fault, Judge};
use crate::other_request::push_other_request;
use crate::policy_reasons::{push_spent, push_torn, push_ungranted};
use crate::reasons::{Case, push_effect, push_event_at, push_event_line, push_plain};
use audit_log::line::LineBuffer;
use broker_verdict::clause::Clause;
use broker_verdict::words::clause_text;
use hist_model::event::{Actor, Event};
use hist_model::policy::Policy;
use model_kernel::Kernel;
use sys_abi::memory::NoMemory;

/// Adds what is told of a fault that the newest event of a kernel has: the event, the call that it is about, what it means that the
/// clause is broken, and the events that show why.
pub fn push_fault(
    line: &mut LineBuffer,
    judge: &Judge,
    policy: &Policy,
    kernel: &Kernel,
    fault: &Fault,
) -> Result<(), NoMemory>
    ensures { (K : List Event) (e : Event) → past kernel.now ≡ e ∷ K
        → OnOk result (BeginsWith line.new (line.old ++ event_line (length K) e)) }
{
    let Some((event, before)) = kernel.history().events().split_last() else {
        return Ok(());
    };
    let mut more = LineBuffer::new(judge.alloc);
    push_rest(&mut more, judge, policy, kernel, event, before, fault)?;
    push_event_line(line, before.len() as u64, event)?;
    line.push_bytes(more.bytes())
}

/// Adds what stands behind the event: its call, what it means that the clause is broken, and the events that show why.
fn push_rest(
    line: &mut LineBuffer,
    judge: &Judge,
    policy: &Policy,
    kernel: &Kernel,
    event: &Event,
    before: &[Event],
    fault: &Fault,
) -> Result<(), NoMemory> {
    line.push("call ")?;
    match fault.call {
        Some(number) => push_entry(line, judge, before, number)?,
        None => line.push("-")?,
    }
    line.push("\n")?;
    push_plain(line, clause_text(fault.clause))?;
    match case_of(judge, policy, kernel, event, before, fault) {
        Some(case) => push_reasons(line, &case, fault.clause),
        None => Ok(()),
    }
}

/// Adds the entry of a call with a number.
fn push_entry(
    line: &mut LineBuffer,
    judge: &Judge,
    before: &[Event],
    number: usize,
) -> Result<(), NoMemory> {
    match judge.calls.rows.get(number) {
        Some(call) => push_event_at(line, before, call.place),
        None => Ok(()),
    }
}

/// A worker's event with what was kept before it, if it is about a call.
fn case_of<'a>(
    judge: &'a Judge,
    policy: &'a Policy,
    kernel: &'a Kernel,
    event: &'a Event,
    before: &'a [Event],
    fault: &Fault,
) -> Option<Case<'a>> {
    let Actor::Worker(worker) = &event.who else {
        return None;
    };
    let worker = usize::from(*worker);
    let number = fault.call?;
    Some(Case {
        judge,
        policy,
        kernel,
        before,
        what: &event.what,
        worker,
        seat: judge.seats.get(worker)?,
        number,
        call: judge.calls.rows.get(number)?,
    })
}

/// Adds the reasons.
fn push_reasons(line: &mut LineBuffer, case: &Case<'_>, clause: Clause) -> Result<(), NoMemory> {
    match clause {
        Clause::EffectWithoutCall | Clause::AnswerWithoutCall | Clause::Unanswered => Ok(()),
        Clause::OtherRequest => push_other_request(line, case),
        Clause::Unread => push_unread(line, case),
        Clause::OtherMemory => push_other_memory(line, case),
        Clause::StaleCopy => push_stale(line, case),
        Clause::Unchecked => push_unchecked(line, case),
        Clause::Torn => push_torn(line, case),
        Clause::OtherBase => push_other_base(line, case),
        Clause::Ungranted => push_ungranted(line, case),
        Clause::Spent => push_spent(line, case),
        Clause::Again => push_effect(line, case, "the first one"),
        Clause::AfterAnswer => push_answer(line, case),
        Clause::OtherAnswer => push_own_id(line, case),
        Clause::Uncaused => push_uncaused(line, case),
        Clause::DeniedOtherwise => push_says(line, case),
        Clause::PassedOtherwise => push_passed(line, case),
        Clause::GrantedNotDone => push_undone(line, case),
        Clause::OtherOutcome => push_outcome(line, case),
        Clause::AnsweredAlready => push_first_answer(line, case),
    }
}
