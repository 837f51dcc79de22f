//! What a history comes to.

ghost use Rattle.std.specs.Prelude.{◌≡◌, IfOk};
ghost use Rattle.hist_model.specs.ReportAudit.{judging_by};
ghost use Rattle.outcome_text.specs.Outcomes.{result_with};

use crate::calls::Kept;
use crate::names::task_names;
use audit_log::line::LineBuffer;
use audit_log::served::served_calls;
use audit_log::tables::Tables;
use hist_model::history::History;
use hist_model::policy::Policy;
use std::alloc::Global;
use sys_abi::memory::NoMemory;

/// What a history comes to by the policy that its workers had: a line for each call of its tasks, which stand in the order of
/// their names, and of each the calls from the oldest on; behind a call what was done for it, and whether that is out of sight, as
/// the effects at the `hidden` places are. Empty where no call was entered.
pub fn outcome_of(
    alloc: Global,
    policy: &Policy,
    history: &History,
    hidden: &[usize],
) -> Result<Vec<u8>, NoMemory>
    ensures { IfOk result (λ text. text.items ≡ result_with (judging_by policy.now.rules) hidden.now history.now.events) }
{
    let events = history.events();
    let tables = Tables::of(alloc, policy, history)?;
    let calls = &tables.calls;
    let sessions = tables.sessions.as_slice();
    let served = served_calls(alloc, events.len(), calls, sessions)?;
    let names = task_names(alloc, events)?;
    let kept = Kept {
        policy,
        events,
        calls,
        sessions,
        served: served.as_slice(),
        hidden,
    };
    let mut line = LineBuffer::new(alloc);
    kept.push_all(&mut line, names.as_slice())?;
    Ok(line.into_bytes())
}
