//! The words of a call and of the session that it had.

ghost use Rattle.std.specs.Prelude.{◌≡◌, ◌++◌, ◌||◌, OnOk, codes, decimal, is_some};
ghost use Rattle.hist_model.specs.Memory.{is_number};
ghost use Rattle.hist_model.specs.ReportAudit.{judging_by};
ghost use Rattle.hist_model.specs.ReportWords.{call_text, name_text};
ghost use Rattle.sys_abi.specs.Calls.{nr_getpid};
ghost use Rattle.audit_log.specs.Audited.{audited};
ghost use Rattle.outcome_text.specs.Outcomes.{audit_text, came_text, entry_of, entry_text, gives_number, verdict_text};

use audit_log::audit::{arrival, arrival_word, push_finding};
use audit_log::calls::push_outcome;
use audit_log::event::push_entered;
use audit_log::line::LineBuffer;
use audit_log::session::SessionRecord;
use audit_log::words::{push_call, push_name};
use hist_model::event::{Entered, What};
use hist_model::policy::Policy;
use hist_model::report::Outcome;
use hist_model::text::TaskName;
use sys_abi::calls::GETPID;
use sys_abi::memory::NoMemory;

/// Adds what the filters say of a call, without the id.
fn push_verdict(line: &mut LineBuffer, verdict: Entered) -> Result<(), NoMemory>
    ensures { OnOk result (line.new ≡ line.old ++ verdict_text verdict) }
{
    match verdict {
        Entered::Notify { .. } => line.push("notify"),
        _ => push_entered(line, verdict),
    }
}

/// Whether a call's number is that of getpid.
fn is_getpid(nr: i32) -> bool
    ensures { result ≡ is_number nr nr_getpid }
{
    nr == GETPID
}

/// Whether a call returned a number above 0.
fn gives_number(came: &Outcome) -> bool
    ensures { result ≡ gives_number came.now }
{
    match came {
        Outcome::Returned(value) => *value > 0,
        _ => false,
    }
}

/// Adds what a call came to; of a getpid not which number.
fn push_came(line: &mut LineBuffer, nr: i32, came: Outcome) -> Result<(), NoMemory>
    ensures { OnOk result (line.new ≡ line.old ++ came_text nr came) }
{
    let number = gives_number(&came);
    if is_getpid(nr) && number {
        line.push("pid")
    } else {
        push_outcome(line, came)
    }
}

/// Adds the task of a call, and the call's number among the task's own.
fn push_ordinal(line: &mut LineBuffer, name: &TaskName, number: u64) -> Result<(), NoMemory>
    ensures { OnOk result (line.new ≡ line.old ++ (codes "t" ++ name_text name.now ++ codes " " ++ decimal number ++ codes " ")) }
{
    line.push("t")?;
    push_name(line, name)?;
    line.push(" ")?;
    line.push_number(number)?;
    line.push(" ")
}

/// Adds a call, what the filters say of it, and what it came to.
fn push_called(
    line: &mut LineBuffer,
    nr: i32,
    verdict: Entered,
    came: Outcome,
) -> Result<(), NoMemory>
    ensures { OnOk result (line.new ≡ line.old ++ (call_text nr ++ codes " " ++ verdict_text verdict ++ codes " " ++ came_text nr came)) }
{
    push_call(line, nr)?;
    line.push(" ")?;
    push_verdict(line, verdict)?;
    line.push(" ")?;
    push_came(line, nr, came)
}

/// Adds the words of a call that a task entered, which has this number among the task's own.
pub fn push_entered_call(
    line: &mut LineBuffer,
    name: &TaskName,
    number: u64,
    nr: i32,
    verdict: Entered,
    came: Outcome,
) -> Result<(), NoMemory>
    ensures { OnOk result (line.new ≡ line.old ++ entry_text name.now number nr verdict came) }
{
    push_ordinal(line, name, number)?;
    push_called(line, nr, verdict, came)
}

/// Adds the words of a step that enters a call.
pub(crate) fn push_entry(
    line: &mut LineBuffer,
    name: &TaskName,
    number: u64,
    what: &What,
    came: Outcome,
) -> Result<(), NoMemory>
    ensures { OnOk result (line.new ≡ line.old ++ entry_of name.now number what.now came) }
{
    match what {
        What::Enter { nr, verdict, .. } => {
            push_entered_call(line, name, number, *nr, *verdict, came)
        }
        _ => Ok(()),
    }
}

/// Adds the words of the audit of a session for whose call this number was installed, and ends the line.
pub(crate) fn push_audit(
    line: &mut LineBuffer,
    policy: &Policy,
    session: &SessionRecord,
    number: Option<u32>,
) -> Result<(), NoMemory>
    ensures { OnOk result (line.new ≡ line.old ++ audit_text (judging_by policy.now.rules) (audited number session.now)) }
{
    push_finding(line, policy, session.finding())?;
    line.push(" reply=")?;
    line.push(arrival_word(arrival(&session.facts, number)))?;
    line.push("\n")
}
