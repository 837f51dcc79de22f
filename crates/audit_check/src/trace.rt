//! What a trail says of a call, and its lines.

ghost use Rattle.std.specs.Prelude.{◌≡◌, ◌++◌, OnOk, option_copied};
ghost use Rattle.hist_model.specs.ReportAudit.{judging_by};
ghost use Rattle.audit_check.specs.Trail.{place_text, trace_text};
ghost use Rattle.audit_check.specs.Traced.{trace_of};

use audit_log::audit::{push_rule, rule_of};
use audit_log::line::LineBuffer;
use audit_log::session::SessionRecord;
use hist_model::policy::Policy;
use sys_abi::memory::NoMemory;

/// What is told of a call: the places of the steps that served it, and the rule that decided, by its place in the policy.
#[derive(Clone, Copy, PartialEq, Eq, Debug)]
pub struct Trace {
    /// Where its notification was received.
    pub recv: Option<usize>,
    /// Where the notification was found valid the second time.
    pub valid: Option<usize>,
    /// Where what is granted was done.
    pub effect: Option<usize>,
    /// Where it was answered: by what was sent, or by the installation of a descriptor.
    pub answer: Option<usize>,
    /// The rule that decided.
    pub rule: Option<usize>,
}

/// What is told of a call, by its session and the installation that answered it.
pub(crate) fn trace_of(session: Option<&SessionRecord>, installed: Option<usize>) -> Trace
    ensures { result ≡ trace_of (option_copied session.entry) installed }
{
    match session {
        Some(session) => Trace {
            recv: Some(session.place),
            valid: session.stages.valid,
            effect: session.stages.effect,
            answer: session.stages.sent.or(installed),
            rule: rule_of(session.finding()),
        },
        None => Trace {
            recv: None,
            valid: None,
            effect: None,
            answer: installed,
            rule: None,
        },
    }
}

/// Adds a word, and a place, or `-` where there is none.
fn push_place(line: &mut LineBuffer, word: &str, place: Option<usize>) -> Result<(), NoMemory>
    ensures { OnOk result (line.new ≡ line.old ++ (word.now ++ place_text place)) }
{
    line.push(word)?;
    match place {
        Some(place) => line.push_number(place as u64),
        None => line.push("-"),
    }
}

/// Adds the line of the call at a place.
pub(crate) fn push_trace(
    line: &mut LineBuffer,
    policy: &Policy,
    place: usize,
    trace: &Trace,
) -> Result<(), NoMemory>
    ensures { OnOk result (line.new ≡ line.old ++ trace_text (judging_by policy.now.rules) place trace.now) }
{
    push_place(line, "trail ", Some(place))?;
    push_place(line, " recv=", trace.recv)?;
    push_place(line, " valid=", trace.valid)?;
    push_place(line, " effect=", trace.effect)?;
    push_place(line, " answer=", trace.answer)?;
    line.push(" rule=")?;
    push_rule(line, policy, trace.rule)?;
    line.push("\n")
}
