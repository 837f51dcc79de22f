//! Counts of events, and of what sessions came to.

ghost use Rattle.std.specs.Prelude.{◌≡◌, ◌+◌, ◌<◌, ◌∷◌, [], List, length, count_by, min, if◌then◌else◌};
ghost use Rattle.hist_model.specs.Kinds.{enters, notifies};
ghost use Rattle.hist_model.specs.Report.{denies, faults, grants, injects, is_gone_session, loses, passes};
ghost use Rattle.hist_model.specs.declared.event.Event.{Event};
ghost use Rattle.audit_log.specs.Counts.{AreCounted};

use crate::session_facts::is_sent;
use hist_model::event::{Entered, Event, What};
use hist_model::report::{Arrival, Audit, Finding};

/// Whether the step enters a call.
pub(crate) fn enters(what: &What) -> bool
    ensures { result ≡ enters what.now }
{
    matches!(what, What::Enter { .. })
}

/// Whether the step enters a listed call.
fn notifies(what: &What) -> bool
    ensures { result ≡ notifies what.now }
{
    matches!(
        what,
        What::Enter {
            verdict: Entered::Notify { .. },
            ..
        }
    )
}

/// One more, where there is one.
fn one_if(count: usize, more: bool) -> usize
    ensures { result ≡ (if more then min (count + 1) usize.MAX else count) }
{
    if more { count.saturating_add(1) } else { count }
}

/// What is counted while the events are gone through.
#[derive(Clone, Copy, PartialEq, Eq, Debug)]
pub(crate) struct EventCounts {
    /// The calls that were listed.
    pub(crate) notified: usize,
    /// The answers that were sent and taken.
    pub(crate) sent: usize,
}

impl EventCounts {
    /// Before all events.
    pub(crate) fn none() -> EventCounts
        ensures { AreCounted [] result }
    {
        EventCounts {
            notified: 0,
            sent: 0,
        }
    }

    /// One more event.
    pub(crate) fn add(&mut self, event: &Event)
        ensures { (K : List Event) → length K < usize.MAX → AreCounted K self.old → AreCounted (event.now ∷ K) self.new }
    {
        self.notified = one_if(self.notified, notifies(&event.what));
        self.sent = one_if(self.sent, is_sent(&event.what));
    }
}

fn grants(finding: Finding) -> bool
    ensures { result ≡ grants finding }
{
    matches!(finding, Finding::Granted(_))
}

/// How many sessions were granted what they asked.
pub(crate) fn granted(found: &[Audit]) -> usize
    ensures { result ≡ count_by (λ a. grants a.finding) found.now }
{
    found.iter().filter(|audit| grants(audit.finding)).count()
}

fn denies(finding: Finding) -> bool
    ensures { result ≡ denies finding }
{
    matches!(finding, Finding::Denied(_) | Finding::Spent(_))
}

/// How many were denied, among them those whose rule's times were spent.
pub(crate) fn denied(found: &[Audit]) -> usize
    ensures { result ≡ count_by (λ a. denies a.finding) found.now }
{
    found.iter().filter(|audit| denies(audit.finding)).count()
}

fn passes(finding: Finding) -> bool
    ensures { result ≡ passes finding }
{
    matches!(finding, Finding::Passed(_))
}

/// How many were passed.
pub(crate) fn passed(found: &[Audit]) -> usize
    ensures { result ≡ count_by (λ a. passes a.finding) found.now }
{
    found.iter().filter(|audit| passes(audit.finding)).count()
}

fn injects(finding: Finding) -> bool
    ensures { result ≡ injects finding }
{
    matches!(finding, Finding::Injected(_))
}

/// How many got a descriptor of the broker's.
pub(crate) fn injected(found: &[Audit]) -> usize
    ensures { result ≡ count_by (λ a. injects a.finding) found.now }
{
    found.iter().filter(|audit| injects(audit.finding)).count()
}

fn faults(finding: Finding) -> bool
    ensures { result ≡ faults finding }
{
    matches!(finding, Finding::Fault)
}

/// How many couldn't read the arguments.
pub(crate) fn faulty(found: &[Audit]) -> usize
    ensures { result ≡ count_by (λ a. faults a.finding) found.now }
{
    found.iter().filter(|audit| faults(audit.finding)).count()
}

fn is_gone_session(finding: Finding) -> bool
    ensures { result ≡ is_gone_session finding }
{
    matches!(finding, Finding::Gone)
}

/// How many found their caller or its call gone.
pub(crate) fn gone(found: &[Audit]) -> usize
    ensures { result ≡ count_by (λ a. is_gone_session a.finding) found.now }
{
    found
        .iter()
        .filter(|audit| is_gone_session(audit.finding))
        .count()
}

fn loses(arrival: Arrival) -> bool
    ensures { result ≡ loses arrival }
{
    matches!(arrival, Arrival::Lost)
}

/// How many answers reached no call.
pub(crate) fn lost(found: &[Audit]) -> usize
    ensures { result ≡ count_by (λ a. loses a.arrival) found.now }
{
    found.iter().filter(|audit| loses(audit.arrival)).count()
}
