//! A call that the broker leaves waiting, received or not.

ghost use Rattle.std.specs.Prelude.{◌≡◌, ◌<◌, false, List, length, is_some};
ghost use Rattle.std.specs.Option.{option_map};
ghost use Rattle.hist_model.specs.declared.event.Event.{Event};
ghost use Rattle.hist_model.specs.declared.policy.Policy.{Policy as PolicyValue};
ghost use Rattle.hist_model.specs.declared.script.Script.{Script as ScriptValue};
ghost use Rattle.broker_verdict.specs.Trusted.{left_waiting};
ghost use Rattle.judge_pass.specs.Closed.{is_closed};
ghost use Rattle.judge_pass.specs.Finding.{Watches, as_finding};
ghost use Rattle.judge_pass.specs.Idle.{finding_idle, unanswered_at};
ghost use Rattle.judge_pass.specs.Stands.{Stands, place_of_call};

use crate::judge::{Fault, Judge};
use crate::watch::{FirstFault, Watch};
use broker_verdict::clause::{Class, Clause};

impl Judge {
    /// The number of the oldest call that waits.
    pub(crate) fn waiting_call(&self) -> Option<usize>
        ensures call { (P : PolicyValue) (S : ScriptValue) (K : List Event) → Stands P S K self.now → place_of_call K result ≡ left_waiting K }
        ensures some { (P : PolicyValue) (S : ScriptValue) (K : List Event) → Stands P S K self.now → is_some result ≡ is_some (left_waiting K) }
    {
        'rows: for number in 0..self.calls.rows.len() {
            if self.calls.rows[number].is_unanswered() {
                return Some(number);
            }
        }
        None
    }
}

/// That the call with this number isn't answered, found at the event with this place.
fn unanswered(place: usize, call: Option<usize>) -> Option<FirstFault>
    ensures { option_map as_finding result ≡ unanswered_at place call }
{
    match call {
        Some(number) => Some(FirstFault {
            place,
            fault: Fault {
                clause: Clause::Unanswered,
                class: Class::Answer,
                call: Some(number),
            },
        }),
        None => None,
    }
}

impl Watch {
    /// What is found first by so many events, of which the last didn't close the listener, where the broker does nothing more by
    /// itself: what an event breaks, or that a call that waits isn't answered, at the last event.
    pub fn found_idle(&self, events: usize) -> Option<FirstFault>
        requires { 0 < events }
        ensures { (P : PolicyValue) (S : ScriptValue) (K : List Event) → Watches P S K self.now → length K ≡ events → is_closed K ≡ false
            → option_map as_finding result ≡ finding_idle P S K }
    {
        match self.found {
            Some(found) => Some(found),
            None => unanswered(events - 1, self.judge.waiting_call()),
        }
    }
}
