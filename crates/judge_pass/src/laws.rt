//! What is found in a history.

ghost use Rattle.std.specs.Prelude.{List};
ghost use Rattle.hist_model.specs.declared.event.Event.{Event};
ghost use Rattle.hist_model.specs.declared.policy.Policy.{Policy};
ghost use Rattle.hist_model.specs.declared.script.Script.{Script};
ghost use Rattle.judge_pass.specs.Finding.{ClosesFaultless, FindsTheFirst, StaysFound};

/// It is the first fault.
pub fn the_first_fault_is_found()
    ensures { (P : Policy) (S : Script) (K : List Event) → FindsTheFirst P S K }
{}

/// It is found as well in each history that goes on from there.
pub fn what_is_found_stays_found()
    ensures { (P : Policy) (S : Script) (K : List Event) → StaysFound P S K }
{}

/// No clause is broken by the listener's end.
pub fn closing_breaks_no_clause()
    ensures { (P : Policy) (S : Script) (K : List Event) → ClosesFaultless P S K }
{}
