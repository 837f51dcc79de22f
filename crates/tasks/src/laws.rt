//! What holds of the tasks of a history for which a kernel's tasks stand.

ghost use Rattle.std.specs.Prelude.{◌≡◌, ◌↔◌, ℕ, ◌<◌, ◌≤◌, Bool, List, ◌∷◌, Option, Some, not, true, false};
ghost use Rattle.hist_model.specs.Kinds.{skips};
ghost use Rattle.hist_model.specs.Look.{Name};
ghost use Rattle.hist_model.specs.Signals.{call_of};
ghost use Rattle.hist_model.specs.Steps.{deliver_or, living_step, opened, task_place, task_step};
ghost use Rattle.hist_model.specs.Systems.{System};
ghost use Rattle.hist_model.specs.Tasks.{alive, disposition, ended, is_made};
ghost use Rattle.hist_model.specs.declared.event.Event.{Event};
ghost use Rattle.hist_model.specs.declared.event.What.{What};
ghost use Rattle.hist_model.specs.declared.event.What.TheVariants.{Skip};
ghost use Rattle.hist_model.specs.declared.script.Script.{Script};
ghost use Rattle.history_frames.specs.Ordinals.{tasks_made, place_of, task_name_of, group_of};
ghost use Rattle.tasks.specs.Keys.{TellStates};
ghost use Rattle.tasks.specs.Fold.{IsGroupOf, Looks};
ghost use Rattle.tasks.specs.Sound.{IsOther, IsSound, IsStep, IsStepOf};
ghost use Rattle.tasks.specs.Stands.{SameTasks, StandsFor, delivery, effect_of, ended_at, group_at, living_in, made, step_or};
ghost use Rattle.tasks.specs.State.{State, after};
ghost use Rattle.tasks.specs.declared.table.Tasks.{Tasks};

/// The state of a history follows its events: after a step it is what the step makes of the state before.
pub fn states_follow_events()
    ensures looks { (S : Script) (K : List Event) (e : Event) (s : State) → Looks S K s → IsSound K → IsStep S K e → Looks S (e ∷ K) (after S s e) }
    ensures sound { (S : Script) (K : List Event) (e : Event) (s : State) → Looks S K s → IsSound K → IsStep S K e → IsSound (e ∷ K) }
{}

/// After an event that is no step of a task and does nothing to one, enters no call and doesn't close the listener, the
/// tasks stand for the longer history as they are: each step of a worker is such an event.
pub fn others_change_nothing()
    ensures { (S : Script) (K : List Event) (e : Event) (T : Tasks) → StandsFor S K T → IsOther e → StandsFor S (e ∷ K) T }
{}

/// Tasks with other room stand for what they stood for, and count what they counted.
pub fn room_changes_nothing()
    ensures stands { (S : Script) (K : List Event) (old new : Tasks) → SameTasks old new → StandsFor S K old ↔ StandsFor S K new }
    ensures count { (old new : Tasks) (g : ℕ) → SameTasks old new → living_in new g ≡ living_in old g }
{}

/// A task that hasn't ended is counted in its group, and no group has more tasks than were made.
pub fn living_tasks_are_counted()
    ensures made { (S : Script) (K : List Event) (T : Tasks) → StandsFor S K T → made T ≡ tasks_made K }
    ensures ended { (S : Script) (K : List Event) (T : Tasks) (o : ℕ) → StandsFor S K T → o < tasks_made K → ended_at T o ≡ ended K (task_name_of K o) }
    ensures some { (T : Tasks) (o : ℕ) → ended_at T o ≡ false → 0 < living_in T (group_at T o) }
    ensures most { (T : Tasks) (g : ℕ) → living_in T g ≤ made T }
{}

/// A task's name leads to its place, and from there to its group, which it was given when it was made.
pub fn names_lead_to_places()
    ensures place { (S : Script) (K : List Event) (T : Tasks) (o : ℕ) → StandsFor S K T → o < tasks_made K → task_place K (task_name_of K o) ≡ place_of K o }
    ensures group { (S : Script) (K : List Event) (T : Tasks) (o g : ℕ) → StandsFor S K T → o < tasks_made K → IsGroupOf K (task_name_of K o) g → opened K (place_of K o) ≡ group_of K g }
{}

/// Each task that was made has an ordinal, and its name stays its own.
pub fn made_tasks_have_ordinals()
    ensures ordinal { (K : List Event) (n : Name) → is_made K n ≡ true → (o : ℕ) × (o < tasks_made K) × (task_name_of K o ≡ n) }
    ensures stays { (e : Event) (K : List Event) (o : ℕ) → o < tasks_made K → task_name_of (e ∷ K) o ≡ task_name_of K o }
    ensures more { (e : Event) (K : List Event) → tasks_made K ≤ tasks_made (e ∷ K) }
{}

/// A task that was made lives until it has ended, and steps until then.
pub fn tasks_live_until_they_end()
    ensures made { (K : List Event) (o : ℕ) → o < tasks_made K → is_made K (task_name_of K o) ≡ true }
    ensures alive { (K : List Event) (o : ℕ) → o < tasks_made K → alive K (task_name_of K o) ≡ not (ended K (task_name_of K o)) }
    ensures step { (S : System) (K : List Event) (o : ℕ) → o < tasks_made K → ended K (task_name_of K o) ≡ false → task_step S K (task_name_of K o) ≡ living_step S K (task_name_of K o) (call_of K (task_name_of K o)) }
    ensures none { (S : System) (K : List Event) (o : ℕ) → ended K (task_name_of K o) ≡ true → task_step S K (task_name_of K o) ≡ Skip }
    ensures stepped { (S : Script) (K : List Event) (e : Event) (o : ℕ) → IsStepOf S K e o → skips e.what ≡ false → ended K (task_name_of K o) ≡ false }
{}

/// A delivery comes before what else its task would do.
pub fn deliveries_come_first()
    ensures { (K : List Event) (n : Name) (in_call : Bool) (due : Option ℕ) (other : What) → step_or (delivery K n in_call due) other ≡ deliver_or due (λ s. effect_of in_call s (disposition K n s)) other }
{}

/// Keys of tables end by themselves: where equal bytes begin with two of them, the tables are the same state, and what comes after is
/// equal.
pub fn keys_tell_states()
    ensures { TellStates }
{}
