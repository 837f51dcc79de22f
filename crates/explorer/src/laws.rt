//! What the outcomes of histories are, whichever these are, and which runs go on alike.

ghost use Rattle.std.specs.Prelude.{ℕ};
ghost use Rattle.hist_model.specs.declared.policy.Policy.{Policy};
ghost use Rattle.hist_model.specs.declared.script.Script.{Script};
ghost use Rattle.explorer.specs.Keys.{KeysJoin};
ghost use Rattle.explorer.specs.Laws.{CountsAll, FindsEach};

/// An outcome's count is the number of the histories that have it, and its schedule is that of the first of them; no history is left
/// out, and none is counted twice.
pub fn outcomes_are_counted()
    ensures each { FindsEach }
    ensures all { CountsAll }
{}

/// Two runs of one script that have as many events and the same key go on alike, and come to the same lines.
pub fn equal_keys_go_on_alike()
    ensures { (P : Policy) (S : Script) (W : ℕ) → KeysJoin P S W }
{}
