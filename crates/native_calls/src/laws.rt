//! What a native call leaves alone.

ghost use Rattle.std.specs.Prelude.{◌≡◌, ℕ, List, ◌∷◌, Result};
ghost use Rattle.hist_model.specs.Files.{files};
ghost use Rattle.hist_model.specs.declared.event.Event.{Event};
ghost use Rattle.hist_model.specs.declared.event.What.TheVariants.{Native};
ghost use Rattle.hist_model.specs.declared.script.Script.{Script};

/// A native call changes no base that a worker has opened.
#[tactic(auto, using(crate::proofs::Stand::native_bases))]
pub fn natives_keep_bases()
    ensures { (S : Script) (K : List Event) (e : Event) (answer : Result ℕ ℕ) (w : ℕ) → e.what ≡ Native answer → (files S (e ∷ K)).base w ≡ (files S K).base w }
{}
