//! Laws of copies.

ghost use Rattle.std.specs.Prelude.{ℕ, List, Option, Result};
ghost use Rattle.hist_model.specs.Copies.{copy_of, progress};
ghost use Rattle.hist_model.specs.declared.copy.Part.{Part};
ghost use Rattle.arg_capture.specs.Moments.{ArePlaced, AreRead, IsCopy};

/// A copy that is read in pieces, of memory that doesn't change meanwhile, is the copy at that moment.
#[tactic(auto, using(crate::proofs::Moments::is_read_copy))]
pub fn reads_make_the_copy()
    ensures { (byte : ℕ → Option ℕ) (answers : List (Result (List ℕ) ℕ)) (parts : List Part) → ArePlaced parts → AreRead byte parts answers → IsCopy (progress parts answers) (copy_of byte parts) }
{}
