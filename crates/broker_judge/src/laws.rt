//! What is so of the reads of a seat, whatever its broker asked for.

ghost use Rattle.std.specs.Prelude.{◌≡◌, ℕ, List, All, reverse};
ghost use Rattle.hist_model.specs.declared.event.Event.{Event};
ghost use Rattle.hist_model.specs.declared.script.Script.{Script};
ghost use Rattle.hist_model.specs.Legal.{OfKernel};
ghost use Rattle.broker_verdict.specs.Seats.{SeatRead, reads};
ghost use Rattle.broker_judge.specs.Copied.{IsAnswered};

/// Each read of a seat is answered as copies are made of: with some bytes, where it asked for any, and with no more than it asked
/// for, or with EFAULT. The seat's reads are given with the oldest first.
#[tactic(auto, using(crate::proofs::Answered::seat_answered))]
pub fn reads_are_answered()
    ensures { (S : Script) (K : List Event) (w : ℕ) (seat : List SeatRead) → OfKernel S K → reads K w ≡ reverse seat
        → All IsAnswered seat }
{}
