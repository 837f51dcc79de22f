//! What laned histories are, on small ones, and by pairs of sessions.

ghost use Rattle.std.specs.Prelude.{◌↔◌, List};
ghost use Rattle.hist_model.specs.Legal.{Legal, NoSkip};
ghost use Rattle.hist_model.specs.declared.event.Event.{Event};
ghost use Rattle.hist_model.specs.declared.policy.Policy.{Policy};
ghost use Rattle.hist_model.specs.declared.script.Script.{Script};
ghost use Rattle.lane_seats.specs.Lanes.{Laned};
ghost use Rattle.lane_seats.specs.Pairs.{LanedByPairs};
ghost use Rattle.lane_seats.specs.Examples.{FirstSeat, InOrder, OtherSeat, Overlap, SideBySide};

/// Sessions of one lane are served in the order of their receives, and those of two lanes side by side. Two of one lane that overlap,
/// and a receive at a seat that isn't the lowest free one, are refused.
#[tactic(auto, using(crate::proofs::Worked::in_order, crate::proofs::Worked::side_by_side, crate::proofs::Worked::refused))]
pub fn small_histories()
    ensures in_order { InOrder }
    ensures side_by_side { SideBySide }
    ensures overlap { Overlap }
    ensures other_seat { OtherSeat }
    ensures first_seat { FirstSeat }
{}

/// A legal history without a skip is laned, turn by turn, exactly where it is so by pairs of sessions and by receives: of two sessions of
/// one lane, the one that was received first has let go before each step of the other but its receive, and each receive is by the least
/// worker number, of 0 to 15, whose earlier sessions have let go.
#[tactic(auto, using(crate::proofs::Pairs::laned_by_pairs))]
pub fn laned_by_pairs()
    ensures { (P : Policy) (S : Script) (K : List Event) → Legal P S K → NoSkip K → Laned K ↔ LanedByPairs K }
{}
