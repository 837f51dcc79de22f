//! What an explanation rests on.

ghost use Rattle.policy_explain.specs.Laws.{DecidingMissesNothing, EachBeforeMisses, EachReasonHasItsCause, FitsWhereNothingIsMissed};

/// Nothing is missed of a rule exactly where it fits.
#[tactic(auto, using(crate::proofs::Misses::fits_where_nothing_is_missed))]
pub fn nothing_is_missed_where_a_rule_fits()
    ensures { FitsWhereNothingIsMissed }
{}

/// The rule that decides is the first of which nothing is missed.
#[tactic(auto, using(crate::proofs::Deciding::each_before_misses, crate::proofs::Deciding::deciding_misses_nothing))]
pub fn the_first_of_which_nothing_is_missed_decides()
    ensures before { EachBeforeMisses }
    ensures deciding { DecidingMissesNothing }
{}

/// Each rule by which LXD passes calls has its cause in words.
#[tactic(auto, using(crate::proofs::Causes::each_reason_has_its_cause))]
pub fn each_reason_has_its_cause()
    ensures { EachReasonHasItsCause }
{}
