//! Acts that rest on too little, and histories of scripts of their own, which a wrong kernel or a wrong broker would make.
//!
//! An act rests on its session's call and notification, on a whole copy without a fault, on two good checks, on a call that waited
//! up to the second one, and on the memory and the base of the call's task. For each of these a small history has an act that
//! lacks it, and is refused even if no more than this part is asked of acts.

ghost use Rattle.mediation.specs.Unmediated.{Breaks, rules, container, effect_before_check};
ghost use Rattle.mediation.specs.UnmediatedActs.{AtActs, OfCall, HasCall, IsFetcher, HasNotification, HasWhole, HasNoFault, IsChecked, IsFirst};
ghost use Rattle.mediation.specs.UnmediatedActs.{act_without_call, act_for_another, act_by_other_notification, act_unread, act_on_fault, act_after_interrupt, act_by_reused_number, act_again, plant_again, put_again, act_unnamed, plant_unnamed, put_unnamed};
ghost use Rattle.mediation.specs.UnmediatedScripts.{BreaksOf, from_directories, with_directory, OwnBaseIsPlayed, own_base, HasBase, other_base, reused_base, unopened_base, interrupting, interrupted, InterruptedIsPlayed, LastAnswer, without};
ghost use Rattle.hist_model.specs.Mediated.{Mediated, Each, PlantIsGranted, PutIsInjected, AuditNames, LetsGoAtEnd, HasMemory, WaitedUntilChecked};
ghost use Rattle.hist_model.specs.WorkedExample.{mknod_policy};

/// Acts without a call, for a call of another worker, by a notification that isn't the call's, without a whole copy, on a copy
/// that couldn't be read, without the second check, for a call that a signal interrupted before that check, and on what another task
/// stored that got its caller's PID are refused.
#[tactic(auto, using(crate::proofs::UnmediatedActs::unfounded_acts))]
pub fn unfounded_acts_are_refused()
    ensures without_call { Breaks (AtActs HasCall) act_without_call }
    ensures for_another { Breaks (AtActs (OfCall IsFetcher)) act_for_another }
    ensures by_other_notification { Breaks (AtActs (OfCall HasNotification)) act_by_other_notification }
    ensures unread { Breaks (AtActs HasWhole) act_unread }
    ensures on_fault { Breaks (AtActs HasNoFault) act_on_fault }
    ensures unchecked { Breaks (AtActs IsChecked) effect_before_check }
    ensures after_interrupt { Breaks (AtActs (OfCall WaitedUntilChecked)) act_after_interrupt }
    ensures by_reused_number { Breaks (AtActs (OfCall HasMemory)) act_by_reused_number }
{}

/// A second act, a second writing of an answer and a second request for a descriptor in one session are refused.
#[tactic(auto, using(crate::proofs::UnmediatedActs::second_uses))]
pub fn second_uses_are_refused()
    ensures act { Breaks (AtActs IsFirst) act_again }
    ensures plant { Breaks (Each (PlantIsGranted rules container)) plant_again }
    ensures put { Breaks (Each (PutIsInjected rules container)) put_again }
{}

/// An act, what is written as an answer and a request for a descriptor are refused where the audit names no rule, since the worker
/// then asks once more in place of an answer, and its call has left.
#[tactic(auto, using(crate::proofs::UnmediatedActs::unnamed_uses))]
pub fn unnamed_uses_are_refused()
    ensures act { Breaks (AuditNames rules) act_unnamed }
    ensures plant { Breaks (AuditNames rules) plant_unnamed }
    ensures put { Breaks (AuditNames rules) put_unnamed }
{}

/// The history of a script that makes a node from an open directory is what the script's schedule plays, and it is mediated.
/// Where the worker opens the container's root for that directory, it is refused, and so is one in which another directory has
/// the same number in the table of another task, which got the caller's PID, or one in which the worker opens no base and answers
/// that there is none.
#[tactic(auto, using(crate::proofs::UnmediatedScripts::own_base_is_played, crate::proofs::UnmediatedScripts::own_base_is_mediated, crate::proofs::UnmediatedScripts::other_bases))]
pub fn other_bases_are_refused()
    ensures is_played { OwnBaseIsPlayed }
    ensures is_mediated { Mediated from_directories with_directory own_base }
    ensures root { BreaksOf from_directories with_directory (AtActs HasBase) other_base }
    ensures by_reused_number { BreaksOf from_directories with_directory (AtActs HasBase) reused_base }
    ensures unopened { BreaksOf from_directories with_directory (AtActs HasBase) unopened_base }
{}

/// What a script plays whose call is interrupted before the second check is mediated. The last answer that the worker gets is that
/// of this check, which finds nothing, and then it lets go. Without this answer the history is refused.
#[tactic(auto, using(crate::proofs::UnmediatedScripts::interrupted_is_played, crate::proofs::UnmediatedScripts::interrupted_is_mediated, crate::proofs::UnmediatedScripts::last_answer, crate::proofs::UnmediatedScripts::unanswered_is_refused))]
pub fn unanswered_ends_are_refused()
    ensures is_played { InterruptedIsPlayed }
    ensures is_mediated { Mediated mknod_policy interrupting interrupted }
    ensures last_answer { LastAnswer }
    ensures refused { BreaksOf mknod_policy interrupting (Each LetsGoAtEnd) (without 13 interrupted) }
{}
