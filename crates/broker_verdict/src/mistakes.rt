//! For each clause a small history of the kernel that breaks it. The event is the first that breaks a clause, and the clause is
//! the first that it breaks: so none that stands above it is broken there, and none at all before.

ghost use Rattle.broker_verdict.specs.Mistakes.{Breaks, one_node, near_node, shut_node, two_figures, two_near, two_nodes, ran_on, reused, rewritten};
ghost use Rattle.broker_verdict.specs.declared.clause.Clause.TheVariants.{EffectWithoutCall, OtherRequest, Unread, OtherMemory, StaleCopy, Unchecked, Torn, OtherBase, Ungranted, Spent, Again, AfterAnswer};
ghost use Rattle.broker_verdict.specs.declared.clause.Clause.TheVariants.{AnswerWithoutCall, OtherAnswer, Uncaused, DeniedOtherwise, PassedOtherwise, GrantedNotDone, OtherOutcome, AnsweredAlready, Unanswered};
ghost use Rattle.broker_verdict.specs.Mistakes.{acts_unasked, makes_other, reads_nothing, reads_another, reads_late, checks_before, tears, opens_no_base, opens_base_late, opens_memory_late, keeps_base, makes_denied};
ghost use Rattle.broker_verdict.specs.Mistakes.{tells_too_often, makes_again, acts_late, answers_unasked, answers_another, passes_unread, denies_with_another, passes_denied};
ghost use Rattle.broker_verdict.specs.Mistakes.{tells_undone, tells_of_old, hides_success, answers_twice, lets_go};

/// Mistakes of an effect.
#[tactic(auto, using(crate::proofs::Mistaken::effects))]
pub fn effects_break()
    ensures acts_unasked { Breaks one_node acts_unasked 3 EffectWithoutCall }
    ensures makes_other { Breaks one_node makes_other 7 OtherRequest }
    ensures reads_nothing { Breaks one_node reads_nothing 5 Unread }
    ensures reads_another { Breaks reused reads_another 12 OtherMemory }
    ensures reads_late { Breaks reused reads_late 10 StaleCopy }
    ensures checks_before { Breaks one_node checks_before 7 Unchecked }
    ensures tears { Breaks rewritten tears 10 Torn }
    ensures opens_no_base { Breaks near_node opens_no_base 7 OtherBase }
    ensures makes_denied { Breaks shut_node makes_denied 7 Ungranted }
    ensures tells_too_often { Breaks two_figures tells_too_often 13 Spent }
    ensures makes_again { Breaks one_node makes_again 8 Again }
    ensures acts_late { Breaks two_nodes acts_late 17 AfterAnswer }
{}

/// Mistakes of an answer.
#[tactic(auto, using(crate::proofs::Mistaken::answers))]
pub fn answers_break()
    ensures answers_unasked { Breaks one_node answers_unasked 3 AnswerWithoutCall }
    ensures answers_another { Breaks one_node answers_another 8 OtherAnswer }
    ensures passes_unread { Breaks one_node passes_unread 4 Uncaused }
    ensures denies_with_another { Breaks shut_node denies_with_another 7 DeniedOtherwise }
    ensures passes_denied { Breaks shut_node passes_denied 7 PassedOtherwise }
    ensures tells_undone { Breaks one_node tells_undone 7 GrantedNotDone }
    ensures hides_success { Breaks one_node hides_success 8 OtherOutcome }
    ensures answers_twice { Breaks shut_node answers_twice 8 AnsweredAlready }
{}

/// A seat lets go of a call that waits.
#[tactic(auto, using(crate::proofs::Mistaken::unanswered))]
pub fn letting_go_breaks()
    ensures { Breaks one_node lets_go 4 Unanswered }
{}

/// What a call's effect rests on was opened too late, or for the call before; and a result is told that its task has undone since.
#[tactic(auto, using(crate::proofs::Mistaken::kept_too_long))]
pub fn keeping_breaks()
    ensures opens_base_late { Breaks near_node opens_base_late 8 Unchecked }
    ensures opens_memory_late { Breaks two_figures opens_memory_late 5 Unchecked }
    ensures keeps_base { Breaks two_near keeps_base 15 OtherBase }
    ensures tells_of_old { Breaks ran_on tells_of_old 17 GrantedNotDone }
{}
