//! Small histories that a wrong kernel or a wrong broker would make.
//!
//! The first are legal but for their last event. One that is legal stands beside them: a call may end between the last check
//! and the effect, whose answer is then lost. The others are not mediated. Each names the clause of the mediation law that it
//! breaks, and differs in a step or a few from the history that its script's schedule plays, which is mediated.

ghost use Rattle.mediation.specs.Refused.{EarlyEffect, LateOpening, SecondReading, SecondAnswer, ValidByNumber, LateInstallation, WithoutSend, NewestFirst, EffectAfterEnd};
ghost use Rattle.hist_model.specs.Laws.{AnsweredOnce};
ghost use Rattle.hist_model.specs.Legal.{rules_of};
ghost use Rattle.hist_model.specs.Settlers.{InstallsOwn, ResumesOwn, ReturnsInstalled};
ghost use Rattle.hist_model.specs.Mediated.{Mediated, Each, TakenByItsActor, OneSession, NamesOwn, NeverBusy, ErrorsKnown, InstallsThere, Arrives};
ghost use Rattle.hist_model.specs.Mediated.{ActIsGranted, PlantIsGranted, PutIsInjected, TimesKept, SpentExactly, KeepsOrder, HasCause, AuditNames};
ghost use Rattle.hist_model.specs.Mediated.{LostIfGone, LetsGoAtEnd, ReceivesIdle, ReceivesFor, EntersAsFiltered, DeliversSent, RunsNatively};
ghost use Rattle.mediation.specs.Unmediated.{rules, container, history, granted, GrantedIsPlayed, Breaks};
ghost use Rattle.mediation.specs.Unmediated.{of_another, second_send, second_receive, answer_to_another, other_return, other_number, busy_answer};
ghost use Rattle.mediation.specs.Unmediated.{other_error, installation_after_end, other_slot, lost_reply, effect_before_check, other_effect, other_figures};
ghost use Rattle.mediation.specs.Unmediated.{put_without_send, unopened_read, effect_too_many, spent_too_soon, late_read, second_read, late_memory};
ghost use Rattle.mediation.specs.Unmediated.{unread_pass, other_denial, other_failure, long_read, lost_too_soon, given_up, left_open, empty_receive};
ghost use Rattle.mediation.specs.Unmediated.{privileged_pass, other_address, other_length, ReadsPlanned};
ghost use Rattle.mediation.specs.Unmediated.{unfiltered, unsent_signal, second_delivery, other_disposition};

/// Each of them is refused. The effect after its caller's end is legal, and refused where the end is left out.
#[tactic(auto, using(crate::proofs::Played::refusals))]
pub fn wrong_histories_are_refused()
    ensures early_effect { EarlyEffect }
    ensures late_opening { LateOpening }
    ensures second_reading { SecondReading }
    ensures second_answer { SecondAnswer }
    ensures valid_by_number { ValidByNumber }
    ensures late_installation { LateInstallation }
    ensures without_send { WithoutSend }
    ensures newest_first { NewestFirst }
    ensures effect_after_end { EffectAfterEnd }
{}

/// The history from which the others differ is what the script's schedule plays, and it is mediated.
#[tactic(auto, using(crate::proofs::Unmediated::granted_is_played, crate::proofs::Unmediated::granted_is_mediated))]
pub fn the_granted_history_is_mediated()
    ensures is_played { GrantedIsPlayed }
    ensures is_mediated { Mediated rules container (history granted) }
{}

/// A step of another's kind, a second accepted answer, and a second receive of one call are refused.
#[tactic(auto, using(crate::proofs::Unmediated::twice_answered))]
pub fn second_answers_are_refused()
    ensures of_another { Breaks (Each TakenByItsActor) of_another }
    ensures second_send { Breaks AnsweredOnce second_send }
    ensures second_receive { Breaks OneSession second_receive }
{}

/// Answers and descriptors that reach another call, are other than what was sent or installed, come too late or don't arrive
/// are refused, and so are errors that no worker is answered.
#[tactic(auto, using(crate::proofs::Unmediated::strays))]
pub fn stray_replies_are_refused()
    ensures answer_to_another { Breaks (Each NamesOwn) answer_to_another }
    ensures other_return { Breaks (Each ResumesOwn) other_return }
    ensures other_number { Breaks (Each ReturnsInstalled) other_number }
    ensures busy_answer { Breaks (Each NeverBusy) busy_answer }
    ensures other_error { Breaks (Each ErrorsKnown) other_error }
    ensures installation_after_end { Breaks (Each InstallsOwn) installation_after_end }
    ensures other_slot { Breaks (Each (InstallsThere container)) other_slot }
    ensures lost_reply { Breaks (Each Arrives) lost_reply }
{}

/// Effects before the second check, other ones than the policy grants, more of them than it grants, and reads of memory that
/// was not opened, of another address than the argument's, and of other pieces are refused.
#[tactic(auto, using(crate::proofs::Unmediated::ungranted))]
pub fn ungranted_effects_are_refused()
    ensures effect_before_check { Breaks (Each (ActIsGranted rules container)) effect_before_check }
    ensures other_effect { Breaks (Each (ActIsGranted rules container)) other_effect }
    ensures other_figures { Breaks (Each (PlantIsGranted rules container)) other_figures }
    ensures put_without_send { Breaks (Each (PutIsInjected rules container)) put_without_send }
    ensures unopened_read { Breaks (Each ReadsPlanned) unopened_read }
    ensures other_address { Breaks (Each ReadsPlanned) other_address }
    ensures other_length { Breaks (Each ReadsPlanned) other_length }
    ensures effect_too_many { Breaks (TimesKept rules) effect_too_many }
    ensures spent_too_soon { Breaks (Each SpentExactly) spent_too_soon }
{}

/// Reading after both checks, reading again and opening after them are refused, though the same worker goes on with another
/// session.
#[tactic(auto, using(crate::proofs::Unmediated::disordered))]
pub fn disordered_sessions_are_refused()
    ensures late_read { Breaks (Each KeepsOrder) late_read }
    ensures second_read { Breaks (Each KeepsOrder) second_read }
    ensures late_memory { Breaks (Each KeepsOrder) late_memory }
{}

/// Answers without a whole copy, by another rule than the one that decides, and with an error that is not the request's are
/// refused, and so is a session whose audit doesn't name its rule.
#[tactic(auto, using(crate::proofs::Unmediated::uncaused))]
pub fn uncaused_answers_are_refused()
    ensures unread_pass { Breaks (Each (HasCause (rules_of rules container.figures))) unread_pass }
    ensures other_denial { Breaks (Each (HasCause (rules_of rules container.figures))) other_denial }
    ensures other_failure { Breaks (Each (HasCause (rules_of rules container.figures))) other_failure }
    ensures long_read { Breaks (AuditNames rules) long_read }
{}

/// A call that is lost while it is listed, a session that ends or is left without a reason, and a receive that finds nothing
/// where nothing left are refused.
#[tactic(auto, using(crate::proofs::Unmediated::unfounded))]
pub fn unfounded_ends_are_refused()
    ensures lost_too_soon { Breaks (Each LostIfGone) lost_too_soon }
    ensures given_up { Breaks (Each LetsGoAtEnd) given_up }
    ensures left_open { Breaks (Each ReceivesIdle) left_open }
    ensures empty_receive { Breaks (Each ReceivesFor) empty_receive }
{}

/// A call that is let through though a filter notifies of it is refused, and so are signals that nobody sent, that were
/// delivered before, and that do what their disposition doesn't say.
#[tactic(auto, using(crate::proofs::Unmediated::gone_past))]
pub fn steps_past_the_broker_are_refused()
    ensures unfiltered { Breaks (Each (EntersAsFiltered container)) unfiltered }
    ensures unsent_signal { Breaks (Each (DeliversSent container)) unsent_signal }
    ensures second_delivery { Breaks (Each (DeliversSent container)) second_delivery }
    ensures other_disposition { Breaks (Each (DeliversSent container)) other_disposition }
{}

/// A passed call that makes a device is refused.
#[tactic(auto, using(crate::proofs::Unmediated::privileged))]
pub fn privileged_passes_are_refused()
    ensures { Breaks (Each (RunsNatively container)) privileged_pass }
{}
