//! The clauses in words.

ghost use Rattle.std.specs.Prelude.{◌≡◌};
ghost use Rattle.broker_verdict.specs.Trusted.{class_of};
ghost use Rattle.broker_verdict.specs.Words.{class_name, clause_name, clause_text};

use crate::clause::{Class, Clause};

/// The name of a clause, as it is printed. Two clauses are named `no-call`, one of an effect and one of an answer.
pub fn clause_name(clause: Clause) -> &'static str
    ensures { result.now ≡ clause_name clause }
{
    match clause {
        Clause::EffectWithoutCall => "no-call",
        Clause::OtherRequest => "other-request",
        Clause::Unread => "unread",
        Clause::OtherMemory => "other-memory",
        Clause::StaleCopy => "stale-copy",
        Clause::Unchecked => "unchecked",
        Clause::Torn => "torn",
        Clause::OtherBase => "other-base",
        Clause::Ungranted => "ungranted",
        Clause::Spent => "spent",
        Clause::Again => "again",
        Clause::AfterAnswer => "after-answer",
        Clause::AnswerWithoutCall => "no-call",
        Clause::OtherAnswer => "other-answer",
        Clause::Uncaused => "uncaused",
        Clause::DeniedOtherwise => "denied-otherwise",
        Clause::PassedOtherwise => "passed-otherwise",
        Clause::GrantedNotDone => "granted-not-done",
        Clause::OtherOutcome => "other-outcome",
        Clause::AnsweredAlready => "answered-already",
        Clause::Unanswered => "unanswered",
    }
}

/// What it means that a clause is broken.
pub fn clause_text(clause: Clause) -> &'static str
    ensures { result.now ≡ clause_text clause }
{
    match clause {
        Clause::EffectWithoutCall => "the worker has no notification in hand",
        Clause::OtherRequest => "the numbers of the effect aren't those of the call",
        Clause::Unread => "a byte of its texts was never read for this call",
        Clause::OtherMemory => "the memory that was open isn't the caller's",
        Clause::StaleCopy => "a text was read when the call was no longer listed",
        Clause::Unchecked => "no good check follows what it rests on",
        Clause::Torn => "a text of it never stood so in the caller's memory",
        Clause::OtherBase => "its path goes from another directory than the caller's",
        Clause::Ungranted => "the policy doesn't grant just this for just these texts",
        Clause::Spent => "the rule's times were spent",
        Clause::Again => "there was an effect for this call already",
        Clause::AfterAnswer => "the call was answered already",
        Clause::AnswerWithoutCall => "the worker has no notification in hand",
        Clause::OtherAnswer => "its id isn't that of the call in hand",
        Clause::Uncaused => "it rests on no whole copy that was found valid",
        Clause::DeniedOtherwise => "the policy doesn't say this error",
        Clause::PassedOtherwise => "the policy doesn't pass this call",
        Clause::GrantedNotDone => "it reports a success that there wasn't",
        Clause::OtherOutcome => "the effect had another result",
        Clause::AnsweredAlready => "it is the second answer to this call",
        Clause::Unanswered => "the call waits, and nothing more is done for it",
    }
}

/// The class of a clause that an event breaks and no other of them.
pub fn class_of(clause: Clause) -> Class
    ensures { result ≡ class_of clause }
{
    match clause {
        Clause::Unchecked => Class::Order,
        Clause::AnswerWithoutCall
        | Clause::Uncaused
        | Clause::DeniedOtherwise
        | Clause::PassedOtherwise
        | Clause::GrantedNotDone
        | Clause::OtherOutcome
        | Clause::AnsweredAlready
        | Clause::Unanswered => Class::Answer,
        Clause::EffectWithoutCall
        | Clause::OtherRequest
        | Clause::Unread
        | Clause::OtherMemory
        | Clause::StaleCopy
        | Clause::Torn
        | Clause::OtherBase
        | Clause::Ungranted
        | Clause::Spent
        | Clause::Again
        | Clause::AfterAnswer
        | Clause::OtherAnswer => Class::Harm,
    }
}

/// The name of a class, as it is printed.
pub fn class_name(class: Class) -> &'static str
    ensures { result.now ≡ class_name class }
{
    match class {
        Class::Harm => "harm",
        Class::Answer => "answer",
        Class::Order => "order",
    }
}
