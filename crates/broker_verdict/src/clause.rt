//! What a broker may not do.

/// How grave it is that a clause is broken.
#[derive(Clone, Copy, PartialEq, Eq, Debug)]
pub enum Class {
    /// Something was done that the policy doesn't grant.
    Harm,
    /// The caller was told what isn't so, or nothing.
    Answer,
    /// Nothing wrong came of it in this history, but it can.
    Order,
}

/// A clause, in the order in which they are asked: of an effect, of an answer, and of a call.
#[derive(Clone, Copy, PartialEq, Eq, Debug)]
pub enum Clause {
    /// An effect where the seat has no notification in hand.
    EffectWithoutCall,
    /// The numbers of an effect aren't those of the call.
    OtherRequest,
    /// A byte of its texts was never read for this call.
    Unread,
    /// The memory that was open isn't the caller's.
    OtherMemory,
    /// A text was read when the call was no longer listed.
    StaleCopy,
    /// No good check follows what it rests on.
    Unchecked,
    /// A text of it never stood so in the caller's memory.
    Torn,
    /// Its path goes from another directory than the caller's.
    OtherBase,
    /// The policy doesn't grant just this for just these texts.
    Ungranted,
    /// The rule's times were spent.
    Spent,
    /// There was an effect for this call already.
    Again,
    /// The call was answered already.
    AfterAnswer,
    /// An answer where the seat has no notification in hand.
    AnswerWithoutCall,
    /// Its id isn't that of the call in hand.
    OtherAnswer,
    /// It rests on no whole copy that was found valid.
    Uncaused,
    /// The policy doesn't say this error.
    DeniedOtherwise,
    /// The policy doesn't pass this call.
    PassedOtherwise,
    /// It reports a success that there wasn't.
    GrantedNotDone,
    /// The effect had another result.
    OtherOutcome,
    /// It is the second answer to this call.
    AnsweredAlready,
    /// The call waits, and nothing more is done for it.
    Unanswered,
}
