//! What is found.

use crate::judgement::Judgement;
use hist_model::request::Request;
use hist_model::text::Text;
use policy_reader::PolicyError;

/// What a hint is about, which has a call that is granted.
#[derive(Clone, Copy, PartialEq, Eq, Debug)]
pub enum Hint {
    /// A denial by path, where the call is granted under another spelling of it.
    GoneAround,
    /// A grant of a device that gives the machine away.
    WideDevice,
    /// A grant by numbers of a device of both kinds.
    BothKinds,
    /// A grant by LXD's keys that LXD doesn't give.
    NotAsLxd,
    /// A grant of a mount that reads an image.
    RiskyType,
}

/// What a key says less than it seems to.
#[derive(Clone, Copy, PartialEq, Eq, Debug)]
pub enum Note {
    /// It stands a second time in its object.
    RepeatedKey,
    /// It is almost one of LXD's, and says nothing.
    MisspeltKey,
}

/// What is likely a mistake.
#[derive(Debug, Drop)]
pub enum Fault {
    /// The policy is refused; and what would be right.
    Refused {
        error: PolicyError,
        cure: Text,
    },
    /// What is said of the rule at a place.
    Judged {
        place: usize,
        judgement: Judgement,
    },
    /// What is granted, at this place of the policy: the rule `by` decides the call.
    Granted {
        hint: Hint,
        place: Text,
        by: usize,
        call: Request,
    },
    /// The rule `by` passes a call, and the rule `against` denies another one that differs in its texts alone.
    Passed {
        place: Text,
        by: usize,
        call: Request,
        against: usize,
        other: Request,
    },
    /// It wasn't found whether another rule does so.
    Unsure {
        place: Text,
    },
    /// What is said of a key at this place; and what would be right.
    Noted {
        note: Note,
        place: Text,
        cure: Text,
    },
    /// A key, or an item of its list, makes no rule: none has a name that begins so.
    NoEffect {
        place: Text,
        front: Text,
    },
}

/// What is found, and where.
#[derive(Debug, Drop)]
pub struct Finding {
    /// How many bytes stand before its place.
    pub at: usize,
    /// The place's line and its column in that line, from 1. A column is a character.
    pub line: usize,
    pub column: usize,
    pub fault: Fault,
}
