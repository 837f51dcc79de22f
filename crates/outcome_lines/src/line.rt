//! What a call came to so far.

use hist_model::event::Entered;
use hist_model::report::{Finding, Outcome};
use hist_model::request::NodeRef;
use hist_model::text::{TaskName, Text};

/// What a later effect has to do to take one from sight.
#[derive(Debug, Drop)]
pub enum Sight {
    /// To mount on this root, which was mounted.
    OnRoot(NodeRef),
    /// To set this attribute of the node to another value.
    OnAttr {
        node: NodeRef,
        name: Text,
        value: Text,
    },
}

/// What came of the session that received a call.
#[derive(Debug, Drop)]
pub struct Told {
    /// The worker that has it in hand; none where it is over.
    pub worker: Option<u8>,
    pub finding: Finding,
    /// An answer was taken.
    pub sent: bool,
    /// A step found no listed call.
    pub lost: bool,
    /// What the session did, in the words of an outcome, where that is seen at the end.
    pub did: Text,
    /// The same words, where it isn't.
    pub did_unseen: Text,
    /// What would take it from sight.
    pub sight: Option<Sight>,
}

/// A call of a task.
#[derive(Debug, Drop)]
pub struct Line {
    pub name: TaskName,
    /// How many calls its task has entered, with this one.
    pub number: u64,
    /// The number of the call.
    pub nr: i32,
    /// What the filters say of it; in a notification the id is 0.
    pub verdict: Entered,
    pub came: Outcome,
    /// A descriptor was installed for it.
    pub installed: bool,
    pub session: Option<Told>,
}
