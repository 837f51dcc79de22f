//! Effects that a later one may take from sight.

use hist_model::request::NodeRef;

/// A mount that a worker made, or an attribute that it set.
#[derive(Clone, Copy, PartialEq, Eq, Debug)]
pub struct Mark {
    /// The place of its event.
    pub place: usize,
    /// The root that was mounted, or the node whose attribute was set.
    pub node: NodeRef,
}
