//! Classes of calls.

use hist_model::request::Request;
use hist_model::text::Sequence;

/// The calls for which one rule of the old policy and one of the new policy decide, with one of them.
#[derive(Debug, Drop)]
pub struct Class {
    /// The place of the deciding rule in the old policy, from 0; the number of rules where none decides.
    pub old_place: usize,
    /// That in the new policy.
    pub new_place: usize,
    /// A call of the class.
    pub witness: Request,
}

/// Classes, of which no two are of the same two rules.
#[derive(Debug, Drop)]
pub struct Classes {
    pub classes: Sequence<Class>,
    /// Whether these are all.
    pub whole: bool,
}
