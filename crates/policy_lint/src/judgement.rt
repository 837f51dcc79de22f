//! What is said of a rule.

use hist_model::text::Sequence;

/// What is said of a rule, for all calls.
#[derive(Debug, Drop)]
pub enum Judgement {
    /// Without it a call would have another answer.
    Useful,
    /// No call meets its conditions.
    Never,
    /// It decides no call. The rules at these places decide those that it fits.
    Shadowed(Sequence<usize>),
    /// Each call that it decides would have the same answer without it: of the rules behind it, those at these places would
    /// decide it, counted from the one just behind.
    Needless(Sequence<usize>),
    /// It wasn't found which of these it is.
    Undecided,
}
