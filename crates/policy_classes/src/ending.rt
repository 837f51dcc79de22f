//! What is told of policies, and how it ends.

use hist_model::text::Text;

/// How a look at all calls ends. Each ending has an exit status of its own.
#[derive(Clone, Copy, PartialEq, Eq, Debug)]
pub enum Ending {
    /// Nothing differs, nothing is found, or each claim holds: status 0.
    Alike,
    /// Something differs, something is found, or a claim is refuted: status 11.
    Otherwise,
    /// Some calls weren't looked at within the bound, and those that were show nothing: status 12.
    Undecided,
}

/// Lines about policies, and how they end.
#[derive(Debug, Drop)]
pub struct Told {
    /// The lines, each with its end.
    pub text: Text,
    pub ending: Ending,
}
