//! Claims, as plain data.

use hist_model::policy::Rule;
use hist_model::text::Sequence;

/// What a claim says of the calls that fit it.
#[derive(Clone, Copy, Debug)]
pub enum Sense {
    /// Each is answered as the claim has it.
    Expect,
    /// None is.
    Never,
}

/// Claims about all calls. Each is a rule, and its answer is what is claimed; of a grant nothing but that it is one.
#[derive(Debug, Drop)]
pub struct Claims {
    /// Each call that fits is answered so.
    pub expect: Sequence<Rule>,
    /// No call that fits is.
    pub never: Sequence<Rule>,
}
