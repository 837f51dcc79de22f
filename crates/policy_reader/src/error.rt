//! Why a policy is refused.

use hist_model::text::Text;
use thiserror::Error;

/// The first fault of a policy. A path has the keys and places that lead to it from the top, as `rules[3].then.deny`; places
/// count from 0. A key that isn't known stands in it between quotes, as does a key of `config`; the whole policy is `(top)`.
#[derive(Debug, Drop, PartialEq, Eq, Error)]
pub enum PolicyError {
    /// The bytes are no JSON value. Bytes that aren't UTF-8 are none.
    #[error("not JSON")]
    NotJson,
    /// A key that isn't known.
    #[error("unknown key")]
    BadKey { path: Text },
    /// A value of a wrong kind or out of its range, a key that is missing, or one that doesn't go with the others.
    #[error("bad value")]
    BadValue { path: Text },
    /// More than 1,024 rules.
    #[error("too many rules")]
    TooMany,
}
