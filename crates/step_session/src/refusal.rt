//! Why a request isn't done.

/// Why a request isn't done, so that nothing happens.
#[derive(Clone, Copy)]
pub(crate) enum Refusal {
    /// No task of this name was made.
    NoTask,
    /// What a worker asks for can't be done by what it has open, or has put.
    Asked(asked_steps::Refusal),
    /// The listener is closed.
    Closed,
    /// The script of the history would have more steps or bytes than a script may have.
    Full,
}
