//! The answer of a source or a sink that failed.

ghost use Rattle.std.specs.Prelude.{◌≡◌, ◌≤◌};
ghost use Rattle.io_edge.specs.Faults.{Rose, next};

use thiserror::Error;

/// A file couldn't be opened or read, or a piece couldn't be written. The count of faults of the source
/// or the sink rose in the call that answers it.
#[derive(Clone, Copy, PartialEq, Eq, Debug, Error)]
#[error("failed")]
pub struct Failed;

impl Failed {
    /// The answer of a call that failed, with this count of faults raised.
    pub(crate) fn counted(faults: &mut u64) -> Failed
        ensures counted { faults.new ≡ next faults.old }
        ensures later { faults.old ≤ faults.new }
        ensures rose { Rose faults.old faults.new }
    {
        *faults = faults.saturating_add(1);
        Failed
    }
}
