//! Why a part of a report wasn't written.

use io_edge::fault::Failed;
use sys_abi::memory;
use thiserror::Error;

/// Why a part of a report wasn't written.
#[derive(Clone, Copy, PartialEq, Eq, Debug, Error)]
pub enum ReportError {
    /// The sink failed.
    #[error("write fault")]
    WriteFault,
    /// There was no memory for a line.
    #[error("no memory")]
    NoMemory,
}

impl From<Failed> for ReportError {
    ghost use Rattle.std.specs.Prelude.{◌≡◌};
    ghost use Rattle.audit_log.specs.declared.error.ReportError.TheVariants.{WriteFault};

    ghost from_gives = { λ _ e. e ≡ WriteFault };

    fn from(_error: Failed) -> ReportError {
        ReportError::WriteFault
    }
}

impl From<memory::NoMemory> for ReportError {
    ghost use Rattle.std.specs.Prelude.{◌≡◌};
    ghost use Rattle.audit_log.specs.declared.error.ReportError.TheVariants.{NoMemory};

    ghost from_gives = { λ _ e. e ≡ NoMemory };

    fn from(_error: memory::NoMemory) -> ReportError {
        ReportError::NoMemory
    }
}
