//! Why the requests weren't answered to their end.

use audit_log::error::ReportError;
use std::alloc::AllocError;
use sys_abi::memory;
use thiserror::Error;

/// Why the requests weren't answered to their end.
#[derive(Clone, Copy, PartialEq, Eq, Debug, Error)]
pub enum StepFault {
    /// The requests couldn't be opened or read.
    #[error("read fault")]
    ReadFault,
    /// The answers couldn't be written.
    #[error("write fault")]
    WriteFault,
    /// There was no memory. So it is called too where 2^64 - 1 reads didn't come to the end.
    #[error("no memory")]
    NoMemory,
}

impl From<ReportError> for StepFault {
    ghost use Rattle.std.specs.Prelude.{◌≡◌};
    ghost use Rattle.step_session.specs.Serving.{fault_of};

    ghost from_gives = { λ error fault. fault ≡ fault_of error };

    fn from(error: ReportError) -> StepFault {
        match error {
            ReportError::WriteFault => StepFault::WriteFault,
            ReportError::NoMemory => StepFault::NoMemory,
        }
    }
}

impl From<memory::NoMemory> for StepFault {
    ghost use Rattle.std.specs.Prelude.{◌≡◌};
    ghost use Rattle.step_session.specs.declared.fault.StepFault.TheVariants.{NoMemory};

    ghost from_gives = { λ _ fault. fault ≡ NoMemory };

    fn from(_error: memory::NoMemory) -> StepFault {
        StepFault::NoMemory
    }
}

impl From<AllocError> for StepFault {
    ghost use Rattle.std.specs.Prelude.{◌≡◌};
    ghost use Rattle.step_session.specs.declared.fault.StepFault.TheVariants.{NoMemory};

    ghost from_gives = { λ _ fault. fault ≡ NoMemory };

    fn from(_error: AllocError) -> StepFault {
        StepFault::NoMemory
    }
}
