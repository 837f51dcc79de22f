//! Want of memory, as every call that allocates answers it.

use std::alloc::{AllocError, AllocFailed};
use std::fmt::Display;
use thiserror::Error;

/// There was no memory for what was asked. What the call works on is as it was before.
#[derive(Clone, Copy, PartialEq, Eq, Debug, Error)]
#[error("no memory")]
pub struct NoMemory;

impl From<AllocError> for NoMemory {
    fn from(_error: AllocError) -> NoMemory {
        NoMemory
    }
}

impl<T: Drop> From<AllocFailed<T>> for NoMemory {
    fn from(_error: AllocFailed<T>) -> NoMemory {
        NoMemory
    }
}

/// Why a call that both tests what it is given and allocates did nothing.
///
/// `?` makes `NoMemory` of each want of memory. A refusal is passed on by `map_err(OrNoMemory::Refused)?`.
#[derive(PartialEq, Eq, Debug, Drop, Error)]
#[error_bound(E: Display)]
pub enum OrNoMemory<E> {
    /// The call was refused for this cause.
    #[error("{0}")]
    Refused(E),
    /// There was no memory.
    #[error("no memory")]
    NoMemory,
}

impl<E> From<NoMemory> for OrNoMemory<E> {
    ghost use Rattle.std.specs.Prelude.{◌≡◌};
    ghost use Rattle.sys_abi.specs.declared.memory.OrNoMemory.TheVariants.{NoMemory};

    ghost from_gives = { λ _ e. e ≡ NoMemory };

    fn from(_error: NoMemory) -> OrNoMemory<E> {
        OrNoMemory::NoMemory
    }
}

impl<E> From<AllocError> for OrNoMemory<E> {
    ghost use Rattle.std.specs.Prelude.{◌≡◌};
    ghost use Rattle.sys_abi.specs.declared.memory.OrNoMemory.TheVariants.{NoMemory};

    ghost from_gives = { λ _ e. e ≡ NoMemory };

    fn from(_error: AllocError) -> OrNoMemory<E> {
        OrNoMemory::NoMemory
    }
}

impl<E, T: Drop> From<AllocFailed<T>> for OrNoMemory<E> {
    ghost use Rattle.std.specs.Prelude.{◌≡◌};
    ghost use Rattle.sys_abi.specs.declared.memory.OrNoMemory.TheVariants.{NoMemory};

    ghost from_gives = { λ _ e. e ≡ NoMemory };

    fn from(_error: AllocFailed<T>) -> OrNoMemory<E> {
        OrNoMemory::NoMemory
    }
}
