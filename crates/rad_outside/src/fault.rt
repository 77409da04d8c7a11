//! The faults of the outside: want of memory, and a device that failed.

ghost use Rattle.std.specs.Prelude.{◌≡◌};

use std::alloc::{AllocError, AllocFailed};
use thiserror::Error;

/// Memory ran out.
#[derive(Clone, Copy, Debug, PartialEq, Eq, Error)]
#[error("NoMemory")]
pub struct NoMemory;

impl From<AllocError> for NoMemory {
    fn from(_e: AllocError) -> NoMemory {
        NoMemory
    }
}

impl<T: Drop> From<AllocFailed<T>> for NoMemory {
    fn from(_e: AllocFailed<T>) -> NoMemory {
        NoMemory
    }
}

/// A device failed, and its count of faults rose.
#[derive(Clone, Copy, Debug, PartialEq, Eq, Error)]
#[error("Failed")]
pub struct Failed;

/// Why a crew handed out no kit.
#[derive(Clone, Copy, Debug, PartialEq, Eq, Error)]
pub enum KitFault {
    /// A device of the kit could not be had, and the crew's count of faults rose.
    #[error("Failed")]
    Failed,
    #[error("NoMemory")]
    NoMemory,
}
