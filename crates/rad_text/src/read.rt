//! Why a text could not be read.

ghost use Rattle.std.specs.Prelude.{◌≡◌};

use rad_outside::NoMemory;
use std::alloc::{AllocError, AllocFailed};

/// Why something could not be read: memory ran out, or this is the first thing that is wrong. What is wrong is the
/// reader's own, and says where by how much is left, or by the reader's place.
#[derive(Clone, Copy, Debug, PartialEq, Eq)]
pub enum ReadError<F> {
    NoMemory,
    Wrong(F),
}

impl<F> From<NoMemory> for ReadError<F> {
    ghost use Rattle.rad_text.specs.declared.read.ReadError.TheVariants as errors;

    ghost from_gives = { λ _ e. e ≡ errors.NoMemory };

    fn from(_e: NoMemory) -> ReadError<F> {
        ReadError::NoMemory
    }
}

impl<F> From<AllocError> for ReadError<F> {
    ghost use Rattle.rad_text.specs.declared.read.ReadError.TheVariants as errors;

    ghost from_gives = { λ _ e. e ≡ errors.NoMemory };

    fn from(_e: AllocError) -> ReadError<F> {
        ReadError::NoMemory
    }
}

impl<T: Drop, F> From<AllocFailed<T>> for ReadError<F> {
    ghost use Rattle.rad_text.specs.declared.read.ReadError.TheVariants as errors;

    ghost from_gives = { λ _ e. e ≡ errors.NoMemory };

    fn from(_e: AllocFailed<T>) -> ReadError<F> {
        ReadError::NoMemory
    }
}
