//! Why a users file could not be read.

use rad_outside::NoMemory;
use rad_pairs::Spot;
use std::alloc::{AllocError, AllocFailed};
use thiserror::Error;

/// The first fault of a users file, in reading order. Lines and columns are counted from 1, a column in octets.
#[derive(Clone, Copy, Debug, PartialEq, Eq, Error)]
pub enum UsersFault {
    /// An item's name is no attribute's, at the name.
    #[error("UnknownAttr")]
    UnknownAttr(Spot),
    /// No operator follows an item's name that an item may have there, at the name's end.
    #[error("BadOperator")]
    BadOperator(Spot),
    /// An item's value is missing, can't be read, has an open quote or something behind it, at the value.
    #[error("BadValue")]
    BadValue(Spot),
    /// A pattern is no UTF-8, or `regex` refuses it, at the value.
    #[error("BadPattern")]
    BadPattern(Spot),
    /// An indented line stands before any entry, or the quote of an entry's name isn't closed, at the line's first
    /// column.
    #[error("BadEntry")]
    BadEntry(Spot),
    #[error("NoMemory")]
    NoMemory,
}

impl From<NoMemory> for UsersFault {
    ghost use Rattle.std.specs.Prelude.{◌≡◌};
    ghost use Rattle.mod_users.specs.declared.fault.UsersFault.TheVariants as fault;

    ghost from_gives = { λ _ e. e ≡ fault.NoMemory };

    fn from(_e: NoMemory) -> UsersFault {
        UsersFault::NoMemory
    }
}

impl From<AllocError> for UsersFault {
    ghost use Rattle.std.specs.Prelude.{◌≡◌};
    ghost use Rattle.mod_users.specs.declared.fault.UsersFault.TheVariants as fault;

    ghost from_gives = { λ _ e. e ≡ fault.NoMemory };

    fn from(_e: AllocError) -> UsersFault {
        UsersFault::NoMemory
    }
}

impl<T: Drop> From<AllocFailed<T>> for UsersFault {
    ghost use Rattle.std.specs.Prelude.{◌≡◌};
    ghost use Rattle.mod_users.specs.declared.fault.UsersFault.TheVariants as fault;

    ghost from_gives = { λ _ e. e ≡ fault.NoMemory };

    fn from(_e: AllocFailed<T>) -> UsersFault {
        UsersFault::NoMemory
    }
}

/// What is wrong with an item, by how many octets of its line are left from the place on.
#[derive(Clone, Copy, Debug, PartialEq, Eq)]
pub enum Wrong {
    UnknownAttr(usize),
    BadOperator(usize),
    BadValue(usize),
}

/// What is wrong with a line, beside its patterns, at its spot.
#[derive(Clone, Copy, Debug, PartialEq, Eq)]
pub enum LineFault {
    UnknownAttr(Spot),
    BadOperator(Spot),
    BadValue(Spot),
    BadEntry(Spot),
}
