//! Why a text could not be read.

ghost use Rattle.std.specs.Prelude.{◌≡◌};

use rad_text::{ReadError, Spot};
use thiserror::Error;

/// Why the text of a value could not be read.
#[derive(Clone, Copy, Debug, PartialEq, Eq, Error)]
pub enum ValueFault {
    /// The text is no value of the attribute's kind.
    #[error("BadValue")]
    BadValue,
    #[error("NoMemory")]
    NoMemory,
}

/// A text is no value of an attribute's kind.
#[derive(Clone, Copy, Debug, PartialEq, Eq)]
pub struct NoValue;

impl From<ReadError<NoValue>> for ValueFault {
    ghost use Rattle.rad_pairs.specs.ValueReading.{value_fault};

    ghost from_gives = { λ e fault. fault ≡ value_fault e };

    fn from(e: ReadError<NoValue>) -> ValueFault {
        match e {
            ReadError::Wrong(NoValue) => ValueFault::BadValue,
            ReadError::NoMemory => ValueFault::NoMemory,
        }
    }
}

/// The first fault of a text of pairs, in reading order.
#[derive(Clone, Copy, Debug, PartialEq, Eq, Error)]
pub enum PairFault {
    /// The name, where it begins, is no attribute's.
    #[error("UnknownAttr")]
    UnknownAttr(Spot),
    /// No operator of a pair follows the name, at the name's end.
    #[error("BadOperator")]
    BadOperator(Spot),
    /// The value, where it begins, is missing or can't be read, its quote isn't closed on its line, or something
    /// follows it.
    #[error("BadValue")]
    BadValue(Spot),
    #[error("NoMemory")]
    NoMemory,
}

/// What is wrong with a text of pairs, by how many octets are left from its place on.
#[derive(Clone, Copy, Debug, PartialEq, Eq)]
pub enum Wrong {
    UnknownAttr(usize),
    BadOperator(usize),
    BadValue(usize),
}
