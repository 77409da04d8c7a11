//! Why a dictionary could not be read.

ghost use Rattle.std.specs.Prelude.{◌≡◌};

use rad_outside::{NoMemory, Place};
use thiserror::Error;

/// The first fault of a dictionary's files, in reading order. Lines count from 1; line 0 is a file as a
/// whole. A file is named by its path below the folder of the first one, or as it was included where
/// that path begins with a slash.
#[derive(Debug, Drop, Error)]
pub enum DictFault {
    /// A line of no form, or a vendor that is still present at a file's end, by line 0 of that file.
    #[error("BadLine")]
    BadLine(Place),
    /// A vendor's attributes begin that no line has defined.
    #[error("UnknownVendor")]
    UnknownVendor(Place),
    /// A name that stands for something else.
    #[error("Taken")]
    Taken(Place),
    /// The seventeenth include within one another, by its own line.
    #[error("TooDeep")]
    TooDeep(Place),
    /// A file that isn't there, by the line that includes it, or by its own line 0.
    #[error("Missing")]
    Missing(Place),
    /// The files have more than 4,194,304 octets together, by line 0 of the file that passes the limit.
    #[error("TooLong")]
    TooLong(Place),
    #[error("ReadFault")]
    ReadFault,
    #[error("NoMemory")]
    NoMemory,
}

impl From<NoMemory> for DictFault {
    ghost use Rattle.rad_dict.specs.declared.fault.DictFault.TheVariants as fault;

    ghost from_gives = { λ _ e. e ≡ fault.NoMemory };

    fn from(_e: NoMemory) -> DictFault {
        DictFault::NoMemory
    }
}

/// What is wrong with a line, without its place.
#[derive(Clone, Copy)]
pub enum Wrong {
    BadLine,
    UnknownVendor,
    Taken,
}
