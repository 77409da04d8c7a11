//! Why a configuration could not be read.

ghost use Rattle.std.specs.Prelude.{◌≡◌};

use rad_outside::{NoMemory, Place};
use std::alloc::{AllocError, AllocFailed};
use thiserror::Error;

/// The first fault of a configuration, in reading order.
#[derive(Debug, Drop, Error)]
pub enum ConfFault {
    /// The innermost block that is open at the text's end, by the line on which it begins.
    #[error("Unclosed")]
    Unclosed(Place),
    /// A closing brace too many, or an item of no form.
    #[error("Stray")]
    Stray(Place),
    /// A quote that isn't closed on its line.
    #[error("BadQuote")]
    BadQuote(Place),
    /// A variable that no earlier pair has.
    #[error("NoVariable")]
    NoVariable(Place),
    /// The seventeenth include within one another, by its own line.
    #[error("TooDeep")]
    TooDeep(Place),
    /// A file that isn't there, by the line that includes it, or by its own line 0.
    #[error("Missing")]
    Missing(Place),
    /// The files have more than 4,194,304 octets together. The line is 0 of the file that passes this.
    #[error("TooLong")]
    TooLong(Place),
    #[error("ReadFault")]
    ReadFault,
    #[error("NoMemory")]
    NoMemory,
}

impl From<NoMemory> for ConfFault {
    ghost use Rattle.rad_conf.specs.declared.fault.ConfFault.TheVariants as fault;

    ghost from_gives = { λ _ e. e ≡ fault.NoMemory };

    fn from(_e: NoMemory) -> ConfFault {
        ConfFault::NoMemory
    }
}

impl From<AllocError> for ConfFault {
    ghost use Rattle.rad_conf.specs.declared.fault.ConfFault.TheVariants as fault;

    ghost from_gives = { λ _ e. e ≡ fault.NoMemory };

    fn from(_e: AllocError) -> ConfFault {
        ConfFault::NoMemory
    }
}

/// What is wrong with a text where it is read, without the place.
#[derive(Clone, Copy, Debug, PartialEq, Eq)]
pub enum Wrong {
    Stray,
    BadQuote,
    NoVariable,
}
