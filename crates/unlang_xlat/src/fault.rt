//! Why a text is no expansion.

ghost use Rattle.std.specs.Prelude.{◌≡◌};
ghost use Rattle.unlang_xlat.specs.Faults.{offset, fault_at};

use rad_text::ReadError;
use thiserror::Error;

/// The first fault of an expansion's text, in reading order. It carries the offset, in octets from 0, of the `%` that begins
/// the innermost part in which it lies; an offset above 4,294,967,295 is carried as that.
#[derive(Clone, Copy, Debug, PartialEq, Eq, Error)]
pub enum XlatFault {
    /// A `%` before what begins no part, a part that isn't closed or isn't written as its kind is, a place of a reference
    /// that is none, or a part within 32 others.
    #[error("BadExpansion")]
    BadExpansion(u32),
    /// The name in the braces is no attribute's and none of the other names that may stand there.
    #[error("UnknownAttr")]
    UnknownAttr(u32),
    /// The name before the colon is neither a function's nor a list's.
    #[error("UnknownFunction")]
    UnknownFunction(u32),
    #[error("NoMemory")]
    NoMemory,
}

/// What is wrong with an expansion's text, by how many octets are left from the `%` of its part on.
#[derive(Clone, Copy, Debug, PartialEq, Eq)]
pub enum Wrong {
    BadExpansion(usize),
    UnknownAttr(usize),
    UnknownFunction(usize),
}

/// The offset from which on so many octets of a text are left.
fn offset(text: &[u8], left: usize) -> u32
    ensures { result ≡ offset text.now left }
{
    text.len().saturating_sub(left).min(4_294_967_295) as u32
}

/// Why a text could not be read, with the offset.
pub fn fault_at(text: &[u8], error: ReadError<Wrong>) -> XlatFault
    ensures { result ≡ fault_at text.now error }
{
    match error {
        ReadError::Wrong(Wrong::BadExpansion(left)) => XlatFault::BadExpansion(offset(text, left)),
        ReadError::Wrong(Wrong::UnknownAttr(left)) => XlatFault::UnknownAttr(offset(text, left)),
        ReadError::Wrong(Wrong::UnknownFunction(left)) => {
            XlatFault::UnknownFunction(offset(text, left))
        }
        ReadError::NoMemory => XlatFault::NoMemory,
    }
}
