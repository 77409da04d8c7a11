//! Why a text is no condition.

ghost use Rattle.std.specs.Prelude.{◌≡◌};
ghost use Rattle.unlang_cond.specs.Faults.{offset_of, fault_of, refusal_of};

use rad_text::ReadError;
use thiserror::Error;

/// The first fault of a condition, in reading order, with an offset in octets from the text's front; one above
/// 4,294,967,295 is carried as that.
#[derive(Clone, Copy, Debug, PartialEq, Eq, Error)]
pub enum CondFault {
    /// Reading can't go on here: what stands here can't follow, or the quoted text or the literal here can't be read.
    #[error("BadCondition")]
    BadCondition(u32),
    /// The reference here, or one in the quoted text here, names no attribute.
    #[error("UnknownAttr")]
    UnknownAttr(u32),
    /// The pattern whose first slash stands here contains `%{`, is no UTF-8, or is none.
    #[error("BadPattern")]
    BadPattern(u32),
    #[error("NoMemory")]
    NoMemory,
}

/// What is wrong with a condition, by how many octets are left from its place on.
#[derive(Clone, Copy)]
pub enum Wrong {
    BadCondition(usize),
    UnknownAttr(usize),
}

/// The offset from which on so many octets of a text of this length are left.
fn offset_of(length: usize, left: usize) -> u32
    ensures { result ≡ offset_of length left }
{
    length.saturating_sub(left).min(4_294_967_295) as u32
}

/// What is wrong, with its offset in a text of this length.
pub fn fault_of(length: usize, wrong: Wrong) -> CondFault
    ensures { result ≡ fault_of length wrong }
{
    match wrong {
        Wrong::BadCondition(left) => CondFault::BadCondition(offset_of(length, left)),
        Wrong::UnknownAttr(left) => CondFault::UnknownAttr(offset_of(length, left)),
    }
}

/// The refusal of a pattern, with its offset in a text of this length.
pub fn refusal_of(length: usize, error: ReadError<usize>) -> CondFault
    ensures { result ≡ refusal_of length error }
{
    match error {
        ReadError::Wrong(left) => CondFault::BadPattern(offset_of(length, left)),
        ReadError::NoMemory => CondFault::NoMemory,
    }
}
