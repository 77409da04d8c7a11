//! Why a file isn't taken.

/// What is wrong with a line.
#[derive(Clone, Copy, Debug, PartialEq, Eq)]
pub enum Reason {
    /// A name is no attribute's.
    UnknownAttr,
    /// No operator follows a name, or another than `=`.
    BadOperator,
    /// A value is missing or can't be read.
    BadValue,
    /// The line begins the 4,097th group.
    TooMany,
}

/// The first line of a file that is wrong. What is above 4,294,967,295 is carried as that.
#[derive(Clone, Copy, Debug, PartialEq, Eq)]
pub struct LineFault {
    pub line: u32,
    pub reason: Reason,
}
