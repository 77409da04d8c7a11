/// What was read of a command line so far.
#[derive(Clone, Copy, Debug, PartialEq, Eq)]
pub(crate) enum Reading {
    /// Letters may follow.
    Letters,
    /// The next word is the value of this letter.
    Value(u8),
    /// The letters have ended: each word is plain.
    Plainly,
}
