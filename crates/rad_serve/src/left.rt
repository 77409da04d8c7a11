/// How the serving of a kit ended.
#[derive(Clone, Copy, Debug, PartialEq, Eq)]
pub enum Left {
    /// A look showed a stop.
    Stopped,
    /// Its wire ended.
    Ended,
    /// Its wire failed 100 times in a row, and the server was stopped.
    Deaf,
    /// The history hadn't room for two more entries, which the next ask of the wire may add.
    Worn,
}
