/// What a look at the server shows.
#[derive(Clone, Copy, Debug, PartialEq, Eq)]
pub struct Seen {
    /// The present generation's number, counted from 1, or 0 where there is none.
    pub generation: u64,
    /// How many sessions there are. None is kept yet.
    pub sessions: u32,
    /// How many requests the table has, up to 4,294,967,295.
    pub requests: u32,
    /// Whether a stop came.
    pub stopped: bool,
}
