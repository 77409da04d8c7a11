use rad_outside::Octets;
use rad_packet::DropCause;
use std::sync::Arc;

/// A fresh request: its place in the history, and the generation and the moment of that place.
#[derive(Debug, Drop)]
pub struct Ticket<P> {
    pub place: u64,
    pub generation: Arc<P>,
    /// Seconds since 1970, at most 250,000,000,000.
    pub moment: u64,
}

/// What a datagram was answered.
#[derive(Debug, Drop)]
pub enum Started<P> {
    /// It isn't taken, and gets no reply.
    Dropped(DropCause),
    /// It is a repeat of a request whose reply is kept: so many octets of the reply stand at the front of the buffer.
    Repeat(usize),
    /// Its request is in progress, at this place, and it gets no reply of its own.
    Busy(u64),
    /// The table is full, with so many entries, and it gets no reply.
    Full(u32),
    /// It is a request of its own, which waits for its `finish`.
    Fresh(Ticket<P>),
    NoMemory,
}

/// A start's answer as the history keeps it.
#[derive(Debug, Drop)]
pub enum StartAnswer {
    Dropped(DropCause),
    /// A repeat, which got these octets.
    Repeat(Octets),
    /// Its request was in progress, at this place.
    Busy(u64),
    /// The table was full, with so many entries.
    Full(u32),
    /// A fresh request of this place.
    Fresh(u64),
    /// There was no memory for it.
    NoRoom,
}
