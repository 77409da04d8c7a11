//! Why a desk refuses.
use crate::desk::Desk;
use crate::seat::Seat;
use crate::stands::Stands;
use thiserror::Error;

/// All turns of a desk were taken: their number.
#[derive(Clone, Copy, Debug, PartialEq, Eq, Error)]
#[error("Worn after {count} turns")]
pub struct Worn {
    pub count: u64,
}

/// Why a desk isn't closed.
#[derive(Drop)]
pub enum CloseFault<S: Stands> {
    /// Another seat is out. Desk and seat come back as they were.
    OtherSeats(Desk<S>, Seat<S>),
}
