//! What a seat knows. It exists in proofs alone.
use crate::stands::Stands;
use std::collections::LinkedList;

/// What a seat has seen of the history, its name, and what the history goes out from. No value of it is made.
pub struct View<E, O, B> {
    pub seen: LinkedList<E>,
    pub name: u32,
    /// At the first seat, the names of the other seats, in rising order.
    pub out: LinkedList<u32>,
    /// Whether the seat has taken the desk.
    pub holds: bool,
    /// Whether the seat, which is the first one, is just taking in another seat.
    pub joins: bool,
    /// The name of the seat that it took in last, and what that one had seen.
    pub guest: u32,
    pub told: LinkedList<E>,
    pub origin: O,
    pub beginning: B,
}

/// A seat that was joined into the first one knows nothing.
pub type Known<S> = Option<
    View<<S as Stands>::Entry, <S as Stands>::Origin, <S as Stands>::Beginning>,
>;
