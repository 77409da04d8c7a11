//! A desk: a lock over one value whose turns stand in one history. A seat is the right to take turns under a name.
//! The one model is a seat's view: what it has seen of the history, its name, the names of the other seats that are out,
//! and what the history goes out from. The history itself exists in proofs alone. A value behind a desk says what it
//! stands for (`Stands`), and a step what it does (`Move`). Above it stands the core, which is such a value.
#![tactic(auto)]

mod closing;
mod crossing;
mod desk;
mod fault;
mod law;
mod names;
mod seat;
mod seats;
mod stands;
mod view;

pub use crossing::crosses_threads;
pub use desk::Desk;
pub use fault::{CloseFault, Worn};
pub use seat::Seat;
pub use stands::{Move, Stands};
pub use view::View;
