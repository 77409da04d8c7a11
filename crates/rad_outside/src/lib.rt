//! What lies outside the server, as traits with a written meaning: files, wires, shelves, sinks, clocks, luck, gates and
//! the crew that hands them out.
//! The one model is what a device tells: a ghost member that is optional, so that a device of the host tells nothing and
//! one in memory tells all; beside it each device counts its faults.
//! Everything above is generic over these traits and reaches the outside through them alone; nothing here knows RADIUS.
//! Forms in memory and adapters to the host stand in `rad_edge`.
#![tactic(auto)]

mod clock;
mod crew;
mod fault;
mod files;
mod gate;
mod listen;
mod octets;
mod octets_list;
mod shelf;
mod sink;
mod wire;

pub use clock::{Clock, LAST_MOMENT, Luck};
pub use crew::{Crew, Kit};
pub use fault::{Failed, KitFault, NoMemory};
pub use files::{Files, Found, Listed, Place};
pub use gate::{Gate, Point};
pub use listen::{Listen, ListenKind, Peer};
pub use octets::Octets;
pub use octets_list::OctetsList;
pub use shelf::{Append, Shelf};
pub use sink::Sink;
pub use wire::{Got, Heard, Sent, Wire};
