//! The forms in memory: they fail at the calls that they are told to, and tell all that they are asked, until memory
//! runs out for their own record.

mod crew;
mod failing;
mod files;
mod list_clock;
mod list_luck;
mod open_gate;
mod repeating;
mod room;
mod shelf;
mod sink;
mod wire;

pub use crew::MemCrew;
pub use files::MemFiles;
pub use list_clock::ListClock;
pub use list_luck::ListLuck;
pub use open_gate::OpenGate;
pub use shelf::MemShelf;
pub use sink::MemSink;
pub use wire::{Cue, MemWire};
