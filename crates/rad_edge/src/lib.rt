//! The outside's traits with two families of forms: those in memory, which tell all that they are asked, and thin adapters
//! to the host, which tell nothing.
//! Its one model is that of `rad_outside`, whose traits and types it passes on; a form in memory shows besides what it holds
//! and which of its calls are to fail.
//! Programs and tests stand above it; libraries need the traits alone.
#![tactic(auto)]

mod host;
mod laws;
mod mem;

pub use host::{HostClock, HostFiles, HostShelf, HostSink, PcgLuck, UdpCrew, UdpKit, UdpWire};
pub use laws::folders_are_listed_whole_and_in_order;
pub use mem::{Cue, ListClock, ListLuck, MemCrew, MemFiles, MemShelf, MemSink, MemWire, OpenGate};
pub use rad_outside::{
    Append, Clock, Crew, Failed, Files, Found, Gate, Got, Heard, Kit, KitFault, Listed, Listen,
    ListenKind, Luck, NoMemory, Octets, OctetsList, Peer, Place, Point, Sent, Shelf, Sink, Wire,
};
