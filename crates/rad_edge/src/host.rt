//! Thin adapters to the host. They tell nothing of content; each counts its errors, and writes a line on standard error
//! of what the host refused.

mod address;
mod clock;
mod crew;
mod files;
mod luck;
mod shelf;
mod sink;
mod telling;
mod udp_wire;

pub use clock::HostClock;
pub use crew::{UdpCrew, UdpKit};
pub use files::HostFiles;
pub use luck::PcgLuck;
pub use shelf::HostShelf;
pub use sink::HostSink;
pub use udp_wire::UdpWire;
