ghost use Rattle.std.specs.Prelude.{◌≡◌, IfOk};
ghost use Rattle.rad_policy.specs.Seen.{arrived_of};

use rad_outside::{ListenKind, NoMemory, Octets, Peer};
use std::alloc::Global;

/// A datagram that came in: the worker that took it, its listener's number, kind and server, its source, its octets,
/// and the moment in seconds since 1970.
#[derive(Clone, Copy, Debug)]
pub struct Arrival<'a> {
    pub worker: u32,
    pub listener: u32,
    pub kind: ListenKind,
    /// The name of the listener's virtual server.
    pub server: &'a [u8],
    pub from: Peer,
    /// The datagram, padding included.
    pub bytes: &'a [u8],
    pub now: u64,
}

/// An arrival that owns its octets.
#[derive(Debug, Drop)]
pub struct Arrived {
    pub worker: u32,
    pub listener: u32,
    pub kind: ListenKind,
    pub server: Octets,
    pub from: Peer,
    pub bytes: Octets,
    pub now: u64,
}

impl Arrived {
    /// A copy of an arrival.
    pub fn of(alloc: Global, arrival: &Arrival) -> Result<Arrived, NoMemory>
        ensures { IfOk result (λ copy. copy ≡ arrived_of arrival.entry.now) }
    {
        Ok(Arrived {
            worker: arrival.worker,
            listener: arrival.listener,
            kind: arrival.kind,
            server: Octets::of(alloc, arrival.server)?,
            from: arrival.from,
            bytes: Octets::of(alloc, arrival.bytes)?,
            now: arrival.now,
        })
    }
}
