ghost use Rattle.std.specs.Prelude.{◌≡◌, ◌≤◌, length, take};
ghost use Rattle.rad_packet.specs.Packet.{packet_of};

use crate::key::Key;
use rad_policy::Arrived;
use std::sync::Arc;

/// A request in progress: its place, a copy of its arrival, how many octets of that are its packet, and the generation
/// and the moment of its place.
#[derive(Debug, Drop)]
pub(crate) struct Row<P> {
    pub(crate) place: u64,
    pub(crate) arrival: Arrived,
    pub(crate) packet_length: usize,
    pub(crate) generation: Arc<P>,
    pub(crate) moment: u64,
    ghost fits: { packet_length ≤ length arrival.bytes },
    ghost packet_is: { take packet_length arrival.bytes ≡ packet_of arrival.bytes },
}

impl<P> Row<P> {
    ghost use Rattle.std.specs.Prelude.{◌≡◌};
    ghost use Rattle.rad_core.specs.Requests.{is_run_for, is_at};
    ghost use Rattle.rad_core.specs.Rows.{key_seen, row_seen};

    /// Whether the request has this key.
    pub(crate) fn is_of(&self, key: Key) -> bool
        ensures { result ≡ is_run_for (key_seen key.entry) (row_seen self.now) }
    {
        let (packet, _) = self.arrival.bytes.as_slice().split_at(self.packet_length);
        self.arrival.listener == key.listener
            && (self.arrival.from.addr == key.source.addr
                && (self.arrival.from.port == key.source.port && packet == key.packet))
    }

    /// Whether the request has this place.
    pub(crate) fn is_at(&self, place: u64) -> bool
        ensures { result ≡ is_at place (row_seen self.now) }
    {
        self.place == place
    }
}
