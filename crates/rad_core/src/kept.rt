ghost use Rattle.std.specs.Prelude.{◌≤◌, length};
ghost use Rattle.std.specs.Arc.{arc_value};

use crate::key::Key;
use crate::row::Row;
use rad_outside::{Octets, Peer};
use rad_policy::Policy;
use std::sync::Arc;

/// A reply that is kept for repeats of its request, of at most 4,096 octets, and the last second of its keeping time.
#[derive(Debug, Drop)]
pub(crate) struct Kept {
    pub(crate) listener: u32,
    pub(crate) source: Peer,
    pub(crate) packet: Octets,
    pub(crate) reply: Arc<Octets>,
    pub(crate) until: u64,
    ghost fits: { length (arc_value reply) ≤ 4096 },
}

impl Kept {
    ghost use Rattle.std.specs.Prelude.{◌≡◌, ◌≤◌, length};
    ghost use Rattle.std.specs.Arc.{arc_value};
    ghost use Rattle.rad_outside.specs.Moments.{IsInTime};
    ghost use Rattle.rad_core.specs.Requests.{is_kept_for, lasts_at, kept_of};
    ghost use Rattle.rad_core.specs.Rows.{key_seen, kept_seen, row_seen};

    /// Keeps the reply of a request for as long as the request's own generation says, from this moment on. It takes no
    /// memory.
    pub(crate) fn of<P: Policy>(row: Row<P>, moment: u64, reply: Arc<Octets>) -> Kept
        requires moment { IsInTime moment }
        requires fits { length (arc_value reply) ≤ 4096 }
        ensures { kept_seen result ≡ kept_of P.meaning.cleanup_delay moment (arc_value reply) (row_seen row) }
    {
        let until = moment + u64::from(row.generation.cleanup_delay());
        let Row {
            arrival,
            packet_length,
            ..
        } = row;
        let mut packet = arrival.bytes.into_vec();
        packet.truncate(packet_length);
        Kept {
            listener: arrival.listener,
            source: arrival.from,
            packet: Octets::from_vec(packet),
            reply,
            until,
        }
    }

    /// Whether it is a reply to this key.
    pub(crate) fn is_of(&self, key: Key) -> bool
        ensures { result ≡ is_kept_for (key_seen key.entry) (kept_seen self.now) }
    {
        self.listener == key.listener
            && (self.source.addr == key.source.addr
                && (self.source.port == key.source.port && self.packet.as_slice() == key.packet))
    }

    /// Whether its keeping time lasts at a moment.
    pub(crate) fn lasts_at(&self, moment: u64) -> bool
        ensures { result ≡ lasts_at moment (kept_seen self.now) }
    {
        !(self.until < moment)
    }
}
