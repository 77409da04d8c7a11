ghost use Rattle.std.specs.Prelude.{◌≡◌, ◌++◌, ◌∷◌, [], ℕ, Option, Bool, IsErr, is_ok, length};
ghost use Rattle.rad_outside.specs.Telling.{Tells, Counts};
ghost use Rattle.rad_outside.specs.Wire.{WireTold, heard_of, FitsBuffer, failures_after, IsEnding};

use crate::fault::Failed;
use crate::listen::Peer;
use crate::octets::Octets;

/// What a wire answers when it is asked for a datagram.
#[derive(Clone, Copy, Debug, PartialEq, Eq)]
pub enum Got {
    /// A datagram of so many octets, at most 4,096, which stand at the buffer's front, and its source.
    Datagram(usize, Peer),
    /// Nothing came for a while.
    Quiet,
    /// Nothing will come any more.
    Ended,
    Failed,
}

/// An answer of a wire, with the datagram's octets.
#[derive(Debug, Drop)]
pub enum Heard {
    Datagram(Octets, Peer),
    Quiet,
    Ended,
    Failed,
}

/// A datagram that was handed to a wire, and whether the wire took it.
#[derive(Debug, Drop)]
pub struct Sent {
    pub to: Peer,
    pub octets: Octets,
    pub done: bool,
}

/// A datagram socket.
pub trait Wire {
    /// The answers so far, in order, and the datagrams that were handed in, in order.
    ghost told: { Self → Option WireTold };

    /// How often the wire has failed.
    ghost faults: { Self → ℕ };

    /// How many of the last asks failed, one after another.
    ghost failures_in_a_row: { Self → ℕ };

    /// Whether nothing will come any more.
    ghost has_ended: { Self → Bool };

    /// Asks for a datagram.
    fn recv(&mut self, buffer: &mut [u8; 4096]) -> Got
        ensures bound { FitsBuffer result }
        ensures buffer { length buffer.new ≡ 4096 }
        ensures told { Tells (told self.old) (told self.new) (λ before now.
            (now.heard ≡ before.heard ++ heard_of result buffer.new ∷ []) × (now.sent ≡ before.sent)) }
        ensures faults { Counts (faults self.old) (faults self.new) (result ≡ Got.Failed) }
        ensures row { failures_in_a_row self.new ≡ failures_after result (failures_in_a_row self.old) }
        ensures end { IsEnding (has_ended self.old) (has_ended self.new) result };

    /// Hands a datagram to the wire.
    fn send(&mut self, to: Peer, bytes: &[u8]) -> Result<(), Failed>
        ensures told { Tells (told self.old) (told self.new) (λ before now.
            (now.heard ≡ before.heard)
            × (now.sent ≡ before.sent ++ record { to = to; octets = bytes.now; done = is_ok result } ∷ [])) }
        ensures faults { Counts (faults self.old) (faults self.new) (IsErr result) }
        ensures row { failures_in_a_row self.new ≡ failures_in_a_row self.old }
        ensures end { has_ended self.new ≡ has_ended self.old };
}
