ghost use Rattle.std.specs.Prelude.{◌≡◌, ◌≤◌, ◌<◌, ◌+◌, ◌^◌, ℕ, List, length, take, IsSome, None, OnOk, OnErr, IfOk, IfErr};
ghost use Rattle.rad_outside.specs.declared.listen.ListenKind.TheVariants.{Auth};
ghost use Rattle.rad_packet.specs.Packet.{packet_of};
ghost use Rattle.rad_core.specs.State.{at_moment};
ghost use Rattle.rad_core.specs.Requests.{size_of};
ghost use Rattle.rad_core.specs.Entry.{Start};
ghost use Rattle.rad_core.specs.Step.{Step, IsNew, IsDroppedFor, IsTaken, Judges};
ghost use Rattle.rad_policy.specs.Seen.{arrived_of};
ghost use Rattle.rad_core.specs.Answers.{answer_seen, IsTicketOf, Admits, FillsBuffer};
ghost use Rattle.rad_core.specs.Core.{state_of, origin_of};

use crate::key::Key;
use crate::machine::Core;
use crate::row::Row;
use crate::started::{Started, Ticket};
use rad_outside::{LAST_MOMENT, NoMemory, Octets};
use rad_packet::{DropCause, check};
use rad_policy::{Arrival, Arrived, Policy};
use std::sync::Arc;

impl<P: Policy, L> Core<P, L> {
    /// A datagram of an auth listener came in. It is dropped, or a repeat that gets the reply that is kept for it, at the
    /// front of the buffer; or its request is in progress, or the table is full; or it is a fresh request that waits for
    /// its `finish`. Every answer but that of a repeat leaves the buffer as it was.
    pub fn start(&mut self, arrival: &Arrival, reply: &mut [u8; 4096]) -> Started<P>
        requires installed { IsSome (state_of self.old).present }
        requires auth { arrival.now.kind ≡ Auth }
        requires few { (state_of self.old).entries < 2 ^ 63 }
        ensures step { Step P.meaning (state_of self.old) (Start (arrived_of arrival.entry.now) (answer_seen result reply.new))
            (state_of self.new) }
        ensures ticket { IsTicketOf (state_of self.new) result }
        ensures buffer { FillsBuffer result reply.old reply.new }
        ensures origin { origin_of self.new ≡ origin_of self.old }
    {
        self.pass_to(arrival.now);
        let started = self.judge(arrival, reply);
        self.entries += 1;
        started
    }

    /// The moment rule: the moment becomes the greater of itself and the clock's seconds, up to the last moment, and the
    /// replies leave whose keeping time is over.
    fn pass_to(&mut self, now: u64)
        ensures state { state_of self.new ≡ at_moment now (state_of self.old) }
        ensures origin { origin_of self.new ≡ origin_of self.old }
    {
        self.moment = self.moment.max(now.min(LAST_MOMENT));
        self.table.pass_to(self.moment);
    }

    /// What the datagram is answered at this moment.
    fn judge(&mut self, arrival: &Arrival, reply: &mut [u8; 4096]) -> Started<P>
        requires installed { IsSome (state_of self.old).present }
        requires auth { arrival.now.kind ≡ Auth }
        ensures answer { Judges P.meaning (state_of self.old) (arrived_of arrival.entry.now) (answer_seen result reply.new) (state_of self.new) }
        ensures ticket { IsTicketOf (state_of self.new) result }
        ensures buffer { FillsBuffer result reply.old reply.new }
        ensures origin { origin_of self.new ≡ origin_of self.old }
    {
        match self.checked(arrival) {
            Err(cause) => Started::Dropped(cause),
            Ok(packet) => self.find(arrival, packet, reply),
        }
    }

    /// What an authentic datagram is answered, whose packet this is.
    fn find(&mut self, arrival: &Arrival, packet: &[u8], reply: &mut [u8; 4096]) -> Started<P>
        requires taken { IsTaken P.meaning (state_of self.old) (arrived_of arrival.now) }
        requires packet { packet.now ≡ packet_of arrival.now.bytes.now }
        requires within { length packet.now ≤ length arrival.now.bytes.now }
        ensures answer { Judges P.meaning (state_of self.old) (arrived_of arrival.entry.now) (answer_seen result reply.new) (state_of self.new) }
        ensures ticket { IsTicketOf (state_of self.new) result }
        ensures buffer { FillsBuffer result reply.old reply.new }
        ensures origin { origin_of self.new ≡ origin_of self.old }
    {
        let key = Key {
            listener: arrival.listener,
            source: arrival.from,
            packet,
        };
        if let Some(kept) = self.table.reply(key) {
            return Started::Repeat(copied(kept, reply));
        }
        match self.table.place(key) {
            Some(place) => Started::Busy(place),
            None => self.take_in(arrival, packet.len()),
        }
    }

    /// What a new request is answered, whose packet has so many octets.
    fn take_in(&mut self, arrival: &Arrival, packet_length: usize) -> Started<P>
        requires taken { IsTaken P.meaning (state_of self.old) (arrived_of arrival.now) }
        requires fresh { IsNew (state_of self.old) (arrived_of arrival.now) }
        requires within { packet_length ≤ length arrival.now.bytes.now }
        requires packet { take packet_length arrival.now.bytes.now ≡ packet_of arrival.now.bytes.now }
        ensures answer { (buffer : List ℕ) → Judges P.meaning (state_of self.old) (arrived_of arrival.entry.now) (answer_seen result buffer) (state_of self.new) }
        ensures ticket { IsTicketOf (state_of self.new) result }
        ensures buffer { (buffer : List ℕ) → FillsBuffer result buffer buffer }
        ensures origin { origin_of self.new ≡ origin_of self.old }
    {
        let Some(generation) = &self.present else {
            unreachable!()
        };
        let count = self.table.len();
        if count >= generation.max_requests() {
            return Started::Full(count);
        }
        match self.admit(arrival, packet_length) {
            Ok(ticket) => Started::Fresh(ticket),
            Err(NoMemory) => Started::NoMemory,
        }
    }

    /// The packet of a datagram that is authentic under the present generation, or the first cause to drop it.
    fn checked<'a>(&self, arrival: &Arrival<'a>) -> Result<&'a [u8], DropCause>
        requires installed { IsSome (state_of self.now).present }
        requires auth { arrival.now.kind ≡ Auth }
        ensures dropped { IfErr result (λ cause. IsDroppedFor P.meaning (state_of self.now) (arrived_of arrival.entry.now) cause) }
        ensures taken { OnOk result (IsTaken P.meaning (state_of self.now) (arrived_of arrival.entry.now)) }
        ensures packet { IfOk result (λ packet. packet.now ≡ packet_of arrival.entry.now.bytes.now) }
    {
        let Some(generation) = &self.present else {
            unreachable!()
        };
        let client = generation.client(arrival.from.addr);
        match check(arrival.bytes, client, arrival.kind) {
            Ok(packet) => Ok(packet.octets),
            Err(cause) => Err(cause),
        }
    }

    /// Puts the request into the table and hands out its ticket. Want of memory leaves the table.
    fn admit(&mut self, arrival: &Arrival, packet_length: usize) -> Result<Ticket<P>, NoMemory>
        requires installed { IsSome (state_of self.old).present }
        requires few { size_of (state_of self.old).table + 1 < 2 ^ 32 }
        requires within { packet_length ≤ length arrival.now.bytes.now }
        requires packet { take packet_length arrival.now.bytes.now ≡ packet_of arrival.now.bytes.now }
        ensures ok { IfOk result (λ ticket. Admits (state_of self.old) (arrived_of arrival.entry.now) ticket (state_of self.new)) }
        ensures err { OnErr result (state_of self.new ≡ state_of self.old) }
        ensures origin { origin_of self.new ≡ origin_of self.old }
    {
        let Some(generation) = &self.present else {
            unreachable!()
        };
        let generation_of_row = Arc::try_clone(generation)?;
        let generation = Arc::try_clone(generation)?;
        let arrival = Arrived::of(self.alloc, arrival)?;
        self.table.admit(Row {
            place: self.entries,
            arrival,
            packet_length,
            generation: generation_of_row,
            moment: self.moment,
        })?;
        Ok(Ticket {
            place: self.entries,
            generation,
            moment: self.moment,
        })
    }
}

/// Copies a reply of at most 4,096 octets to the front of a buffer, and answers how many octets it has.
fn copied(reply: &Octets, buffer: &mut [u8; 4096]) -> usize
    requires { length reply.now ≤ 4096 }
    ensures copy { take result buffer.new ≡ reply.now }
    ensures fits { result ≤ 4096 }
{
    let octets = reply.as_slice();
    let length = octets.len();
    buffer[..length].copy_from_slice(octets);
    length
}
