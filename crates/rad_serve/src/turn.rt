ghost use Rattle.std.specs.Prelude.{◌≡◌, ◌≤◌, ◌+◌, ◌^◌, [], length, IsSome, IfOk, IfErr, take};
ghost use Rattle.rad_outside.specs.declared.listen.ListenKind.TheVariants.{Auth};
ghost use Rattle.rad_turn.specs.Sides.{view, IsOf};
ghost use Rattle.rad_turn.specs.Views.{IsSameSeat};
ghost use Rattle.rad_policy.specs.Seen.{arrived_of, FitsDatagram};
ghost use Rattle.rad_serve.specs.History.{IsAlone, state_after};
ghost use Rattle.rad_serve.specs.Turn.{AddsTurn, CountsTurn, AnswersAtOnce, answers_of, FitsAnswer, IsCopied};

use rad_core::{Core, Post, Started, Ticket};
use rad_outside::{Gate, Point, Shelf};
use rad_policy::{Arrival, Outcome, Policy};
use rad_site::Generation;
use rad_turn::Seat;
use std::alloc::Global;
use std::sync::Wait;

/// A reply that stands at the front of a buffer: how many octets it has, at most 4,096, and the place of its request, or
/// 0 where it is that of a repeat.
#[derive(Clone, Copy, Debug)]
pub(crate) struct Reply {
    pub(crate) length: usize,
    pub(crate) place: u64,
}

/// What became of a datagram: how many entries it added, and its reply if it got one.
#[derive(Clone, Copy, Debug)]
pub(crate) struct Taken {
    pub(crate) entries: u64,
    pub(crate) reply: Option<Reply>,
}

/// The ticket of a start, or what it is answered at once.
fn ticket_of(started: Started<Generation>) -> Result<Ticket<Generation>, Option<Reply>>
    ensures fresh { IfOk result (λ ticket. started ≡ Started.Fresh ticket) }
    ensures other { IfErr result (AnswersAtOnce started) }
{
    match started {
        Started::Dropped(_) => Err(None),
        Started::Repeat(length) => Err(Some(Reply { length, place: 0 })),
        Started::Busy(_) => Err(None),
        Started::Full(_) => Err(None),
        Started::Fresh(ticket) => Ok(ticket),
        Started::NoMemory => Err(None),
    }
}

/// Copies a reply to the front of a buffer, where there is one.
fn copied(outcome: &Outcome, place: u64, buffer: &mut [u8; 4096]) -> Option<Reply>
    requires { FitsDatagram outcome.now }
    ensures reply { IsCopied outcome.now result buffer.new }
    ensures fits { FitsAnswer result }
    ensures buffer { length buffer.new ≡ 4096 }
{
    match outcome {
        Outcome::Sent(octets) => {
            let octets = octets.as_slice();
            let length = octets.len();
            buffer[..length].copy_from_slice(octets);
            Some(Reply { length, place })
        }
        Outcome::Withheld | Outcome::NoMemory => None,
    }
}

/// One datagram's whole way at a desk at which no other seat is out: its start, which is one turn, and, where it is
/// fresh, its policy, and its finish, which is another turn. The reply, which of a repeat is the one that was kept, is
/// left at the front of the buffer.
pub(crate) fn take_turn<R: Wait, L: Shelf, S: Shelf, G: Gate>(
    rt: &R,
    alloc: Global,
    post: &Post<Generation, L>,
    seat: &mut Seat<Core<Generation, L>>,
    arrival: &Arrival,
    luck: u64,
    shelf: &mut S,
    gate: &mut G,
    buffer: &mut [u8; 4096],
) -> Taken
    requires own { IsOf post.now.desk seat.old }
    requires alone { IsAlone (view seat.old) }
    requires installed { IsSome (state_after (view seat.old).seen).present }
    requires few { length (view seat.old).seen + 2 ≤ 2 ^ 62 }
    requires auth { arrival.now.kind ≡ Auth }
    requires worker { arrival.now.worker ≡ 0 }
    ensures own { IsOf post.now.desk seat.new }
    ensures same { IsSameSeat (view seat.old) (view seat.new) }
    ensures turn { AddsTurn (view seat.old).seen (view seat.new).seen (state_after (view seat.old).seen)
        (state_after (view seat.new).seen) (arrived_of arrival.entry.now) luck
        (answers_of (arrived_of arrival.entry.now) result.reply buffer.new) }
    ensures counts { CountsTurn (view seat.old).seen (view seat.new).seen result }
    ensures fits { FitsAnswer result.reply }
    ensures buffer { length buffer.new ≡ 4096 }
    ensures shelf { shelf.new ≡ shelf.old }
{
    let Ok(started) = post.start(rt, seat, arrival, buffer) else {
        unreachable!()
    };
    match ticket_of(started) {
        Err(reply) => Taken { entries: 1, reply },
        Ok(ticket) => {
            let place = ticket.place;
            gate.at(Point::InPolicy, place);
            let outcome = ticket
                .generation
                .access(alloc, arrival, ticket.moment, luck, shelf);
            let reply = copied(&outcome, place, buffer);
            let Ok(()) = post.finish(rt, seat, ticket, outcome) else {
                unreachable!()
            };
            Taken { entries: 2, reply }
        }
    }
}
