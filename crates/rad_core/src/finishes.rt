ghost use Rattle.std.specs.Prelude.{◌≡◌, ◌<◌, ◌^◌, ◌≤◌, length, IfSome};
ghost use Rattle.std.specs.Arc.{arc_value};
ghost use Rattle.std.specs.Option.{option_map};
ghost use Rattle.rad_core.specs.Entry.{Finish};
ghost use Rattle.rad_core.specs.Requests.{reply_in};
ghost use Rattle.rad_core.specs.Step.{Step};
ghost use Rattle.rad_policy.specs.Seen.{ending_seen, FitsDatagram};
ghost use Rattle.rad_core.specs.Answers.{IsHeld};
ghost use Rattle.rad_core.specs.Core.{state_of, origin_of};

use crate::machine::Core;
use crate::started::Ticket;
use rad_outside::Octets;
use rad_policy::{Outcome, Policy};
use std::sync::Arc;

impl<P: Policy, L> Core<P, L> {
    /// A worker has ended the request of a ticket, with an outcome that its policy can give. A reply is kept for repeats.
    /// Takes no memory.
    pub fn finish(&mut self, ticket: Ticket<P>, worker: u32, outcome: Outcome)
        requires held { IsHeld P.meaning (state_of self.old) ticket worker (ending_seen outcome) }
        requires fits { FitsDatagram outcome }
        requires few { (state_of self.old).entries < 2 ^ 63 }
        ensures step { Step P.meaning (state_of self.old) (Finish worker ticket.place (ending_seen outcome)) (state_of self.new) }
        ensures origin { origin_of self.new ≡ origin_of self.old }
    {
        self.end(&ticket, worker, outcome)
    }

    /// The request of a ticket has ended so.
    pub(crate) fn end(&mut self, ticket: &Ticket<P>, _worker: u32, outcome: Outcome)
        requires held { IsHeld P.meaning (state_of self.old) ticket.now _worker (ending_seen outcome) }
        requires fits { FitsDatagram outcome }
        requires few { (state_of self.old).entries < 2 ^ 63 }
        ensures step { Step P.meaning (state_of self.old) (Finish _worker ticket.entry.now.place (ending_seen outcome)) (state_of self.new) }
        ensures origin { origin_of self.new ≡ origin_of self.old }
    {
        self.table
            .finish(ticket.place, self.moment, reply_in(outcome));
        self.entries += 1;
    }
}

/// The reply of an outcome.
fn reply_in(outcome: Outcome) -> Option<Arc<Octets>>
    requires { FitsDatagram outcome }
    ensures reply { option_map arc_value result ≡ reply_in (ending_seen outcome) }
    ensures fits { IfSome result (λ octets. length (arc_value octets) ≤ 4096) }
{
    match outcome {
        Outcome::Sent(octets) => Some(octets),
        Outcome::Withheld | Outcome::NoMemory => None,
    }
}
