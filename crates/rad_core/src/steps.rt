//! The steps on a core behind a desk: each is the core's call of its name.
use crate::installed::Installed;
use crate::machine::Core;
use crate::seen::Seen;
use crate::started::{Started, Ticket};
use rad_outside::Listen;
use rad_policy::{Arrival, Outcome, Policy};
use rad_turn::Move as DeskMove;
use std::mem;
use std::sync::Arc;

/// A datagram came in. The step leaves a repeat's reply in its buffer.
#[derive(Drop)]
pub(crate) struct StartStep<'a> {
    pub(crate) arrival: Arrival<'a>,
    pub(crate) reply: [u8; 4096],
}

impl<P: Policy, L> DeskMove<Core<P, L>> for StartStep<'_> {
    ghost use Rattle.std.specs.Prelude.{◌≡◌, ◌<◌, ◌^◌, length, IsSome};
    ghost use Rattle.rad_outside.specs.declared.listen.ListenKind.TheVariants.{Auth};
    ghost use Rattle.rad_policy.specs.Seen.{arrived_of};
    ghost use Rattle.rad_core.specs.State.{opening};
    ghost use Rattle.rad_core.specs.Entry.{Start};
    ghost use Rattle.rad_core.specs.Step.{Step, run};
    ghost use Rattle.rad_core.specs.Answers.{answer_seen, IsTicketOf, FillsBuffer};
    ghost use Rattle.rad_core.specs.Core.{state_of};

    type Reply = Started<P>;

    ghost worker = { λ step. step.arrival.worker };

    ghost may = { λ step log. (length log < 2 ^ 62) × (step.arrival.kind ≡ Auth)
        × IsSome (run P.meaning opening log).present };

    ghost does = { λ step before reply after done.
        Step P.meaning (state_of before) (Start (arrived_of step.arrival) (answer_seen reply done.reply)) (state_of after)
        × IsTicketOf (state_of after) reply × FillsBuffer reply step.reply done.reply };

    ghost entry = { λ step _ reply _ done. Start (arrived_of step.arrival) (answer_seen reply done.reply) };

    fn apply(&mut self, core: &mut Core<P, L>) -> Started<P> {
        core.start(&self.arrival, &mut self.reply)
    }
}

/// A worker has ended the request of a ticket. The step gives its outcome away.
#[derive(Drop)]
pub(crate) struct FinishStep<P> {
    pub(crate) worker: u32,
    pub(crate) ticket: Ticket<P>,
    pub(crate) outcome: Outcome,
}

impl<P: Policy, L> DeskMove<Core<P, L>> for FinishStep<P> {
    ghost use Rattle.std.specs.Prelude.{◌<◌, ◌^◌, length};
    ghost use Rattle.rad_policy.specs.Seen.{ending_seen, FitsDatagram};
    ghost use Rattle.rad_core.specs.State.{opening};
    ghost use Rattle.rad_core.specs.Entry.{Finish};
    ghost use Rattle.rad_core.specs.Step.{Step, run};
    ghost use Rattle.rad_core.specs.Answers.{IsHeld};
    ghost use Rattle.rad_core.specs.Core.{state_of};

    type Reply = ();

    ghost worker = { λ step. step.worker };

    ghost may = { λ step log. (length log < 2 ^ 62) × FitsDatagram step.outcome
        × IsHeld P.meaning (run P.meaning opening log) step.ticket step.worker (ending_seen step.outcome) };

    ghost does = { λ step before _ after _.
        Step P.meaning (state_of before) (Finish step.worker step.ticket.place (ending_seen step.outcome)) (state_of after) };

    ghost entry = { λ step _ _ _ _. Finish step.worker step.ticket.place (ending_seen step.outcome) };

    fn apply(&mut self, core: &mut Core<P, L>) {
        let outcome = mem::replace(&mut self.outcome, Outcome::Withheld);
        core.end(&self.ticket, self.worker, outcome)
    }
}

/// A worker loads a generation. The step gives its load away.
#[derive(Drop)]
pub(crate) struct InstallStep<'a, P, F> {
    pub(crate) worker: u32,
    pub(crate) load: Result<Arc<P>, F>,
    pub(crate) listeners: &'a [Listen],
}

impl<P: Policy, L> DeskMove<Core<P, L>> for InstallStep<'_, P, P::Fault> {
    ghost use Rattle.std.specs.Prelude.{◌<◌, ◌^◌, length};
    ghost use Rattle.rad_core.specs.Entry.{Install};
    ghost use Rattle.rad_core.specs.Step.{Step};
    ghost use Rattle.rad_core.specs.Answers.{load_seen};
    ghost use Rattle.rad_core.specs.Core.{state_of};

    type Reply = Installed<P::Fault>;

    ghost worker = { λ step. step.worker };

    ghost may = { λ _ log. length log < 2 ^ 62 };

    ghost does = { λ step before reply after _.
        Step P.meaning (state_of before) (Install step.worker (load_seen step.load) step.listeners.now reply) (state_of after) };

    ghost entry = { λ step _ reply _ _. Install step.worker (load_seen step.load) step.listeners.now reply };

    fn apply(&mut self, core: &mut Core<P, L>) -> Installed<P::Fault> {
        let load = mem::replace(&mut self.load, Err(P::memory_fault()));
        core.install(self.worker, load, self.listeners)
    }
}

/// A worker looks at the server.
#[derive(Drop)]
pub(crate) struct LookStep {
    pub(crate) worker: u32,
}

impl<P: Policy, L> DeskMove<Core<P, L>> for LookStep {
    ghost use Rattle.std.specs.Prelude.{◌<◌, ◌^◌, length};
    ghost use Rattle.rad_core.specs.Entry.{Look};
    ghost use Rattle.rad_core.specs.Step.{Step};
    ghost use Rattle.rad_core.specs.Core.{state_of};

    type Reply = Seen;

    ghost worker = { λ step. step.worker };

    ghost may = { λ _ log. length log < 2 ^ 62 };

    ghost does = { λ step before reply after _.
        Step P.meaning (state_of before) (Look step.worker reply) (state_of after) };

    ghost entry = { λ step _ reply _ _. Look step.worker reply };

    fn apply(&mut self, core: &mut Core<P, L>) -> Seen {
        core.look(self.worker)
    }
}

/// A worker stops the server.
#[derive(Drop)]
pub(crate) struct StopStep {
    pub(crate) worker: u32,
}

impl<P: Policy, L> DeskMove<Core<P, L>> for StopStep {
    ghost use Rattle.std.specs.Prelude.{◌<◌, ◌^◌, length};
    ghost use Rattle.rad_core.specs.Entry.{Stop};
    ghost use Rattle.rad_core.specs.Step.{Step};
    ghost use Rattle.rad_core.specs.Core.{state_of};

    type Reply = ();

    ghost worker = { λ step. step.worker };

    ghost may = { λ _ log. length log < 2 ^ 62 };

    ghost does = { λ step before _ after _. Step P.meaning (state_of before) (Stop step.worker) (state_of after) };

    ghost entry = { λ step _ _ _ _. Stop step.worker };

    fn apply(&mut self, core: &mut Core<P, L>) {
        core.stop(self.worker)
    }
}
