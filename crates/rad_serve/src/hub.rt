use crate::counts::{Tally, is_present};
use crate::turn::{Reply, take_turn};
use rad_core::{Core, Entry, Post, Seen};
use rad_outside::{Gate, Listen, NoMemory, Octets, Shelf};
use rad_policy::Arrival;
use rad_site::{BuildFault, Generation};
use rad_turn::{Seat, Stands};
use std::alloc::Global;
use std::marker::Model;
use std::sync::{Arc, Wait};

/// How many entries a history has at most.
const LONGEST: u64 = 1 << 62;

/// The core behind its desk, and the desk's first seat, which alone is out: what has happened on the server, over
/// several runs of it. The history is what the seat has seen. It exists in proofs alone; what is kept of it is its
/// length and what it counts. Between two runs nothing is in progress.
#[derive(Drop)]
pub struct Hub<L>
where
    Core<Generation, L>: Stands<
        Entry = Entry<Generation, BuildFault>,
        Origin = (L, Octets),
        Beginning = (),
    >,
{
    alloc: Global,
    post: Post<Generation, L>,
    seat: Seat<Core<Generation, L>>,
    length: u64,
    tally: Tally,
}

impl<L> Model for Hub<L>
where
    Core<Generation, L>: Stands<
        Entry = Entry<Generation, BuildFault>,
        Origin = (L, Octets),
        Beginning = (),
    >,
{
    ghost use Rattle.rad_turn.specs.Sides.{view as known, IsOf};
    ghost use Rattle.rad_serve.specs.HubSeen.{HubSeen};
    ghost use Rattle.rad_serve.specs.History.{IsAlone, IsNumbered};
    ghost use Rattle.std.specs.Coded.{codes};
    ghost use Rattle.unlang_xlat.specs.contracts.part.Part as part;
    ghost use Rattle.unlang_tree.specs.contracts.statement.StatementKind as kind;

    ghost Value = { HubSeen L };

    ghost coded = { Prim.hlevel (codes, part.the_row.coded, kind.the_row.coded) };

    ghost view = { λ h. record {
      history = (known h.seat).seen;
      origin = (known h.seat).origin;
    } };

    ghost invariant = { λ h. IsOf h.post.desk h.seat × IsAlone (known h.seat) × IsNumbered (known h.seat).seen h.length h.tally };
}

impl<L: Shelf + Drop> Hub<L> {
    ghost use Rattle.std.specs.Prelude.{◌≡◌, [], IfOk, IsUtf8};

    /// A hub on which nothing has happened, with the session log at a path, which is UTF-8.
    pub fn new(alloc: Global, log: L, path: Octets) -> Result<Hub<L>, NoMemory>
        requires { IsUtf8 path }
        ensures history { IfOk result (λ hub. hub.history ≡ []) }
        ensures origin { IfOk result (λ hub. hub.origin ≡ (log, path)) }
    {
        match Post::new(alloc, Core::new(alloc, log, path)) {
            Ok((post, seat)) => Ok(Hub {
                alloc,
                post,
                seat,
                length: 0,
                tally: Tally::none(),
            }),
            Err((_, fault)) => Err(fault),
        }
    }
}

impl<L: Shelf> Hub<L> {
    ghost use Rattle.std.specs.Prelude.{◌≡◌, ◌≤◌, ◌<◌, ◌+◌, ◌^◌, length, IsSome, MatchBool};
    ghost use Rattle.rad_outside.specs.declared.listen.ListenKind.TheVariants.{Auth};
    ghost use Rattle.rad_core.specs.State.{opening};
    ghost use Rattle.rad_core.specs.declared.entry.Entry.TheVariants.{Look, Stop};
    ghost use Rattle.rad_core.specs.Step.{IsLegal};
    ghost use Rattle.rad_policy.specs.Seen.{arrived_of};
    ghost use Rattle.rad_site.specs.Meaning.{site_meaning};
    ghost use Rattle.std.specs.Arc.{arc_value};
    ghost use Rattle.rad_serve.specs.Counting.{tally_of};
    ghost use Rattle.rad_serve.specs.History.{state_after, Installs, Adds};
    ghost use Rattle.rad_serve.specs.Turn.{AddsTurn, answers_of, FitsAnswer};

    /// The log, as the runs left it.
    pub fn into_log(self) -> L
        ensures { result ≡ self.origin.0 }
    {
        let Hub { post, seat, .. } = self;
        match post.close(seat) {
            Ok(core) => core.into_log(),
            Err((_post, _seat)) => unreachable!(),
        }
    }

    /// Whether two more entries have room in the history. A datagram adds two at most.
    pub fn has_turns(&self) -> bool
        ensures { MatchBool result (length self.now.history + 2 ≤ 2 ^ 62) (2 ^ 62 ≤ length self.now.history + 1) }
    {
        self.length + 2 <= LONGEST
    }

    /// One datagram's whole way, whose entries are added to the history. The reply is left at the buffer's front.
    pub(crate) fn take<R: Wait, S: Shelf, G: Gate>(
        &mut self,
        rt: &R,
        arrival: &Arrival,
        luck: u64,
        shelf: &mut S,
        gate: &mut G,
        buffer: &mut [u8; 4096],
    ) -> Option<Reply>
        requires installed { IsSome (state_after self.old.history).present }
        requires few { length self.old.history + 2 ≤ 2 ^ 62 }
        requires auth { arrival.now.kind ≡ Auth }
        requires worker { arrival.now.worker ≡ 0 }
        ensures turn { AddsTurn self.old.history self.new.history (state_after self.old.history)
            (state_after self.new.history) (arrived_of arrival.entry.now) luck
            (answers_of (arrived_of arrival.entry.now) result buffer.new) }
        ensures fits { FitsAnswer result }
        ensures buffer { length buffer.new ≡ 4096 }
        ensures shelf { shelf.new ≡ shelf.old }
        ensures origin { self.new.origin ≡ self.old.origin }
    {
        let taken = take_turn(
            rt,
            self.alloc,
            &self.post,
            &mut self.seat,
            arrival,
            luck,
            shelf,
            gate,
            buffer,
        );
        self.length += taken.entries;
        self.tally = self.tally.with_request(taken.reply.is_some());
        taken.reply
    }

    /// Installs a generation of worker 0, as one entry of the history. Whether it is the present one now.
    pub fn install<R: Wait>(
        &mut self,
        rt: &R,
        generation: Arc<Generation>,
        listeners: &[Listen],
    ) -> bool
        requires { length self.old.history < 2 ^ 62 }
        ensures installed { Installs self.old.history self.new.history (arc_value generation) listeners.entry.now result }
        ensures origin { self.new.origin ≡ self.old.origin }
    {
        let Ok(answer) = self
            .post
            .install(rt, &mut self.seat, Ok(generation), listeners)
        else {
            unreachable!()
        };
        let installed = is_present(&answer);
        self.length += 1;
        self.tally = self.tally.with_load(installed);
        installed
    }

    /// Worker 0 looks at the server, as one entry of the history.
    pub(crate) fn look<R: Wait>(&mut self, rt: &R) -> Seen
        requires { length self.old.history < 2 ^ 62 }
        ensures added { Adds self.old.history self.new.history (Look 0 result) }
        ensures origin { self.new.origin ≡ self.old.origin }
    {
        let Ok(seen) = self.post.look(rt, &mut self.seat) else {
            unreachable!()
        };
        self.length += 1;
        seen
    }

    /// Worker 0 stops the server, as one entry of the history.
    pub(crate) fn stop<R: Wait>(&mut self, rt: &R)
        requires { length self.old.history < 2 ^ 62 }
        ensures added { Adds self.old.history self.new.history (Stop 0) }
        ensures origin { self.new.origin ≡ self.old.origin }
    {
        let Ok(()) = self.post.stop(rt, &mut self.seat) else {
            unreachable!()
        };
        self.length += 1;
    }

    /// What the history counts. It is legal.
    pub fn tally(&self) -> Tally
        ensures tally { result ≡ tally_of self.now.history }
        ensures legal { IsLegal site_meaning opening self.now.history }
    {
        self.tally
    }
}
