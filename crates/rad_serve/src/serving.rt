ghost use Rattle.std.specs.Prelude.{◌≡◌, ◌≤◌, ◌<◌, ◌+◌, ◌^◌, length, IsSome, Some};
ghost use Rattle.rad_outside.specs.declared.listen.ListenKind.TheVariants.{Auth};
ghost use Rattle.rad_serve.specs.History.{state_after};
ghost use Rattle.rad_serve.specs.Serving.{Serves, GoesOn, left_of, IsCounted};

use crate::hub::Hub;
use crate::left::Left;
use rad_outside::{Clock, Gate, Got, Kit, Listen, Luck, Peer, Point, Shelf, Wire};
use rad_policy::Arrival;
use std::sync::Wait;

/// The worker that serves.
pub const WORKER: u32 = 0;

/// After so many failures of its wire in a row a worker is deaf.
const DEAF: u64 = 100;

/// What became of a worker in one pass.
#[derive(Clone, Copy, Debug, PartialEq, Eq)]
pub(crate) enum Passed {
    /// It serves on. So many of its wire's last asks failed.
    On(u64),
    Leaving(Left),
}

/// Serves one datagram that the kit's wire gave: its arrival is taken through the core, and its reply, if there is
/// one, is handed to the wire once.
fn serve_datagram<R: Wait, L: Shelf, W: Wire, S: Shelf, K: Clock, U: Luck, G: Gate>(
    rt: &R,
    hub: &mut Hub<L>,
    kit: &mut Kit<W, S, K, U, G>,
    listen: &Listen,
    from: Peer,
    octets: &[u8],
)
    requires installed { IsSome (state_after hub.old.history).present }
    requires few { length hub.old.history + 2 ≤ 2 ^ 62 }
    requires auth { listen.now.kind ≡ Auth }
    ensures serves { Serves (record { wire = W.told; clock = K.told; luck = U.told; failures = W.failures_in_a_row; has_ended = W.has_ended })
        0 listen.now hub.old.history hub.new.history kit.old kit.new from octets.now }
    ensures origin { hub.new.origin ≡ hub.old.origin }
{
    let arrival = Arrival {
        worker: WORKER,
        listener: kit.listener,
        kind: listen.kind,
        server: listen.server.as_slice(),
        from,
        bytes: octets,
        now: kit.clock.now(),
    };
    let luck = kit.luck.word();
    let mut buffer = [0; 4096];
    let reply = hub.take(
        rt,
        &arrival,
        luck,
        &mut kit.shelf,
        &mut kit.gate,
        &mut buffer,
    );
    if let Some(reply) = reply {
        kit.gate.at(Point::BeforeSend, reply.place);
        let (octets, _) = buffer.split_at(reply.length);
        let _ = kit.wire.send(from, octets);
    }
}

/// Asks the kit's wire once and serves what it gives. The wire isn't asked where what it gives may find no room in the
/// history. Where nothing came the worker looks, and leaves if a stop came; where the wire failed 100 times in a row it
/// stops the server and leaves.
fn pass<R: Wait, L: Shelf, W: Wire, S: Shelf, K: Clock, U: Luck, G: Gate>(
    rt: &R,
    hub: &mut Hub<L>,
    kit: &mut Kit<W, S, K, U, G>,
    listen: &Listen,
    failures: u64,
) -> Passed
    requires installed { IsSome (state_after hub.old.history).present }
    requires auth { listen.now.kind ≡ Auth }
    requires counted { failures ≡ W.failures_in_a_row kit.old.wire }
    requires few { failures < 100 }
    ensures goes_on { GoesOn (record { wire = W.told; clock = K.told; luck = U.told; failures = W.failures_in_a_row; has_ended = W.has_ended })
        0 listen.now (left_of result) hub.old.history hub.new.history kit.old kit.new }
    ensures counted { IsCounted result (W.failures_in_a_row kit.new.wire) }
    ensures origin { hub.new.origin ≡ hub.old.origin }
{
    if !hub.has_turns() {
        return Passed::Leaving(Left::Worn);
    }
    let mut buffer = [0; 4096];
    match kit.wire.recv(&mut buffer) {
        Got::Datagram(count, from) => {
            let (octets, _) = buffer.split_at(count);
            serve_datagram(rt, hub, kit, listen, from, octets);
            Passed::On(0)
        }
        Got::Quiet => {
            let seen = hub.look(rt);
            if seen.stopped {
                Passed::Leaving(Left::Stopped)
            } else {
                Passed::On(0)
            }
        }
        Got::Failed => {
            if failures + 1 < DEAF {
                return Passed::On(failures + 1);
            }
            hub.stop(rt);
            Passed::Leaving(Left::Deaf)
        }
        Got::Ended => Passed::Leaving(Left::Ended),
    }
}

/// Serves a kit until its worker leaves: its wire has ended, a stop came, the wire failed 100 times in a row, or the
/// history is full.
pub fn serve<R: Wait, L: Shelf, W: Wire, S: Shelf, K: Clock, U: Luck, G: Gate>(
    rt: &R,
    hub: &mut Hub<L>,
    kit: &mut Kit<W, S, K, U, G>,
    listen: &Listen,
) -> Left
    requires installed { IsSome (state_after hub.old.history).present }
    requires auth { listen.now.kind ≡ Auth }
    requires fresh { W.failures_in_a_row kit.old.wire ≡ 0 }
    ensures goes_on { GoesOn (record { wire = W.told; clock = K.told; luck = U.told; failures = W.failures_in_a_row; has_ended = W.has_ended })
        0 listen.now (Some result) hub.old.history hub.new.history kit.old kit.new }
    ensures origin { hub.new.origin ≡ hub.old.origin }
{
    let mut failures = 0;
    for _ in rt.forever() {
        match pass(rt, hub, kit, listen, failures) {
            Passed::On(count) => failures = count,
            Passed::Leaving(left) => return left,
        }
    }
    unreachable!()
}
