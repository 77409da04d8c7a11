ghost use Rattle.std.specs.Prelude.{◌≡◌, ◌↔◌, Err, None, IfOk, IsSome, IsTrue};
ghost use Rattle.rad_outside.specs.Telling.{Counts};
ghost use Rattle.rad_edge.specs.Host.{HasKitWires, IsBoundTo, faults_after_kit};
ghost use Rattle.rad_edge.specs.MemCrew.{IsFresh};

use super::clock::HostClock;
use super::luck::PcgLuck;
use super::shelf::HostShelf;
use super::udp_wire::UdpWire;
use crate::mem::OpenGate;
use rad_outside::{Clock, Crew, Kit, KitFault, Listen, ListenKind, NoMemory, Octets, Wire};
use std::alloc::Global;
use std::net::Net;
use std::rt;

/// A listener, whose address is that of its socket.
#[derive(Drop)]
struct Bound<R> {
    server: Octets,
    kind: ListenKind,
    wire: UdpWire<R>,
}

/// The kits that a crew over UDP hands out.
pub type UdpKit<R> = Kit<UdpWire<R>, HostShelf<R>, HostClock<R>, PcgLuck, OpenGate>;

/// A crew that binds listeners to sockets of UDP. The wires of one listener share its socket. Who takes a kit numbers it.
#[derive(Drop)]
pub struct UdpCrew<R> {
    rt: R,
    bound: Vec<Bound<R>>,
    faults: u64,
}

impl<R: Net + rt::Clock + rt::Files + Eprint + Clone + Drop> UdpCrew<R> {
    /// A crew that has bound nothing yet.
    pub fn new(alloc: Global, rt: R) -> UdpCrew<R>
        ensures { ⟦<UdpCrew<R> as Crew<UdpWire<R>, HostShelf<R>, HostClock<R>, PcgLuck, OpenGate>>⟧.faults result ≡ 0 }
    {
        UdpCrew {
            rt,
            bound: Vec::new(alloc),
            faults: 0,
        }
    }
}

impl<R: Net + rt::Clock + rt::Files + Eprint + Clone + Drop> Crew<
    UdpWire<R>,
    HostShelf<R>,
    HostClock<R>,
    PcgLuck,
    OpenGate,
> for UdpCrew<R> {
    ghost told = { λ _. None };

    ghost faults = { λ c. c.faults };

    /// A kit whose words come from a generator whose seed is the clock's seconds plus the worker's number.
    fn kit(
        &mut self,
        alloc: Global,
        worker: u32,
        listen: &Listen,
        control: Option<&Listen>,
    ) -> Result<UdpKit<R>, KitFault>
        ensures faults { Counts self.old.faults self.new.faults (result ≡ Err KitFault.Failed) }
        ensures control { IfOk result (λ kit. IsSome kit.control ↔ IsSome control.entry) }
        ensures fresh { IfOk result (IsFresh ⟦<UdpWire<R> as Wire>⟧.failures_in_a_row) }
        ensures exact { self.new.faults ≡ faults_after_kit result self.old.faults }
        ensures wires { IfOk result (HasKitWires listen.now control.entry) }
    {
        let made = make_kit(&self.rt, alloc, &mut self.bound, worker, listen, control);
        if matches!(&made, Err(KitFault::Failed)) {
            self.faults = self.faults.saturating_add(1);
        }
        made
    }
}

/// A kit whose wires are bound.
fn make_kit<R: Net + rt::Clock + rt::Files + Eprint + Clone + Drop>(
    rt: &R,
    alloc: Global,
    bound: &mut Vec<Bound<R>>,
    worker: u32,
    listen: &Listen,
    control: Option<&Listen>,
) -> Result<UdpKit<R>, KitFault>
    ensures control { IfOk result (λ kit. IsSome kit.control ↔ IsSome control.entry) }
    ensures wires { IfOk result (HasKitWires listen.now control.entry) }
{
    let wire = wire_of(rt, alloc, bound, listen)?;
    let control = match control {
        Some(control) => Some(wire_of(rt, alloc, bound, control)?),
        None => None,
    };
    let mut clock = HostClock::new(copy_of(rt)?);
    let seed = clock.now().wrapping_add(u64::from(worker));
    Ok(Kit {
        listener: 0,
        wire,
        control,
        shelf: HostShelf::new(copy_of(rt)?),
        clock,
        luck: PcgLuck::new(seed),
        gate: OpenGate,
    })
}

/// Another handle of the runtime.
fn copy_of<R: Clone>(rt: &R) -> Result<R, KitFault> {
    rt.clone().map_err(|_| KitFault::NoMemory)
}

/// A wire over a listener's socket, which is bound where the listener is met first.
fn wire_of<R: Net + Eprint + Clone + Drop>(
    rt: &R,
    alloc: Global,
    bound: &mut Vec<Bound<R>>,
    listen: &Listen,
) -> Result<UdpWire<R>, KitFault>
    ensures { IfOk result (IsBoundTo listen.now.at) }
{
    for b in bound.iter() {
        if is_of(b, listen) {
            return share(&b.wire);
        }
    }
    let wire = UdpWire::bind(copy_of(rt)?, listen.at).map_err(|_| KitFault::Failed)?;
    let shared = share(&wire)?;
    note(alloc, bound, listen, wire).map_err(|_| KitFault::NoMemory)?;
    Ok(shared)
}

/// Keeps a listener's socket.
fn note<R: Drop>(
    alloc: Global,
    bound: &mut Vec<Bound<R>>,
    listen: &Listen,
    wire: UdpWire<R>,
) -> Result<(), NoMemory> {
    let server = Octets::of(alloc, listen.server.as_slice())?;
    bound.push(Bound {
        server,
        kind: listen.kind,
        wire,
    })?;
    Ok(())
}

/// Whether this is the listener's socket.
fn is_of<R: Net + Eprint + Clone>(bound: &Bound<R>, listen: &Listen) -> bool
    ensures { IsTrue result
        ↔ (bound.now.kind ≡ listen.now.kind) × (bound.now.wire.at ≡ listen.now.at) × (bound.now.server ≡ listen.now.server) }
{
    bound.kind == listen.kind
        && bound.wire.address() == listen.at
        && bound.server.as_slice() == listen.server.as_slice()
}

/// Another wire over the same socket.
fn share<R: Net + Eprint + Clone>(wire: &UdpWire<R>) -> Result<UdpWire<R>, KitFault>
    ensures { IfOk result (IsBoundTo wire.now.at) }
{
    match wire.share() {
        Ok(wire) => Ok(wire),
        Err(_) => Err(KitFault::Failed),
    }
}
