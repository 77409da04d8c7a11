ghost use Rattle.std.specs.Prelude.{◌≡◌, ◌≤◌, ◌⊎◌, ◌++◌, [], Some, IfErr, OnOk, IsTrue};
ghost use Rattle.std.specs.List.{AllByRecursion};
ghost use Rattle.rad_outside.specs.Telling.{Tells, Rose};
ghost use Rattle.radiusd.specs.Course.{Serving, IsExcused, HasDeafWire, status_line};
ghost use Rattle.radiusd.specs.Headline.{Headline};
ghost use Rattle.rad_serve.specs.History.{state_after, IsFull};
ghost use Rattle.rad_serve.specs.Leaving.{IsAtEnd};
ghost use Rattle.radiusd.specs.Lines.{listening_line, counts_line};
ghost use Rattle.rad_outside.specs.Printing.{Prints, PrintsWhole};
ghost use Rattle.radiusd.specs.Printing.{IsCutShort};
ghost use Rattle.radiusd.specs.ExitStatuses.{IsServing, number_of};

use crate::install::install;
use crate::lines::{counts_line, listening_line};
use crate::printing::say;
use crate::status::Status;
use rad_outside::{Clock, Crew, Gate, Kit, KitFault, Listen, Luck, Octets, Shelf, Sink, Wire};
use rad_serve::{Counts, Hub, Left, WORKER, counts_between, serve};
use rad_site::Generation;
use std::alloc::Global;
use std::sync::Wait;

/// What is printed where a socket couldn't be had, or a worker was deaf.
const SOCKET_FAULT: &[u8] = b"socket fault\n";

/// What is printed where the history is full.
const WORN: &[u8] = b"worn 4611686018427387904\n";

/// Prints the line of a listener.
fn say_listening<O: Sink>(alloc: Global, out: &mut O, listen: &Listen) -> Result<(), Status>
    ensures ok { OnOk result (Tells (O.told out.old) (O.told out.new)
        (PrintsWhole (listening_line listen.now.server listen.now.at))) }
    ensures err { IfErr result (IsCutShort (listening_line listen.now.server listen.now.at)
        (O.told out.old) (O.told out.new) (O.faults out.old) (O.faults out.new)) }
    ensures later { O.faults out.old ≤ O.faults out.new }
{
    match listening_line(alloc, listen.server.as_slice(), listen.at) {
        Ok(line) => match say(out, line.as_slice()) {
            Ok(()) => Ok(()),
            Err(status) => Err(status),
        },
        Err(_) => Err(Status::NoMemory),
    }
}

/// Prints the counts of a run whose status has a line of its own, and that line.
fn close_failed<O: Sink>(out: &mut O, counts: &Octets, line: &[u8])
    ensures printed { Tells (O.told out.old) (O.told out.new) (Prints (counts.now ++ line.now)
        (Rose (O.faults out.old) (O.faults out.new))) }
    ensures later { O.faults out.old ≤ O.faults out.new }
{
    match say(out, counts.as_slice()) {
        Ok(()) => {
            let _ = say(out, line);
        }
        Err(_) => {}
    }
}

/// Prints the counts of a run whose worker came to its end.
fn close_served<O: Sink>(out: &mut O, counts: &Octets) -> Status
    ensures printed { Tells (O.told out.old) (O.told out.new) (Prints counts.now
        (Rose (O.faults out.old) (O.faults out.new))) }
    ensures status { (result ≡ Status.Done) ⊎ ((result ≡ Status.PrintFault) × Rose (O.faults out.old) (O.faults out.new)) }
    ensures later { O.faults out.old ≤ O.faults out.new }
{
    match say(out, counts.as_slice()) {
        Ok(()) => Status::Done,
        Err(status) => status,
    }
}

/// Prints the counts of a run, and what else stands at the end of one whose worker left so.
fn close<O: Sink>(alloc: Global, out: &mut O, counts: Counts, left: Left) -> Status
    ensures printed { Tells (O.told out.old) (O.told out.new) (Prints (counts_line counts ++ status_line (number_of result))
        (IsExcused (O.faults out.old) (O.faults out.new) (number_of result))) }
    ensures serving { IsServing result }
    ensures done { result ≡ Status.Done → IsAtEnd (Some left) }
    ensures deaf { result ≡ Status.SocketFault → left ≡ Left.Deaf }
    ensures worn { result ≡ Status.Worn → left ≡ Left.Worn }
    ensures fault { result ≡ Status.PrintFault → Rose (O.faults out.old) (O.faults out.new) }
    ensures later { O.faults out.old ≤ O.faults out.new }
{
    let Ok(counts) = counts_line(alloc, counts) else {
        return Status::NoMemory;
    };
    match left {
        Left::Stopped | Left::Ended => close_served(out, &counts),
        Left::Deaf => {
            close_failed(out, &counts, SOCKET_FAULT);
            Status::SocketFault
        }
        Left::Worn => {
            close_failed(out, &counts, WORN);
            Status::Worn
        }
    }
}

/// The status of a crew that handed out no kit.
fn status_of(fault: KitFault) -> Status
    ensures { ((result ≡ Status.SocketFault) × (fault ≡ KitFault.Failed)) ⊎ (result ≡ Status.NoMemory) }
{
    match fault {
        KitFault::NoMemory => Status::NoMemory,
        KitFault::Failed => Status::SocketFault,
    }
}

/// Prints the line of the status of a run that has no kit, if it has one.
fn end_without_kit<O: Sink>(out: &mut O, ended: Status) -> Status
    ensures printed { Tells (O.told out.old) (O.told out.new) (Prints (status_line (number_of ended))
        (IsExcused (O.faults out.old) (O.faults out.new) (number_of ended))) }
    ensures status { result ≡ ended }
    ensures later { O.faults out.old ≤ O.faults out.new }
{
    match ended {
        Status::SocketFault => {
            let _ = say(out, SOCKET_FAULT);
        }
        Status::Worn => {
            let _ = say(out, WORN);
        }
        Status::Done
        | Status::Words
        | Status::Configuration
        | Status::ReadFault
        | Status::PrintFault
        | Status::NoMemory => {}
    }
    ended
}

/// Serves a site: installs its generation, takes a kit for its listener and serves it until its worker leaves.
pub(crate) fn serve_site<R, W, S, K, U, G, C, L, O>(
    rt: &R,
    alloc: Global,
    generation: Generation,
    crew: &mut C,
    kits: &mut Vec<Kit<W, S, K, U, G>>,
    hub: &mut Hub<L>,
    out: &mut O,
) -> Status
where
    R: Wait,
    W: Wire + Drop,
    S: Shelf + Drop,
    K: Clock + Drop,
    U: Luck + Drop,
    G: Gate + Drop,
    C: Crew<W, S, K, U, G>,
    L: Shelf,
    O: Sink,
    requires { kits.old.items ≡ [] }
    ensures headline { Headline (record { wire = W.told; clock = K.told; luck = U.told; failures = W.failures_in_a_row; has_ended = W.has_ended })
        (Serving generation) (number_of result) (C.told crew.old) (C.told crew.new) hub.old.origin hub.new.origin
        (O.told out.old) (O.told out.new) (O.faults out.old) (O.faults out.new) hub.old.history hub.new.history kits.new.items }
    ensures serving { IsServing result }
    ensures over { result ≡ Status.Done → IsTrue (state_after hub.new.history).is_stopped
        ⊎ AllByRecursion (λ kit. IsTrue (W.has_ended kit.wire)) kits.new.items }
    ensures socket { result ≡ Status.SocketFault → Rose (C.faults crew.old) (C.faults crew.new)
        ⊎ HasDeafWire W.failures_in_a_row kits.new.items }
    ensures print { result ≡ Status.PrintFault → Rose (O.faults out.old) (O.faults out.new) }
    ensures worn { result ≡ Status.Worn → IsFull hub.new.history }
{
    let before = hub.tally();
    let listen = match install(rt, alloc, hub, generation) {
        Ok(listen) => listen,
        Err(status) => return end_without_kit(out, status),
    };
    let loaded = hub.tally();
    if kits.reserve(1).is_err() {
        return Status::NoMemory;
    }
    let mut kit = match crew.kit(alloc, WORKER, &listen, None) {
        Ok(kit) => kit,
        Err(fault) => return end_without_kit(out, status_of(fault)),
    };
    kit.listener = 0;
    if let Err(status) = say_listening(alloc, out, &listen) {
        kits.push_reserved(kit);
        return status;
    }
    let left = serve(rt, hub, &mut kit, &listen);
    kits.push_reserved(kit);
    let counts = counts_between(before, loaded, hub.tally());
    close(alloc, out, counts, left)
}
