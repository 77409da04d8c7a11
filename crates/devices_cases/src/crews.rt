//! `MemCrew`: kits that are handed out in order, and calls that fail.

ghost use Rattle.rad_edge.specs.MemCrew.{IsFresh};

use crate::answers::{parted, say, say_no_call};
use rad_edge::{ListClock, ListLuck, MemCrew, MemShelf, MemWire, OpenGate};
use rad_outside::{
    Crew, Gate, Kit, KitFault, Listen, ListenKind, NoMemory, Octets, Peer, Point, Wire,
};
use shared_cases::{Case, Field, decimal, numbers, push_number};
use std::alloc::Global;

type MemKit = Kit<MemWire, MemShelf, ListClock, ListLuck, OpenGate>;

type KitsInMemory = MemCrew<MemWire, MemShelf, ListClock, ListLuck, OpenGate>;

/// The answers of the crew of a case to its calls.
pub fn answers(alloc: Global, case: &Case) -> Result<Vec<u8>, NoMemory> {
    let mut crew = crew_of(alloc, case)?;
    let listen = Listen {
        server: Octets::of(alloc, b"default")?,
        kind: ListenKind::Auth,
        at: Peer {
            addr: 0,
            port: 1812,
        },
    };
    let mut answers = Vec::new(alloc);
    for field in &case.fields {
        call(alloc, &mut crew, &listen, field, &mut answers)?;
    }
    Ok(answers)
}

/// The crew that a case says.
fn crew_of(alloc: Global, case: &Case) -> Result<KitsInMemory, NoMemory> {
    let mut crew = MemCrew::new(alloc, numbers(alloc, case.text(b"failing"))?);
    for field in &case.fields {
        if field.name.as_slice() == b"kit".as_slice() {
            let (listener, rest) = parted(field.text.as_slice(), b' ');
            let listener = decimal(listener) % 0x0001_0000_0000;
            crew.add(kit_of(alloc, listener as u32, rest == b"control".as_slice()))?;
        }
    }
    Ok(crew)
}

/// A kit of empty devices, for the listener of a number.
fn kit_of(alloc: Global, listener: u32, with_control: bool) -> MemKit
    ensures { IsFresh ⟦<MemWire as Wire>⟧.failures_in_a_row result }
{
    let control = if with_control {
        Some(MemWire::new(alloc, Vec::new(alloc), Vec::new(alloc), Vec::new(alloc)))
    } else {
        None
    };
    Kit {
        listener,
        wire: MemWire::new(alloc, Vec::new(alloc), Vec::new(alloc), Vec::new(alloc)),
        control,
        shelf: MemShelf::new(alloc, Vec::new(alloc)),
        clock: ListClock::new(Vec::new(alloc)),
        luck: ListLuck::new(Vec::new(alloc)),
        gate: OpenGate,
    }
}

/// Makes the call of a field, if it is one.
fn call(
    alloc: Global,
    crew: &mut KitsInMemory,
    listen: &Listen,
    field: &Field,
    answers: &mut Vec<u8>,
) -> Result<(), NoMemory> {
    match field.name.as_slice() {
        b"device" | b"kit" | b"failing" | b"gives" => Ok(()),
        b"take" => say_kit(alloc, answers, take(alloc, crew, listen, None)),
        b"take_with_control" => say_kit(alloc, answers, take(alloc, crew, listen, Some(listen))),
        name => say_no_call(answers, name),
    }
}

/// The number of the listener of the kit that the crew hands out, after its gate was passed.
fn take<C: Crew<MemWire, MemShelf, ListClock, ListLuck, OpenGate>>(
    alloc: Global,
    crew: &mut C,
    listen: &Listen,
    control: Option<&Listen>,
) -> Result<u32, KitFault> {
    let mut kit = crew.kit(alloc, 0, listen, control)?;
    kit.gate.at(Point::BeforeSend, 1);
    Ok(kit.listener)
}

/// Writes the number of the listener of a kit, or that there was none.
fn say_kit(
    alloc: Global,
    answers: &mut Vec<u8>,
    listener: Result<u32, KitFault>,
) -> Result<(), NoMemory> {
    match listener {
        Ok(listener) => {
            answers.extend_from_slice(b"kit ")?;
            push_number(alloc, answers, u64::from(listener))?;
            say(answers, &[])
        }
        Err(KitFault::Failed) => say(answers, &[b"failed"]),
        Err(KitFault::NoMemory) => Err(NoMemory),
    }
}
