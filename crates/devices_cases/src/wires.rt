//! `MemWire`: a script of datagrams and quiet whiles, and receives and sends that fail.

use crate::answers::{parted, say, say_no_call, say_whether_done, say_whether_telling};
use rad_edge::{Cue, MemWire};
use rad_outside::{Got, Heard, NoMemory, Octets, Peer, Sent, Wire};
use shared_cases::{Case, Field, decimal, numbers, peer_of, push_peer};
use std::alloc::Global;

/// The answers of the wire of a case to its calls.
pub fn answers(alloc: Global, case: &Case) -> Result<Vec<u8>, NoMemory> {
    let mut wire = wire_of(alloc, case)?;
    let mut answers = Vec::new(alloc);
    for field in &case.fields {
        call(alloc, &mut wire, field, &mut answers)?;
    }
    Ok(answers)
}

/// The wire that a case says.
fn wire_of(alloc: Global, case: &Case) -> Result<MemWire, NoMemory> {
    let mut script = Vec::new(alloc);
    for field in &case.fields {
        match field.name.as_slice() {
            b"datagram" => {
                let (from, octets) = parted(field.text.as_slice(), b' ');
                script.push(Cue::Datagram(Octets::of(alloc, octets)?, peer_of(from)))?;
            }
            b"quiet" => script.push(Cue::Quiet)?,
            _ => {}
        }
    }
    let receives = numbers(alloc, case.text(b"failing_receives"))?;
    let sends = numbers(alloc, case.text(b"failing_sends"))?;
    Ok(MemWire::new(alloc, script, receives, sends))
}

/// Makes the call of a field, if it is one.
fn call(
    alloc: Global,
    wire: &mut MemWire,
    field: &Field,
    answers: &mut Vec<u8>,
) -> Result<(), NoMemory> {
    match field.name.as_slice() {
        b"device" | b"datagram" | b"quiet" | b"failing_receives" | b"failing_sends" | b"gives" => {
            Ok(())
        }
        b"receive" => receive(alloc, wire, decimal(field.text.as_slice()), answers),
        b"send" => send(wire, field.text.as_slice(), answers),
        b"heard" => say_heard(alloc, wire.heard(), answers),
        b"sent" => say_sent(alloc, wire.sent(), answers),
        b"is_telling" => say_whether_telling(answers, wire.is_telling()),
        name => say_no_call(answers, name),
    }
}

/// Asks the wire so many times.
fn receive<W: Wire>(
    alloc: Global,
    wire: &mut W,
    times: u64,
    answers: &mut Vec<u8>,
) -> Result<(), NoMemory> {
    let mut buffer = [0u8; 4096];
    for _ in 0..times {
        match wire.recv(&mut buffer) {
            Got::Datagram(count, from) => {
                let octets = buffer.get(..count).unwrap_or(&[]);
                say_datagram(alloc, answers, from, octets)?;
            }
            Got::Quiet => say(answers, &[b"quiet"])?,
            Got::Ended => say(answers, &[b"ended"])?,
            Got::Failed => say(answers, &[b"failed"])?,
        }
    }
    Ok(())
}

/// Hands the wire what stands behind an address.
fn send<W: Wire>(wire: &mut W, text: &[u8], answers: &mut Vec<u8>) -> Result<(), NoMemory> {
    let (to, octets) = parted(text, b' ');
    say_whether_done(answers, wire.send(peer_of(to), octets))
}

/// Writes what the wire recorded of its answers.
fn say_heard(alloc: Global, heard: &[Heard], answers: &mut Vec<u8>) -> Result<(), NoMemory> {
    for answer in heard {
        answers.extend_from_slice(b"heard ")?;
        match answer {
            Heard::Datagram(octets, from) => {
                say_datagram(alloc, answers, *from, octets.as_slice())?;
            }
            Heard::Quiet => say(answers, &[b"quiet"])?,
            Heard::Ended => say(answers, &[b"ended"])?,
            Heard::Failed => say(answers, &[b"failed"])?,
        }
    }
    Ok(())
}

/// Writes what the wire recorded of the datagrams that were handed in.
fn say_sent(alloc: Global, sent: &[Sent], answers: &mut Vec<u8>) -> Result<(), NoMemory> {
    for send in sent {
        if send.done {
            answers.extend_from_slice(b"sent done ")?;
        } else {
            answers.extend_from_slice(b"sent failed ")?;
        }
        say_datagram(alloc, answers, send.to, send.octets.as_slice())?;
    }
    Ok(())
}

/// Writes a datagram and the address that it came from or went to.
fn say_datagram(
    alloc: Global,
    answers: &mut Vec<u8>,
    peer: Peer,
    octets: &[u8],
) -> Result<(), NoMemory> {
    answers.extend_from_slice(b"datagram ")?;
    push_peer(alloc, answers, peer)?;
    say(answers, &[b" ", octets])
}
