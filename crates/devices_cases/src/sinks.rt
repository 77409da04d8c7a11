//! `MemSink`: octets that are written, and writes that fail.

use crate::answers::{say, say_no_call, say_whether_done};
use rad_edge::MemSink;
use rad_outside::{NoMemory, Sink};
use shared_cases::{Case, Field, numbers};
use std::alloc::Global;

/// The answers of the sink of a case to its calls.
pub fn answers(alloc: Global, case: &Case) -> Result<Vec<u8>, NoMemory> {
    let mut sink = MemSink::new(alloc, numbers(alloc, case.text(b"failing"))?);
    let mut answers = Vec::new(alloc);
    for field in &case.fields {
        call(&mut sink, field, &mut answers)?;
    }
    Ok(answers)
}

/// Makes the call of a field, if it is one.
fn call(sink: &mut MemSink, field: &Field, answers: &mut Vec<u8>) -> Result<(), NoMemory> {
    match field.name.as_slice() {
        b"device" | b"failing" | b"gives" => Ok(()),
        b"write" => write(sink, field.text.as_slice(), answers),
        b"octets" => say_octets(sink.octets(), answers),
        name => say_no_call(answers, name),
    }
}

/// Writes octets to the sink.
fn write<S: Sink>(sink: &mut S, octets: &[u8], answers: &mut Vec<u8>) -> Result<(), NoMemory> {
    say_whether_done(answers, sink.write(octets))
}

/// Writes all octets that were written to a sink.
fn say_octets(octets: &[u8], answers: &mut Vec<u8>) -> Result<(), NoMemory> {
    say(answers, &[b"octets ", octets])
}
