//! What runs did, as lines.

use rad_edge::{MemSink, MemWire};
use rad_outside::NoMemory;
use shared_cases::{push_number, push_printed, push_sent};
use std::alloc::Global;

/// Writes a run: its status, the lines that it printed, and what it sent.
pub fn push_run(
    alloc: Global,
    to: &mut Vec<u8>,
    status: u8,
    out: &MemSink,
    wire: &MemWire,
) -> Result<(), NoMemory> {
    to.extend_from_slice(b"status ")?;
    push_number(alloc, to, u64::from(status))?;
    to.push(b'\n')?;
    push_printed(to, out.octets())?;
    for sent in wire.sent() {
        push_sent(alloc, to, sent)?;
    }
    Ok(())
}
