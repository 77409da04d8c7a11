//! What a run printed and sent, as lines.

use crate::peers::push_peer;
use crate::spelling::push_hexadecimal;
use rad_outside::{NoMemory, Sent};
use std::alloc::Global;

/// Writes each line that was printed. What stands behind the last newline is an unended line.
pub fn push_printed(to: &mut Vec<u8>, printed: &[u8]) -> Result<(), NoMemory> {
    let mut is_first = true;
    let mut last: &[u8] = &[];
    for line in printed.split(|octet| *octet == b'\n') {
        if !is_first {
            push_line(to, b"printed ", last)?;
        }
        is_first = false;
        last = line;
    }
    if last.is_empty() {
        return Ok(());
    }
    push_line(to, b"printed without its newline ", last)
}

fn push_line(to: &mut Vec<u8>, front: &[u8], text: &[u8]) -> Result<(), NoMemory> {
    to.extend_from_slice(front)?;
    to.extend_from_slice(text)?;
    to.push(b'\n')?;
    Ok(())
}

/// Writes a datagram that was handed to the wire.
pub fn push_sent(alloc: Global, to: &mut Vec<u8>, sent: &Sent) -> Result<(), NoMemory> {
    to.extend_from_slice(if sent.done { b"sent " } else { b"not sent " })?;
    push_peer(alloc, to, sent.to)?;
    to.push(b' ')?;
    push_hexadecimal(to, sent.octets.as_slice())?;
    to.push(b'\n')?;
    Ok(())
}
