//! How an address and a port are written: `192.168.1.16:1234`.

use crate::spelling::{decimal, push_number};
use rad_outside::{NoMemory, Peer};
use std::alloc::Global;

/// The address and the port that a text says.
pub fn peer_of(text: &[u8]) -> Peer {
    let mut parts = text.split(|octet| *octet == b':');
    let mut addr = 0u32;
    for part in parts.next().unwrap_or(&[]).split(|octet| *octet == b'.') {
        let part = u32::try_from(decimal(part)).unwrap_or(0);
        addr = (addr & 0xff_ffff) * 256 + (part & 255);
    }
    let port = u16::try_from(decimal(parts.next().unwrap_or(&[]))).unwrap_or(0);
    Peer { addr, port }
}

/// Writes an address and a port.
pub fn push_peer(alloc: Global, to: &mut Vec<u8>, peer: Peer) -> Result<(), NoMemory> {
    let mut sign = b"".as_slice();
    for part in peer.addr.to_be_bytes() {
        to.extend_from_slice(sign)?;
        push_number(alloc, to, u64::from(part))?;
        sign = b".";
    }
    to.push(b':')?;
    push_number(alloc, to, u64::from(peer.port))
}
