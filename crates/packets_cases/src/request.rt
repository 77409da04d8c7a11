//! What the cases say of a request: who sent it, and its octets.

use crate::spelled::octets_of;
use rad_outside::{NoMemory, Octets};
use rad_packet::Client;
use shared_cases::decimal;
use std::alloc::Global;

/// Code 1, Identifier 7, and the Request Authenticator of RFC 2865 section 7.1, parted by the place of Length.
const CODE_AND_IDENTIFIER: [u8; 2] = [1, 7];

const AUTHENTICATOR: [u8; 16] =
    *b"\x0f\x40\x3f\x94\x73\x97\x80\x57\xbd\x83\xd5\xcb\x98\xf4\x22\x7a";

/// The octets of Code, Identifier, Length and Authenticator.
const HEADER: usize = 20;

/// The client of this address and secret.
pub fn client(alloc: Global, address: &[u8], secret: &[u8]) -> Result<Client, NoMemory> {
    Ok(Client {
        name: Octets::of(alloc, b"nas")?,
        addr: address_of(address),
        bits: 32,
        secret: Octets::of(alloc, secret)?,
    })
}

/// The number of an address of four decimal numbers and dots.
fn address_of(text: &[u8]) -> u32 {
    let mut address = 0u32;
    for part in text.split(|octet| *octet == b'.') {
        let number = u8::try_from(decimal(part)).unwrap_or(u8::MAX);
        address = (address << 8) | u32::from(number);
    }
    address
}

/// The octets of a datagram: the whole of it, or behind the word `attributes` what follows the header of an
/// Access-Request.
pub fn datagram(alloc: Global, text: &[u8]) -> Result<Vec<u8>, NoMemory> {
    let Some(spelled) = text.strip_prefix(b"attributes") else {
        return octets_of(alloc, text);
    };
    let attributes = octets_of(alloc, spelled)?;
    let length = u16::try_from(attributes.len().saturating_add(HEADER)).unwrap_or(u16::MAX);
    let mut octets = Vec::from_slice(alloc, &CODE_AND_IDENTIFIER)?;
    octets.extend_from_slice(&length.to_be_bytes())?;
    octets.extend_from_slice(&AUTHENTICATOR)?;
    octets.extend_from_slice(attributes.as_slice())?;
    Ok(octets)
}
