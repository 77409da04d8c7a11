//! `check`: datagrams that are taken, and those that are dropped, by their cause.

use crate::request::client;
use crate::spelled::octets_of;
use rad_outside::{ListenKind, NoMemory};
use rad_packet::{Checked, Client, DropCause, check};
use shared_cases::{Case, Subject};
use std::alloc::Global;

/// A kind of listener, a client's secret or `-` for a stranger, and a datagram's octets, for what `check` says of them.
#[derive(Drop)]
pub struct DropCases;

impl Subject for DropCases {
    fn answer(&mut self, alloc: Global, case: &Case) -> Result<Vec<u8>, NoMemory> {
        let sender = sender(alloc, case.cell(1))?;
        let octets = octets_of(alloc, case.cell(2))?;
        match check(octets.as_slice(), sender.as_ref(), kind_of(case.cell(0))) {
            Ok(packet) => shown(alloc, &packet),
            Err(cause) => Ok(Vec::from_slice(alloc, word_of(cause))?),
        }
    }
}

/// The kind of listener of this word; a control listener for any but `auth` and `acct`.
fn kind_of(word: &[u8]) -> ListenKind {
    match word {
        b"auth" => ListenKind::Auth,
        b"acct" => ListenKind::Acct,
        _ => ListenKind::Control,
    }
}

/// The client of a secret, or none for a stranger.
fn sender(alloc: Global, secret: &[u8]) -> Result<Option<Client>, NoMemory> {
    Ok(match secret {
        b"-" => None,
        _ => Some(client(alloc, b"192.168.1.16", secret)?),
    })
}

/// What is known of a packet that was taken: its code, its identifier, and how many octets it has.
fn shown(alloc: Global, packet: &Checked) -> Result<Vec<u8>, NoMemory> {
    let (code, identifier, length) = (packet.code, packet.id, packet.octets.len());
    let text = format!(in alloc; "code {code} identifier {identifier} length {length}")?;
    Ok(text.into_bytes())
}

/// The word for a cause.
fn word_of(cause: DropCause) -> &'static [u8] {
    match cause {
        DropCause::UnknownClient => b"UnknownClient",
        DropCause::Short => b"Short",
        DropCause::BadLength => b"BadLength",
        DropCause::WrongCode => b"WrongCode",
        DropCause::BadAttribute => b"BadAttribute",
        DropCause::BadAuthenticator => b"BadAuthenticator",
        DropCause::BadMessageAuthenticator => b"BadMessageAuthenticator",
    }
}
