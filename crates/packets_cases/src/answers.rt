//! `accepts_reply`: which replies answer a request.

use crate::spelled::octets_of;
use rad_outside::NoMemory;
use rad_wire::{ReplyFault, accepts_reply};
use shared_cases::{Case, Subject};
use std::alloc::Global;

/// The octets of a packet's header.
const HEADER: usize = 20;

/// A secret, a request and a reply, for the reply's code or why it isn't accepted.
#[derive(Drop)]
pub struct AnswerCases;

impl Subject for AnswerCases {
    fn answer(&mut self, alloc: Global, case: &Case) -> Result<Vec<u8>, NoMemory> {
        let request = octets_of(alloc, case.cell(1))?;
        let reply = octets_of(alloc, case.cell(2))?;
        if request.len() < HEADER {
            return Ok(Vec::from_slice(alloc, b"a request has a header")?);
        }
        match accepts_reply(request.as_slice(), reply.as_slice(), case.cell(0)) {
            Ok(code) => Ok(format!(in alloc; "code {code}")?.into_bytes()),
            Err(fault) => Ok(Vec::from_slice(alloc, word_of(fault))?),
        }
    }
}

/// The word for a fault.
fn word_of(fault: ReplyFault) -> &'static [u8] {
    match fault {
        ReplyFault::Short => b"Short",
        ReplyFault::BadLength => b"BadLength",
        ReplyFault::WrongCode => b"WrongCode",
        ReplyFault::WrongId => b"WrongId",
        ReplyFault::BadAttribute => b"BadAttribute",
        ReplyFault::BadAuthenticator => b"BadAuthenticator",
        ReplyFault::BadMessageAuthenticator => b"BadMessageAuthenticator",
    }
}
