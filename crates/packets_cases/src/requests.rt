//! `request_bytes`: the octets of requests.

use crate::pair_reading::push_pairs;
use crate::spelled::{as_wanted, octets_of};
use rad_outside::NoMemory;
use rad_value::{ListName, Lists};
use rad_wire::{RequestFault, request_bytes};
use shared_cases::{Case, Subject, decimal};
use std::alloc::Global;

/// A secret, a code, an Identifier, a Request Authenticator and pairs, for the request's octets.
#[derive(Drop)]
pub struct RequestCases;

impl Subject for RequestCases {
    fn answer(&mut self, alloc: Global, case: &Case) -> Result<Vec<u8>, NoMemory> {
        let mut lists = Lists::new(alloc);
        if push_pairs(alloc, &mut lists, ListName::Request, case.text(b"pairs"))? {
            request(alloc, case, &lists)
        } else {
            Ok(Vec::from_slice(alloc, b"a line is no pair")?)
        }
    }
}

/// The request of a case, with the pairs of these lists.
fn request(alloc: Global, case: &Case, lists: &Lists) -> Result<Vec<u8>, NoMemory> {
    let authenticator = octets_of(alloc, case.text(b"authenticator"))?;
    let Ok(authenticator) = <&[u8; 16]>::try_from(authenticator.as_slice()) else {
        return Ok(Vec::from_slice(alloc, b"an authenticator has 16 octets")?);
    };
    let code = octet_of(case.text(b"code"));
    let identifier = octet_of(case.text(b"identifier"));
    let secret = case.text(b"secret");
    match request_bytes(alloc, code, identifier, authenticator, lists, secret) {
        Ok(octets) => as_wanted(alloc, case.text(b"gives"), octets.as_slice()),
        Err(RequestFault::PasswordTooLong(count)) => {
            Ok(format!(in alloc; "PasswordTooLong {count}")?.into_bytes())
        }
        Err(RequestFault::TooLong(count)) => {
            Ok(format!(in alloc; "TooLong {count}")?.into_bytes())
        }
        Err(RequestFault::NoMemory) => Err(NoMemory),
    }
}

/// The octet of decimal digits, at most 255.
fn octet_of(digits: &[u8]) -> u8 {
    u8::try_from(decimal(digits)).unwrap_or(u8::MAX)
}
