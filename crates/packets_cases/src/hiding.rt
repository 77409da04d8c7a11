//! `hide` and `reveal`: passwords as a User-Password carries them.

use crate::spelled::{as_wanted, octets_of};
use rad_outside::NoMemory;
use rad_packet::{HideFault, RevealFault, hide, reveal};
use shared_cases::{Case, Subject};
use std::alloc::Global;

/// `hide` or `reveal`, a secret, a Request Authenticator and octets, for the octets that come of them.
#[derive(Drop)]
pub struct HidingCases;

impl Subject for HidingCases {
    fn answer(&mut self, alloc: Global, case: &Case) -> Result<Vec<u8>, NoMemory> {
        let secret = case.cell(1);
        let authenticator = octets_of(alloc, case.cell(2))?;
        let Ok(authenticator) = <&[u8; 16]>::try_from(authenticator.as_slice()) else {
            return Ok(Vec::from_slice(alloc, b"an authenticator has 16 octets")?);
        };
        let octets = octets_of(alloc, case.cell(3))?;
        let wanted = case.text(b"gives");
        match case.cell(0) {
            b"hide" => hidden(alloc, octets.as_slice(), secret, authenticator, wanted),
            b"reveal" => revealed(alloc, octets.as_slice(), secret, authenticator, wanted),
            _ => Ok(Vec::from_slice(alloc, b"neither hide nor reveal")?),
        }
    }
}

/// What hiding a password gives.
fn hidden(
    alloc: Global,
    password: &[u8],
    secret: &[u8],
    authenticator: &[u8; 16],
    wanted: &[u8],
) -> Result<Vec<u8>, NoMemory> {
    match hide(alloc, password, secret, authenticator) {
        Ok(octets) => as_wanted(alloc, wanted, octets.as_slice()),
        Err(HideFault::TooLong(count)) => { Ok(format!(in alloc; "TooLong {count}")?.into_bytes()) }
        Err(HideFault::NoMemory) => Err(NoMemory),
    }
}

/// What revealing octets gives.
fn revealed(
    alloc: Global,
    octets: &[u8],
    secret: &[u8],
    authenticator: &[u8; 16],
    wanted: &[u8],
) -> Result<Vec<u8>, NoMemory> {
    match reveal(alloc, octets, secret, authenticator) {
        Ok(password) => as_wanted(alloc, wanted, password.as_slice()),
        Err(RevealFault::BadLength(count)) => {
            Ok(format!(in alloc; "BadLength {count}")?.into_bytes())
        }
        Err(RevealFault::NoMemory) => Err(NoMemory),
    }
}
