//! `decode`: the pairs of a request.

use crate::pair_writing::pairs_text;
use crate::request::{client, datagram};
use rad_dict::{Dict, DictFault};
use rad_edge::MemFiles;
use rad_outside::{ListenKind, NoMemory};
use rad_packet::check;
use rad_value::{ListName, Lists};
use rad_wire::decode;
use shared_cases::{Case, Subject};
use std::alloc::Global;

/// A secret, the lines of a dictionary beyond the base, and a request, for the request's pairs.
#[derive(Drop)]
pub struct DecodeCases;

impl Subject for DecodeCases {
    fn answer(&mut self, alloc: Global, case: &Case) -> Result<Vec<u8>, NoMemory> {
        match dictionary(alloc, case.cell(1))? {
            Some(dict) => pairs(alloc, case.cell(0), &dict, case.cell(2)),
            None => Ok(Vec::from_slice(alloc, b"the dictionary has a fault")?),
        }
    }
}

/// The pairs of a request, by its secret and a dictionary.
fn pairs(alloc: Global, secret: &[u8], dict: &Dict, request: &[u8]) -> Result<Vec<u8>, NoMemory> {
    let client = client(alloc, b"192.168.1.16", secret)?;
    let octets = datagram(alloc, request)?;
    let Ok(packet) = check(octets.as_slice(), Some(&client), ListenKind::Auth) else {
        return Ok(Vec::from_slice(alloc, b"dropped")?);
    };
    let lists = decode(alloc, &packet, secret, dict)?;
    shown(alloc, &lists)
}

/// The pairs of the request list, where the others are empty.
fn shown(alloc: Global, lists: &Lists) -> Result<Vec<u8>, NoMemory> {
    if lists.len(ListName::Reply) != 0 || lists.len(ListName::Control) != 0 {
        return Ok(Vec::from_slice(alloc, b"another list has a pair")?);
    }
    pairs_text(alloc, lists, ListName::Request)
}

/// The base and what these lines add to it, or none where they have a fault.
fn dictionary(alloc: Global, lines: &[u8]) -> Result<Option<Dict>, NoMemory> {
    let mut files = MemFiles::new(Vec::new(alloc), Vec::new(alloc));
    match Dict::of_file(alloc, &mut files, "dictionary", lines) {
        Ok(dict) => Ok(Some(dict)),
        Err(DictFault::NoMemory) => Err(NoMemory),
        Err(_) => Ok(None),
    }
}
