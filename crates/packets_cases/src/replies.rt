//! `reply_bytes`: the octets of replies.

use crate::pair_reading::push_pairs;
use crate::request::{client, datagram};
use crate::spelled::as_wanted;
use rad_outside::{ListenKind, NoMemory};
use rad_packet::check;
use rad_value::{ListName, Lists};
use rad_wire::reply_bytes;
use shared_cases::{Case, Subject, decimal};
use std::alloc::Global;

/// A client's address and secret, its request, and a reply's code and pairs, for the reply's octets.
#[derive(Drop)]
pub struct ReplyCases;

impl Subject for ReplyCases {
    fn answer(&mut self, alloc: Global, case: &Case) -> Result<Vec<u8>, NoMemory> {
        let mut lists = Lists::new(alloc);
        if push_pairs(alloc, &mut lists, ListName::Reply, case.text(b"pairs"))? {
            reply(alloc, case, &lists)
        } else {
            Ok(Vec::from_slice(alloc, b"a line is no pair")?)
        }
    }
}

/// The reply to a case's request, with the pairs of these lists.
fn reply(alloc: Global, case: &Case, lists: &Lists) -> Result<Vec<u8>, NoMemory> {
    let secret = case.text(b"secret");
    let client = client(alloc, case.text(b"client"), secret)?;
    let octets = datagram(alloc, case.text(b"request"))?;
    let Ok(packet) = check(octets.as_slice(), Some(&client), ListenKind::Auth) else {
        return Ok(Vec::from_slice(alloc, b"dropped")?);
    };
    let code = u8::try_from(decimal(case.text(b"code"))).unwrap_or(u8::MAX);
    let reply = reply_bytes(alloc, code, lists, &packet, secret)?;
    as_wanted(alloc, case.text(b"gives"), reply.as_slice())
}
