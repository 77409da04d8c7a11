//! A packet's whole way: it is made, sent, answered and printed.

ghost use Rattle.std.specs.Prelude.{◌≡◌, ◌≤◌, ℕ, List, Option, Bool, IfSome, MatchResult, length, take};
ghost use Rattle.std.specs.Option.{option_copied, option_map};
ghost use Rattle.rad_dict.specs.Base.{base_definitions};
ghost use Rattle.rad_outside.specs.Wire.{WireTold};
ghost use Rattle.rad_packet.specs.Packet.{IsWellFormed, packet_of};
ghost use Rattle.radclient.specs.Answers.{Act};
ghost use Rattle.radclient.specs.Client.{closed, is_good, packet, served};
ghost use Rattle.radclient.specs.Seen.{Goes, Seen, Stops};

use crate::asked::Asked;
use crate::making::make;
use crate::printing::say_end;
use crate::sending::try_request;
use crate::stop::Stop;
use rad_dict::Dict;
use rad_outside::{Luck, Sink, Wire};
use rad_value::Lists;
use std::alloc::Global;

/// The reply of so many octets at the front of a buffer.
fn front(buffer: &[u8], found: Option<usize>) -> Option<&[u8]>
    requires { IfSome found (λ count. count ≤ length buffer.now) }
    ensures { option_copied result ≡ option_map (λ (count : ℕ). take count buffer.now) found }
{
    match found {
        Some(count) => {
            let (reply, _) = buffer.split_at(count);
            Some(reply)
        }
        None => None,
    }
}

/// Whether a reply is an Access-Accept, an Accounting-Response or an Access-Challenge.
fn is_good(reply: Option<&[u8]>) -> bool
    ensures { result ≡ is_good (option_copied reply.entry) }
{
    match reply {
        Some([code, ..]) => matches!(*code, 2 | 5 | 11),
        _ => false,
    }
}

/// Prints what came of a packet, and answers whether it got a good reply.
fn end<O: Sink>(
    alloc: Global,
    asked: &Asked,
    dict: &Dict,
    id: u8,
    reply: Option<&[u8]>,
    out: &mut O,
) -> Result<bool, Stop>
    requires reply { IfSome reply (λ reply. IsWellFormed (packet_of reply.now)) }
    requires dict { dict.now ≡ base_definitions }
    ensures { (next : Bool → Act) (wire : Option WireTold) (wire_faults : ℕ) (luck : Option (List ℕ)) →
        let before : Seen = record { wire = wire; wire_faults = wire_faults; luck = luck; out = O.told out.old; out_faults = O.faults out.old } in
        let now : Seen = record { wire = wire; wire_faults = wire_faults; luck = luck; out = O.told out.new; out_faults = O.faults out.new } in
        let act = closed asked.now id next (option_copied reply.entry) in
        MatchResult result (λ good. Goes act (next good) before now) (λ stop. Stops act stop before now) }
{
    match say_end(alloc, asked, id, reply, dict, out) {
        Ok(()) => Ok(is_good(reply)),
        Err(stop) => Err(stop),
    }
}

/// Sends a request until its reply comes, and prints what came of it. Answers whether it got a good reply.
fn serve_made<W: Wire, O: Sink>(
    alloc: Global,
    asked: &Asked,
    dict: &Dict,
    id: u8,
    pairs: &Lists,
    request: &[u8],
    wire: &mut W,
    out: &mut O,
) -> Result<bool, Stop>
    requires request { 20 ≤ length request.now }
    requires dict { dict.now ≡ base_definitions }
    ensures { (next : Bool → Act) (luck : Option (List ℕ)) →
        let before : Seen = record { wire = W.told wire.old; wire_faults = W.faults wire.old; luck = luck; out = O.told out.old; out_faults = O.faults out.old } in
        let now : Seen = record { wire = W.told wire.new; wire_faults = W.faults wire.new; luck = luck; out = O.told out.new; out_faults = O.faults out.new } in
        let act = served asked.now id pairs.now.request request.now next in
        MatchResult result (λ good. Goes act (next good) before now) (λ stop. Stops act stop before now) }
{
    let mut buffer = [0; 4096];
    match try_request(alloc, asked, request, pairs, dict, wire, out, &mut buffer) {
        Ok(found) => end(alloc, asked, dict, id, front(&buffer, found), out),
        Err(stop) => Err(stop),
    }
}

/// Makes a packet of the pairs of a group, sends it until its reply comes, and prints what came of it. Answers whether it
/// got a good reply.
pub(crate) fn serve<W: Wire, U: Luck, O: Sink>(
    alloc: Global,
    asked: &Asked,
    dict: &Dict,
    id: u8,
    pairs: &Lists,
    wire: &mut W,
    luck: &mut U,
    out: &mut O,
) -> Result<bool, Stop>
    requires { dict.now ≡ base_definitions }
    ensures { (next : Bool → Act) →
        let before : Seen = record { wire = W.told wire.old; wire_faults = W.faults wire.old; luck = U.told luck.old; out = O.told out.old; out_faults = O.faults out.old } in
        let now : Seen = record { wire = W.told wire.new; wire_faults = W.faults wire.new; luck = U.told luck.new; out = O.told out.new; out_faults = O.faults out.new } in
        let act = packet asked.now id pairs.now.request next in
        MatchResult result (λ good. Goes act (next good) before now) (λ stop. Stops act stop before now) }
{
    match make(alloc, asked, id, pairs, luck) {
        Ok(request) => serve_made(alloc, asked, dict, id, pairs, request.as_slice(), wire, out),
        Err(stop) => Err(stop),
    }
}
