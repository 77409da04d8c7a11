//! The lines that the client prints.

ghost use Rattle.std.specs.Prelude.{◌≡◌, ◌++◌, ◌∷◌, [], ◌≤◌, IfOk, OnOk, length};
ghost use Rattle.rad_dict.specs.Base.{base_definitions};
ghost use Rattle.rad_pairs.specs.ValueText.{pair_text};
ghost use Rattle.rad_packet.specs.Packet.{IsWellFormed, packet_of};
ghost use Rattle.std.specs.Fmt.{decimal};
ghost use Rattle.radclient.specs.Lines.{code_name, line_end, no_reply_line, packet_line, pair_line, pair_lines, reply_lines, sent_lines};

use crate::asked::Asked;
use rad_dict::Dict;
use rad_outside::{NoMemory, Peer};
use rad_pairs::print_pair;
use rad_text::{put_decimal, put_dotted};
use rad_value::{ListName, Lists, Pair};
use rad_wire::{Checked, decode};
use std::alloc::Global;

/// The name of a packet's code (RFC 2865 section 4, RFC 2866 section 4), or nothing for other codes.
fn code_name(code: u8) -> &'static [u8]
    ensures { result.now ≡ code_name code }
{
    match code {
        1 => b"Access-Request",
        2 => b"Access-Accept",
        3 => b"Access-Reject",
        4 => b"Accounting-Request",
        5 => b"Accounting-Response",
        11 => b"Access-Challenge",
        _ => &[],
    }
}

/// Adds the peer's address and port, and the packet's length.
fn put_end(alloc: Global, text: &mut Vec<u8>, packet: &[u8], peer: Peer) -> Result<(), NoMemory>
    ensures { OnOk result (text.new.items ≡ text.old.items ++ line_end packet.now peer) }
{
    put_dotted(alloc, text, peer.addr)?;
    text.push(b':')?;
    put_decimal(alloc, text, u64::from(peer.port))?;
    text.extend_from_slice(b" length ")?;
    put_decimal(alloc, text, packet.len() as u64)?;
    text.push(b'\n')?;
    Ok(())
}

/// Adds `VERB NAME Id N WAY ADDRESS:PORT length N` and a newline.
#[tactic(auto, unfolding(crate::specs::Lines::packet_line))]
fn put_packet_line(
    alloc: Global,
    text: &mut Vec<u8>,
    verb: &[u8],
    packet: &[u8],
    way: &[u8],
    peer: Peer,
) -> Result<(), NoMemory>
    requires { 20 ≤ length packet.now }
    ensures { OnOk result (text.new.items ≡ text.old.items ++ packet_line verb.now packet.now way.now peer) }
{
    text.extend_from_slice(verb)?;
    text.extend_from_slice(code_name(packet[0]))?;
    text.extend_from_slice(b" Id ")?;
    put_decimal(alloc, text, u64::from(packet[1]))?;
    text.extend_from_slice(way)?;
    put_end(alloc, text, packet, peer)
}

/// Adds the line of a pair, behind a tab.
fn put_pair_line(
    alloc: Global,
    text: &mut Vec<u8>,
    pair: &Pair,
    dict: &Dict,
) -> Result<(), NoMemory>
    requires { dict.now ≡ base_definitions }
    ensures { OnOk result (text.new.items ≡ text.old.items ++ pair_line pair.now) }
{
    let words = print_pair(alloc, pair, dict)?;
    text.push(b'\t')?;
    text.extend_from_slice(words.as_slice())?;
    text.push(b'\n')?;
    Ok(())
}

/// Adds a line for each pair of the request list.
fn put_pair_lines(
    alloc: Global,
    text: &mut Vec<u8>,
    pairs: &Lists,
    dict: &Dict,
) -> Result<(), NoMemory>
    requires { dict.now ≡ base_definitions }
    ensures { OnOk result (text.new.items ≡ text.old.items ++ pair_lines pairs.now.request) }
{
    for n in 0..pairs.len(ListName::Request) {
        let Some(pair) = pairs.get(ListName::Request, n) else {
            break;
        };
        put_pair_line(alloc, text, pair, dict)?;
    }
    Ok(())
}

/// What is printed of a request that was sent.
pub(crate) fn sent_lines(
    alloc: Global,
    asked: &Asked,
    request: &[u8],
    pairs: &Lists,
    dict: &Dict,
) -> Result<Vec<u8>, NoMemory>
    requires request { 20 ≤ length request.now }
    requires dict { dict.now ≡ base_definitions }
    ensures { IfOk result (λ text. text.items ≡ sent_lines asked.now request.now pairs.now.request) }
{
    let mut text = Vec::new(alloc);
    put_packet_line(alloc, &mut text, b"Sent ", request, b" to ", asked.server)?;
    if asked.shown {
        put_pair_lines(alloc, &mut text, pairs, dict)?;
    }
    Ok(text)
}

/// The packet at the front of a reply.
fn packet_of(reply: &[u8]) -> &[u8]
    requires { IsWellFormed (packet_of reply.now) }
    ensures packet { result.now ≡ packet_of reply.now }
    ensures header { 20 ≤ length result.now }
{
    let length = usize::from(u16::from_be_bytes([reply[2], reply[3]]));
    let (packet, _) = reply.split_at(length);
    packet
}

/// What is printed of a reply.
pub(crate) fn reply_lines(
    alloc: Global,
    asked: &Asked,
    reply: &[u8],
    dict: &Dict,
) -> Result<Vec<u8>, NoMemory>
    requires well_formed { IsWellFormed (packet_of reply.now) }
    requires dict { dict.now ≡ base_definitions }
    ensures { IfOk result (λ text. text.items ≡ reply_lines asked.now reply.now) }
{
    let octets = packet_of(reply);
    let packet = Checked {
        code: octets[0],
        id: octets[1],
        octets,
    };
    let pairs = decode(alloc, &packet, asked.secret.as_slice(), dict)?;
    let mut text = Vec::new(alloc);
    put_packet_line(
        alloc,
        &mut text,
        b"Received ",
        octets,
        b" from ",
        asked.server,
    )?;
    put_pair_lines(alloc, &mut text, &pairs, dict)?;
    Ok(text)
}

/// `No reply for Id N` and a newline.
pub(crate) fn no_reply_line(alloc: Global, id: u8) -> Result<Vec<u8>, NoMemory>
    ensures { IfOk result (λ text. text.items ≡ no_reply_line id) }
{
    let mut text = Vec::from_slice(alloc, b"No reply for Id ")?;
    put_decimal(alloc, &mut text, u64::from(id))?;
    text.push(b'\n')?;
    Ok(text)
}
