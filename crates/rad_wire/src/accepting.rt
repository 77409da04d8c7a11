//! Which replies a client takes for answers to its request: RFC 2865 section 3, RFC 2866 section 3, RFC 3579 section 3.2.

ghost use Rattle.std.specs.Prelude.{◌≡◌, ◌≢◌, ◌≤◌, IfErr, IfOk, IsTrue, List, OnOk, length, ℕ};
ghost use Rattle.std.specs.Bool.{OnFalse, OnTrue};
ghost use Rattle.rad_packet.specs.Packet.{IsWellFormed, authenticator_of, code_of, id_of, packet_of};
ghost use Rattle.rad_packet.specs.Signatures.{digest_with};
ghost use Rattle.rad_wire.specs.Accepts.{Accepts, IsFirstFault, is_reply_code};

use crate::reply_fault::ReplyFault;
use rad_packet::{LONGEST_PACKET, are_attributes, digest_with, is_intact};

/// The code of an Access-Request (RFC 2865 section 4.1).
const ACCESS_REQUEST: u8 = 1;

/// The reply's code, where the reply answers the request under this secret, or the first cause not to accept it. The
/// request has at least 20 octets. Octets behind the reply's Length are ignored.
pub fn accepts_reply(request: &[u8], reply: &[u8], secret: &[u8]) -> Result<u8, ReplyFault>
    requires { 20 ≤ length request.now }
    ensures accepted { OnOk result (Accepts request.now reply.now secret.now) }
    ensures code { IfOk result (λ code. code ≡ code_of reply.now) }
    ensures refused { IfErr result (λ fault. IsFirstFault fault request.now reply.now secret.now) }
{
    let packet = answering_packet(request, reply)?;
    let (_, after) = request.split_at(4);
    let (authenticator, _) = after.split_at(16);
    if !is_signed_over(packet, authenticator, secret) {
        return Err(ReplyFault::BadAuthenticator);
    }
    if request[0] == ACCESS_REQUEST && !is_intact(packet, authenticator, secret) {
        return Err(ReplyFault::BadMessageAuthenticator);
    }
    Ok(reply[0])
}

/// The packet at the front of a reply, well formed, with the request's Identifier and a code that answers it, whatever the
/// secret; or the first cause not to accept it.
fn answering_packet<'a>(request: &[u8], reply: &'a [u8]) -> Result<&'a [u8], ReplyFault>
    requires { 20 ≤ length request.now }
    ensures packet { IfOk result (λ packet. packet.now ≡ packet_of reply.now) }
    ensures well_formed { OnOk result (IsWellFormed (packet_of reply.now)) }
    ensures header { OnOk result (20 ≤ length reply.now) }
    ensures code { OnOk result (IsTrue (is_reply_code (code_of request.now) (code_of reply.now))) }
    ensures id { OnOk result (id_of reply.now ≡ id_of request.now) }
    ensures refused { IfErr result (λ fault. (secret : List ℕ) → IsFirstFault fault request.now reply.now secret) }
{
    if reply.len() < 20 {
        return Err(ReplyFault::Short);
    }
    let length = usize::from(u16::from_be_bytes([reply[2], reply[3]]));
    if length < 20 || length > LONGEST_PACKET || length > reply.len() {
        return Err(ReplyFault::BadLength);
    }
    if !is_reply_code(request[0], reply[0]) {
        return Err(ReplyFault::WrongCode);
    }
    if reply[1] != request[1] {
        return Err(ReplyFault::WrongId);
    }
    let (packet, _) = reply.split_at(length);
    let (_, attributes) = packet.split_at(20);
    if !are_attributes(attributes) {
        return Err(ReplyFault::BadAttribute);
    }
    Ok(packet)
}

/// Whether a request of the first code may be answered by the second.
fn is_reply_code(request: u8, reply: u8) -> bool
    ensures { result ≡ is_reply_code request reply }
{
    (request == 1 && (reply == 2 || reply == 3 || reply == 11)) || (request == 4 && reply == 5)
}

/// Whether the authenticator of a reply is the digest over the request's, under this secret.
fn is_signed_over(packet: &[u8], authenticator: &[u8], secret: &[u8]) -> bool
    requires { 20 ≤ length packet.now }
    ensures yes { OnTrue result (authenticator_of packet.now ≡ digest_with packet.now authenticator.now secret.now) }
    ensures no { OnFalse result (authenticator_of packet.now ≢ digest_with packet.now authenticator.now secret.now) }
{
    let (_, after) = packet.split_at(4);
    let (own, _) = after.split_at(16);
    own == digest_with(packet, authenticator, secret).as_slice()
}
