ghost use Rattle.std.specs.Prelude.{◌≡◌, ◌≤◌, ◌++◌, length, drop, IfOk};
ghost use Rattle.md5.specs.Md5.{md5};
ghost use Rattle.rad_packet.specs.Packet.{authenticator_of, code_of, id_of, IsWellFormed};
ghost use Rattle.rad_packet.specs.Octets.{IsChecked, response_authenticator, signed_reply};
ghost use Rattle.rad_wire.specs.Reply.{reply_octets};

use crate::proxy_state::{proxy_states_len, push_proxy_states};
use crate::reply_pairs::push_pairs;
use md5::{Digest, Md5};
use rad_outside::{NoMemory, Octets};
use rad_packet::{Checked, LONGEST_PACKET};
use rad_value::Lists;
use std::alloc::Global;

/// The octets of a reply of this code to the request: the pairs of the reply list in order, up to the first that doesn't
/// fit beside the request's Proxy-State attributes, then those, unchanged and in order, and all of it signed with the
/// Response Authenticator (RFC 2865 sections 3, 5 and 5.33). Internal attributes, numbers above 255, User-Password,
/// CHAP-Password, Proxy-State and Message-Authenticator of the list are left out. A vendor's pair is one
/// Vendor-Specific attribute; a value is cut at 253 octets, and at 247 within one. At most 4,096 octets.
pub fn reply_bytes(
    alloc: Global,
    code: u8,
    lists: &Lists,
    request: &Checked,
    secret: &[u8],
) -> Result<Octets, NoMemory>
    requires { IsChecked request.now }
    ensures octets { IfOk result (λ reply. reply ≡ reply_octets code lists.now.reply request.now.octets.now secret.now) }
    ensures well_formed { IfOk result IsWellFormed }
    ensures signed { IfOk result (λ reply. authenticator_of reply ≡ response_authenticator code request.now.id
        (authenticator_of request.now.octets.now) (drop 20 reply) secret.now) }
    ensures limit { IfOk result (λ reply. length reply ≤ 4096) }
{
    let limit = LONGEST_PACKET - proxy_states_len(request);
    let mut reply = Vec::with_capacity(alloc, LONGEST_PACKET)?;
    reply.extend_from_slice(&[code, request.id, 0, 0])?;
    reply.extend_from_slice(request.authenticator())?;
    push_pairs(&mut reply, limit, lists)?;
    push_proxy_states(&mut reply, request)?;
    sign(&mut reply, secret);
    reply.shrink_to_fit();
    Ok(Octets::from_vec(reply))
}

/// Signs a reply in place. It has its Code and its Identifier, and in the place of its Authenticator the request's.
fn sign(reply: &mut Vec<u8>, secret: &[u8])
    requires header { 20 ≤ length reply.old.items }
    requires limit { length reply.old.items ≤ 4096 }
    ensures { reply.new.items ≡ signed_reply (code_of reply.old.items) (id_of reply.old.items)
        (authenticator_of reply.old.items) (drop 20 reply.old.items) secret.now }
{
    let length = reply.len();
    reply[2] = (length / 256) as u8;
    reply[3] = (length % 256) as u8;
    let digest = digest_of_two(reply.as_slice(), secret);
    reply[4..20].copy_from_slice(&digest);
}

/// The MD5 of two parts, one after the other.
fn digest_of_two(front: &[u8], back: &[u8]) -> [u8; 16]
    ensures { result ≡ md5 (front.now ++ back.now) }
{
    let mut hasher = Md5::new();
    hasher.update(front);
    hasher.update(back);
    hasher.finalize()
}
