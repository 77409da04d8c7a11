//! The octets of a request: RFC 2865 section 3, RFC 2866 section 3, RFC 3579 section 3.2.

ghost use Rattle.std.specs.Prelude.{◌≡◌, ◌≤◌, ◌++◌, [], length, replicate, IfErr, IfOk, OnOk};
ghost use Rattle.rad_packet.specs.Octets.{reply_head};
ghost use Rattle.rad_packet.specs.Packet.{IsWellFormed, spelled};
ghost use Rattle.std.specs.List.{flat_map};
ghost use Rattle.rad_wire.specs.Draft.{frame_in};
ghost use Rattle.rad_wire.specs.Request.{
  PasswordRefused,
  RequestRefused,
  challenge_of,
  long_passwords,
  packet_octets,
  request_attributes,
  request_octets,
  request_of,
  unsigned_request,
};

use crate::attribute_writing::value_octets;
use crate::draft::{Asking, asked};
use crate::request_fault::RequestFault;
use rad_outside::{NoMemory, Octets};
use rad_packet::{LONGEST_PACKET, accounting_authenticator, carried, message_authenticator};
use rad_value::{ListName, Lists};
use rad_words::{AttrId, Space};
use std::alloc::Global;

/// The octets of a packet's header.
const HEADER: usize = 20;

/// The codes of Access-Request and Accounting-Request (RFC 2865 section 4.1, RFC 2866 section 4.1).
const ACCESS_REQUEST: u8 = 1;

const ACCOUNTING_REQUEST: u8 = 4;

/// CHAP-Challenge.
const CHAP_CHALLENGE: AttrId = AttrId {
    space: Space::Standard,
    number: 60,
};

/// The octets of a request of this code, with the pairs of the request list, in order. Internal attributes and numbers above
/// 255 are left out; values are cut as in a reply (RFC 2865 sections 5 and 5.26). In an Access-Request, code 1, User-Password
/// is hidden, a CHAP-Password of other than 17 octets is a password and is digested with the first CHAP-Challenge or else the
/// Request Authenticator, and the first Message-Authenticator is signed and later ones are left out. An Accounting-Request,
/// code 4, has its own digest as its authenticator, whichever is given. A list that needs more than 4,096 octets is refused.
pub fn request_bytes(
    alloc: Global,
    code: u8,
    id: u8,
    authenticator: &[u8; 16],
    lists: &Lists,
    secret: &[u8],
) -> Result<Octets, RequestFault>
    ensures octets { IfOk result (λ request. request
        ≡ request_octets code id authenticator.now lists.now.request secret.now) }
    ensures well_formed { IfOk result IsWellFormed }
    ensures short { OnOk result (long_passwords code lists.now.request ≡ []) }
    ensures refused { IfErr result (RequestRefused code id authenticator.now lists.now.request secret.now) }
{
    let challenge = challenge_of(alloc, lists, authenticator)?;
    let asking = Asking {
        code,
        id,
        authenticator,
        secret,
        challenge: challenge.as_slice(),
    };
    let attributes = asked(alloc, &asking, lists, &[0; 16])?;
    let length = HEADER + attributes.len();
    if length > LONGEST_PACKET {
        return Err(RequestFault::TooLong(carried(length)));
    }
    let unsigned = packet(alloc, &asking, authenticator, attributes.as_slice())?;
    let signed = signed(alloc, &asking, lists, unsigned, attributes.as_slice())?;
    Ok(Octets::from_vec(signed))
}

/// The CHAP challenge: the octets of the first CHAP-Challenge of the request list, or else the Request Authenticator.
fn challenge_of(alloc: Global, lists: &Lists, authenticator: &[u8; 16]) -> Result<Octets, NoMemory>
    ensures { IfOk result (λ challenge. challenge ≡ challenge_of lists.now.request authenticator.now) }
{
    match lists.nth(ListName::Request, CHAP_CHALLENGE, 0) {
        Some(value) => value_octets(alloc, value),
        None => Octets::of(alloc, authenticator),
    }
}

/// The packet of a header and the octets of its attributes.
fn packet(
    alloc: Global,
    asking: &Asking,
    authenticator: &[u8],
    attributes: &[u8],
) -> Result<Vec<u8>, NoMemory>
    requires { length attributes.now ≤ 4076 }
    ensures { IfOk result (λ packet. packet.items
        ≡ reply_head asking.now.code asking.now.id attributes.now ++ authenticator.now ++ attributes.now) }
{
    let length = HEADER + attributes.len();
    let mut packet = Vec::with_capacity(alloc, length)?;
    packet.extend_from_slice(&[
        asking.code,
        asking.id,
        (length / 256) as u8,
        (length % 256) as u8,
    ])?;
    packet.extend_from_slice(authenticator)?;
    packet.extend_from_slice(attributes)?;
    Ok(packet)
}

/// A request that is signed, as its code asks for it. The attributes are those of the unsigned one.
fn signed(
    alloc: Global,
    asking: &Asking,
    lists: &Lists,
    unsigned: Vec<u8>,
    attributes: &[u8],
) -> Result<Vec<u8>, RequestFault>
    requires unsigned { unsigned.items ≡ unsigned_request (frame_in asking.now) lists.now.request }
    requires attributes { attributes.now ≡ flat_map spelled (request_attributes (frame_in asking.now) lists.now.request (replicate 16 0)) }
    requires limit { length attributes.now ≤ 4076 }
    requires authenticator { length asking.now.authenticator.now ≡ 16 }
    ensures octets { IfOk result (λ signed. signed.items ≡ request_of (frame_in asking.now) lists.now.request) }
    ensures refused { IfErr result (PasswordRefused (long_passwords asking.now.code lists.now.request)) }
{
    let authenticator = asking.authenticator;
    match asking.code {
        ACCESS_REQUEST => {
            let value = message_authenticator(unsigned.as_slice(), authenticator, asking.secret);
            let attributes = asked(alloc, asking, lists, &value)?;
            Ok(packet(alloc, asking, authenticator, attributes.as_slice())?)
        }
        ACCOUNTING_REQUEST => {
            let digest = accounting_authenticator(unsigned.as_slice(), asking.secret);
            Ok(packet(alloc, asking, &digest, attributes)?)
        }
        _ => Ok(unsigned),
    }
}
