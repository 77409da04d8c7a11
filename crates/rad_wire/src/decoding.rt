//! What the attributes of a packet say, as pairs: RFC 2865 sections 5, 5.2 and 5.26.

ghost use Rattle.std.specs.Prelude.{◌≡◌, ◌≢◌, ◌+◌, ◌<◌, ◌≤◌, ◌^◌, ◌++◌, [], length, IfOk, OnOk};
ghost use Rattle.rad_value.specs.PairLists.{with_list};
ghost use Rattle.rad_packet.specs.Octets.{IsChecked};
ghost use Rattle.rad_packet.specs.Packet.{authenticator_of, code_of};
ghost use Rattle.rad_wire.specs.Pairs.{attribute_pairs, pair_of, pairs_of, password_of, requested, vendor_pairs, vendor_parts};

use crate::vendor::push_vendor_pairs;
use crate::wire_value::{kind_of, value_of};
use rad_dict::Dict;
use rad_outside::{NoMemory, Octets};
use rad_packet::{Checked, Front, is_hidden_length, revealed, split_front};
use rad_value::{ListName, Lists, Pair, Value};
use rad_words::{AttrId, Space};
use std::alloc::Global;

/// The code of an Access-Request (RFC 2865 section 4.1).
const ACCESS_REQUEST: u8 = 1;

/// The type of User-Password.
const USER_PASSWORD: u8 = 2;

/// The type of Vendor-Specific.
pub(crate) const VENDOR_SPECIFIC: u8 = 26;

/// The pairs of a packet in the request list, in the order of its attributes; the reply and the control list are
/// empty. A value is of the kind of its attribute's first definition, and octets where its length isn't the kind's.
/// A Vendor-Specific attribute gives a pair for each part, and a User-Password in an Access-Request the password that
/// it hides; each stays octets where it has another form (RFC 2865 sections 5, 5.2 and 5.26).
pub fn decode(
    alloc: Global,
    packet: &Checked,
    secret: &[u8],
    dict: &Dict,
) -> Result<Lists, NoMemory>
    requires { IsChecked packet.now }
    ensures { IfOk result (λ lists. lists ≡ requested (pairs_of packet.now.octets.now secret.now dict.now)) }
{
    let mut rest = packet.attributes();
    let mut lists = Lists::new(alloc);
    while let Some(front) = split_front(rest) {
        push_attribute_pairs(alloc, &mut lists, packet, &front, secret, dict)?;
        rest = front.rest;
    }
    Ok(lists)
}

/// Adds the pairs of an attribute of the packet to the request list.
fn push_attribute_pairs(
    alloc: Global,
    lists: &mut Lists,
    packet: &Checked,
    front: &Front,
    secret: &[u8],
    dict: &Dict,
) -> Result<(), NoMemory>
    requires checked { IsChecked packet.now }
    requires room { length lists.old.request + length front.now.value.now < 2 ^ 31 }
    ensures { OnOk result (lists.new ≡ with_list lists.old ListName.Request (lists.old.request
        ++ attribute_pairs packet.now.octets.now secret.now dict.now
        (record { kind = front.now.kind; value = front.now.value.now }))) }
{
    if front.kind == VENDOR_SPECIFIC {
        return push_vendor_pairs(alloc, lists, front.value, dict);
    }
    let attr = AttrId {
        space: Space::Standard,
        number: u32::from(front.kind),
    };
    let value = if front.kind == USER_PASSWORD && packet.code == ACCESS_REQUEST {
        password_of(alloc, front.value, secret, packet.authenticator())?
    } else {
        value_of(alloc, kind_of(attr, dict), front.value)?
    };
    lists.push(ListName::Request, Pair { attr, value })
}

/// The value of a User-Password in an Access-Request: the password that it hides, or its octets as they are where
/// they can't hide one.
fn password_of(
    alloc: Global,
    octets: &[u8],
    secret: &[u8],
    authenticator: &[u8],
) -> Result<Value, NoMemory>
    ensures { IfOk result (λ value. value ≡ password_of octets.now secret.now authenticator.now) }
{
    Ok(if is_hidden_length(octets.len()) {
        Value::Text(revealed(alloc, octets, secret, authenticator)?)
    } else {
        Value::Octets(Octets::of(alloc, octets)?)
    })
}
