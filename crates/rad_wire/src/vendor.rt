//! Vendor-Specific: attributes of a vendor's own, behind its number (RFC 2865 section 5.26).

ghost use Rattle.std.specs.Prelude.{◌≡◌, ◌≢◌, ◌+◌, ◌<◌, ◌≤◌, ◌^◌, ◌++◌, [], ◌∷◌, List, length, map, drop, IfOk, OnOk, IsTrue, ◌↔◌};
ghost use Rattle.rad_value.specs.PairLists.{with_list};
ghost use Rattle.rad_packet.specs.Packet.{Attribute, AreAttributes};
ghost use Rattle.rad_wire.specs.Pairs.{of_vendor, pair_of, vendor_of, vendor_pairs, vendor_parts};

use crate::wire_value::{kind_of, number_of, value_of};
use rad_dict::Dict;
use rad_outside::{NoMemory, Octets};
use rad_packet::{are_attributes, split_front};
use rad_value::{ListName, Lists, Pair, Value};
use rad_words::{AttrId, Space};
use std::alloc::Global;

/// The octets of a Vendor-Id.
const VENDOR_ID: usize = 4;

/// Adds the pairs of a Vendor-Specific attribute with this value to the request list: one for each part, or one with
/// the octets as they are where the Vendor-Id isn't followed by parts and nothing else.
pub(crate) fn push_vendor_pairs(
    alloc: Global,
    lists: &mut Lists,
    octets: &[u8],
    dict: &Dict,
) -> Result<(), NoMemory>
    requires { length lists.old.request + length octets.now < 2 ^ 31 }
    ensures { OnOk result (lists.new ≡ with_list lists.old ListName.Request
        (lists.old.request ++ vendor_pairs octets.now dict.now (vendor_parts octets.now))) }
{
    if octets.len() > VENDOR_ID {
        let (id, parts) = octets.split_at(VENDOR_ID);
        if are_attributes(parts) {
            return push_parts(alloc, lists, number_of(id), parts, dict);
        }
    }
    let attr = AttrId {
        space: Space::Standard,
        number: 26,
    };
    let value = Value::Octets(Octets::of(alloc, octets)?);
    lists.push(ListName::Request, Pair { attr, value })
}

/// Adds a pair for each part of a vendor.
fn push_parts(
    alloc: Global,
    lists: &mut Lists,
    vendor: u32,
    parts: &[u8],
    dict: &Dict,
) -> Result<(), NoMemory>
    requires { length lists.old.request + length parts.now < 2 ^ 31 }
    ensures { OnOk result ((all : List Attribute) → AreAttributes all parts.now → lists.new
        ≡ with_list lists.old ListName.Request (lists.old.request
        ++ map (λ (p : Attribute). pair_of (of_vendor vendor p.kind) p.value dict.now) all)) }
{
    let mut rest = parts;
    while let Some(front) = split_front(rest) {
        let attr = AttrId {
            space: Space::Vendor(vendor),
            number: u32::from(front.kind),
        };
        let value = value_of(alloc, kind_of(attr, dict), front.value)?;
        lists.push(ListName::Request, Pair { attr, value })?;
        rest = front.rest;
    }
    Ok(())
}
