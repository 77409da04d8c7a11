//! The pairs of a reply as attributes, written at the end of its octets: RFC 2865 sections 5 and 5.26.

ghost use Rattle.std.specs.Prelude.{◌≡◌, ◌++◌, ◌-◌, ◌≤◌, ◌<◌, length, take, IfOk, OnOk, ◌∷◌, []};
ghost use Rattle.std.specs.Int.{w32, to_be_bytes};
ghost use Rattle.std.specs.List.{flat_map};
ghost use Rattle.rad_packet.specs.Packet.{spelled};
ghost use Rattle.rad_wire.specs.Appended.{IsAppended};
ghost use Rattle.rad_wire.specs.Reply.{attributes_for, fitting, is_left_out, sent_attributes};

use crate::attribute_writing::{
    LONGEST_PART, LONGEST_VALUE, cut, push_attribute, push_vendor_attribute,
};
use rad_outside::NoMemory;
use rad_value::{ListName, Lists, Pair, Value};
use rad_words::{AttrId, Space};

/// Appends the pairs of the reply list, in order, up to the first that would pass the limit in octets.
pub(crate) fn push_pairs(reply: &mut Vec<u8>, limit: usize, lists: &Lists) -> Result<(), NoMemory>
    requires limit { limit ≤ 4096 }
    requires begun { length reply.old.items ≤ limit }
    ensures written { OnOk result (reply.new.items ≡ reply.old.items ++ flat_map spelled
        (fitting (limit - length reply.old.items) (flat_map attributes_for lists.now.reply))) }
{
    for n in 0..lists.len(ListName::Reply) {
        let Some(pair) = lists.get(ListName::Reply, n) else {
            break;
        };
        if !push_pair(reply, limit, pair)? {
            break;
        }
    }
    Ok(())
}

/// Appends the attribute of a pair, if it has one and that doesn't pass the limit. False where it would.
#[tactic(auto, unfolding(crate::specs::Reply::attributes_for))]
fn push_pair(reply: &mut Vec<u8>, limit: usize, pair: &Pair) -> Result<bool, NoMemory>
    requires limit { limit ≤ 4096 }
    requires begun { length reply.old.items ≤ limit }
    ensures { IfOk result (IsAppended limit reply.old.items reply.new.items (attributes_for pair.now)) }
{
    match &pair.value {
        Value::Text(octets) | Value::Octets(octets) => {
            push_value(reply, limit, pair.attr, octets.as_slice())
        }
        Value::Addr(number) | Value::Number(number) | Value::Date(number) => {
            push_value(reply, limit, pair.attr, &number.to_be_bytes())
        }
        Value::Byte(number) => push_value(reply, limit, pair.attr, &[*number]),
        Value::Short(number) => push_value(reply, limit, pair.attr, &number.to_be_bytes()),
    }
}

/// Appends an attribute with these octets as its value, if it is sent and doesn't pass the limit. False where it would.
fn push_value(
    reply: &mut Vec<u8>,
    limit: usize,
    attr: AttrId,
    octets: &[u8],
) -> Result<bool, NoMemory>
    requires limit { limit ≤ 4096 }
    requires begun { length reply.old.items ≤ limit }
    ensures { IfOk result
        (IsAppended limit reply.old.items reply.new.items (sent_attributes attr.space attr.number octets.now)) }
{
    let Ok(number) = u8::try_from(attr.number) else {
        return Ok(true);
    };
    match attr.space {
        Space::Standard if !is_left_out(number) => {
            push_standard(reply, limit, number, cut(octets, LONGEST_VALUE))
        }
        Space::Vendor(vendor) => {
            push_of_vendor(reply, limit, vendor, number, cut(octets, LONGEST_PART))
        }
        Space::Standard | Space::Internal => Ok(true),
    }
}

/// Whether no reply carries the standard attribute of this number from its list: User-Password, CHAP-Password,
/// Proxy-State and Message-Authenticator.
fn is_left_out(number: u8) -> bool
    ensures { result ≡ is_left_out number }
{
    matches!(number, 2 | 3 | 33 | 80)
}

/// Appends an attribute, if it doesn't pass the limit. False where it would.
fn push_standard(
    reply: &mut Vec<u8>,
    limit: usize,
    number: u8,
    value: &[u8],
) -> Result<bool, NoMemory>
    requires limit { limit ≤ 4096 }
    requires begun { length reply.old.items ≤ limit }
    requires short { length value.now ≤ 253 }
    ensures { IfOk result (IsAppended limit reply.old.items reply.new.items
        (record { kind = number; value = value.now } ∷ [])) }
{
    let size = 2 + value.len();
    if reply.len() + size > limit {
        return Ok(false);
    }
    push_attribute(reply, number, value)?;
    Ok(true)
}

/// Appends a Vendor-Specific attribute of one part, if it doesn't pass the limit. False where it would.
fn push_of_vendor(
    reply: &mut Vec<u8>,
    limit: usize,
    vendor: u32,
    number: u8,
    value: &[u8],
) -> Result<bool, NoMemory>
    requires limit { limit ≤ 4096 }
    requires begun { length reply.old.items ≤ limit }
    requires short { length value.now ≤ 247 }
    ensures { IfOk result (IsAppended limit reply.old.items reply.new.items
        (record { kind = 26; value = to_be_bytes w32 vendor ++ spelled (record { kind = number; value = value.now }) } ∷ [])) }
{
    let size = 2 + value.len();
    if reply.len() + 6 + size > limit {
        return Ok(false);
    }
    push_vendor_attribute(reply, vendor, number, value)?;
    Ok(true)
}
