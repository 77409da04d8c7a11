//! Attributes, written at the end of a packet's octets: RFC 2865 sections 5 and 5.26.

ghost use Rattle.std.specs.Prelude.{◌≡◌, ◌++◌, ◌≤◌, length, take, IfOk, OnOk};
ghost use Rattle.std.specs.Int.{w32, to_be_bytes};
ghost use Rattle.rad_packet.specs.Packet.{spelled};
ghost use Rattle.rad_wire.specs.Values.{octets_of};

use crate::decoding::VENDOR_SPECIFIC;
use rad_outside::{NoMemory, Octets};
use rad_value::Value;
use std::alloc::Global;

/// The most octets of a value (RFC 2865 section 5).
pub(crate) const LONGEST_VALUE: usize = 253;

/// The most octets of a value within Vendor-Specific, behind the Vendor-Id, type and length.
pub(crate) const LONGEST_PART: usize = 247;

/// The octets up to the limit.
pub(crate) fn cut(octets: &[u8], limit: usize) -> &[u8]
    ensures cut { result.now ≡ take limit octets.now }
    ensures bound { length result.now ≤ limit }
{
    let (front, _) = octets.split_at(octets.len().min(limit));
    front
}

/// Appends an attribute.
pub(crate) fn push_attribute(to: &mut Vec<u8>, number: u8, value: &[u8]) -> Result<(), NoMemory>
    requires { length value.now ≤ 253 }
    ensures { OnOk result (to.new.items ≡ to.old.items ++ spelled (record { kind = number; value = value.now })) }
{
    to.extend_from_slice(&[number, (2 + value.len()) as u8])?;
    to.extend_from_slice(value)?;
    Ok(())
}

/// Appends a Vendor-Specific attribute of one part.
pub(crate) fn push_vendor_attribute(
    to: &mut Vec<u8>,
    vendor: u32,
    number: u8,
    value: &[u8],
) -> Result<(), NoMemory>
    requires { length value.now ≤ 247 }
    ensures { OnOk result (to.new.items ≡ to.old.items ++ spelled
        (record { kind = 26; value = to_be_bytes w32 vendor ++ spelled (record { kind = number; value = value.now }) })) }
{
    let size = 2 + value.len();
    to.extend_from_slice(&[VENDOR_SPECIFIC, (6 + size) as u8])?;
    to.extend_from_slice(&vendor.to_be_bytes())?;
    to.extend_from_slice(&[number, size as u8])?;
    to.extend_from_slice(value)?;
    Ok(())
}

/// The octets of a value, the highest first in a number.
pub(crate) fn value_octets(alloc: Global, value: &Value) -> Result<Octets, NoMemory>
    ensures { IfOk result (λ octets. octets ≡ octets_of value.now) }
{
    match value {
        Value::Text(octets) | Value::Octets(octets) => Octets::of(alloc, octets.as_slice()),
        Value::Addr(number) | Value::Number(number) | Value::Date(number) => {
            Octets::of(alloc, &number.to_be_bytes())
        }
        Value::Byte(number) => Octets::of(alloc, &[*number]),
        Value::Short(number) => Octets::of(alloc, &number.to_be_bytes()),
    }
}
