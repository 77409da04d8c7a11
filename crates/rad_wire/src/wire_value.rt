//! How an attribute's value stands in a packet: RFC 2865 section 5.

ghost use Rattle.std.specs.Prelude.{◌≡◌, length, IfOk};
ghost use Rattle.std.specs.Int.{w16, w32, from_be_bytes};
ghost use Rattle.rad_wire.specs.Pairs.{kind_of};
ghost use Rattle.rad_wire.specs.Values.{value_of};

use rad_dict::Dict;
use rad_outside::{NoMemory, Octets};
use rad_value::Value;
use rad_words::{AttrId, Kind};
use std::alloc::Global;

/// The kind of an attribute's values: that of its first definition, and octets where it has none.
pub(crate) fn kind_of(attr: AttrId, dict: &Dict) -> Kind
    ensures { result ≡ kind_of attr dict.now }
{
    match dict.attr_of(attr) {
        Some(row) => row.kind,
        None => Kind::Octets,
    }
}

/// The value that octets are by a kind. Where their number isn't the kind's they stay octets.
pub(crate) fn value_of(alloc: Global, kind: Kind, octets: &[u8]) -> Result<Value, NoMemory>
    ensures { IfOk result (λ value. value ≡ value_of kind octets.now) }
{
    Ok(match kind {
        Kind::Text => Value::Text(Octets::of(alloc, octets)?),
        Kind::Addr if octets.len() == 4 => Value::Addr(number_of(octets)),
        Kind::Number if octets.len() == 4 => Value::Number(number_of(octets)),
        Kind::Date if octets.len() == 4 => Value::Date(number_of(octets)),
        Kind::Byte if octets.len() == 1 => Value::Byte(octets[0]),
        Kind::Short if octets.len() == 2 => {
            Value::Short(u16::from_be_bytes([octets[0], octets[1]]))
        }
        _ => Value::Octets(Octets::of(alloc, octets)?),
    })
}

/// The number of four octets, the highest first.
pub(crate) fn number_of(octets: &[u8]) -> u32
    requires { length octets.now ≡ 4 }
    ensures { result ≡ from_be_bytes w32 octets.now }
{
    u32::from_be_bytes([octets[0], octets[1], octets[2], octets[3]])
}
