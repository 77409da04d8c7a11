ghost use Rattle.std.specs.Prelude.{◌≡◌, IfOk};
ghost use Rattle.std.specs.Option.{option_copied};
ghost use Rattle.rad_value.specs.Pairs.{text_of};

use rad_outside::{NoMemory, Octets};
use rad_words::AttrId;
use std::alloc::Global;

/// An attribute's value, of the kind that its attribute has (RFC 2865 section 5): text and octets as they
/// stand, an address in network order as a number, a date in seconds since 1970.
#[derive(Debug, Drop)]
pub enum Value {
    Text(Octets),
    Octets(Octets),
    Addr(u32),
    Number(u32),
    Date(u32),
    Byte(u8),
    Short(u16),
}

impl Value {
    /// A second value, equal to this one.
    pub fn try_clone(&self, alloc: Global) -> Result<Value, NoMemory>
        ensures { IfOk result (λ value. value ≡ self.now) }
    {
        Ok(match self {
            Value::Text(text) => Value::Text(Octets::of(alloc, text.as_slice())?),
            Value::Octets(octets) => Value::Octets(Octets::of(alloc, octets.as_slice())?),
            Value::Addr(address) => Value::Addr(*address),
            Value::Number(number) => Value::Number(*number),
            Value::Date(seconds) => Value::Date(*seconds),
            Value::Byte(number) => Value::Byte(*number),
            Value::Short(number) => Value::Short(*number),
        })
    }

    /// The text, where the value is one.
    pub(crate) fn text(&self) -> Option<&[u8]>
        ensures { option_copied result ≡ text_of self.now }
    {
        match self {
            Value::Text(text) => Some(text.as_slice()),
            _ => None,
        }
    }
}

/// One attribute of a packet or a list, with its value.
#[derive(Debug, Drop)]
pub struct Pair {
    pub attr: AttrId,
    pub value: Value,
}
