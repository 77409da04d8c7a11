//! Attributes, values and items as text: an attribute as its space and number, an operator by its name, and a value as
//! its kind and what it holds: a text as it stands, octets in hexadecimal digits, all else as a number.

use rad_outside::NoMemory;
use rad_pairs::ItemList;
use rad_value::Value;
use rad_words::AttrId;
use shared_cases::{push_hexadecimal, push_number};
use std::alloc::Global;

/// Writes items between brackets.
pub fn push_items(alloc: Global, to: &mut Vec<u8>, items: &ItemList) -> Result<(), NoMemory> {
    to.push(b'[')?;
    for n in 0..items.len() {
        if let Some(item) = items.get(n) {
            if n > 0 {
                to.extend_from_slice(b", ")?;
            }
            push_attribute(alloc, to, item.attr)?;
            let op = item.op;
            to.extend_from_slice(format!(in alloc; "{op:?} ")?.as_bytes())?;
            push_value(alloc, to, &item.value)?;
        }
    }
    to.push(b']')?;
    Ok(())
}

/// Writes an attribute and a blank.
pub fn push_attribute(alloc: Global, to: &mut Vec<u8>, attr: AttrId) -> Result<(), NoMemory> {
    let (space, number) = (attr.space, attr.number);
    let text = format!(in alloc; "{space:?} {number} ")?;
    to.extend_from_slice(text.as_bytes())?;
    Ok(())
}

/// Writes a value's kind and what it holds.
pub fn push_value(alloc: Global, to: &mut Vec<u8>, value: &Value) -> Result<(), NoMemory> {
    match value {
        Value::Text(text) => {
            to.extend_from_slice(b"Text ")?;
            to.extend_from_slice(text.as_slice())?;
            Ok(())
        }
        Value::Octets(octets) => {
            to.extend_from_slice(b"Octets ")?;
            push_hexadecimal(to, octets.as_slice())
        }
        Value::Addr(number) => push_numeral(alloc, to, b"Addr ", *number),
        Value::Number(number) => push_numeral(alloc, to, b"Number ", *number),
        Value::Date(number) => push_numeral(alloc, to, b"Date ", *number),
        Value::Byte(number) => push_numeral(alloc, to, b"Byte ", u32::from(*number)),
        Value::Short(number) => push_numeral(alloc, to, b"Short ", u32::from(*number)),
    }
}

/// Writes a number behind its kind.
fn push_numeral(alloc: Global, to: &mut Vec<u8>, kind: &[u8], number: u32) -> Result<(), NoMemory> {
    to.extend_from_slice(kind)?;
    push_number(alloc, to, u64::from(number))
}
