//! Pairs of text, in the form that `pair_writing` says, one a line.

use crate::spelled::octets_of;
use rad_outside::{NoMemory, Octets};
use rad_value::{ListName, Lists, Pair, Value};
use rad_words::{AttrId, Space};
use shared_cases::{after_word, decimal};
use std::alloc::Global;

/// The most pairs of a case.
const MOST: u32 = 10_000;

/// Adds the pairs of a text's lines to this list. False where a line is no pair, or there are too many.
pub fn push_pairs(
    alloc: Global,
    lists: &mut Lists,
    list: ListName,
    text: &[u8],
) -> Result<bool, NoMemory> {
    for line in text.split(|octet| *octet == b'\n') {
        if !line.is_empty() && !push_line(alloc, lists, list, line)? {
            return Ok(false);
        }
    }
    Ok(true)
}

/// Adds the pair of a line, as often as it says.
fn push_line(
    alloc: Global,
    lists: &mut Lists,
    list: ListName,
    line: &[u8],
) -> Result<bool, NoMemory> {
    let (front, value) = halves(line, b'=');
    let (attribute, count) = match halves(front, b'*') {
        (count, Some(attribute)) => (attribute, decimal(count)),
        (attribute, None) => (attribute, 1),
    };
    let attr = attribute_of(attribute);
    let Some(value) = value_of(alloc, value.unwrap_or(&[]))? else {
        return Ok(false);
    };
    for _ in 0..count {
        if lists.len(list) >= MOST {
            return Ok(false);
        }
        let value = value.try_clone(alloc)?;
        lists.push(list, Pair { attr, value })?;
    }
    Ok(true)
}

/// What stands before the first such sign, and what behind it.
fn halves(text: &[u8], sign: u8) -> (&[u8], Option<&[u8]>) {
    let mut parts = text.splitn(2, |octet| *octet == sign);
    (parts.next().unwrap_or(&[]), parts.next())
}

/// The number of decimal digits, at most the greatest of 32 bits.
fn number_of(digits: &[u8]) -> u32 {
    u32::try_from(decimal(digits)).unwrap_or(u32::MAX)
}

/// The attribute of a number, or of two with a dot, or of one behind `internal`.
fn attribute_of(text: &[u8]) -> AttrId {
    if let Some(number) = after_word(text, b"internal") {
        return AttrId {
            space: Space::Internal,
            number: number_of(number),
        };
    }
    match halves(text, b'.') {
        (vendor, Some(number)) => AttrId {
            space: Space::Vendor(number_of(vendor)),
            number: number_of(number),
        },
        (number, None) => AttrId {
            space: Space::Standard,
            number: number_of(number),
        },
    }
}

/// The value of a kind's letter and what follows it.
fn value_of(alloc: Global, text: &[u8]) -> Result<Option<Value>, NoMemory> {
    let [letter, spelled @ ..] = text else {
        return Ok(None);
    };
    let number = number_of(spelled);
    Ok(match letter {
        b't' => Some(Value::Text(Octets::from_vec(octets_of(alloc, spelled)?))),
        b'o' => Some(Value::Octets(Octets::from_vec(octets_of(alloc, spelled)?))),
        b'a' => Some(Value::Addr(number)),
        b'n' => Some(Value::Number(number)),
        b'd' => Some(Value::Date(number)),
        b'b' => Some(Value::Byte(u8::try_from(number).unwrap_or(u8::MAX))),
        b's' => Some(Value::Short(u16::try_from(number).unwrap_or(u16::MAX))),
        _ => None,
    })
}
