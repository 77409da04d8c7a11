//! How attributes, values and pairs are written in cases. An attribute is `s5`, the standard one of number 5, `v9.1`,
//! number 1 of vendor 9, or `i8`, the internal one of number 8. A value is the letter of its kind and what it is: `t` a
//! text, `o` octets, `a` an address as a number, `n` a number, `d` a date, `b` a byte and `h` a short number. A pair is
//! `s5=n16`.

use rad_outside::{NoMemory, Octets};
use rad_value::{Pair, Value};
use rad_words::{AttrId, Space};
use shared_cases::{decimal, push_number};
use std::alloc::{AllocError, AllocFailed, Global};

/// Why a case has no answer.
#[derive(Drop)]
pub enum NoAnswer {
    /// What is given isn't written as its file says.
    Misspelt,
    NoMemory,
}

impl From<NoMemory> for NoAnswer {
    fn from(_e: NoMemory) -> NoAnswer {
        NoAnswer::NoMemory
    }
}

impl From<AllocError> for NoAnswer {
    fn from(_e: AllocError) -> NoAnswer {
        NoAnswer::NoMemory
    }
}

impl<T: Drop> From<AllocFailed<T>> for NoAnswer {
    fn from(_e: AllocFailed<T>) -> NoAnswer {
        NoAnswer::NoMemory
    }
}

/// The answer to a case, which says so where the case is misspelt.
pub fn answered(alloc: Global, answer: Result<Vec<u8>, NoAnswer>) -> Result<Vec<u8>, NoMemory> {
    match answer {
        Ok(text) => Ok(text),
        Err(NoAnswer::Misspelt) => Ok(Vec::from_slice(alloc, b"the case is misspelt")?),
        Err(NoAnswer::NoMemory) => Err(NoMemory),
    }
}

/// What a word stands for in a table of words.
pub fn meaning_of<T: Copy>(table: &[(&[u8], T)], word: &[u8]) -> Result<T, NoAnswer> {
    for (known, meaning) in table {
        if *known == word {
            return Ok(*meaning);
        }
    }
    Err(NoAnswer::Misspelt)
}

/// The number of decimal digits, or the greatest where it is greater than that.
pub fn number_of(digits: &[u8]) -> u32 {
    u32::try_from(decimal(digits)).unwrap_or(u32::MAX)
}

/// The attribute that a text names.
pub fn attr_of(text: &[u8]) -> Result<AttrId, NoAnswer> {
    let (space, digits) = match text {
        [b's', digits @ ..] => (Space::Standard, digits),
        [b'i', digits @ ..] => (Space::Internal, digits),
        [b'v', rest @ ..] => {
            let (vendor, digits) = parted(rest, b'.')?;
            (Space::Vendor(number_of(vendor)), digits)
        }
        _ => return Err(NoAnswer::Misspelt),
    };
    Ok(AttrId {
        space,
        number: number_of(digits),
    })
}

/// What stands before and behind the first sign of a text.
fn parted(text: &[u8], sign: u8) -> Result<(&[u8], &[u8]), NoAnswer> {
    let mut parts = text.splitn(2, |octet| *octet == sign);
    match (parts.next(), parts.next()) {
        (Some(before), Some(behind)) => Ok((before, behind)),
        _ => Err(NoAnswer::Misspelt),
    }
}

/// The value that a text says.
pub fn value_of(alloc: Global, text: &[u8]) -> Result<Value, NoAnswer> {
    Ok(match text {
        [b't', text @ ..] => Value::Text(Octets::of(alloc, text)?),
        [b'o', octets @ ..] => Value::Octets(Octets::of(alloc, octets)?),
        [b'a', digits @ ..] => Value::Addr(number_of(digits)),
        [b'n', digits @ ..] => Value::Number(number_of(digits)),
        [b'd', digits @ ..] => Value::Date(number_of(digits)),
        [b'b', digits @ ..] => Value::Byte(u8::try_from(decimal(digits)).unwrap_or(u8::MAX)),
        [b'h', digits @ ..] => Value::Short(u16::try_from(decimal(digits)).unwrap_or(u16::MAX)),
        _ => return Err(NoAnswer::Misspelt),
    })
}

/// The pair of a text `ATTRIBUTE=VALUE`.
pub fn pair_of(alloc: Global, text: &[u8]) -> Result<Pair, NoAnswer> {
    let (attr, value) = parted(text, b'=')?;
    Ok(Pair {
        attr: attr_of(attr)?,
        value: value_of(alloc, value)?,
    })
}

/// Writes a letter and a number.
fn push_lettered(alloc: Global, to: &mut Vec<u8>, letter: u8, number: u32) -> Result<(), NoMemory> {
    to.push(letter)?;
    push_number(alloc, to, u64::from(number))
}

/// Writes an attribute.
pub fn push_attr(alloc: Global, to: &mut Vec<u8>, attr: AttrId) -> Result<(), NoMemory> {
    match attr.space {
        Space::Standard => push_lettered(alloc, to, b's', attr.number),
        Space::Vendor(vendor) => {
            push_lettered(alloc, to, b'v', vendor)?;
            push_lettered(alloc, to, b'.', attr.number)
        }
        Space::Internal => push_lettered(alloc, to, b'i', attr.number),
    }
}

/// Writes octets as they stand where they are printable, else as `<HH>`.
fn push_octets(alloc: Global, to: &mut Vec<u8>, octets: &[u8]) -> Result<(), NoMemory> {
    for octet in octets {
        if octet.is_ascii_graphic() || *octet == b' ' {
            to.push(*octet)?;
        } else {
            let text = format!(in alloc; "<{octet:02x}>")?;
            to.extend_from_slice(text.as_bytes())?;
        }
    }
    Ok(())
}

/// Writes a value, its octets that aren't printable as `<HH>`.
pub fn push_value(alloc: Global, to: &mut Vec<u8>, value: &Value) -> Result<(), NoMemory> {
    match value {
        Value::Text(text) => {
            to.push(b't')?;
            push_octets(alloc, to, text.as_slice())
        }
        Value::Octets(octets) => {
            to.push(b'o')?;
            push_octets(alloc, to, octets.as_slice())
        }
        Value::Addr(address) => push_lettered(alloc, to, b'a', *address),
        Value::Number(number) => push_lettered(alloc, to, b'n', *number),
        Value::Date(seconds) => push_lettered(alloc, to, b'd', *seconds),
        Value::Byte(number) => push_lettered(alloc, to, b'b', u32::from(*number)),
        Value::Short(number) => push_lettered(alloc, to, b'h', u32::from(*number)),
    }
}

/// Writes a pair.
pub fn push_pair(alloc: Global, to: &mut Vec<u8>, pair: &Pair) -> Result<(), NoMemory> {
    push_attr(alloc, to, pair.attr)?;
    to.push(b'=')?;
    push_value(alloc, to, &pair.value)
}
