//! Pairs as text: an attribute's number, behind a vendor's with a dot or behind `internal`, then `=`, the letter of the
//! value's kind, and the value: t and o for text and octets, a, n, d, b and s for numbers. A pair that comes several
//! times in a row is written once, behind how often and `*`.

use crate::spelled::push_octets;
use rad_outside::NoMemory;
use rad_value::{ListName, Lists, Pair, Value};
use rad_words::{AttrId, Space};
use shared_cases::push_number;
use std::alloc::Global;

/// The pairs of a list in order, which blanks part.
pub fn pairs_text(alloc: Global, lists: &Lists, list: ListName) -> Result<Vec<u8>, NoMemory> {
    let mut writing = Writing {
        alloc,
        text: Vec::new(alloc),
        last: Vec::new(alloc),
        count: 0,
    };
    for n in 0..lists.len(list) {
        if let Some(pair) = lists.get(list, n) {
            writing.take(pair_text(alloc, pair)?)?;
        }
    }
    writing.put_last()?;
    Ok(writing.text)
}

/// What has been written, and the last pair, which comes next, by its text and how often it came.
#[derive(Drop)]
struct Writing {
    alloc: Global,
    text: Vec<u8>,
    last: Vec<u8>,
    count: u64,
}

impl Writing {
    /// Takes the next pair's text.
    fn take(&mut self, pair: Vec<u8>) -> Result<(), NoMemory> {
        if pair.as_slice() != self.last.as_slice() {
            self.put_last()?;
            self.last = pair;
            self.count = 0;
        }
        self.count = self.count.saturating_add(1);
        Ok(())
    }

    /// Writes the last pair, if there is one.
    fn put_last(&mut self) -> Result<(), NoMemory> {
        if self.count == 0 {
            return Ok(());
        }
        if !self.text.is_empty() {
            self.text.push(b' ')?;
        }
        if self.count > 1 {
            push_number(self.alloc, &mut self.text, self.count)?;
            self.text.push(b'*')?;
        }
        self.text.extend_from_slice(self.last.as_slice())?;
        Ok(())
    }
}

/// The text of one pair.
fn pair_text(alloc: Global, pair: &Pair) -> Result<Vec<u8>, NoMemory> {
    let mut text = attribute_text(alloc, pair.attr)?;
    match &pair.value {
        Value::Text(octets) => {
            text.push(b't')?;
            push_octets(alloc, &mut text, octets.as_slice())?;
        }
        Value::Octets(octets) => {
            text.push(b'o')?;
            push_octets(alloc, &mut text, octets.as_slice())?;
        }
        Value::Addr(number) => push_numeral(alloc, &mut text, b'a', *number)?,
        Value::Number(number) => push_numeral(alloc, &mut text, b'n', *number)?,
        Value::Date(number) => push_numeral(alloc, &mut text, b'd', *number)?,
        Value::Byte(number) => push_numeral(alloc, &mut text, b'b', u32::from(*number))?,
        Value::Short(number) => push_numeral(alloc, &mut text, b's', u32::from(*number))?,
    }
    Ok(text)
}

/// An attribute and the sign behind it.
fn attribute_text(alloc: Global, attr: AttrId) -> Result<Vec<u8>, NoMemory> {
    let number = attr.number;
    let text = match attr.space {
        Space::Standard => format!(in alloc; "{number}=")?,
        Space::Vendor(vendor) => format!(in alloc; "{vendor}.{number}=")?,
        Space::Internal => format!(in alloc; "internal {number}=")?,
    };
    Ok(text.into_bytes())
}

/// Writes a number behind the letter of its kind.
fn push_numeral(alloc: Global, to: &mut Vec<u8>, letter: u8, number: u32) -> Result<(), NoMemory> {
    to.push(letter)?;
    push_number(alloc, to, u64::from(number))
}
