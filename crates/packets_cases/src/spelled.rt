//! How octets are spelled in the cases: parts that blanks or newlines part, each hexadecimal digits, and behind them,
//! where they stand several times, `*` and how often: `61*253` is 253 octets, and `0102 61*2` is four.

use rad_outside::NoMemory;
use shared_cases::{decimal, hexadecimal, push_hexadecimal, push_number};
use std::alloc::Global;

/// Octets that are all alike are written with `*` where there are more of them than these.
const LONGEST_WRITTEN: usize = 32;

/// The octets that a text spells.
pub fn octets_of(alloc: Global, text: &[u8]) -> Result<Vec<u8>, NoMemory> {
    let mut octets = Vec::new(alloc);
    for part in text.split(|octet| *octet == b' ' || *octet == b'\n') {
        push_part(alloc, &mut octets, part)?;
    }
    Ok(octets)
}

/// Writes the octets of one part.
fn push_part(alloc: Global, to: &mut Vec<u8>, part: &[u8]) -> Result<(), NoMemory> {
    let mut halves = part.splitn(2, |octet| *octet == b'*');
    let octets = hexadecimal(alloc, halves.next().unwrap_or(&[]))?;
    let count = match halves.next() {
        Some(digits) => decimal(digits),
        None => 1,
    };
    for _ in 0..count {
        to.extend_from_slice(octets.as_slice())?;
    }
    Ok(())
}

/// Writes octets as `octets_of` reads them, in one part.
pub fn push_octets(alloc: Global, to: &mut Vec<u8>, octets: &[u8]) -> Result<(), NoMemory> {
    match octets {
        [first, rest @ ..]
            if octets.len() > LONGEST_WRITTEN && rest.iter().all(|octet| octet == first) => {
            push_hexadecimal(to, &[*first])?;
            to.push(b'*')?;
            push_number(alloc, to, octets.len() as u64)
        }
        _ => push_hexadecimal(to, octets),
    }
}

/// What is given where a case wants octets: the case's own text if that spells them, and otherwise their digits.
pub fn as_wanted(alloc: Global, wanted: &[u8], octets: &[u8]) -> Result<Vec<u8>, NoMemory> {
    if is_spelling(wanted) && octets_of(alloc, wanted)?.as_slice() == octets {
        return Ok(Vec::from_slice(alloc, wanted)?);
    }
    let mut digits = Vec::new(alloc);
    push_hexadecimal(&mut digits, octets)?;
    Ok(digits)
}

/// Whether a text has only what spells octets.
fn is_spelling(text: &[u8]) -> bool {
    text.iter().all(|octet| octet.is_ascii_hexdigit() || matches!(octet, b'*' | b' ' | b'\n'))
}
