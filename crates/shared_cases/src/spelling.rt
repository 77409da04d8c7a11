//! How octets and numbers are written in a file of cases.

use rad_outside::NoMemory;
use std::alloc::Global;

/// The value of a hexadecimal digit.
fn digit_value(digit: u8) -> Option<u8> {
    match digit {
        b'0'..=b'9' => Some(digit - b'0'),
        b'a'..=b'f' => Some(digit - b'a' + 10),
        b'A'..=b'F' => Some(digit - b'A' + 10),
        _ => None,
    }
}

/// The octet of two hexadecimal digits.
fn octet_of(high: u8, low: u8) -> Option<u8> {
    match (digit_value(high), digit_value(low)) {
        (Some(high), Some(low)) => Some((high & 15) * 16 + (low & 15)),
        _ => None,
    }
}

/// The octets that a text stands for: `%` and two hexadecimal digits are one octet, all else stands for itself.
pub fn unescaped(alloc: Global, text: &[u8]) -> Result<Vec<u8>, NoMemory> {
    let mut octets = Vec::new(alloc);
    let mut is_first = true;
    for part in text.split(|octet| *octet == b'%') {
        if is_first {
            octets.extend_from_slice(part)?;
            is_first = false;
        } else {
            push_behind_percent(&mut octets, part)?;
        }
    }
    Ok(octets)
}

/// Writes what `%` and the text behind it stand for.
fn push_behind_percent(octets: &mut Vec<u8>, text: &[u8]) -> Result<(), NoMemory> {
    if let [high, low, rest @ ..] = text
        && let Some(octet) = octet_of(*high, *low)
    {
        octets.push(octet)?;
        octets.extend_from_slice(rest)?;
        return Ok(());
    }
    octets.push(b'%')?;
    octets.extend_from_slice(text)?;
    Ok(())
}

/// The octets of hexadecimal digits, two for each. Blanks, newlines and whatever else is no digit are passed over, and
/// so is a last digit without its second.
pub fn hexadecimal(alloc: Global, text: &[u8]) -> Result<Vec<u8>, NoMemory> {
    let mut octets = Vec::new(alloc);
    let mut high = None;
    for digit in text {
        let Some(value) = digit_value(*digit) else {
            continue;
        };
        match high {
            None => high = Some(value),
            Some(first) => {
                octets.push((first & 15) * 16 + (value & 15))?;
                high = None;
            }
        }
    }
    Ok(octets)
}

/// Writes octets as hexadecimal digits in lower case.
pub fn push_hexadecimal(to: &mut Vec<u8>, octets: &[u8]) -> Result<(), NoMemory> {
    const DIGITS: [u8; 16] = *b"0123456789abcdef";
    for octet in octets {
        to.push(DIGITS[usize::from(*octet / 16)])?;
        to.push(DIGITS[usize::from(*octet % 16)])?;
    }
    Ok(())
}

/// Writes a number in decimal digits.
pub fn push_number(alloc: Global, to: &mut Vec<u8>, number: u64) -> Result<(), NoMemory> {
    let text = format!(in alloc; "{number}")?;
    to.extend_from_slice(text.as_bytes())?;
    Ok(())
}

/// The number that the decimal digits of a text say, at most 2^64 - 1. What is no digit is passed over.
pub fn decimal(text: &[u8]) -> u64 {
    let mut number = 0u64;
    for digit in text {
        if digit.is_ascii_digit() {
            number = number
                .saturating_mul(10)
                .saturating_add(u64::from(*digit & 15));
        }
    }
    number
}

/// The words of a text, which blanks and newlines part.
pub fn words<'a>(alloc: Global, text: &'a [u8]) -> Result<Vec<&'a [u8]>, NoMemory> {
    let mut list = Vec::new(alloc);
    for word in text.split(|octet| *octet == b' ' || *octet == b'\n') {
        if !word.is_empty() {
            list.push(word)?;
        }
    }
    Ok(list)
}

/// The decimal numbers of a text, which blanks and newlines part. `A..B` says the numbers from A up to B.
pub fn numbers(alloc: Global, text: &[u8]) -> Result<Vec<u64>, NoMemory> {
    let mut list = Vec::new(alloc);
    for word in words(alloc, text)? {
        let mut ends = word.split(|octet| *octet == b'.');
        let first = decimal(ends.next().unwrap_or(&[]));
        let last = ends.last().map_or(first, decimal);
        for number in first..=last {
            list.push(number)?;
        }
    }
    Ok(list)
}

/// What follows a word and one blank at a text's front, where the text is that word or begins so.
pub fn after_word<'a>(text: &'a [u8], word: &[u8]) -> Option<&'a [u8]> {
    match text.strip_prefix(word) {
        Some([]) => Some(&[]),
        Some([b' ', rest @ ..]) => Some(rest),
        _ => None,
    }
}

/// The words of a text as strings. Octets that are no UTF-8 are replaced.
pub fn texts(alloc: Global, text: &[u8]) -> Result<Vec<String>, NoMemory> {
    let mut list = Vec::new(alloc);
    for word in words(alloc, text)? {
        list.push(String::from_utf8_lossy(alloc, word)?)?;
    }
    Ok(list)
}
