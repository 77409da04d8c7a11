//! Texts that come many times over, each time with the number of its turn, and how such a text is written.

use rad_outside::NoMemory;
use shared_cases::{decimal, push_number};
use std::alloc::Global;

/// The first word of a text, and what stands behind it and one blank.
pub fn first_word(text: &[u8]) -> (&[u8], &[u8]) {
    let mut parts = text.splitn(2, |octet| *octet == b' ');
    let word = parts.next().unwrap_or(&[]);
    (word, parts.next().unwrap_or(&[]))
}

/// A number and what stands behind it and one blank: `3 a b` is 3 and `a b`.
pub fn counted(text: &[u8]) -> (u64, &[u8]) {
    let (count, rest) = first_word(text);
    (decimal(count), rest)
}

/// Writes a text, in which `{N}` stands for the number N and the turn's together.
pub fn push_turn(alloc: Global, to: &mut Vec<u8>, text: &[u8], turn: u64) -> Result<(), NoMemory> {
    let mut is_first = true;
    for part in text.split(|octet| *octet == b'{') {
        if is_first {
            to.extend_from_slice(part)?;
            is_first = false;
        } else {
            push_behind_brace(alloc, to, part, turn)?;
        }
    }
    Ok(())
}

/// Writes what `{` and the text behind it stand for.
fn push_behind_brace(
    alloc: Global,
    to: &mut Vec<u8>,
    text: &[u8],
    turn: u64,
) -> Result<(), NoMemory> {
    let mut parts = text.splitn(2, |octet| *octet == b'}');
    let number = parts.next().unwrap_or(&[]);
    match parts.next() {
        Some(rest) if is_decimal(number) => {
            push_number(alloc, to, decimal(number).saturating_add(turn))?;
            to.extend_from_slice(rest)?;
        }
        _ => {
            to.push(b'{')?;
            to.extend_from_slice(text)?;
        }
    }
    Ok(())
}

/// Whether a text is decimal digits.
fn is_decimal(text: &[u8]) -> bool {
    !text.is_empty() && text.iter().all(|octet| octet.is_ascii_digit())
}
