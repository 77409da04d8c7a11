//! How answers are written: each on a line of its own.

use rad_outside::{Failed, NoMemory};
use std::str::from_utf8;

/// Writes the parts of an answer, and ends its line.
pub fn say(answers: &mut Vec<u8>, parts: &[&[u8]]) -> Result<(), NoMemory> {
    for part in parts {
        answers.extend_from_slice(part)?;
    }
    answers.push(b'\n')?;
    Ok(())
}

/// Writes whether a call worked.
pub fn say_whether_done(
    answers: &mut Vec<u8>,
    outcome: Result<(), Failed>,
) -> Result<(), NoMemory> {
    match outcome {
        Ok(()) => say(answers, &[b"done"]),
        Err(Failed) => say(answers, &[b"failed"]),
    }
}

/// Writes whether a device tells what it has recorded.
pub fn say_whether_telling(answers: &mut Vec<u8>, is_telling: bool) -> Result<(), NoMemory> {
    if is_telling {
        say(answers, &[b"telling"])
    } else {
        say(answers, &[b"not telling"])
    }
}

/// Writes that a device has no call of this name.
pub fn say_no_call(answers: &mut Vec<u8>, name: &[u8]) -> Result<(), NoMemory> {
    say(answers, &[b"there is no call ", name])
}

/// What stands before the first of these octets in a text, and what stands behind it.
pub fn parted(text: &[u8], at: u8) -> (&[u8], &[u8]) {
    let mut parts = text.splitn(2, |octet| *octet == at);
    let first = parts.next().unwrap_or(&[]);
    (first, parts.next().unwrap_or(&[]))
}

/// A path as a text, which is empty where its octets aren't UTF-8.
pub fn path_of(octets: &[u8]) -> &str {
    from_utf8(octets).unwrap_or("")
}
