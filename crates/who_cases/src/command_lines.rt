//! Command lines and the numbers in them.

use rad_args::{Arguments, number_in};
use rad_outside::NoMemory;
use shared_cases::{Case, Subject, decimal, push_number};
use std::alloc::Global;

/// The letters without a value, those with one, and words with `|` between them, give each letter that is there, with `=` and
/// its value where it has one, and each plain word behind `:`, all with blanks between them; or `refused`.
#[derive(Drop)]
pub struct CommandLines;

impl Subject for CommandLines {
    fn answer(&mut self, alloc: Global, case: &Case) -> Result<Vec<u8>, NoMemory> {
        let words = words_of(alloc, case.cell(2))?;
        let read = Arguments::read(alloc, case.cell(0), case.cell(1), words.as_slice())?;
        match read {
            Some(arguments) => listed(alloc, &arguments, case.cell(0), case.cell(1)),
            None => Ok(Vec::from_slice(alloc, b"refused")?),
        }
    }
}

/// The words of a text. An empty text has none.
pub fn words_of(alloc: Global, text: &[u8]) -> Result<Vec<String>, NoMemory> {
    let mut words = Vec::new(alloc);
    if text.is_empty() {
        return Ok(words);
    }
    for word in text.split(|octet| *octet == b'|') {
        words.push(String::from_utf8_lossy(alloc, word)?)?;
    }
    Ok(words)
}

/// What is found of the letters, and the plain words.
fn listed(
    alloc: Global,
    arguments: &Arguments,
    flags: &[u8],
    options: &[u8],
) -> Result<Vec<u8>, NoMemory> {
    let mut answer = Vec::new(alloc);
    for letter in flags {
        if arguments.has(*letter) {
            say(&mut answer, &[*letter], b"")?;
        }
    }
    for letter in options {
        if let Some(value) = arguments.value(*letter) {
            say(&mut answer, &[*letter, b'='], value)?;
        }
    }
    for index in 0..16 {
        if let Some(word) = arguments.plain(index) {
            say(&mut answer, b":", word)?;
        }
    }
    Ok(answer)
}

/// Adds two texts, behind a blank.
fn say(answer: &mut Vec<u8>, front: &[u8], text: &[u8]) -> Result<(), NoMemory> {
    if !answer.is_empty() {
        answer.push(b' ')?;
    }
    answer.extend_from_slice(front)?;
    answer.extend_from_slice(text)?;
    Ok(())
}

/// The least number, the most and a word give the number that the word says, or `none`.
#[derive(Drop)]
pub struct Numbers;

impl Subject for Numbers {
    fn answer(&mut self, alloc: Global, case: &Case) -> Result<Vec<u8>, NoMemory> {
        let least = bound(case.cell(0));
        let most = bound(case.cell(1));
        let mut answer = Vec::new(alloc);
        match number_in(least, most, case.cell(2)) {
            Some(number) => push_number(alloc, &mut answer, u64::from(number))?,
            None => answer.extend_from_slice(b"none")?,
        }
        Ok(answer)
    }
}

/// A bound of 32 bits.
fn bound(text: &[u8]) -> u32 {
    u32::try_from(decimal(text)).unwrap_or(u32::MAX)
}
