//! Scripts are obeyed word by word.
use crate::office::Office;
use rad_outside::NoMemory;
use shared_cases::{Case, Subject, decimal, push_number, words};
use std::alloc::Global;
use std::sync::Wait;

/// A script of seats at a desk gives what each of its words answers. The first seat's turn is the word `turn`.
#[derive(Drop)]
pub struct Scripts<'a, R> {
    pub rt: &'a R,
}

impl<R: Wait> Subject for Scripts<'_, R> {
    fn answer(&mut self, alloc: Global, case: &Case) -> Result<Vec<u8>, NoMemory> {
        let mut office = Office::open(alloc)?;
        let mut answers = Vec::new(alloc);
        for word in words(alloc, case.cell(0))? {
            if word == b"close".as_slice() {
                match office.close() {
                    Ok(steps) => {
                        say(alloc, &mut answers, b"value:", Some(steps))?;
                        return Ok(answers);
                    }
                    Err(kept) => {
                        office = kept;
                        say(alloc, &mut answers, b"others", None)?;
                    }
                }
            } else {
                obey(self.rt, alloc, &mut office, word, &mut answers)?;
            }
        }
        Ok(answers)
    }
}

fn obey<R: Wait>(
    rt: &R,
    alloc: Global,
    office: &mut Office,
    word: &[u8],
    answers: &mut Vec<u8>,
) -> Result<(), NoMemory> {
    match word {
        b"split" => match office.split()? {
            Some(name) => say(alloc, answers, b"", Some(u64::from(name))),
            None => say(alloc, answers, b"full", None),
        },
        b"turn" => say(alloc, answers, b"", office.turn_first(rt)),
        [b'j', b'o', b'i', b'n', b':', name @ ..] => {
            if office.join(name_of(name)) {
                say(alloc, answers, b"joined", None)
            } else {
                say(alloc, answers, b"absent", None)
            }
        }
        [b't', b'u', b'r', b'n', b':', name @ ..] => {
            match office.turn(rt, name_of(name))? {
                Some(number) => say(alloc, answers, b"", Some(number)),
                None => say(alloc, answers, b"absent", None),
            }
        }
        _ => say(alloc, answers, b"unknown", None),
    }
}

fn name_of(digits: &[u8]) -> u32 {
    u32::try_from(decimal(digits)).unwrap_or(0)
}

/// One answer more, behind a blank.
fn say(
    alloc: Global,
    answers: &mut Vec<u8>,
    what: &[u8],
    number: Option<u64>,
) -> Result<(), NoMemory> {
    if !answers.is_empty() {
        answers.push(b' ')?;
    }
    answers.extend_from_slice(what)?;
    match number {
        Some(number) => push_number(alloc, answers, number),
        None => Ok(()),
    }
}
