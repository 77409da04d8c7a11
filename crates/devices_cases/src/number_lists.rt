//! `ListClock` and `ListLuck`: lists of moments and of random words.

use rad_edge::{ListClock, ListLuck};
use rad_outside::{Clock, Luck, NoMemory};
use shared_cases::{Case, decimal, numbers, push_number};
use std::alloc::Global;

/// The moments that the clock of a case gives, as often as it is asked.
pub fn clock_answers(alloc: Global, case: &Case) -> Result<Vec<u8>, NoMemory> {
    let mut clock = ListClock::new(numbers(alloc, case.text(b"list"))?);
    let mut answers = Vec::new(alloc);
    for _ in 0..decimal(case.text(b"now")) {
        push_line(alloc, &mut answers, clock.now())?;
    }
    Ok(answers)
}

/// The words that the source of a case gives, as often as it is asked.
pub fn luck_answers(alloc: Global, case: &Case) -> Result<Vec<u8>, NoMemory> {
    let mut luck = ListLuck::new(numbers(alloc, case.text(b"list"))?);
    let mut answers = Vec::new(alloc);
    for _ in 0..decimal(case.text(b"word")) {
        push_line(alloc, &mut answers, luck.word())?;
    }
    Ok(answers)
}

/// Writes a number, and ends its line.
fn push_line(alloc: Global, answers: &mut Vec<u8>, number: u64) -> Result<(), NoMemory> {
    push_number(alloc, answers, number)?;
    answers.push(b'\n')?;
    Ok(())
}
