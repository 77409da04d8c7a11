//! `MemShelf`: pieces that are appended to files, and appends that fail.

use crate::answers::{parted, path_of, say, say_no_call, say_whether_done, say_whether_telling};
use rad_edge::MemShelf;
use rad_outside::{Append, NoMemory, Shelf};
use shared_cases::{Case, Field, numbers, push_number};
use std::alloc::Global;

/// The answers of the shelf of a case to its calls.
pub fn answers(alloc: Global, case: &Case) -> Result<Vec<u8>, NoMemory> {
    let mut shelf = shelf_of(alloc, case)?;
    let mut answers = Vec::new(alloc);
    for field in &case.fields {
        call(alloc, &mut shelf, field, &mut answers)?;
    }
    Ok(answers)
}

/// The shelf that a case says.
fn shelf_of(alloc: Global, case: &Case) -> Result<MemShelf, NoMemory> {
    let mut failing = Vec::new(alloc);
    for field in &case.fields {
        if field.name.as_slice() == b"failing".as_slice()
            && let [number, written] = numbers(alloc, field.text.as_slice())?.as_slice()
        {
            failing.push((*number, *written as usize))?;
        }
    }
    Ok(MemShelf::new(alloc, failing))
}

/// Makes the call of a field, if it is one.
fn call(
    alloc: Global,
    shelf: &mut MemShelf,
    field: &Field,
    answers: &mut Vec<u8>,
) -> Result<(), NoMemory> {
    match field.name.as_slice() {
        b"device" | b"failing" | b"gives" => Ok(()),
        b"append" => append(shelf, field.text.as_slice(), answers),
        b"appends" => say_appends(alloc, shelf.appends(), answers),
        b"is_telling" => say_whether_telling(answers, shelf.is_telling()),
        name => say_no_call(answers, name),
    }
}

/// Appends what stands behind a path, which has to be something.
fn append<S: Shelf>(shelf: &mut S, text: &[u8], answers: &mut Vec<u8>) -> Result<(), NoMemory> {
    let (path, piece) = parted(text, b' ');
    if piece.is_empty() {
        return say(answers, &[b"no piece"]);
    }
    say_whether_done(answers, shelf.append(path_of(path), piece))
}

/// Writes what the shelf recorded: for each piece the path, how many of its octets were appended, and the piece.
fn say_appends(alloc: Global, appends: &[Append], answers: &mut Vec<u8>) -> Result<(), NoMemory> {
    for append in appends {
        answers.extend_from_slice(append.path.as_slice())?;
        answers.push(b' ')?;
        push_number(alloc, answers, append.written as u64)?;
        say(answers, &[b" of ", append.piece.as_slice()])?;
    }
    Ok(())
}
