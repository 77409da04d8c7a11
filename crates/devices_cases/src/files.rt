//! `MemFiles`: maps from paths to octets, and calls that fail.

use crate::answers::{parted, path_of, say, say_no_call};
use rad_edge::MemFiles;
use rad_outside::{Files, Found, Listed, NoMemory, Octets, OctetsList};
use shared_cases::{Case, Field, numbers};
use std::alloc::Global;

/// A map from paths to octets.
type FileMap = Vec<(Octets, Octets)>;

/// The answers of the files of a case to its calls.
pub fn answers(alloc: Global, case: &Case) -> Result<Vec<u8>, NoMemory> {
    let mut files = files_of(alloc, case)?;
    let mut answers = Vec::new(alloc);
    for field in &case.fields {
        call(alloc, &mut files, field, &mut answers)?;
    }
    Ok(answers)
}

/// The files that a case says.
fn files_of(alloc: Global, case: &Case) -> Result<MemFiles, NoMemory> {
    let mut maps: Vec<FileMap> = Vec::new(alloc);
    for field in &case.fields {
        match field.name.as_slice() {
            b"map" => maps.push(Vec::new(alloc))?,
            b"file" => add_file(alloc, &mut maps, field.text.as_slice())?,
            _ => {}
        }
    }
    Ok(MemFiles::new(maps, numbers(alloc, case.text(b"failing"))?))
}

/// Adds a path and the octets behind it to the last map, if there is one.
fn add_file(alloc: Global, maps: &mut Vec<FileMap>, text: &[u8]) -> Result<(), NoMemory> {
    let (path, octets) = parted(text, b' ');
    let file = (Octets::of(alloc, path)?, Octets::of(alloc, octets)?);
    if let Some(map) = maps.last_mut() {
        map.push(file)?;
    }
    Ok(())
}

/// Makes the call of a field, if it is one.
fn call<F: Files>(
    alloc: Global,
    files: &mut F,
    field: &Field,
    answers: &mut Vec<u8>,
) -> Result<(), NoMemory> {
    match field.name.as_slice() {
        b"device" | b"map" | b"file" | b"failing" | b"gives" => {}
        b"begin" => files.begin(),
        b"read" => match files.read(alloc, path_of(field.text.as_slice())) {
            Found::Bytes(octets) => say(answers, &[b"octets ", octets.as_slice()])?,
            Found::Missing => say(answers, &[b"missing"])?,
            Found::Failed => say(answers, &[b"failed"])?,
            Found::NoMemory => return Err(NoMemory),
        },
        b"list" => list(alloc, files, path_of(field.text.as_slice()), answers)?,
        name => say_no_call(answers, name)?,
    }
    Ok(())
}

/// Looks into a folder.
fn list<F: Files>(
    alloc: Global,
    files: &mut F,
    dir: &str,
    answers: &mut Vec<u8>,
) -> Result<(), NoMemory> {
    match files.list(alloc, dir) {
        Listed::Names(names) => say_names(answers, &names),
        Listed::Missing => say(answers, &[b"missing"]),
        Listed::Failed => say(answers, &[b"failed"]),
        Listed::NoMemory => Err(NoMemory),
    }
}

/// Writes names, each behind a blank.
fn say_names(answers: &mut Vec<u8>, names: &OctetsList) -> Result<(), NoMemory> {
    answers.extend_from_slice(b"names")?;
    for index in 0..names.len() {
        if let Some(name) = names.get(index) {
            answers.push(b' ')?;
            answers.extend_from_slice(name.as_slice())?;
        }
    }
    say(answers, &[])
}
