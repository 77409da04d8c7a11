//! The files that a case gives to a reader, in memory.
//!
//! `path PATH` begins a file, and these fields add to the file that was begun last: `octets TEXT` the text, and
//! `repeat COUNT TEXT` the text so many times. `paths COUNT PATH TEXT` are so many files, each of that path and text.
//! In what is repeated `{N}` stands for the number N and that of the turn together, which is 0 at first.
//! `fails NUMBER` has the read of that number fail, counted from 1.

use crate::turns::{counted, first_word, push_turn};
use rad_edge::MemFiles;
use rad_outside::{NoMemory, Octets};
use shared_cases::{Case, decimal};
use std::alloc::Global;

/// A file, by its path and what it holds.
#[derive(Drop)]
struct Given {
    path: Vec<u8>,
    octets: Vec<u8>,
}

/// The files of a case.
pub fn files_of(alloc: Global, case: &Case) -> Result<MemFiles, NoMemory> {
    let mut files = Vec::new(alloc);
    let mut failing = Vec::new(alloc);
    for field in &case.fields {
        let text = field.text.as_slice();
        match field.name.as_slice() {
            b"path" => files.push(Given {
                path: Vec::from_slice(alloc, text)?,
                octets: Vec::new(alloc),
            })?,
            b"octets" => add(&mut files, text)?,
            b"repeat" => add_repeated(alloc, &mut files, text)?,
            b"paths" => push_paths(alloc, &mut files, text)?,
            b"fails" => failing.push(decimal(text))?,
            _ => {}
        }
    }
    in_memory(alloc, files, failing)
}

/// One file alone, by its path and what it holds.
pub fn one_file(alloc: Global, path: &[u8], octets: &[u8]) -> Result<MemFiles, NoMemory> {
    let mut files = Vec::new(alloc);
    files.push(Given {
        path: Vec::from_slice(alloc, path)?,
        octets: Vec::from_slice(alloc, octets)?,
    })?;
    in_memory(alloc, files, Vec::new(alloc))
}

/// Adds octets to the last file, if there is one.
fn add(files: &mut Vec<Given>, octets: &[u8]) -> Result<(), NoMemory> {
    match files.last_mut() {
        Some(file) => {
            file.octets.extend_from_slice(octets)?;
            Ok(())
        }
        None => Ok(()),
    }
}

/// Adds a text to the last file, so many times as stands before it.
fn add_repeated(alloc: Global, files: &mut Vec<Given>, text: &[u8]) -> Result<(), NoMemory> {
    let (count, text) = counted(text);
    let mut octets = Vec::new(alloc);
    for turn in 0..count {
        push_turn(alloc, &mut octets, text, turn)?;
    }
    add(files, octets.as_slice())
}

/// Begins and ends so many files as stand before a path and a text.
fn push_paths(alloc: Global, files: &mut Vec<Given>, text: &[u8]) -> Result<(), NoMemory> {
    let (count, text) = counted(text);
    let (path, octets) = first_word(text);
    for turn in 0..count {
        let mut file = Given {
            path: Vec::new(alloc),
            octets: Vec::new(alloc),
        };
        push_turn(alloc, &mut file.path, path, turn)?;
        push_turn(alloc, &mut file.octets, octets, turn)?;
        files.push(file)?;
    }
    Ok(())
}

/// One map of these files, in which the reads of these numbers fail.
fn in_memory(alloc: Global, files: Vec<Given>, failing: Vec<u64>) -> Result<MemFiles, NoMemory> {
    let mut map = Vec::new(alloc);
    for file in files {
        let Given { path, octets } = file;
        map.push((Octets::from_vec(path), Octets::from_vec(octets)))?;
    }
    let mut maps = Vec::new(alloc);
    maps.push(map)?;
    Ok(MemFiles::new(maps, failing))
}
