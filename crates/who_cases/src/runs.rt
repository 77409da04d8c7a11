//! Runs of radwho over a log in memory.
//!
//! `words TEXT` are the words with `|` between them. `log TEXT` is the log at `radutmp.log`, and `at PATH` has it elsewhere;
//! without `log` it is missing. `filled COUNT` adds so many octets `x` to the log. `read_fails` and `write_fails` have the read
//! and the write fail. A run gives its exit status in one line, and then what it printed.

use crate::command_lines::words_of;
use rad_edge::{MemFiles, MemSink};
use rad_outside::{NoMemory, Octets};
use radwho::radwho;
use shared_cases::{Case, Subject, decimal, push_number};
use std::alloc::Global;

/// A run of radwho.
#[derive(Drop)]
pub struct Runs;

impl Subject for Runs {
    fn answer(&mut self, alloc: Global, case: &Case) -> Result<Vec<u8>, NoMemory> {
        let words = words_of(alloc, case.text(b"words"))?;
        let mut files = files_of(alloc, case)?;
        let mut out = MemSink::new(alloc, failing(alloc, case, b"write_fails")?);
        let status = radwho(alloc, words.as_slice(), &mut files, &mut out);
        let mut answer = Vec::new(alloc);
        push_number(alloc, &mut answer, u64::from(status))?;
        answer.push(b'\n')?;
        answer.extend_from_slice(out.octets())?;
        Ok(answer)
    }
}

/// The files of a case: its log, where it has one.
fn files_of(alloc: Global, case: &Case) -> Result<MemFiles, NoMemory> {
    let mut map = Vec::new(alloc);
    if let Some(log) = case.find(b"log") {
        let path = case.find(b"at").unwrap_or(b"radutmp.log");
        let mut log = Vec::from_slice(alloc, log)?;
        fill(alloc, &mut log, decimal(case.text(b"filled")))?;
        map.push((Octets::of(alloc, path)?, Octets::from_vec(log)))?;
    }
    let mut maps = Vec::new(alloc);
    maps.push(map)?;
    Ok(MemFiles::new(maps, failing(alloc, case, b"read_fails")?))
}

/// Adds so many octets `x`, by blocks of 4,096.
fn fill(alloc: Global, log: &mut Vec<u8>, count: u64) -> Result<(), NoMemory> {
    let mut block = Vec::new(alloc);
    for _ in 0..4096 {
        block.push(b'x')?;
    }
    for _ in 0..count / 4096 {
        log.extend_from_slice(block.as_slice())?;
    }
    for _ in 0..count % 4096 {
        log.push(b'x')?;
    }
    Ok(())
}

/// The first call, where the case has this field.
fn failing(alloc: Global, case: &Case, field: &[u8]) -> Result<Vec<u64>, NoMemory> {
    let mut calls = Vec::new(alloc);
    if case.find(field).is_some() {
        calls.push(1)?;
    }
    Ok(calls)
}
