//! Dictionaries that are read from files.

use crate::faults::fault_text;
use crate::given_files::{files_of, one_file};
use crate::questions::answers;
use crate::turns::{counted, push_turn};
use rad_dict::{Dict, DictFault};
use rad_outside::{NoMemory, Place};
use shared_cases::{Case, Subject, push_number};
use std::alloc::Global;
use std::str;

/// The third line of a dictionary, behind a comment and an empty line, for the first fault of the dictionary, whose
/// fourth line is bad.
#[derive(Drop)]
pub struct DictionaryLineCases;

impl Subject for DictionaryLineCases {
    fn answer(&mut self, alloc: Global, case: &Case) -> Result<Vec<u8>, NoMemory> {
        let mut text = Vec::from_slice(alloc, b"# bad\n\n")?;
        text.extend_from_slice(case.cell(0))?;
        text.extend_from_slice(b"\nATTRIBUTE Foo\n")?;
        let mut files = one_file(alloc, b"etc/dictionary", text.as_slice())?;
        match Dict::read(alloc, &mut files, "etc/dictionary") {
            Ok(_) => Ok(Vec::from_slice(alloc, b"ok")?),
            Err(fault) => dictionary_fault(alloc, &fault),
        }
    }
}

/// Files, the path `read` of a dictionary among them, which is `etc/dictionary` where the case doesn't say it, and
/// questions, for the dictionary's fault or its answers.
#[derive(Drop)]
pub struct DictionaryCases;

impl Subject for DictionaryCases {
    fn answer(&mut self, alloc: Global, case: &Case) -> Result<Vec<u8>, NoMemory> {
        let mut files = files_of(alloc, case)?;
        let path = case.find(b"read").unwrap_or(b"etc/dictionary");
        let path = str::from_utf8(path).unwrap_or("?");
        match Dict::read(alloc, &mut files, path) {
            Ok(dict) => known(alloc, &dict, case),
            Err(fault) => dictionary_fault(alloc, &fault),
        }
    }
}

/// What a dictionary answers to a case's questions, or `ok` where there is none.
fn known(alloc: Global, dict: &Dict, case: &Case) -> Result<Vec<u8>, NoMemory> {
    if let Some(names) = case.find(b"numbers") {
        return numbers_text(alloc, dict, names);
    }
    if case.find(b"ask").is_some() {
        return answers(alloc, dict, case, b"ask");
    }
    Ok(Vec::from_slice(alloc, b"ok")?)
}

/// The numbers of so many attributes as stand before a name, each with a comma behind it.
fn numbers_text(alloc: Global, dict: &Dict, names: &[u8]) -> Result<Vec<u8>, NoMemory> {
    let (count, name) = counted(names);
    let mut text = Vec::new(alloc);
    for turn in 0..count {
        let mut one = Vec::new(alloc);
        push_turn(alloc, &mut one, name, turn)?;
        if let Some(def) = dict.attr(one.as_slice()) {
            push_number(alloc, &mut text, u64::from(def.id.number))?;
        }
        text.push(b',')?;
    }
    Ok(text)
}

/// A fault of a dictionary as text.
fn dictionary_fault(alloc: Global, fault: &DictFault) -> Result<Vec<u8>, NoMemory> {
    let (name, place) = parts_of(fault);
    fault_text(alloc, name, place)
}

/// A fault's name and place.
fn parts_of(fault: &DictFault) -> (&'static [u8], Option<&Place>) {
    match fault {
        DictFault::BadLine(place) => (b"BadLine", Some(place)),
        DictFault::UnknownVendor(place) => (b"UnknownVendor", Some(place)),
        DictFault::Taken(place) => (b"Taken", Some(place)),
        DictFault::TooDeep(place) => (b"TooDeep", Some(place)),
        DictFault::Missing(place) => (b"Missing", Some(place)),
        DictFault::TooLong(place) => (b"TooLong", Some(place)),
        DictFault::ReadFault => (b"ReadFault", None),
        DictFault::NoMemory => (b"NoMemory", None),
    }
}
