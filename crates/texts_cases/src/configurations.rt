//! Configurations that are read from files.

use crate::faults::fault_text;
use crate::given_files::{files_of, one_file};
use crate::trees::tree_text;
use rad_conf::{ConfFault, path_of, read_conf};
use rad_outside::{Files, NoMemory, Place};
use shared_cases::{Case, Subject};
use std::alloc::Global;
use std::str;

/// The text of a file `c`, for its tree or its fault.
#[derive(Drop)]
pub struct ConfTextCases;

impl Subject for ConfTextCases {
    fn answer(&mut self, alloc: Global, case: &Case) -> Result<Vec<u8>, NoMemory> {
        let mut files = one_file(alloc, b"etc/c", case.cell(0))?;
        read_text(alloc, &mut files, "etc", "c")
    }
}

/// Files, the folder `dir` and the `name` of a configuration in it, for its tree or its fault.
#[derive(Drop)]
pub struct ConfCases;

impl Subject for ConfCases {
    fn answer(&mut self, alloc: Global, case: &Case) -> Result<Vec<u8>, NoMemory> {
        let mut files = files_of(alloc, case)?;
        let dir = str::from_utf8(case.text(b"dir")).unwrap_or("?");
        let name = str::from_utf8(case.text(b"name")).unwrap_or("?");
        read_text(alloc, &mut files, dir, name)
    }
}

/// A folder and a name, for the path of the file of that name in the folder.
#[derive(Drop)]
pub struct ConfPathCases;

impl Subject for ConfPathCases {
    fn answer(&mut self, alloc: Global, case: &Case) -> Result<Vec<u8>, NoMemory> {
        let dir = str::from_utf8(case.cell(0)).unwrap_or("?");
        let name = str::from_utf8(case.cell(1)).unwrap_or("?");
        Ok(path_of(alloc, dir, name)?.into_bytes())
    }
}

/// What reading a configuration gives.
fn read_text<F: Files>(
    alloc: Global,
    files: &mut F,
    dir: &str,
    name: &str,
) -> Result<Vec<u8>, NoMemory> {
    match read_conf(alloc, files, dir, name) {
        Ok(conf) => tree_text(alloc, &conf),
        Err(fault) => {
            let (name, place) = parts_of(&fault);
            fault_text(alloc, name, place)
        }
    }
}

/// A fault's name and place.
fn parts_of(fault: &ConfFault) -> (&'static [u8], Option<&Place>) {
    match fault {
        ConfFault::Unclosed(place) => (b"Unclosed", Some(place)),
        ConfFault::Stray(place) => (b"Stray", Some(place)),
        ConfFault::BadQuote(place) => (b"BadQuote", Some(place)),
        ConfFault::NoVariable(place) => (b"NoVariable", Some(place)),
        ConfFault::TooDeep(place) => (b"TooDeep", Some(place)),
        ConfFault::Missing(place) => (b"Missing", Some(place)),
        ConfFault::TooLong(place) => (b"TooLong", Some(place)),
        ConfFault::ReadFault => (b"ReadFault", None),
        ConfFault::NoMemory => (b"NoMemory", None),
    }
}
