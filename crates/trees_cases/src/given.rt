//! What a case gives to the reader of policies.
//!
//! `conf` adds to the text of the file `radiusd.conf`, and `repeat COUNT TEXT` adds the text so many times. `file` is
//! another file, its name on the first line. `instance NAME SECTION..` is the next instance, with methods for these
//! sections, or for every section by `all`.

use rad_edge::MemFiles;
use rad_outside::{NoMemory, Octets};
use shared_cases::{Case, decimal, words};
use std::alloc::Global;
use unlang_tree::{AddFault, Instances, MethodSet};

/// The sections, in the order of a set of methods.
const SECTIONS: [&[u8]; 6] = [
    b"authorize",
    b"authenticate",
    b"session",
    b"preacct",
    b"accounting",
    b"post-auth",
];

/// The methods of these sections.
pub fn methods_of(sections: &[&[u8]]) -> MethodSet {
    let mut methods = [false; 6];
    for section in sections {
        for place in 0..6usize {
            if *section == SECTIONS[place] || *section == b"all".as_slice() {
                methods[place] = true;
            }
        }
    }
    MethodSet { methods }
}

/// The instances of a case, in order.
pub fn instances_of(alloc: Global, case: &Case) -> Result<Instances, AddFault> {
    let mut instances = Instances::new(alloc);
    for field in &case.fields {
        if field.name.as_slice() == b"instance".as_slice() {
            let words = words(alloc, field.text.as_slice())?;
            if let Some((name, sections)) = words.as_slice().split_first() {
                let _number = instances.add(name, methods_of(sections))?;
            }
        }
    }
    Ok(instances)
}

/// The files of a case, in the folder `etc`.
pub fn files_of(alloc: Global, case: &Case) -> Result<MemFiles, NoMemory> {
    let mut map = Vec::new(alloc);
    let mut conf = Vec::new(alloc);
    for field in &case.fields {
        let text = field.text.as_slice();
        match field.name.as_slice() {
            b"conf" => conf.extend_from_slice(text)?,
            b"repeat" => add_repeated(&mut conf, text)?,
            b"file" => {
                let (name, octets) = first_line(text);
                map.push((path_of(alloc, name)?, Octets::of(alloc, octets)?))?;
            }
            _ => {}
        }
    }
    map.push((path_of(alloc, b"radiusd.conf")?, Octets::from_vec(conf)))?;
    let mut maps = Vec::new(alloc);
    maps.push(map)?;
    Ok(MemFiles::new(maps, Vec::new(alloc)))
}

/// The path of a file in the folder.
fn path_of(alloc: Global, name: &[u8]) -> Result<Octets, NoMemory> {
    let mut path = Vec::from_slice(alloc, b"etc/")?;
    path.extend_from_slice(name)?;
    Ok(Octets::from_vec(path))
}

/// Adds a text so many times as stands before it.
fn add_repeated(to: &mut Vec<u8>, text: &[u8]) -> Result<(), NoMemory> {
    let mut parts = text.splitn(2, |octet| *octet == b' ');
    let count = decimal(parts.next().unwrap_or(&[]));
    let text = parts.next().unwrap_or(&[]);
    for _ in 0..count {
        to.extend_from_slice(text)?;
    }
    Ok(())
}

/// The first line of a text, and what stands behind it.
fn first_line(text: &[u8]) -> (&[u8], &[u8]) {
    let mut parts = text.splitn(2, |octet| *octet == b'\n');
    let line = parts.next().unwrap_or(&[]);
    let rest = parts.next().unwrap_or(&[]);
    (line, rest)
}
