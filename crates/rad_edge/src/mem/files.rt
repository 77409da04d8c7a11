ghost use Rattle.std.specs.Prelude.{◌≡◌, ◌≢◌, ◌↔◌, IsTrue, IfOk, OnOk, Some, map};
ghost use Rattle.std.specs.Option.{option_map};
ghost use Rattle.rad_outside.specs.Telling.{Counts};
ghost use Rattle.rad_edge.specs.Failing.{fails_next};
ghost use Rattle.rad_outside.specs.Files.{begun, below, is_folder, name_in, names_in, with_name, IsListing, IsReading};
ghost use Rattle.rad_edge.specs.MemFiles.{file_of, files_of, told_after, after_begin, after_list, after_read};

use super::failing::Failing;
use rad_outside::{Files, Found, Listed, NoMemory, Octets, OctetsList};
use std::alloc::Global;
use std::collections::BTreeSet;
use std::marker::Model;

/// Files in memory: a list of maps, each a list of paths and octets. Where a path stands twice in a map, the first counts.
/// A read and a look into a folder fail where they are to.
#[derive(Debug, Drop)]
pub struct MemFiles {
    maps: Vec<Vec<(Octets, Octets)>>,
    begins: usize,
    faults: u64,
    reads: Failing<u64>,
}

impl Model for MemFiles {
    ghost use Rattle.std.specs.Prelude.{◌≤◌, map, vec_len};
    ghost use Rattle.rad_edge.specs.MemFiles.{FilesState, files_of, told_after};

    ghost Value = { FilesState };

    ghost view = { λ f. record {
      told = told_after f.begins (map (λ m. files_of m.items) f.maps.items);
      faults = f.faults;
      reads = f.reads;
    } };

    ghost invariant = { λ f. f.begins ≤ vec_len f.maps };
}

impl MemFiles {
    /// Files whose first map is present, and whose maps are all to come, and the numbers of the calls that are to fail:
    /// reads and looks into folders, counted together from 1. A begin isn't counted.
    pub fn new(maps: Vec<Vec<(Octets, Octets)>>, failing: Vec<u64>) -> MemFiles
        ensures { result ≡ record {
          told = told_after 0 (map (λ m. files_of m.items) maps.items);
          faults = 0;
          reads = record { failing = failing.items; made = 0 };
        } }
    {
        MemFiles {
            maps,
            begins: 0,
            faults: 0,
            reads: Failing::new(failing),
        }
    }
}

impl Files for MemFiles {
    ghost told = { λ f. Some f.told };

    ghost faults = { λ f. f.faults };

    fn begin(&mut self)
        ensures told { self.new.told ≡ begun self.old.told }
        ensures faults { self.new.faults ≡ self.old.faults }
        ensures state { self.new ≡ after_begin self.old }
    {
        if self.begins < self.maps.len() {
            self.begins += 1;
        }
    }

    fn read(&mut self, alloc: Global, path: &str) -> Found
        ensures told { (self.new.told ≡ self.old.told) × IsReading self.old.told.present path.now result }
        ensures faults { Counts self.old.faults self.new.faults (result ≡ Found.Failed) }
        ensures plan { (result ≡ Found.Failed) ↔ IsTrue (fails_next self.old.reads) }
        ensures state { self.new ≡ after_read self.old result }
    {
        if self.reads.next() {
            self.faults = self.faults.saturating_add(1);
            return Found::Failed;
        }
        match self.maps.get(self.begins.saturating_sub(1)) {
            Some(map) => find(alloc, map.as_slice(), path),
            None => Found::Missing,
        }
    }

    fn list(&mut self, alloc: Global, dir: &str) -> Listed
        ensures told { (self.new.told ≡ self.old.told) × IsListing self.old.told.present dir.now result }
        ensures faults { Counts self.old.faults self.new.faults (result ≡ Listed.Failed) }
        ensures plan { (result ≡ Listed.Failed) ↔ IsTrue (fails_next self.old.reads) }
        ensures state { self.new ≡ after_list self.old result }
    {
        if self.reads.next() {
            self.faults = self.faults.saturating_add(1);
            return Listed::Failed;
        }
        match self.maps.get(self.begins.saturating_sub(1)) {
            Some(map) => list_folder(alloc, map.as_slice(), dir),
            None => Listed::Missing,
        }
    }
}

/// Looks a path up in a map.
fn find(alloc: Global, map: &[(Octets, Octets)], path: &str) -> Found
    ensures found { IsReading (files_of map.now) path.now result }
    ensures works { result ≢ Found.Failed }
{
    for (name, octets) in map {
        if name.as_slice() == path.as_bytes() {
            return match Octets::of(alloc, octets.as_slice()) {
                Ok(octets) => Found::Bytes(octets),
                Err(_) => Found::NoMemory,
            };
        }
    }
    Found::Missing
}

/// Looks into a folder of a map.
fn list_folder(alloc: Global, map: &[(Octets, Octets)], dir: &str) -> Listed
    ensures listed { IsListing (files_of map.now) dir.now result }
    ensures works { result ≢ Listed.Failed }
{
    if !has_folder(map, dir.as_bytes()) {
        return Listed::Missing;
    }
    match names_of(alloc, map, dir.as_bytes()) {
        Ok(names) => Listed::Names(OctetsList::from_vec(names)),
        Err(NoMemory) => Listed::NoMemory,
    }
}

/// Whether a path of the map stands below a folder.
fn has_folder(map: &[(Octets, Octets)], dir: &[u8]) -> bool
    ensures { result ≡ is_folder dir.now (files_of map.now) }
{
    let mut rest = map;
    while let Some((file, after)) = rest.split_first() {
        if path_below(dir, file.0.as_slice()).is_some() {
            return true;
        }
        rest = after;
    }
    false
}

/// The names of the files that stand right in a folder, in order.
fn names_of(alloc: Global, map: &[(Octets, Octets)], dir: &[u8]) -> Result<Vec<Octets>, NoMemory>
    ensures { IfOk result (λ names. names.items ≡ names_in dir.now (files_of map.now)) }
{
    let mut names = BTreeSet::new(alloc);
    let mut rest = map;
    while let Some((file, after)) = rest.split_first() {
        add(alloc, &mut names, dir, file)?;
        rest = after;
    }
    in_octets(alloc, names)
}

/// Adds a file's name to those that are there, where the file stands right in the folder.
fn add(
    alloc: Global,
    names: &mut BTreeSet<Vec<u8>>,
    dir: &[u8],
    file: &(Octets, Octets),
) -> Result<(), NoMemory>
    ensures { OnOk result (map (λ name. name.items) names.new.keys
        ≡ with_name dir.now (map (λ name. name.items) names.old.keys) (file_of file.now)) }
{
    if let Some(name) = file_name(dir, file.0.as_slice()) {
        names.insert(Vec::from_slice(alloc, name)?)?;
    }
    Ok(())
}

/// The names as octets, in order.
fn in_octets(alloc: Global, names: BTreeSet<Vec<u8>>) -> Result<Vec<Octets>, NoMemory>
    ensures { IfOk result (λ octets. octets.items ≡ map (λ name. name.items) names.keys) }
{
    let mut octets = Vec::new(alloc);
    for name in names {
        octets.push(Octets::from_vec(name))?;
    }
    Ok(octets)
}

/// The name of a file that stands right in a folder.
fn file_name<'a>(dir: &[u8], path: &'a [u8]) -> Option<&'a [u8]>
    ensures { option_map (λ name. name.now) result ≡ name_in dir.now path.now }
{
    let name = path_below(dir, path)?;
    if name.contains(&b'/') {
        return None;
    }
    Some(name)
}

/// What of a path follows a folder and one slash.
fn path_below<'a>(dir: &[u8], path: &'a [u8]) -> Option<&'a [u8]>
    ensures { option_map (λ rest. rest.now) result ≡ below dir.now path.now }
{
    path.strip_prefix(dir)?.strip_prefix(b"/")
}
