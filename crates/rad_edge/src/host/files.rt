ghost use Rattle.std.specs.Prelude.{◌≡◌, None};
ghost use Rattle.rad_outside.specs.Telling.{Counts};
ghost use Rattle.rad_edge.specs.MemFiles.{faults_after, faults_after_list};

use super::telling::tell;
use rad_outside::{Files, Found, Listed, Octets, OctetsList};
use std::alloc::Global;
use std::io::{ErrorKind, Read};
use std::{fs, io, rt};

/// The host's files. The path `-` is standard input. What the host refuses is told on standard error.
#[derive(Drop)]
pub struct HostFiles<R> {
    rt: R,
    faults: u64,
}

impl<R: rt::Files + Input + Eprint + Alloc<A = Global> + Clone + Drop> HostFiles<R> {
    /// The host's files, with no fault yet.
    pub fn new(rt: R) -> HostFiles<R>
        ensures { ⟦<HostFiles<R> as Files>⟧.faults result ≡ 0 }
    {
        HostFiles { rt, faults: 0 }
    }
}

impl<R: rt::Files + Input + Eprint + Alloc<A = Global> + Clone + Drop> Files for HostFiles<R> {
    ghost told = { λ _. None };

    ghost faults = { λ f. f.faults };

    fn begin(&mut self) {}

    fn read(&mut self, alloc: Global, path: &str) -> Found
        ensures faults { Counts self.old.faults self.new.faults (result ≡ Found.Failed) }
        ensures exact { self.new.faults ≡ faults_after result self.old.faults }
    {
        let found = found_at(&self.rt, alloc, path);
        if matches!(&found, Found::Failed) {
            self.faults = self.faults.saturating_add(1);
        }
        found
    }

    /// A name that is no text is passed over, since no path can name it; so is a folder. An empty folder has no names.
    fn list(&mut self, alloc: Global, dir: &str) -> Listed
        ensures faults { Counts self.old.faults self.new.faults (result ≡ Listed.Failed) }
        ensures exact { self.new.faults ≡ faults_after_list result self.old.faults }
    {
        let listed = listed_at(&self.rt, alloc, dir);
        if matches!(&listed, Listed::Failed) {
            self.faults = self.faults.saturating_add(1);
        }
        listed
    }
}

/// Reads the file at a path. A file that can't be opened since it isn't there is missing.
fn found_at<R: rt::Files + Input + Eprint>(rt: &R, alloc: Global, path: &str) -> Found {
    if path == "-" {
        return read_whole(rt, rt.reader(), alloc, path);
    }
    match fs::open(rt, path) {
        Ok(file) => read_whole(rt, file, alloc, path),
        Err(error) if error.kind() == ErrorKind::NotFound => Found::Missing,
        Err(error) => refused(rt, "open", path, &error),
    }
}

/// Reads to the end.
fn read_whole<R: Eprint, F: Read + Drop>(rt: &R, mut from: F, alloc: Global, path: &str) -> Found {
    let mut bytes = Vec::new(alloc);
    match from.read_to_end(&mut bytes) {
        Ok(_) => Found::Bytes(Octets::from_vec(bytes)),
        Err(error) => refused(rt, "read", path, &error),
    }
}

/// What an error means that isn't a missing file.
fn refused<R: Eprint>(rt: &R, tried: &str, path: &str, error: &io::Error) -> Found {
    match error.kind() {
        ErrorKind::OutOfMemory => Found::NoMemory,
        _ => {
            tell(rt, tried, path, error);
            Found::Failed
        }
    }
}

/// Looks into a folder. What isn't there, or is no folder, is missing.
fn listed_at<R: rt::Files + Eprint + Alloc<A = Global> + Clone + Drop>(
    rt: &R,
    alloc: Global,
    dir: &str,
) -> Listed {
    match names_at(rt, alloc, dir) {
        Ok(names) => Listed::Names(OctetsList::from_vec(names)),
        Err(error) => match error.kind() {
            ErrorKind::NotFound | ErrorKind::NotADirectory => Listed::Missing,
            ErrorKind::OutOfMemory => Listed::NoMemory,
            _ => {
                tell(rt, "list", dir, &error);
                Listed::Failed
            }
        },
    }
}

/// The names of a folder's files, in byte order.
fn names_at<R: rt::Files + Alloc<A = Global> + Clone + Drop>(
    rt: &R,
    alloc: Global,
    dir: &str,
) -> io::Result<Vec<Octets>> {
    let mut names = Vec::new(alloc);
    for entry in fs::read_dir(rt, dir)? {
        match entry {
            Ok(entry) => add(rt, alloc, &mut names, &entry)?,
            Err(error) if error.kind() == ErrorKind::InvalidFilename => {}
            Err(error) => return Err(error),
        }
    }
    names.sort()?;
    in_octets(alloc, names)
}

/// Adds a file's name. A link counts as what it leads to; one that leads nowhere counts as a file.
fn add<R: rt::Files + Alloc<A = Global> + Clone + Drop>(
    rt: &R,
    alloc: Global,
    names: &mut Vec<String>,
    entry: &fs::DirEntry<R>,
) -> io::Result<()> {
    if fs::metadata(rt, entry.path()).is_ok_and(|about| about.is_dir()) {
        return Ok(());
    }
    names.push(String::from_str(alloc, entry.file_name())?)?;
    Ok(())
}

/// The names as octets.
fn in_octets(alloc: Global, names: Vec<String>) -> io::Result<Vec<Octets>> {
    let mut owned = Vec::new(alloc);
    for name in names {
        owned.push(Octets::from_vec(name.into_bytes()))?;
    }
    Ok(owned)
}
