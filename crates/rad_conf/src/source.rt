//! The files that an include takes.

ghost use Rattle.std.specs.Prelude.{◌≡◌, ◌++◌, ◌∷◌, [], IfOk};
ghost use Rattle.rad_outside.specs.Telling.{Tells, Counts};
ghost use Rattle.rad_text.specs.Paths.{joined};
ghost use Rattle.rad_conf.specs.Answers.{IsAnswer};
ghost use Rattle.rad_conf.specs.Includes.{is_name_octet, is_name, named_in, names_folder, without_slash, folder_paths, paths_of, found_at};

use crate::fault::ConfFault;
use crate::sign::octet_at;
use rad_outside::{Files, Found, Listed, NoMemory, Octets, OctetsList};
use rad_text::joined;
use std::alloc::Global;
use std::str;

/// A letter, a digit, `_`, `-` or `.`.
#[tactic(auto, unfolding(crate::specs::Includes::is_name_octet))]
fn is_name_octet(octet: u8) -> bool
    ensures { result ≡ is_name_octet octet }
{
    matches!(octet, b'a'..=b'z' | b'A'..=b'Z' | b'0'..=b'9' | b'_' | b'-' | b'.')
}

/// Whether a folder's include takes the file of this name.
#[tactic(auto, unfolding(crate::specs::Includes::is_name))]
fn is_name(name: &[u8]) -> bool
    ensures { result ≡ is_name name.now }
{
    let mut rest = name;
    while let Some((octet, after)) = rest.split_first() {
        if !is_name_octet(*octet) {
            return false;
        }
        rest = after;
    }
    true
}

/// The path of a file in a folder, whose path has its slash.
fn below(alloc: Global, path: &[u8], name: &[u8]) -> Result<Octets, NoMemory>
    ensures { IfOk result (λ file. file ≡ path.now ++ name.now) }
{
    let mut file = Vec::from_slice(alloc, path)?;
    file.extend_from_slice(name)?;
    Ok(Octets::from_vec(file))
}

/// The paths of the files that a folder's include takes.
#[tactic(auto, unfolding(crate::specs::Includes::named_in))]
fn named_in(alloc: Global, path: &[u8], names: OctetsList) -> Result<OctetsList, NoMemory>
    ensures { IfOk result (λ paths. paths ≡ named_in path.now names) }
{
    let names = names.into_vec();
    let mut paths = Vec::new(alloc);
    let mut rest = names.as_slice();
    while let Some((name, after)) = rest.split_first() {
        if is_name(name.as_slice()) {
            paths.push(below(alloc, path, name.as_slice())?)?;
        }
        rest = after;
    }
    Ok(OctetsList::from_vec(paths))
}

/// Whether a path names a folder: it ends in a slash.
#[tactic(auto, unfolding(crate::specs::Includes::names_folder))]
fn names_folder(path: &[u8]) -> bool
    ensures { result ≡ names_folder path.now }
{
    octet_at(path, path.len().saturating_sub(1)) == b'/'
}

/// The files of a folder, by its path and where that stands.
#[tactic(auto, unfolding(crate::specs::Includes::folder_paths))]
fn folder_paths<F: Files>(
    alloc: Global,
    files: &mut F,
    path: &[u8],
    at: &[u8],
) -> Result<Option<OctetsList>, ConfFault>
    ensures told { Tells (F.told files.old) (F.told files.new) (λ before now.
        (now ≡ before) × IsAnswer (Ok (folder_paths before.present path.now at.now)) result) }
    ensures faults { Counts (F.faults files.old) (F.faults files.new) (result ≡ Err ConfFault.ReadFault) }
{
    let Ok(at) = str::from_utf8(at) else {
        return Ok(None);
    };
    match files.list(alloc, at) {
        Listed::Names(names) => Ok(Some(named_in(alloc, path, names)?)),
        Listed::Missing => Ok(None),
        Listed::Failed => Err(ConfFault::ReadFault),
        Listed::NoMemory => Err(ConfFault::NoMemory),
    }
}

/// A path as a list of its own.
fn alone(alloc: Global, path: &[u8]) -> Result<OctetsList, NoMemory>
    ensures { IfOk result (λ paths. paths ≡ path.now ∷ []) }
{
    let mut paths = Vec::new(alloc);
    paths.push(Octets::of(alloc, path)?)?;
    Ok(OctetsList::from_vec(paths))
}

/// Where the folder of a path stands, without the slash at its end.
fn folder_at(alloc: Global, root: &[u8], path: &[u8]) -> Result<Octets, NoMemory>
    ensures { IfOk result (λ at. at ≡ without_slash (joined root.now path.now)) }
{
    let whole = joined(alloc, root, path)?;
    let whole = whole.as_slice();
    let (at, _) = whole.split_at(whole.len().saturating_sub(1));
    Octets::of(alloc, at)
}

/// The paths of the files that an include takes, by its path below a folder: those of the files of a
/// folder, or the path itself.
#[tactic(auto, unfolding(crate::specs::Includes::paths_of))]
pub fn paths_of<F: Files>(
    alloc: Global,
    files: &mut F,
    root: &[u8],
    path: &[u8],
) -> Result<Option<OctetsList>, ConfFault>
    ensures told { Tells (F.told files.old) (F.told files.new) (λ before now.
        (now ≡ before) × IsAnswer (Ok (paths_of before.present root.now path.now)) result) }
    ensures faults { Counts (F.faults files.old) (F.faults files.new) (result ≡ Err ConfFault.ReadFault) }
{
    if !names_folder(path) {
        return Ok(Some(alone(alloc, path)?));
    }
    let at = folder_at(alloc, root, path)?;
    folder_paths(alloc, files, path, at.as_slice())
}

/// The octets of a file at a path below a folder.
#[tactic(auto, unfolding(crate::specs::Includes::found_at))]
pub fn found_at<F: Files>(
    alloc: Global,
    files: &mut F,
    root: &[u8],
    path: &[u8],
) -> Result<Option<Octets>, ConfFault>
    ensures told { Tells (F.told files.old) (F.told files.new) (λ before now.
        (now ≡ before) × IsAnswer (Ok (found_at (joined root.now path.now) before.present)) result) }
    ensures faults { Counts (F.faults files.old) (F.faults files.new) (result ≡ Err ConfFault.ReadFault) }
{
    let path = joined(alloc, root, path)?;
    let Ok(path) = str::from_utf8(path.as_slice()) else {
        return Ok(None);
    };
    match files.read(alloc, path) {
        Found::Bytes(octets) => Ok(Some(octets)),
        Found::Missing => Ok(None),
        Found::Failed => Err(ConfFault::ReadFault),
        Found::NoMemory => Err(ConfFault::NoMemory),
    }
}
