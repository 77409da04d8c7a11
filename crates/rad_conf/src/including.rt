//! Configuration files that are read, with the files that they include.

ghost use Rattle.std.specs.Prelude.{◌≡◌, ◌+◌, ◌-◌, ◌<◌, ◌≤◌, ◌^◌, length, IfOk, OnOk};
ghost use Rattle.rad_outside.specs.Telling.{Tells, Counts};
ghost use Rattle.rad_text.specs.Paths.{place_at, beside, joined};
ghost use Rattle.rad_conf.specs.Answers.{IsTextAnswer, IsAnswer, Reads};
ghost use Rattle.rad_conf.specs.Marks.{mark_at, lines_in};
ghost use Rattle.rad_conf.specs.Growth.{placed, taken, text_read};
ghost use Rattle.rad_conf.specs.Includes.{found_at, Misses, found_read, include_read};
ghost use Rattle.rad_conf.specs.Conf.{conf_of};

use crate::fault::{ConfFault, Wrong};
use crate::growth::Growth;
use crate::lines::lines_of;
use crate::mark::{Mark, mark_at};
use crate::reading::root_of;
use crate::source::{found_at, paths_of};
use crate::tree::Conf;
use rad_outside::{Files, NoMemory, Octets, Place};
use rad_text::{ReadError, beside, place_at};
use std::alloc::Global;

/// How many includes stand within one another at most.
const DEEPEST: u32 = 16;

/// The mark at the front, with its fault at the line that is read.
fn mark_of<'a>(
    alloc: Global,
    growth: &Growth,
    file: &[u8],
    text: &'a [u8],
) -> Result<(Mark, &'a [u8]), ConfFault>
    requires { 0 < length text.now }
    ensures exact { IsTextAnswer (λ x. (x.0, x.1.now)) (placed file.now growth.now.line (mark_at growth.now text.now)) result }
    ensures shorter { IfOk result (λ x. length x.1.now < length text.now) }
    ensures lines { IfOk result (λ x. lines_in x.0 + length x.1.now ≤ length text.now) }
{
    match mark_at(alloc, growth, text) {
        Ok(read) => Ok(read),
        Err(ReadError::Wrong(wrong)) => Err(growth.fault(alloc, file, wrong)),
        Err(ReadError::NoMemory) => Err(ConfFault::NoMemory),
    }
}

/// An include's place, and its path beside the file that includes it.
fn include_at(
    alloc: Global,
    growth: &Growth,
    file: &[u8],
    path: &[u8],
) -> Result<(Place, Octets), NoMemory>
    ensures place { IfOk result (λ found. found.0 ≡ place_at file.now growth.now.line) }
    ensures path { IfOk result (λ found. found.1 ≡ beside file.now path.now) }
{
    Ok((
        place_at(alloc, file, growth.line)?,
        beside(alloc, file, path)?,
    ))
}

/// What isn't there is a fault, unless it may be missing.
fn missing(alloc: Global, place: &Place, optional: bool) -> Result<(), ConfFault>
    ensures { Misses place.now optional result }
{
    if optional {
        return Ok(());
    }
    Err(ConfFault::Missing(place_at(alloc, place.file.as_slice(), place.line)?))
}

/// The tree after a file with this text, and after the files that it includes.
#[cycle(reading)]
fn text_read<F: Files>(
    alloc: Global,
    files: &mut F,
    root: &[u8],
    left: u32,
    file: &[u8],
    text: &[u8],
    growth: &mut Growth,
) -> Result<(), ConfFault>
    ensures told { Tells (F.told files.old) (F.told files.new) (λ before now.
        (now ≡ before) × Reads (text_read (include_read before.present root.now left) file.now text.now growth.old) growth.new result) }
    ensures faults { Counts (F.faults files.old) (F.faults files.new) (result ≡ Err ConfFault.ReadFault) }
    ensures line { OnOk result (growth.new.line ≡ growth.old.line) }
{
    growth.count(alloc, file, text)?;
    let lines = lines_of(alloc, text)?;
    let (line, outside) = (growth.line, growth.outside);
    growth.enter();
    let mut rest = lines.as_slice();
    while !rest.is_empty() {
        let (mark, after) = mark_of(alloc, growth, file, rest)?;
        taken(alloc, files, root, left, file, mark, growth)?;
        rest = after;
    }
    growth.end()?;
    growth.leave(line, outside);
    Ok(())
}

/// The tree after a mark.
#[cycle(reading)]
fn taken<F: Files>(
    alloc: Global,
    files: &mut F,
    root: &[u8],
    left: u32,
    file: &[u8],
    mark: Mark,
    growth: &mut Growth,
) -> Result<(), ConfFault>
    requires { growth.old.line + lines_in mark < 2 ^ 32 }
    ensures told { Tells (F.told files.old) (F.told files.new) (λ before now.
        (now ≡ before) × Reads (taken (include_read before.present root.now left) file.now mark growth.old) growth.new result) }
    ensures faults { Counts (F.faults files.old) (F.faults files.new) (result ≡ Err ConfFault.ReadFault) }
    ensures line { OnOk result (growth.new.line ≤ growth.old.line + lines_in mark) }
{
    match mark {
        Mark::Passed => Ok(()),
        Mark::NextLine => {
            growth.next_line();
            Ok(())
        }
        Mark::Closes => growth.close(alloc, file),
        Mark::Whole(item) => Ok(growth.add(alloc, file, item)?),
        Mark::Opens(kind, name, lines) => Ok(growth.begin(alloc, file, kind, name, lines)?),
        Mark::Includes(optional, path) => {
            let (place, path) = include_at(alloc, growth, file, path.as_slice())?;
            let path = path.as_slice();
            include_read(alloc, files, root, left, place, optional, path, growth)
        }
    }
}

/// The tree after an include, so many levels above the deepest.
#[cycle(reading)]
fn include_read<F: Files>(
    alloc: Global,
    files: &mut F,
    root: &[u8],
    left: u32,
    place: Place,
    optional: bool,
    path: &[u8],
    growth: &mut Growth,
) -> Result<(), ConfFault>
    ensures told { Tells (F.told files.old) (F.told files.new) (λ before now.
        (now ≡ before) × Reads (include_read before.present root.now left place optional path.now growth.old) growth.new result) }
    ensures faults { Counts (F.faults files.old) (F.faults files.new) (result ≡ Err ConfFault.ReadFault) }
    ensures line { OnOk result (growth.new.line ≡ growth.old.line) }
{
    if left == 0 {
        return Err(ConfFault::TooDeep(place));
    }
    let Some(paths) = paths_of(alloc, files, root, path)? else {
        return missing(alloc, &place, optional);
    };
    let paths = paths.into_vec();
    let mut rest = paths.as_slice();
    while let Some((path, after)) = rest.split_first() {
        found_read(
            alloc,
            files,
            root,
            left,
            &place,
            optional,
            path.as_slice(),
            growth,
        )?;
        rest = after;
    }
    Ok(())
}

/// The tree after a file that an include takes.
#[cycle(reading)]
fn found_read<F: Files>(
    alloc: Global,
    files: &mut F,
    root: &[u8],
    left: u32,
    place: &Place,
    optional: bool,
    path: &[u8],
    growth: &mut Growth,
) -> Result<(), ConfFault>
    requires { 0 < left }
    ensures told { Tells (F.told files.old) (F.told files.new) (λ before now.
        (now ≡ before) × Reads (found_read (include_read before.present root.now (left - 1)) place.now optional path.now growth.old (found_at (joined root.now path.now) before.present)) growth.new result) }
    ensures faults { Counts (F.faults files.old) (F.faults files.new) (result ≡ Err ConfFault.ReadFault) }
    ensures line { OnOk result (growth.new.line ≡ growth.old.line) }
{
    match found_at(alloc, files, root, path)? {
        None => missing(alloc, place, optional),
        Some(octets) => text_read(
            alloc,
            files,
            root,
            left - 1,
            path,
            octets.as_slice(),
            growth,
        ),
    }
}

/// The tree of a text, with the files that it includes.
pub fn conf_of<F: Files>(
    alloc: Global,
    files: &mut F,
    dir: &str,
    name: &str,
    text: &[u8],
) -> Result<Conf, ConfFault>
    ensures told { Tells (F.told files.old) (F.told files.new) (λ before now.
        (now ≡ before) × IsAnswer (conf_of dir.now name.now before.present text.now) result) }
    ensures faults { Counts (F.faults files.old) (F.faults files.new) (result ≡ Err ConfFault.ReadFault) }
{
    let root = root_of(alloc, dir)?;
    let mut growth = Growth::new(alloc);
    text_read(
        alloc,
        files,
        root.as_bytes(),
        DEEPEST,
        name.as_bytes(),
        text,
        &mut growth,
    )?;
    Ok(growth.into_conf())
}
