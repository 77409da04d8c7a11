//! Dictionary files that are read, with the files that they include.

ghost use Rattle.std.specs.Prelude.{◌≡◌, ◌≢◌, ◌<◌, ◌≤◌, Some, length, IsErr, OnOk};
ghost use Rattle.rad_outside.specs.Telling.{Tells, Counts};
ghost use Rattle.rad_dict.specs.Answers.{IsAnswer};
ghost use Rattle.rad_text.specs.Paths.{folder, last_part, place_at};
ghost use Rattle.rad_dict.specs.Includes.{counted, ended, source_at, include_read, text_read, dict_from, dict_of};

use crate::Dict;
use crate::fault::{DictFault, Wrong};
use crate::reading::Reading;
use crate::step::{Step, step_of, wrong_at};
use rad_outside::{Files, Found, Octets, Place};
use rad_text::{first_line, folder_len, joined, place_at};
use std::alloc::Global;
use std::str;

/// The octets that the files have at most together: 4 MiB.
const LONGEST: usize = 4_194_304;

/// How many includes stand within one another at most.
const DEEPEST: u32 = 16;

/// The octets of one more file are read.
#[tactic(auto, unfolding(crate::specs::Includes::counted))]
fn counted(alloc: Global, file: &[u8], text: &[u8], reading: Reading) -> Result<Reading, DictFault>
    ensures exact { IsAnswer (counted file.now text.now reading) result }
    ensures works { result ≢ Err DictFault.ReadFault }
    ensures fits { OnOk result (length text.now ≤ 4194304) }
{
    let Reading {
        dict,
        vendors,
        present,
        octets,
    } = reading;
    let octets = octets.saturating_add(text.len());
    if octets > LONGEST {
        return too_long(alloc, file);
    }
    Ok(Reading {
        dict,
        vendors,
        present,
        octets,
    })
}

/// The answer that the files are too long together, at the file that makes them so.
fn too_long<T>(alloc: Global, file: &[u8]) -> Result<T, DictFault>
    ensures exact { IsAnswer (Err (DictFault.TooLong (place_at file.now 0))) result }
    ensures works { result ≢ Err DictFault.ReadFault }
    ensures fault { IsErr result }
{
    Err(DictFault::TooLong(place_at(alloc, file, 0)?))
}

/// A file's end, where no vendor may be present.
#[tactic(auto, unfolding(crate::specs::Includes::ended))]
fn ended(alloc: Global, file: &[u8], reading: Reading) -> Result<Reading, DictFault>
    ensures exact { IsAnswer (ended file.now reading) result }
    ensures works { result ≢ Err DictFault.ReadFault }
{
    if reading.present.is_some() {
        return wrong_at(alloc, file, 0, Wrong::BadLine);
    }
    Ok(reading)
}

/// The text of an included file, so many levels above the deepest.
#[tactic(auto, unfolding(crate::specs::Includes::source_at, crate::specs::Includes::found_at))]
fn source_at<F: Files>(
    alloc: Global,
    files: &mut F,
    root: &[u8],
    left: u32,
    place: Place,
    file: &[u8],
) -> Result<Octets, DictFault>
    ensures told { Tells (F.told files.old) (F.told files.new) (λ before now.
        (now ≡ before) × IsAnswer (source_at left before.present root.now place file.now) result) }
    ensures faults { Counts (F.faults files.old) (F.faults files.new) (result ≡ Err DictFault.ReadFault) }
    ensures depth { OnOk result (0 < left) }
{
    if left == 0 {
        return Err(DictFault::TooDeep(place));
    }
    let path = joined(alloc, root, file)?;
    let Ok(path) = str::from_utf8(path.as_slice()) else {
        return Err(DictFault::Missing(place));
    };
    match files.read(alloc, path) {
        Found::Bytes(octets) => Ok(octets),
        Found::Missing => Err(DictFault::Missing(place)),
        Found::Failed => Err(DictFault::ReadFault),
        Found::NoMemory => Err(DictFault::NoMemory),
    }
}

/// What is known after a file with this text, and after the files that it includes.
fn text_read<F: Files>(
    alloc: Global,
    files: &mut F,
    root: &[u8],
    left: u32,
    file: &[u8],
    text: &[u8],
    reading: Reading,
) -> Result<Reading, DictFault>
    ensures told { Tells (F.told files.old) (F.told files.new) (λ before now.
        (now ≡ before) × IsAnswer (text_read (include_read before.present root.now left) file.now text.now reading) result) }
    ensures faults { Counts (F.faults files.old) (F.faults files.new) (result ≡ Err DictFault.ReadFault) }
{
    let mut reading = counted(alloc, file, text, reading)?;
    let mut rest = text;
    let mut line = 1u32;
    while !rest.is_empty() {
        let (here, after) = first_line(rest);
        reading = match step_of(alloc, file, line, reading, here)? {
            Step::Goes(reading) => reading,
            Step::Includes(place, path, reading) => {
                let text = source_at(alloc, files, root, left, place, path.as_slice())?;
                let (path, text) = (path.as_slice(), text.as_slice());
                text_read(alloc, files, root, left - 1, path, text, reading)?
            }
        };
        rest = after;
        line += 1;
    }
    ended(alloc, file, reading)
}

impl Dict {
    /// The dictionary of the file at a path: the base, and what the lines of the file and of the files
    /// that it includes define, after the manual page dictionary(5) of FreeRADIUS.
    pub fn read<F: Files>(alloc: Global, files: &mut F, path: &str) -> Result<Dict, DictFault>
        // What the files tell stays, and the answer is the one that is said of their octets.
        ensures told { Tells (F.told files.old) (F.told files.new) (λ before now.
            (now ≡ before) × IsAnswer (dict_of path.now before.present) result) }

        // A read fault comes only where the files failed.
        ensures faults { Counts (F.faults files.old) (F.faults files.new) (result ≡ Err DictFault.ReadFault) }
    {
        match files.read(alloc, path) {
            Found::Bytes(octets) => Dict::of_file(alloc, files, path, octets.as_slice()),
            Found::Missing => {
                let (_, file) = parts_of(path);
                Err(DictFault::Missing(place_at(alloc, file, 0)?))
            }
            Found::Failed => Err(DictFault::ReadFault),
            Found::NoMemory => Err(DictFault::NoMemory),
        }
    }

    /// The same of a file whose octets were read already.
    pub fn of_file<F: Files>(
        alloc: Global,
        files: &mut F,
        path: &str,
        text: &[u8],
    ) -> Result<Dict, DictFault>
        ensures told { Tells (F.told files.old) (F.told files.new) (λ before now.
            (now ≡ before) × IsAnswer (dict_from path.now before.present (Some text.now)) result) }
        ensures faults { Counts (F.faults files.old) (F.faults files.new) (result ≡ Err DictFault.ReadFault) }
    {
        let (root, file) = parts_of(path);
        let reading = Reading::new(alloc)?;
        let Reading { dict, .. } = text_read(alloc, files, root, DEEPEST, file, text, reading)?;
        Ok(dict)
    }
}

/// A path's folder, with its slash, and its last part.
fn parts_of(path: &str) -> (&[u8], &[u8])
    ensures folder { result.0.now ≡ folder path.now }
    ensures last { result.1.now ≡ last_part path.now }
{
    let whole = path.as_bytes();
    whole.split_at(folder_len(whole))
}
