//! A configuration read from its file.

ghost use Rattle.std.specs.Prelude.{◌≡◌, IfOk};
ghost use Rattle.std.specs.String.{string_bytes};
ghost use Rattle.rad_outside.specs.Telling.{Tells, Counts};
ghost use Rattle.rad_conf.specs.Answers.{IsAnswer};
ghost use Rattle.rad_conf.specs.Conf.{conf_at, path_of, root_of};

use crate::fault::ConfFault;
use crate::including::conf_of;
use crate::tree::Conf;
use rad_outside::{Files, Found};
use rad_text::place_at;
use std::alloc::{AllocError, Global};

/// A folder's path with a `/` at its end.
pub(crate) fn root_of(alloc: Global, dir: &str) -> Result<String, AllocError>
    ensures { IfOk result (λ root. string_bytes root ≡ root_of dir.now) }
{
    let mut root = String::from_str(alloc, dir)?;
    root.push_str("/")?;
    Ok(root)
}

/// The path of a file in a folder: the folder's, a `/` and the file's name.
pub fn path_of(alloc: Global, dir: &str, name: &str) -> Result<String, AllocError>
    ensures { IfOk result (λ path. string_bytes path ≡ path_of dir.now name.now) }
{
    let mut path = String::from_str(alloc, dir)?;
    path.push_str("/")?;
    path.push_str(name)?;
    Ok(path)
}

/// The configuration of the file `name` in the folder `dir`, with the files that it includes, after
/// the manual page radiusd.conf(5). A place names a file by its path below the folder, or as it was
/// included where that begins with `/`.
pub fn read_conf<F: Files>(
    alloc: Global,
    files: &mut F,
    dir: &str,
    name: &str,
) -> Result<Conf, ConfFault>
    // What the files tell stays, and the answer is the one that is said of their octets.
    ensures told { Tells (F.told files.old) (F.told files.new) (λ before now.
        (now ≡ before) × IsAnswer (conf_at dir.now name.now before.present) result) }

    // A read fault comes only where the files failed.
    ensures faults { Counts (F.faults files.old) (F.faults files.new) (result ≡ Err ConfFault.ReadFault) }
{
    let path = path_of(alloc, dir, name)?;
    match files.read(alloc, path.as_str()) {
        Found::Bytes(octets) => conf_of(alloc, files, dir, name, octets.as_slice()),
        Found::Missing => Err(ConfFault::Missing(place_at(alloc, name.as_bytes(), 0)?)),
        Found::Failed => Err(ConfFault::ReadFault),
        Found::NoMemory => Err(ConfFault::NoMemory),
    }
}
