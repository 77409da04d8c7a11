//! The file of entries that a module names.

ghost use Rattle.std.specs.Prelude.{◌≡◌, ◌≤◌, length, Some, Err, codes};
ghost use Rattle.rad_outside.specs.Telling.{Counts};
ghost use Rattle.rad_build.specs.Nodes.{Gives};
ghost use Rattle.rad_build.specs.Items.{pair_named};
ghost use Rattle.rad_build.specs.Sources.{FindsIn};
ghost use Rattle.rad_build.specs.ModulesBlock.{form_of, users_in, users_at, filename_at, users_by};
ghost use Rattle.mod_users.specs.Users.{says, users_of_text};
ghost use Rattle.rad_text.specs.Answers.{IsAnswer};

use crate::fault::BuildFault;
use crate::item::{pair_named, setting_of};
use crate::path::file_path;
use crate::refusal::refuse_setting;
use mod_users::{Users, UsersFault};
use rad_conf::Node;
use rad_dict::Dict;
use rad_outside::{Files, Found, Octets, Place};
use std::alloc::Global;

/// The most octets of a users file: 4 MiB.
const LONGEST: usize = 4_194_304;

/// The setting that names the file.
const FILENAME: &[u8] = b"filename";

/// A file of entries.
#[derive(Clone, Copy, Debug, PartialEq, Eq)]
pub enum EntryFile {
    /// A users file, as users(5) has it.
    Users,
    /// A filter file, as rlm_attr_filter(5) has it.
    Filter,
}

/// The entries of a text of such a file.
fn entries_in(alloc: Global, file: EntryFile, text: &[u8], dict: &Dict) -> Result<Users, UsersFault>
    requires { length text.now ≤ 4194304 }
    ensures { IsAnswer says (users_of_text (form_of file) text.now dict.now) result }
{
    match file {
        EntryFile::Users => Users::read(alloc, text, dict),
        EntryFile::Filter => Users::read_filter(alloc, text, dict),
    }
}

/// Refuses a users file, by its name.
fn refuse_users<T>(alloc: Global, name: &[u8], wrong: UsersFault) -> Result<T, BuildFault>
    ensures { Gives result (Err (BuildFault.Users name.now wrong)) }
{
    Err(BuildFault::Users(Octets::of(alloc, name)?, wrong))
}

/// The users of a file's octets, which are refused at a place where they are too many.
fn users_in(
    alloc: Global,
    file: EntryFile,
    dict: &Dict,
    place: &Place,
    name: &[u8],
    text: &[u8],
) -> Result<Users, BuildFault>
    ensures { Gives result (users_in file dict.now place.now name.now (Some text.now)) }
{
    if text.len() > LONGEST {
        return refuse_setting(alloc, place, FILENAME);
    }
    match entries_in(alloc, file, text, dict) {
        Ok(users) => Ok(users),
        Err(UsersFault::UnknownAttr(spot)) => {
            refuse_users(alloc, name, UsersFault::UnknownAttr(spot))
        }
        Err(UsersFault::BadOperator(spot)) => {
            refuse_users(alloc, name, UsersFault::BadOperator(spot))
        }
        Err(UsersFault::BadValue(spot)) => refuse_users(alloc, name, UsersFault::BadValue(spot)),
        Err(UsersFault::BadPattern(spot)) => {
            refuse_users(alloc, name, UsersFault::BadPattern(spot))
        }
        Err(UsersFault::BadEntry(spot)) => refuse_users(alloc, name, UsersFault::BadEntry(spot)),
        Err(UsersFault::NoMemory) => Err(BuildFault::NoMemory),
    }
}

/// The users of the file of a name, which is UTF-8. A missing file is refused at the place of its setting.
#[tactic(auto, unfolding(crate::specs::ModulesBlock::users_at))]
fn users_at<F: Files>(
    alloc: Global,
    file: EntryFile,
    files: &mut F,
    dir: &str,
    dict: &Dict,
    place: &Place,
    name: &[u8],
) -> Result<Users, BuildFault>
    ensures told { FindsIn dir.now (λ sources. users_at file sources dict.now place.now name.now) result
        (F.told files.old) (F.told files.new) }
    ensures faults { Counts (F.faults files.old) (F.faults files.new) (result ≡ Err BuildFault.ReadFault) }
{
    let Ok(name_text) = str::from_utf8(name) else {
        return refuse_setting(alloc, place, FILENAME);
    };
    let path = file_path(alloc, dir, name_text)?;
    match files.read(alloc, path.as_str()) {
        Found::Bytes(octets) => users_in(alloc, file, dict, place, name, octets.as_slice()),
        Found::Missing => refuse_setting(alloc, place, FILENAME),
        Found::Failed => Err(BuildFault::ReadFault),
        Found::NoMemory => Err(BuildFault::NoMemory),
    }
}

/// The users of the setting `filename = NAME`.
fn filename_at<F: Files>(
    alloc: Global,
    file: EntryFile,
    files: &mut F,
    dir: &str,
    dict: &Dict,
    node: &Node,
) -> Result<Users, BuildFault>
    ensures told { FindsIn dir.now (λ sources. filename_at file sources dict.now node.now) result
        (F.told files.old) (F.told files.new) }
    ensures faults { Counts (F.faults files.old) (F.faults files.new) (result ≡ Err BuildFault.ReadFault) }
{
    let Some((_, value)) = setting_of(node) else {
        return refuse_setting(alloc, &node.place, FILENAME);
    };
    users_at(alloc, file, files, dir, dict, &node.place, value)
}

/// The users of the first setting `filename` of a block at this place.
pub fn users_by<F: Files>(
    alloc: Global,
    file: EntryFile,
    files: &mut F,
    dir: &str,
    dict: &Dict,
    place: &Place,
    items: &[Node],
) -> Result<Users, BuildFault>
    ensures told { FindsIn dir.now (λ sources. users_by file sources dict.now place.now (pair_named (codes "filename") items.now)) result
        (F.told files.old) (F.told files.new) }
    ensures faults { Counts (F.faults files.old) (F.faults files.new) (result ≡ Err BuildFault.ReadFault) }
{
    match pair_named(FILENAME, items) {
        None => refuse_setting(alloc, place, FILENAME),
        Some(node) => filename_at(alloc, file, files, dir, dict, node),
    }
}
