//! The dictionary of a site.

ghost use Rattle.std.specs.Prelude.{◌≡◌};
ghost use Rattle.rad_outside.specs.Telling.{Counts};
ghost use Rattle.rad_site.specs.Built.{dict_at};
ghost use Rattle.rad_build.specs.Sources.{FindsIn};

use rad_build::BuildFault;
use rad_conf::path_of;
use rad_dict::Dict;
use rad_outside::{Files, Found};
use std::alloc::Global;

/// The name of the dictionary's file in its folder.
const DICTIONARY: &str = "dictionary";

/// The dictionary of the site in a folder: that of its file `dictionary`, and the base alone where that is missing.
pub(crate) fn dict_at<F: Files>(alloc: Global, files: &mut F, dir: &str) -> Result<Dict, BuildFault>
    ensures told { FindsIn dir.now dict_at result (F.told files.old) (F.told files.new) }
    ensures faults { Counts (F.faults files.old) (F.faults files.new) (result ≡ Err BuildFault.ReadFault) }
{
    let path = path_of(alloc, dir, DICTIONARY)?;
    match files.read(alloc, path.as_str()) {
        Found::Missing => Ok(Dict::base(alloc)?),
        Found::Bytes(octets) => {
            let text = octets.as_slice();
            Ok(Dict::of_file(alloc, files, path.as_str(), text)?)
        }
        Found::Failed => Err(BuildFault::ReadFault),
        Found::NoMemory => Err(BuildFault::NoMemory),
    }
}
