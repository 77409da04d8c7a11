//! Paths of a site's files.

ghost use Rattle.std.specs.Prelude.{◌≡◌, IfOk};
ghost use Rattle.std.specs.String.{string_bytes};
ghost use Rattle.rad_build.specs.ModulesBlock.{file_path};

use rad_conf::path_of;
use std::alloc::{AllocError, Global};

/// The path of a file that a setting names: below the site's folder, or as it stands where it begins with `/`.
pub fn file_path(alloc: Global, dir: &str, name: &str) -> Result<String, AllocError>
    ensures { IfOk result (λ path. string_bytes path ≡ file_path dir.now name.now) }
{
    if let [b'/', ..] = name.as_bytes() {
        return String::from_str(alloc, name);
    }
    path_of(alloc, dir, name)
}
