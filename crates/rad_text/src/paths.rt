//! Paths of files that name one another, and places in them.

ghost use Rattle.std.specs.Prelude.{◌≡◌, ◌≤◌, length, IfOk};
ghost use Rattle.rad_text.specs.Paths.{folder_len, joined, beside, place_at};

use rad_outside::{NoMemory, Octets, Place};
use std::alloc::Global;

/// How many octets of a path name its folder, with the slash at its end; none where the path has no slash.
#[tactic(auto, unfolding(crate::specs::Paths::folder_len))]
pub fn folder_len(path: &[u8]) -> usize
    ensures length { result ≡ folder_len path.now }
    ensures within { result ≤ length path.now }
{
    let mut len = 0;
    for (i, octet) in path.iter().enumerate() {
        if *octet == b'/' {
            len = i + 1;
        }
    }
    len
}

/// A path below a folder whose name ends in a slash, or as it stands where it begins with a slash.
pub fn joined(alloc: Global, folder: &[u8], path: &[u8]) -> Result<Octets, NoMemory>
    ensures { IfOk result (λ octets. octets ≡ joined folder.now path.now) }
{
    let mut octets = Vec::new(alloc);
    if path.first() != Some(&b'/') {
        octets.extend_from_slice(folder)?;
    }
    octets.extend_from_slice(path)?;
    Ok(Octets::from_vec(octets))
}

/// A path as a file names it: beside that file, or as it stands where it begins with a slash.
#[tactic(auto, unfolding(crate::specs::Paths::beside))]
pub fn beside(alloc: Global, file: &[u8], path: &[u8]) -> Result<Octets, NoMemory>
    ensures { IfOk result (λ octets. octets ≡ beside file.now path.now) }
{
    let (folder, _) = file.split_at(folder_len(file));
    joined(alloc, folder, path)
}

/// The place of a line of a file; line 0 is the file as a whole.
pub fn place_at(alloc: Global, file: &[u8], line: u32) -> Result<Place, NoMemory>
    ensures { IfOk result (λ place. place ≡ place_at file.now line) }
{
    Ok(Place {
        file: Octets::of(alloc, file)?,
        line,
    })
}
