ghost use Rattle.std.specs.Prelude.{◌≡◌, ℕ, Option};
ghost use Rattle.rad_outside.specs.Telling.{Tells, Counts};
ghost use Rattle.rad_outside.specs.Files.{FilesTold, begun, IsReading, IsListing};

use crate::octets::Octets;
use crate::octets_list::OctetsList;
use std::alloc::Global;

/// A place in a text that was read: the file's path, and a line that counts from 1, or 0 for the file as a whole.
#[derive(Debug, Drop)]
pub struct Place {
    pub file: Octets,
    pub line: u32,
}

/// What a read of a file found.
#[derive(Debug, Drop)]
pub enum Found {
    Bytes(Octets),
    Missing,
    Failed,
    NoMemory,
}

/// What a look into a folder found.
#[derive(Debug, Drop)]
pub enum Listed {
    /// The names of the files that stand right in the folder, in byte order, each once.
    Names(OctetsList),
    Missing,
    Failed,
    NoMemory,
}

/// The files that a site is read from.
pub trait Files {
    /// The present map from path to octets, and the maps to come.
    ghost told: { Self → Option FilesTold };

    /// How often the files have failed.
    ghost faults: { Self → ℕ };

    /// Takes the first map to come, where there is one, and makes it the present one.
    fn begin(&mut self)
        ensures told { Tells (told self.old) (told self.new) (λ before now. now ≡ begun before) }
        ensures faults { faults self.new ≡ faults self.old };

    /// The octets of the file at a path of the present map.
    fn read(&mut self, alloc: Global, path: &str) -> Found
        ensures told { Tells (told self.old) (told self.new) (λ before now.
            (now ≡ before) × IsReading before.present path.now result) }
        ensures faults { Counts (faults self.old) (faults self.new) (result ≡ Found.Failed) };

    /// The names of the files that stand right in a folder of the present map. The folder is given without a slash at its
    /// end. It is missing where no path of the map stands below it.
    fn list(&mut self, alloc: Global, dir: &str) -> Listed
        ensures told { Tells (told self.old) (told self.new) (λ before now.
            (now ≡ before) × IsListing before.present dir.now result) }
        ensures faults { Counts (faults self.old) (faults self.new) (result ≡ Listed.Failed) };
}
