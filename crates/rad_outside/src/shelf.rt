ghost use Rattle.std.specs.Prelude.{◌≢◌, [], ℕ, List, Option, IsErr};
ghost use Rattle.rad_outside.specs.Telling.{Tells, Counts};
ghost use Rattle.rad_outside.specs.Shelf.{Appends};
ghost use Rattle.rad_outside.specs.declared.shelf.Append.{Append};

use crate::fault::Failed;
use crate::octets::Octets;

/// A piece that was handed to a shelf: the path, the piece, and how many of its octets were appended there.
#[derive(Debug, Drop)]
pub struct Append {
    pub path: Octets,
    pub piece: Octets,
    pub written: usize,
}

/// Files that only grow.
pub trait Shelf {
    /// The pieces that were handed in, in order.
    ghost told: { Self → Option (List Append) };

    /// How often the shelf has failed.
    ghost faults: { Self → ℕ };

    /// Appends a piece to the file at a path. After a failure a proper prefix of it was appended.
    fn append(&mut self, path: &str, bytes: &[u8]) -> Result<(), Failed>
        requires { bytes.now ≢ [] }
        ensures told { Tells (told self.old) (told self.new) (Appends path.now bytes.now result) }
        ensures faults { Counts (faults self.old) (faults self.new) (IsErr result) };
}
