ghost use Rattle.std.specs.Prelude.{◌≡◌, length};
ghost use Rattle.std.specs.List.{slice_get};
ghost use Rattle.std.specs.Option.{option_copied};

use crate::octets::Octets;
use std::marker::Model;

/// A list of octets that it owns: the names of a folder's files.
#[derive(Debug, Drop)]
pub struct OctetsList {
    items: Vec<Octets>,
}

impl Model for OctetsList {
    ghost use Rattle.std.specs.Prelude.{List, ℕ};

    ghost Value = { List (List ℕ) };

    ghost view = { λ l. l.items.items };
}

impl OctetsList {
    /// The list of a vector, which takes no memory.
    pub fn from_vec(items: Vec<Octets>) -> OctetsList
        ensures { result ≡ items.items }
    {
        OctetsList { items }
    }

    /// The vector of this list, which takes no memory.
    pub fn into_vec(self) -> Vec<Octets>
        ensures { result.items ≡ self }
    {
        let OctetsList { items } = self;
        items
    }

    /// How many octets stand in the list.
    pub fn len(&self) -> usize
        ensures { result ≡ length self.now }
    {
        self.items.len()
    }

    /// Those at a position from 0, or none exactly where the position is at least the length.
    pub fn get(&self, index: usize) -> Option<&Octets>
        ensures { option_copied result ≡ slice_get self.now index }
    {
        self.items.get(index)
    }
}
