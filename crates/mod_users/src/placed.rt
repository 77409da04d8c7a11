//! Items with the places of their values.

ghost use Rattle.std.specs.Prelude.{◌≡◌};

use rad_pairs::{Item, Spot};
use std::marker::Model;

/// An item, and where its value begins.
#[derive(Debug, Drop)]
pub struct Placed {
    pub item: Item,
    pub spot: Spot,
}

/// A list of such items, in reading order.
#[derive(Debug, Drop)]
pub struct PlacedList {
    items: Vec<Placed>,
}

impl Model for PlacedList {
    ghost use Rattle.std.specs.Prelude.{List};
    ghost use Rattle.mod_users.specs.declared.placed.Placed.{Placed};

    ghost Value = { List Placed };

    ghost view = { λ l. l.items.items };
}

impl PlacedList {
    /// The list of a vector's items.
    pub fn from_vec(items: Vec<Placed>) -> PlacedList
        ensures { result ≡ items.items }
    {
        PlacedList { items }
    }

    /// The vector of the list's items.
    pub fn into_vec(self) -> Vec<Placed>
        ensures { result.items ≡ self }
    {
        let PlacedList { items } = self;
        items
    }
}
