//! The places of keys in a list of keys.

ghost use Rattle.std.specs.Prelude.{◌≡◌, ℕ, eqb, false, [], ◌∷◌, ◌++◌, IfOk, unwrap_or};
ghost use Rattle.std.specs.Option.{option_map};
ghost use Rattle.std.specs.Ordering.{nat_cmp};
ghost use Rattle.std.specs.BTreeMap.{get};
ghost use Rattle.rad_index.specs.Places.{places_of};

use rad_outside::NoMemory;
use std::alloc::Global;
use std::collections::BTreeMap;
use std::marker::Model;

/// A list of keys, in which the places of a key are found without a look at the others.
#[derive(Debug, Drop)]
pub struct Index {
    keys: Vec<u64>,
    places: BTreeMap<u64, Vec<usize>>,
}

impl Model for Index {
    ghost use Rattle.std.specs.Prelude.{◌≡◌, ℕ, List, [], unwrap_or};
    ghost use Rattle.std.specs.Option.{option_map};
    ghost use Rattle.std.specs.Ordering.{nat_cmp};
    ghost use Rattle.std.specs.BTreeMap.{get};
    ghost use Rattle.rad_index.specs.Places.{places_of};

    ghost Value = { List ℕ };

    ghost view = { λ x. x.keys.items };

    ghost invariant = { λ x. (key : ℕ) → unwrap_or (option_map (λ places. places.items) (get nat_cmp x.places key)) [] ≡ places_of key x.keys.items };
}

impl Index {
    /// No keys.
    #[tactic(auto, unfolding(crate::specs::Places::places_of))]
    pub fn new(alloc: Global) -> Index
        ensures { result ≡ [] }
    {
        Index {
            keys: Vec::new(alloc),
            places: BTreeMap::new(alloc),
        }
    }

    /// The keys with one more at their end.
    pub fn with(self, alloc: Global, key: u64) -> Result<Index, NoMemory>
        ensures { IfOk result (λ index. index ≡ self ++ key ∷ []) }
    {
        let Index {
            mut keys,
            mut places,
        } = self;
        let mut here = taken(alloc, &mut places, key);
        here.push(keys.len())?;
        keys.push(key)?;
        places.insert(key, here)?;
        Ok(Index { keys, places })
    }

    /// The places of the key, in order, counted from 0.
    pub fn places(&self, key: u64) -> &[usize]
        ensures { result.now ≡ places_of key self.now }
    {
        match self.places.get(&key) {
            Some(places) => places.as_slice(),
            None => &[],
        }
    }
}

/// Takes the places of the key out of the map, or none.
fn taken(alloc: Global, places: &mut BTreeMap<u64, Vec<usize>>, key: u64) -> Vec<usize>
    ensures here { result.items ≡ unwrap_or (option_map (λ places. places.items) (get nat_cmp places.old key)) [] }
    ensures others { (other : ℕ) → eqb key other ≡ false → get nat_cmp places.new other ≡ get nat_cmp places.old other }
{
    match places.remove(&key) {
        Some(here) => here,
        None => Vec::new(alloc),
    }
}
