//! The named values of a dictionary, with an index for each look-up.

ghost use Rattle.std.specs.Prelude.{◌≡◌, [], ◌∷◌, ◌++◌, IfOk, find};
ghost use Rattle.std.specs.Option.{option_copied};
ghost use Rattle.rad_dict.specs.Definitions.{is_name_of, is_number_of};

use crate::ValueDef;
use crate::keys::{attr_key, key_with, name_key};
use crate::search::{value_named_at, value_numbered_at};
use rad_index::Index;
use rad_outside::NoMemory;
use rad_words::AttrId;
use std::alloc::Global;
use std::marker::Model;

/// Named values, in the order in which they were defined.
#[derive(Debug, Drop)]
pub struct ValueRows {
    rows: Vec<ValueDef>,
    numbers: Index,
    names: Index,
}

impl Model for ValueRows {
    ghost use Rattle.std.specs.Prelude.{◌≡◌, List, map};
    ghost use Rattle.rad_dict.specs.declared.definitions.ValueDef.{ValueDef};
    ghost use Rattle.rad_dict.specs.Keys.{by_value, by_value_name};

    ghost Value = { List ValueDef };

    ghost view = { λ d. d.rows.items };

    ghost invariant = { λ d. (d.numbers ≡ map by_value d.rows.items) × (d.names ≡ map by_value_name d.rows.items) };
}

impl ValueRows {
    /// No value.
    pub fn new(alloc: Global) -> ValueRows
        ensures { result ≡ [] }
    {
        ValueRows {
            rows: Vec::new(alloc),
            numbers: Index::new(alloc),
            names: Index::new(alloc),
        }
    }

    /// The same with one more named value.
    pub fn with(self, alloc: Global, def: ValueDef) -> Result<ValueRows, NoMemory>
        ensures { IfOk result (λ rows. rows ≡ self ++ def ∷ []) }
    {
        let ValueRows {
            mut rows,
            numbers,
            names,
        } = self;
        let attr = attr_key(def.attr);
        let numbers = numbers.with(alloc, key_with(attr, u64::from(def.number)))?;
        let names = names.with(alloc, name_key(attr, def.name.as_slice()))?;
        rows.push(def)?;
        Ok(ValueRows {
            rows,
            numbers,
            names,
        })
    }

    /// The first row of this value of the attribute.
    pub fn numbered(&self, id: AttrId, number: u32) -> Option<&ValueDef>
        ensures { option_copied result ≡ find (is_number_of id number) self.now }
    {
        let key = key_with(attr_key(id), u64::from(number));
        let places = self.numbers.places(key);
        value_numbered_at(self.rows.as_slice(), places, id, number)
    }

    /// The first row of the attribute's value of this name.
    pub fn named(&self, id: AttrId, name: &[u8]) -> Option<&ValueDef>
        ensures { option_copied result ≡ find (is_name_of id name.now) self.now }
    {
        let places = self.names.places(name_key(attr_key(id), name));
        value_named_at(self.rows.as_slice(), places, id, name)
    }
}
