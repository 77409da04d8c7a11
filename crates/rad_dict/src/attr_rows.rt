//! The attributes of a dictionary, with an index for each look-up.

ghost use Rattle.std.specs.Prelude.{◌≡◌, [], ◌∷◌, ◌++◌, IfOk, find};
ghost use Rattle.std.specs.Option.{option_copied};
ghost use Rattle.std.specs.Str.{str_eq_ignore_ascii_case};
ghost use Rattle.rad_words.specs.Attribute.{same_attr};

use crate::AttrDef;
use crate::keys::{attr_key, name_key};
use crate::search::{attr_at, attr_named_at};
use rad_index::Index;
use rad_outside::NoMemory;
use rad_words::AttrId;
use std::alloc::Global;
use std::marker::Model;

/// Attributes, in the order in which they were defined.
#[derive(Debug, Drop)]
pub struct AttrRows {
    rows: Vec<AttrDef>,
    names: Index,
    ids: Index,
}

impl Model for AttrRows {
    ghost use Rattle.std.specs.Prelude.{◌≡◌, List, map};
    ghost use Rattle.rad_dict.specs.declared.definitions.AttrDef.{AttrDef};
    ghost use Rattle.rad_dict.specs.Keys.{by_name, by_attr};

    ghost Value = { List AttrDef };

    ghost view = { λ d. d.rows.items };

    ghost invariant = { λ d. (d.names ≡ map by_name d.rows.items) × (d.ids ≡ map by_attr d.rows.items) };
}

impl AttrRows {
    /// No attribute.
    pub fn new(alloc: Global) -> AttrRows
        ensures { result ≡ [] }
    {
        AttrRows {
            rows: Vec::new(alloc),
            names: Index::new(alloc),
            ids: Index::new(alloc),
        }
    }

    /// The same with one more attribute.
    pub fn with(self, alloc: Global, def: AttrDef) -> Result<AttrRows, NoMemory>
        ensures { IfOk result (λ rows. rows ≡ self ++ def ∷ []) }
    {
        let AttrRows {
            mut rows,
            names,
            ids,
        } = self;
        let names = names.with(alloc, name_key(0, def.name.as_slice()))?;
        let ids = ids.with(alloc, attr_key(def.id))?;
        rows.push(def)?;
        Ok(AttrRows { rows, names, ids })
    }

    /// The attribute of this name, in any case of its ASCII letters.
    pub fn named(&self, name: &[u8]) -> Option<&AttrDef>
        ensures { option_copied result ≡ find (λ row. str_eq_ignore_ascii_case row.name name.now) self.now }
    {
        let places = self.names.places(name_key(0, name));
        attr_named_at(self.rows.as_slice(), places, name)
    }

    /// The first definition of this attribute.
    pub fn of(&self, id: AttrId) -> Option<&AttrDef>
        ensures { option_copied result ≡ find (λ row. same_attr row.id id) self.now }
    {
        let places = self.ids.places(attr_key(id));
        attr_at(self.rows.as_slice(), places, id)
    }
}
