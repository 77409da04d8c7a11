ghost use Rattle.std.specs.Prelude.{◌≡◌, None, IsTrue, ◌∷◌, [], ◌++◌, IfOk};
ghost use Rattle.std.specs.Option.{option_copied};
ghost use Rattle.rad_dict.specs.Base.{base_definitions};
ghost use Rattle.rad_dict.specs.Definitions.{attr_named, definition_of, name_of, number_of};
ghost use Rattle.rad_dict.specs.NameForms.{is_attr_name, is_value_name};
ghost use Rattle.rad_dict.specs.EveryDictionary.{IsDictionary};

use crate::attr_rows::AttrRows;
use crate::base_attributes::base_attrs;
use crate::base_values::base_values;
use crate::value_rows::ValueRows;
use crate::{AttrDef, ValueDef};
use rad_outside::NoMemory;
use rad_words::AttrId;
use std::alloc::Global;
use std::marker::Model;

/// The attributes and named values that a server knows: those of the base, and what the files of a dictionary define
/// beyond it. Each name is of the form that dictionary(5) allows, and stands for one attribute, or for one value of an
/// attribute, in any case of its ASCII letters.
#[derive(Debug, Drop)]
pub struct Dict {
    attrs: Box<AttrRows>,
    values: Box<ValueRows>,
}

impl Model for Dict {
    ghost use Rattle.rad_dict.specs.Definitions.{Definitions};
    ghost use Rattle.rad_dict.specs.EveryDictionary.{IsDictionary};

    ghost Value = { Definitions };

    ghost view = { λ d. record { attrs = d.attrs.value; values = d.values.value } };

    ghost invariant = { λ d. IsDictionary (record { attrs = d.attrs.value; values = d.values.value }) };
}

impl Dict {
    /// The dictionary that needs no file: the attributes and values of RFC 2865 and RFC 2866, and the
    /// internal attributes.
    pub fn base(alloc: Global) -> Result<Dict, NoMemory>
        ensures { IfOk result (λ dict. dict ≡ base_definitions) }
    {
        let attrs = Box::new(alloc, base_attrs(alloc)?)?;
        let values = Box::new(alloc, base_values(alloc)?)?;
        Ok(Dict { attrs, values })
    }

    /// The same with one more attribute, whose name stands for none.
    pub(crate) fn with_attr(self, alloc: Global, def: AttrDef) -> Result<Dict, NoMemory>
        requires form { IsTrue (is_attr_name def.name) }
        requires new { attr_named def.name self ≡ None }
        ensures { IfOk result (λ dict. dict ≡ record { attrs = self.attrs ++ def ∷ []; values = self.values }) }
    {
        let Dict { attrs, values } = self;
        let attrs = Box::into_inner(attrs).with(alloc, def)?;
        let attrs = Box::new(alloc, attrs)?;
        Ok(Dict { attrs, values })
    }

    /// The same with one more named value, whose name stands for none of its attribute.
    pub(crate) fn with_value(self, alloc: Global, def: ValueDef) -> Result<Dict, NoMemory>
        requires form { IsTrue (is_value_name def.name) }
        requires new { number_of def.attr def.name self ≡ None }
        ensures { IfOk result (λ dict. dict ≡ record { attrs = self.attrs; values = self.values ++ def ∷ [] }) }
    {
        let Dict { attrs, values } = self;
        let values = Box::into_inner(values).with(alloc, def)?;
        let values = Box::new(alloc, values)?;
        Ok(Dict { attrs, values })
    }

    /// What holds of every dictionary: the base's rows come first, each name is of its form, and no name stands for
    /// two things. It is a fact about the dictionary, and the function does nothing.
    pub fn each_name_means_one_thing(&self)
        ensures { IsDictionary self.now }
    {
        let _ = &self.attrs;
    }

    /// The attribute of this name, in any case of its ASCII letters.
    pub fn attr(&self, name: &[u8]) -> Option<&AttrDef>
        ensures { option_copied result ≡ attr_named name.now self.now }
    {
        self.attrs.named(name)
    }

    /// The first definition of this attribute.
    pub fn attr_of(&self, id: AttrId) -> Option<&AttrDef>
        ensures { option_copied result ≡ definition_of id self.now }
    {
        self.attrs.of(id)
    }

    /// The name of this value of the attribute.
    pub fn value_name(&self, id: AttrId, number: u32) -> Option<&[u8]>
        ensures { option_copied result ≡ name_of id number self.now }
    {
        match self.values.numbered(id, number) {
            Some(row) => Some(row.name.as_slice()),
            None => None,
        }
    }

    /// The value of the attribute that has this name, in any case of its ASCII letters.
    pub fn value_number(&self, id: AttrId, name: &[u8]) -> Option<u32>
        ensures { result ≡ number_of id name.now self.now }
    {
        match self.values.named(id, name) {
            Some(row) => Some(row.number),
            None => None,
        }
    }
}
