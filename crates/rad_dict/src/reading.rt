//! What is known while dictionary files are read.

ghost use Rattle.std.specs.Prelude.{◌≡◌, None, IfOk, IsTrue};
ghost use Rattle.rad_text.specs.Read.{Gives};
ghost use Rattle.rad_dict.specs.Definitions.{attr_named, number_of};
ghost use Rattle.rad_dict.specs.NameForms.{is_attr_name, is_value_name};
ghost use Rattle.rad_dict.specs.Lines.{statement_of, IsWellNamed};
ghost use Rattle.rad_dict.specs.FirstReading.{first_reading};
ghost use Rattle.rad_dict.specs.Readings as readings;

use crate::change::Change;
use crate::fault::Wrong;
use crate::line::Statement;
use crate::vendors::{Vendor, Vendors};
use crate::{AttrDef, Dict, ValueDef};
use rad_outside::NoMemory;
use rad_text::ReadError;
use std::alloc::Global;

/// What is known: the dictionary so far, the vendors, the present one whose attributes are defined, and
/// how many octets were read, of all files together.
#[derive(Drop)]
pub struct Reading {
    pub dict: Dict,
    pub vendors: Vendors,
    pub present: Option<Vendor>,
    pub octets: usize,
}

impl Reading {
    /// The base alone is known.
    pub fn new(alloc: Global) -> Result<Reading, NoMemory>
        ensures { IfOk result (λ reading. reading ≡ first_reading) }
    {
        Ok(Reading {
            dict: Dict::base(alloc)?,
            vendors: Vendors::new(alloc),
            present: None,
            octets: 0,
        })
    }

    /// Another vendor is present, or none.
    fn with_present(self, present: Option<Vendor>) -> Reading
        ensures { result ≡ readings.with_present present self }
    {
        let Reading {
            dict,
            vendors,
            present: _,
            octets,
        } = self;
        Reading {
            dict,
            vendors,
            present,
            octets,
        }
    }

    fn with_attr(self, alloc: Global, def: AttrDef) -> Result<Reading, NoMemory>
        requires form { IsTrue (is_attr_name def.name) }
        requires new { attr_named def.name self.dict ≡ None }
        ensures { IfOk result (λ reading. reading ≡ readings.with_attr def self) }
    {
        let Reading {
            dict,
            vendors,
            present,
            octets,
        } = self;
        Ok(Reading {
            dict: dict.with_attr(alloc, def)?,
            vendors,
            present,
            octets,
        })
    }

    fn with_value(self, alloc: Global, def: ValueDef) -> Result<Reading, NoMemory>
        requires form { IsTrue (is_value_name def.name) }
        requires new { number_of def.attr def.name self.dict ≡ None }
        ensures { IfOk result (λ reading. reading ≡ readings.with_value def self) }
    {
        let Reading {
            dict,
            vendors,
            present,
            octets,
        } = self;
        Ok(Reading {
            dict: dict.with_value(alloc, def)?,
            vendors,
            present,
            octets,
        })
    }

    fn with_vendor(self, vendor: Vendor) -> Result<Reading, NoMemory>
        ensures { IfOk result (λ reading. reading ≡ readings.with_vendor vendor self) }
    {
        let Reading {
            dict,
            vendors,
            present,
            octets,
        } = self;
        Ok(Reading {
            dict,
            vendors: vendors.with(vendor)?,
            present,
            octets,
        })
    }

    /// What is known after a change.
    fn with(self, alloc: Global, change: Change) -> Result<Reading, NoMemory>
        requires { readings.IsAllowed change self.dict }
        ensures { IfOk result (λ reading. reading ≡ readings.changed change self) }
    {
        match change {
            Change::Nothing => Ok(self),
            Change::Attr(def) => self.with_attr(alloc, def),
            Change::Value(def) => self.with_value(alloc, def),
            Change::Vendor(vendor) => self.with_vendor(vendor),
            Change::Present(present) => Ok(self.with_present(present)),
        }
    }

    /// What is known after a statement.
    #[tactic(auto, unfolding(crate::specs::Readings::after))]
    pub fn after(self, alloc: Global, statement: Statement) -> Result<Reading, ReadError<Wrong>>
        requires { IsWellNamed (statement_of statement) }
        ensures { Gives (λ x. x) result (readings.after (statement_of statement.entry) self) }
    {
        let change = self.change(alloc, statement)?;
        Ok(self.with(alloc, change)?)
    }
}
