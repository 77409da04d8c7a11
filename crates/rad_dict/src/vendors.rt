//! The vendors that a dictionary's files define.

ghost use Rattle.std.specs.Prelude.{◌≡◌, [], ◌∷◌, ◌++◌, IfOk};
ghost use Rattle.std.specs.Option.{option_copied};
ghost use Rattle.rad_dict.specs.Readings.{vendor_named};

use crate::search::is_named;
use rad_outside::{NoMemory, Octets};
use std::alloc::Global;
use std::marker::Model;

/// A vendor: its name as it is written, and its enterprise number.
#[derive(Drop)]
pub struct Vendor {
    pub name: Octets,
    pub number: u32,
}

impl Vendor {
    /// A copy.
    pub fn try_clone(&self, alloc: Global) -> Result<Vendor, NoMemory>
        ensures { IfOk result (λ copy. copy ≡ self.now) }
    {
        Ok(Vendor {
            name: Octets::of(alloc, self.name.as_slice())?,
            number: self.number,
        })
    }
}

/// Vendors, in the order in which they were defined.
#[derive(Drop)]
pub struct Vendors {
    rows: Vec<Vendor>,
}

impl Model for Vendors {
    ghost use Rattle.std.specs.Prelude.{List};
    ghost use Rattle.rad_dict.specs.declared.vendors.Vendor.{Vendor};

    ghost Value = { List Vendor };

    ghost view = { λ v. v.rows.items };
}

impl Vendors {
    /// No vendor.
    pub fn new(alloc: Global) -> Vendors
        ensures { result ≡ [] }
    {
        Vendors {
            rows: Vec::new(alloc),
        }
    }

    /// The same with one more vendor.
    pub fn with(self, vendor: Vendor) -> Result<Vendors, NoMemory>
        ensures { IfOk result (λ vendors. vendors ≡ self ++ vendor ∷ []) }
    {
        let Vendors { mut rows } = self;
        rows.push(vendor)?;
        Ok(Vendors { rows })
    }

    /// The first vendor of this name, in any case of its ASCII letters.
    pub fn named(&self, name: &[u8]) -> Option<&Vendor>
        ensures { option_copied result ≡ vendor_named name.now self.now }
    {
        self.rows.iter().find(|row| is_named(&row.name, name))
    }
}
