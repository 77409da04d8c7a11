//! What a statement of a dictionary file changes of what is known.

ghost use Rattle.std.specs.Prelude.{◌≡◌, IfOk, IsTrue};
ghost use Rattle.std.specs.Option.{option_map};
ghost use Rattle.rad_text.specs.Read.{Gives};
ghost use Rattle.rad_words.specs.Attribute.{same_attr};
ghost use Rattle.rad_dict.specs.Definitions.{Definitions, attr_named};
ghost use Rattle.rad_dict.specs.NameForms.{is_attr_name, is_value_name};
ghost use Rattle.rad_dict.specs.Lines.{statement_of, IsWellNamed, attribute, value, vendor, begins, ends};
ghost use Rattle.rad_dict.specs.Readings as readings;

use crate::base_attributes::is_base;
use crate::fault::Wrong;
use crate::line::Statement;
use crate::reading::Reading;
use crate::search::is_named;
use crate::vendors::{Vendor, Vendors};
use crate::{AttrDef, Dict, ValueDef};
use rad_outside::Octets;
use rad_text::ReadError;
use rad_words::{AttrId, Kind, Space};
use std::alloc::Global;

/// What a statement changes: nothing, one attribute, named value or vendor more, or which vendor is present.
#[derive(Drop)]
pub enum Change {
    Nothing,
    Attr(AttrDef),
    Value(ValueDef),
    Vendor(Vendor),
    Present(Option<Vendor>),
}

/// The attribute of a number where this vendor is present, or none.
#[tactic(auto, unfolding(crate::specs::Readings::id_of))]
fn id_of(present: &Option<Vendor>, number: u32) -> Option<AttrId>
    ensures { result ≡ readings.id_of present.now number }
{
    let space = match present {
        Some(vendor) => Space::Vendor(vendor.number),
        None => Space::Standard,
    };
    match number {
        1..=255 => Some(AttrId { space, number }),
        256..=65535 if present.is_none() => Some(AttrId {
            space: Space::Internal,
            number,
        }),
        _ => None,
    }
}

fn same_kind(one: Kind, other: Kind) -> bool
    ensures { result ≡ readings.same_kind one other }
{
    one == other
}

fn same_attr(one: AttrId, other: AttrId) -> bool
    ensures { result ≡ same_attr one other }
{
    one == other
}

/// Whether an attribute's definition is the one that stands under its name.
fn is_same(row: &AttrDef, def: &AttrDef) -> bool
    ensures { result ≡ readings.is_same row.now def.now }
{
    same_attr(row.id, def.id) && (same_kind(row.kind, def.kind) || is_base(def))
}

/// Whether the name of an attribute stands for that attribute; none where it doesn't stand.
fn stands(dict: &Dict, def: &AttrDef) -> Option<bool>
    ensures { result ≡ option_map (λ row. readings.is_same row def.now) (attr_named def.now.name dict.now) }
{
    match dict.attr(def.name.as_slice()) {
        Some(row) => Some(is_same(row, def)),
        None => None,
    }
}

/// The number that an attribute's named values are below, or none where it has none.
fn values_below(kind: Kind) -> Option<u64>
    ensures { result ≡ readings.values_below kind }
{
    match kind {
        Kind::Number => Some(4_294_967_296),
        Kind::Byte => Some(256),
        Kind::Short => Some(65_536),
        Kind::Text | Kind::Octets | Kind::Addr | Kind::Date => None,
    }
}

/// The attribute that a name means, and its kind.
fn attr_of(dict: &Dict, name: &[u8]) -> Option<(AttrId, Kind)>
    ensures { result ≡ option_map (λ row. (row.id, row.kind)) (attr_named name.now dict.now) }
{
    match dict.attr(name) {
        Some(row) => Some((row.id, row.kind)),
        None => None,
    }
}

fn vendor_number(vendors: &Vendors, name: &[u8]) -> Option<u32>
    ensures { result ≡ option_map (λ row. row.number) (readings.vendor_named name.now vendors.now) }
{
    match vendors.named(name) {
        Some(row) => Some(row.number),
        None => None,
    }
}

/// An attribute is defined, unless its name stands.
#[tactic(auto, unfolding(crate::specs::Readings::attr_change))]
fn attr_change(dict: &Dict, def: AttrDef) -> Result<Change, ReadError<Wrong>>
    requires { IsTrue (is_attr_name def.name) }
    ensures exact { Gives (λ x. x) result (readings.attr_change def dict.now) }
    ensures allowed { IfOk result (λ change. readings.IsAllowed change dict.now) }
{
    match stands(dict, &def) {
        None => Ok(Change::Attr(def)),
        Some(true) => Ok(Change::Nothing),
        Some(false) => Err(ReadError::Wrong(Wrong::Taken)),
    }
}

/// A value is named, unless its name stands.
#[tactic(auto, unfolding(crate::specs::Readings::value_change))]
fn value_change(dict: &Dict, def: ValueDef) -> Result<Change, ReadError<Wrong>>
    requires { IsTrue (is_value_name def.name) }
    ensures exact { Gives (λ x. x) result (readings.value_change def dict.now) }
    ensures allowed { IfOk result (λ change. readings.IsAllowed change dict.now) }
{
    match dict.value_number(def.attr, def.name.as_slice()) {
        None => Ok(Change::Value(def)),
        Some(number) if number == def.number => Ok(Change::Nothing),
        Some(_) => Err(ReadError::Wrong(Wrong::Taken)),
    }
}

/// A vendor is defined, unless its name stands.
#[tactic(auto, unfolding(crate::specs::Readings::vendor_change))]
fn vendor_change(vendors: &Vendors, vendor: Vendor) -> Result<Change, ReadError<Wrong>>
    ensures exact { Gives (λ x. x) result (readings.vendor_change vendor vendors.now) }
    ensures allowed { (dict : Definitions) → IfOk result (λ change. readings.IsAllowed change dict) }
{
    match vendor_number(vendors, vendor.name.as_slice()) {
        None => Ok(Change::Vendor(vendor)),
        Some(number) if number == vendor.number => Ok(Change::Nothing),
        Some(_) => Err(ReadError::Wrong(Wrong::Taken)),
    }
}

impl Reading {
    /// What an `ATTRIBUTE` line changes.
    #[tactic(auto, unfolding(crate::specs::Readings::change_of))]
    fn attribute(
        &self,
        alloc: Global,
        name: &[u8],
        number: u32,
        kind: Kind,
    ) -> Result<Change, ReadError<Wrong>>
        requires { IsTrue (is_attr_name name.now) }
        ensures exact { Gives (λ x. x) result (readings.change_of (attribute name.now number kind) self.now) }
        ensures allowed { IfOk result (λ change. readings.IsAllowed change self.now.dict) }
    {
        let Some(id) = id_of(&self.present, number) else {
            return Err(ReadError::Wrong(Wrong::BadLine));
        };
        let name = Octets::of(alloc, name)?;
        attr_change(&self.dict, AttrDef { id, kind, name })
    }

    /// What a `VALUE` line changes.
    #[tactic(auto, unfolding(crate::specs::Readings::change_of))]
    fn value(
        &self,
        alloc: Global,
        attr: &[u8],
        name: &[u8],
        number: u32,
    ) -> Result<Change, ReadError<Wrong>>
        requires { IsTrue (is_value_name name.now) }
        ensures exact { Gives (λ x. x) result (readings.change_of (value attr.now name.now number) self.now) }
        ensures allowed { IfOk result (λ change. readings.IsAllowed change self.now.dict) }
    {
        let Some((attr, kind)) = attr_of(&self.dict, attr) else {
            return Err(ReadError::Wrong(Wrong::BadLine));
        };
        let Some(limit) = values_below(kind) else {
            return Ok(Change::Nothing);
        };
        if u64::from(number) >= limit {
            return Err(ReadError::Wrong(Wrong::BadLine));
        }
        let name = Octets::of(alloc, name)?;
        value_change(&self.dict, ValueDef { attr, number, name })
    }

    /// What a `VENDOR` line changes.
    #[tactic(auto, unfolding(crate::specs::Readings::change_of))]
    fn vendor(&self, alloc: Global, name: &[u8], number: u32) -> Result<Change, ReadError<Wrong>>
        ensures exact { Gives (λ x. x) result (readings.change_of (vendor name.now number) self.now) }
        ensures allowed { IfOk result (λ change. readings.IsAllowed change self.now.dict) }
    {
        let name = Octets::of(alloc, name)?;
        vendor_change(&self.vendors, Vendor { name, number })
    }

    /// The vendor of this name is present.
    #[tactic(auto, unfolding(crate::specs::Readings::change_of))]
    fn begin(&self, alloc: Global, name: &[u8]) -> Result<Change, ReadError<Wrong>>
        ensures { Gives (λ x. x) result (readings.change_of (begins name.now) self.now) }
    {
        match self.vendors.named(name) {
            Some(row) => Ok(Change::Present(Some(row.try_clone(alloc)?))),
            None => Err(ReadError::Wrong(Wrong::UnknownVendor)),
        }
    }

    /// The vendor of this name is no longer present.
    #[tactic(auto, unfolding(crate::specs::Readings::change_of))]
    fn end(&self, name: &[u8]) -> Result<Change, ReadError<Wrong>>
        ensures { Gives (λ x. x) result (readings.change_of (ends name.now) self.now) }
    {
        match &self.present {
            Some(present) if is_named(&present.name, name) => Ok(Change::Present(None)),
            _ => Err(ReadError::Wrong(Wrong::BadLine)),
        }
    }

    /// What a statement changes, or what is wrong with it.
    #[tactic(auto, unfolding(crate::specs::Readings::change_of))]
    pub fn change(&self, alloc: Global, statement: Statement) -> Result<Change, ReadError<Wrong>>
        requires { IsWellNamed (statement_of statement) }
        ensures exact { Gives (λ x. x) result (readings.change_of (statement_of statement.entry) self.now) }
        ensures allowed { IfOk result (λ change. readings.IsAllowed change self.now.dict) }
    {
        match statement {
            Statement::Nothing => Ok(Change::Nothing),
            Statement::Attribute(name, number, kind) => self.attribute(alloc, name, number, kind),
            Statement::Value(attr, name, number) => self.value(alloc, attr, name, number),
            Statement::Vendor(name, number) => self.vendor(alloc, name, number),
            Statement::Begin(name) => self.begin(alloc, name),
            Statement::End(name) => self.end(name),
        }
    }
}
