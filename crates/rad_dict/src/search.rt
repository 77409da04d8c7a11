//! A search among the rows at some places.

ghost use Rattle.std.specs.Prelude.{◌≡◌};
ghost use Rattle.std.specs.Option.{option_copied};
ghost use Rattle.std.specs.Str.{str_eq_ignore_ascii_case};
ghost use Rattle.rad_words.specs.Attribute.{same_attr};
ghost use Rattle.rad_dict.specs.Definitions.{is_name_of, is_number_of};
ghost use Rattle.rad_index.specs.Search.{found_at};

use crate::{AttrDef, ValueDef};
use rad_outside::Octets;
use rad_words::AttrId;

pub fn is_named(text: &Octets, name: &[u8]) -> bool
    ensures { result ≡ str_eq_ignore_ascii_case text.now name.now }
{
    text.as_slice().eq_ignore_ascii_case(name)
}

fn is_attr(one: AttrId, other: AttrId) -> bool
    ensures { result ≡ same_attr one other }
{
    one == other
}

/// The first of the attributes at these places that has this name.
pub fn attr_named_at<'a>(rows: &'a [AttrDef], places: &[usize], name: &[u8]) -> Option<&'a AttrDef>
    ensures { option_copied result ≡ found_at (λ row. str_eq_ignore_ascii_case row.name name.now) rows.now places.now }
{
    let mut rest = places;
    while let Some((place, after)) = rest.split_first() {
        match rows.get(*place) {
            Some(row) if is_named(&row.name, name) => return Some(row),
            _ => rest = after,
        }
    }
    None
}

/// The first definition of the attribute at these places.
pub fn attr_at<'a>(rows: &'a [AttrDef], places: &[usize], id: AttrId) -> Option<&'a AttrDef>
    ensures { option_copied result ≡ found_at (λ row. same_attr row.id id) rows.now places.now }
{
    let mut rest = places;
    while let Some((place, after)) = rest.split_first() {
        match rows.get(*place) {
            Some(row) if is_attr(row.id, id) => return Some(row),
            _ => rest = after,
        }
    }
    None
}

/// The first of the values at these places that is this one of the attribute.
pub fn value_numbered_at<'a>(
    rows: &'a [ValueDef],
    places: &[usize],
    id: AttrId,
    number: u32,
) -> Option<&'a ValueDef>
    ensures { option_copied result ≡ found_at (is_number_of id number) rows.now places.now }
{
    let mut rest = places;
    while let Some((place, after)) = rest.split_first() {
        match rows.get(*place) {
            Some(row) if is_attr(row.attr, id) && row.number == number => return Some(row),
            _ => rest = after,
        }
    }
    None
}

/// The first of the values at these places that has this name and is the attribute's.
pub fn value_named_at<'a>(
    rows: &'a [ValueDef],
    places: &[usize],
    id: AttrId,
    name: &[u8],
) -> Option<&'a ValueDef>
    ensures { option_copied result ≡ found_at (is_name_of id name.now) rows.now places.now }
{
    let mut rest = places;
    while let Some((place, after)) = rest.split_first() {
        match rows.get(*place) {
            Some(row) if is_attr(row.attr, id) && is_named(&row.name, name) => return Some(row),
            _ => rest = after,
        }
    }
    None
}
