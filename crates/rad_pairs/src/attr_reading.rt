//! Names of attributes that are read.

ghost use Rattle.std.specs.Prelude.{◌≡◌};
ghost use Rattle.rad_pairs.specs.AttrNames.{attr_by, numbered, kind_or_octets, named, vendor_attr, vendor_number};

use rad_dict::Dict;
use rad_text::{number_at, number_of};
use rad_words::{AttrId, Kind, Space};

/// An attribute, and the kind that its name gives it.
#[derive(Clone, Copy, Debug, PartialEq, Eq)]
pub struct AttrKind {
    pub id: AttrId,
    pub kind: Kind,
}

fn vendor_attr(vendor: u32, number: u32) -> Option<AttrId>
    ensures { result ≡ vendor_attr vendor number }
{
    if number < 256 {
        let space = Space::Vendor(vendor);
        Some(AttrId { space, number })
    } else {
        None
    }
}

/// `N`, behind a vendor and a dot.
fn vendor_number(vendor: u32, text: &[u8]) -> Option<AttrId>
    ensures { result ≡ vendor_number (vendor, text.now) }
{
    match text {
        [b'.', rest @ ..] => vendor_attr(vendor, number_of(10, rest)?),
        _ => None,
    }
}

/// `N`, or `26.V.N`
fn attr_by(first: u32, text: &[u8]) -> Option<AttrId>
    ensures { result ≡ attr_by (first, text.now) }
{
    match text {
        [] if first < 256 => Some(AttrId {
            space: Space::Standard,
            number: first,
        }),
        [b'.', rest @ ..] if first == 26 => {
            let (vendor, rest) = number_at(10, rest)?;
            vendor_number(vendor, rest)
        }
        _ => None,
    }
}

/// The attribute that a name spells by its number.
#[tactic(auto, unfolding(crate::specs::AttrNames::numbered))]
pub fn numbered(name: &[u8]) -> Option<AttrId>
    ensures { result ≡ numbered name.now }
{
    let (front, rest) = name.split_at(name.len().min(5));
    if !front.eq_ignore_ascii_case(b"Attr-") {
        return None;
    }
    let (first, rest) = number_at(10, rest)?;
    attr_by(first, rest)
}

#[tactic(auto, unfolding(crate::specs::AttrNames::kind_or_octets))]
fn kind_or_octets(attr: AttrId, dict: &Dict) -> Kind
    ensures { result ≡ kind_or_octets attr dict.now }
{
    match dict.attr_of(attr) {
        Some(row) => row.kind,
        None => Kind::Octets,
    }
}

/// The attribute that a name means, and the kind that the name gives it: the dictionary's of that name, compared without
/// regard to ASCII case, else one by its number as `Attr-N`, or `Attr-26.V.N` for number N of vendor V. Such an attribute
/// has the kind of its number's first definition, or Octets. The empty name is none.
#[tactic(auto, unfolding(crate::specs::AttrNames::named))]
pub fn attr_by_name(name: &[u8], dict: &Dict) -> Option<AttrKind>
    ensures { result ≡ named name.now dict.now }
{
    if name.is_empty() {
        return None;
    }
    if let Some(row) = dict.attr(name) {
        return Some(AttrKind {
            id: row.id,
            kind: row.kind,
        });
    }
    let id = numbered(name)?;
    Some(AttrKind {
        id,
        kind: kind_or_octets(id, dict),
    })
}
