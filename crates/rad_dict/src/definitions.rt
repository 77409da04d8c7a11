use rad_outside::Octets;
use rad_words::{AttrId, Kind};

/// An attribute's definition: which it is, what its values are, and its name as it is written.
#[derive(Debug, Drop)]
pub struct AttrDef {
    pub id: AttrId,
    pub kind: Kind,
    pub name: Octets,
}

/// A named value of an attribute: the attribute, the number and the name as it is written.
#[derive(Debug, Drop)]
pub struct ValueDef {
    pub attr: AttrId,
    pub number: u32,
    pub name: Octets,
}
