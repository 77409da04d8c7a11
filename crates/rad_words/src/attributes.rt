/// The space that an attribute's number is counted in: the standard attributes of RFC 2865 and
/// RFC 2866, those of one vendor by its enterprise number, or those that never go on the wire.
#[derive(Clone, Copy, Debug, PartialEq, Eq)]
pub enum Space {
    Standard,
    Vendor(u32),
    Internal,
}

/// An attribute, by its space and its number there.
#[derive(Clone, Copy, Debug, PartialEq, Eq)]
pub struct AttrId {
    pub space: Space,
    pub number: u32,
}

/// What an attribute's values are. On the wire `Addr`, `Number` and `Date` are four octets, `Short` is
/// two and `Byte` one, all big-endian (RFC 2865 section 5); `Text` and `Octets` are as they stand.
#[derive(Clone, Copy, Debug, PartialEq, Eq)]
pub enum Kind {
    Text,
    Octets,
    Addr,
    Number,
    Date,
    Byte,
    Short,
}
