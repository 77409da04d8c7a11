use rad_outside::Octets;

/// A client: who may send requests, and the secret shared with it (RFC 2865 section 3).
#[derive(Debug, Drop)]
pub struct Client {
    pub name: Octets,
    /// The network's address, and how many bits of it count, 0 to 32.
    pub addr: u32,
    pub bits: u8,
    /// 1 to 128 octets.
    pub secret: Octets,
}
