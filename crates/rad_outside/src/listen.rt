use crate::octets::Octets;

/// An address and a port of UDP over IPv4.
#[derive(Clone, Copy, Debug, PartialEq, Eq)]
pub struct Peer {
    /// The address as a number: `a.b.c.d` is a·2^24 + b·2^16 + c·2^8 + d.
    pub addr: u32,
    pub port: u16,
}

/// What comes in on a listener.
#[derive(Clone, Copy, Debug, PartialEq, Eq)]
pub enum ListenKind {
    /// Access-Requests (RFC 2865).
    Auth,
    /// Accounting-Requests (RFC 2866).
    Acct,
    /// Control words of the operator.
    Control,
}

/// A listener: the virtual server that it serves, what comes in, and where it is bound.
#[derive(Debug, Drop)]
pub struct Listen {
    pub server: Octets,
    pub kind: ListenKind,
    pub at: Peer,
}
