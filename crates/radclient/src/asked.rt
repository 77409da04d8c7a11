//! What is asked of a server, and how.

use rad_outside::{Octets, Peer};

/// What kind of requests are sent.
#[derive(Clone, Copy, Debug, PartialEq, Eq)]
pub enum Kind {
    /// Access-Requests.
    Auth,
    /// Accounting-Requests.
    Acct,
}

/// What a command line asks for, after radclient(1).
#[derive(Debug, Drop)]
pub struct Asked {
    /// The server's address and port.
    pub server: Peer,
    pub kind: Kind,
    /// The secret that is shared with the server.
    pub secret: Octets,
    /// How many packets are made from each group.
    pub count: u32,
    /// How often a packet is sent at most.
    pub tries: u32,
    /// How many answers of the wire are waited for after each send at most.
    pub waits: u32,
    /// Nothing is printed of packets and replies.
    pub quiet: bool,
    /// The pairs of what is sent are printed.
    pub shown: bool,
}
