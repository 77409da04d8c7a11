//! What a case says of a run of the client.

use rad_edge::Cue;
use rad_outside::{NoMemory, Octets, Peer};
use std::alloc::Global;

/// A run: the words, and what its devices hold and do.
#[derive(Drop)]
pub struct Plan {
    /// The words of the command line.
    pub words: Vec<String>,
    /// The files, each a path and its octets.
    pub files: Vec<(Octets, Octets)>,
    /// What the wire answers, in order.
    pub script: Vec<Cue>,
    /// Where the datagrams come from that are written next.
    pub from: Peer,
    /// The words of the luck.
    pub luck: Vec<u64>,
    /// Which calls fail, by their numbers from 1.
    pub failing_reads: Vec<u64>,
    pub failing_receives: Vec<u64>,
    pub failing_sends: Vec<u64>,
    pub failing_writes: Vec<u64>,
    /// Whether each field is one that a case can have.
    pub is_read: bool,
}

impl Plan {
    /// The run of a case that says nothing: no file, no datagram, no failure, and the source 192.168.1.1 at port 1812.
    pub fn new(alloc: Global) -> Result<Plan, NoMemory> {
        let mut words = Vec::new(alloc);
        for word in ["radclient", "-f", "req", "192.168.1.1", "auth", "xyzzy5461"] {
            words.push(String::from_str(alloc, word)?)?;
        }
        Ok(Plan {
            words,
            files: Vec::new(alloc),
            script: Vec::new(alloc),
            from: Peer {
                addr: 0xc0a8_0101,
                port: 1812,
            },
            luck: Vec::new(alloc),
            failing_reads: Vec::new(alloc),
            failing_receives: Vec::new(alloc),
            failing_sends: Vec::new(alloc),
            failing_writes: Vec::new(alloc),
            is_read: true,
        })
    }
}
