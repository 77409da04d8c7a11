ghost use Rattle.std.specs.Prelude.{◌≡◌, IfOk};
ghost use Rattle.rad_sessions.specs.Listed.{with_framed};

use rad_outside::{NoMemory, Octets};
use std::alloc::Global;

/// One session of a user on a port of a NAS (network access server): the NAS's address and the address that was given to
/// the user, in network order as numbers, when it began in seconds since 1970, the user's name and the session's
/// identifier.
#[derive(Debug, Drop)]
pub struct Session {
    pub nas: u32,
    pub port: u32,
    pub framed: u32,
    pub since: u64,
    pub user: Octets,
    pub id: Octets,
}

impl Session {
    /// A copy with another address of its user.
    pub(crate) fn with_framed(&self, alloc: Global, framed: u32) -> Result<Session, NoMemory>
        ensures { IfOk result (λ session. session ≡ with_framed framed self.now) }
    {
        Ok(Session {
            nas: self.nas,
            port: self.port,
            framed,
            since: self.since,
            user: Octets::of(alloc, self.user.as_slice())?,
            id: Octets::of(alloc, self.id.as_slice())?,
        })
    }

    /// A copy.
    pub(crate) fn copy(&self, alloc: Global) -> Result<Session, NoMemory>
        ensures { IfOk result (λ session. session ≡ self.now) }
    {
        self.with_framed(alloc, self.framed)
    }
}
