ghost use Rattle.std.specs.Prelude.{◌≡◌, IfOk};

use crate::session::Session;
use rad_outside::NoMemory;
use std::alloc::Global;

/// A change of the sessions, after the accounting messages that tell of it (RFC 2866 section 5.1).
#[derive(Debug, Drop)]
pub enum Change {
    /// A session begins, in the place of one on its NAS and port.
    Begin(Session),
    /// The user of the session there has another address.
    Renew { nas: u32, port: u32, framed: u32 },
    /// The session there ends.
    End { nas: u32, port: u32 },
    /// All sessions of a NAS end.
    Clear { nas: u32 },
}

impl Change {
    /// A copy.
    pub(crate) fn copy(&self, alloc: Global) -> Result<Change, NoMemory>
        ensures { IfOk result (λ change. change ≡ self.now) }
    {
        Ok(match self {
            Change::Begin(session) => Change::Begin(session.copy(alloc)?),
            Change::Renew { nas, port, framed } => Change::Renew {
                nas: *nas,
                port: *port,
                framed: *framed,
            },
            Change::End { nas, port } => Change::End {
                nas: *nas,
                port: *port,
            },
            Change::Clear { nas } => Change::Clear { nas: *nas },
        })
    }
}
