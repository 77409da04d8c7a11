//! A world without devices, for modules that call none.

ghost use Rattle.std.specs.Prelude.{[], None, true};

use rad_sessions::{Change, Session};
use rad_world::{AppendFault, ChangeFault, World};

/// No files, and no sessions. What would be appended or changed is refused for want of memory.
#[derive(Drop)]
pub struct Nowhere;

impl World for Nowhere {
    ghost state = { λ w. record {
      answers = [];
      effects = None;
      sessions = [];
      takes_changes = true;
      write_faults = 0;
      line_faults = 0;
      lent = 0;
    } };

    fn append(&mut self, _path: &str, _bytes: &[u8]) -> Result<(), AppendFault> {
        Err(AppendFault::NoMemory)
    }

    fn session_count(&mut self, _user: &[u8]) -> u32 {
        0
    }

    fn session_at(&mut self, _nas: u32, _port: u32) -> Option<&Session> {
        None
    }

    fn session_change(&mut self, _change: &Change) -> Result<(), ChangeFault> {
        Err(ChangeFault::NoMemory)
    }
}
