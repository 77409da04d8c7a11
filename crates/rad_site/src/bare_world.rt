//! A world without devices, for policies that have no effects.

ghost use Rattle.std.specs.Prelude.{◌≡◌, [], None, true};
ghost use Rattle.rad_world.specs.World.{WorldState};
ghost use Rattle.rad_site.specs.BareWorld.{bare_state, no_world};

use mod_base::{Answers, AppendFault, ChangeFault, World};
use rad_sessions::{Change, Session};
use std::alloc::Global;

/// A world that has no files and no sessions: each append and each change fails, and is counted.
#[derive(Drop)]
pub(crate) struct BareWorld {
    answers: Answers,
    append_faults: u64,
    change_faults: u64,
}

impl BareWorld {
    /// A world in which nothing was done yet.
    pub(crate) fn new(alloc: Global) -> BareWorld
        ensures { bare_state result ≡ no_world }
    {
        BareWorld {
            answers: Answers::new(alloc),
            append_faults: 0,
            change_faults: 0,
        }
    }
}

impl World for BareWorld {
    ghost state = { bare_state };

    fn append(&mut self, _path: &str, _bytes: &[u8]) -> Result<(), AppendFault> {
        self.answers.make_room()?;
        self.answers.add(false);
        self.append_faults = self.append_faults.saturating_add(1);
        Err(AppendFault::Failed)
    }

    fn session_count(&mut self, _user: &[u8]) -> u32 {
        0
    }

    fn session_at(&mut self, _nas: u32, _port: u32) -> Option<&Session> {
        None
    }

    fn session_change(&mut self, _change: &Change) -> Result<(), ChangeFault> {
        self.answers.make_room()?;
        self.answers.add(false);
        self.change_faults = self.change_faults.saturating_add(1);
        Err(ChangeFault::Failed)
    }
}
