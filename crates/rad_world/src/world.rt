ghost use Rattle.std.specs.Prelude.{◌≡◌, ◌≢◌, [], true};
ghost use Rattle.std.specs.Option.{option_copied};
ghost use Rattle.std.specs.Borrow.{sem};
ghost use Rattle.std.specs.Io.BufRead.{Rests};
ghost use Rattle.rad_sessions.specs.Listed.{count_of, session_at};
ghost use Rattle.rad_world.specs.World.{WorldState, Appends, Changes};

use crate::fault::{AppendFault, ChangeFault};
use rad_sessions::{Change, Session};

/// What a policy acts on while it runs: files that grow, and sessions.
pub trait World {
    /// What it is at a moment.
    ghost state: { Self → WorldState };

    /// Appends a piece to the file at a path. It is one call of a device, with one answer; room for the answer is made
    /// before, so that after want of memory nothing was handed to the device.
    fn append(&mut self, path: &str, bytes: &[u8]) -> Result<(), AppendFault>
        requires { bytes.now ≢ [] }
        ensures { Appends (state self.old) (state self.new) path.now bytes.now result };

    /// How many sessions a user has now; names are compared octet by octet.
    fn session_count(&mut self, user: &[u8]) -> u32
        ensures count { result ≡ count_of user.now (state self.old).sessions }
        ensures same { state self.new ≡ state self.old };

    /// The session on a port of a NAS, as it is now. It takes no memory.
    fn session_at(&mut self, nas: u32, port: u32) -> Option<&Session>
        ensures* same { sem 𝓛 (Rests Self.row self.entry (λ rested. state rested ≡ state self.old)) }
        ensures session { option_copied result ≡ session_at (nas, port) (state self.old).sessions };

    /// Does a change of the sessions, once its line was appended to their log. That is one call of a device, with one
    /// answer; room for the change and for the answer is made before, so that after want of memory, and where the
    /// sessions are full, nothing was handed to the device.
    fn session_change(&mut self, change: &Change) -> Result<(), ChangeFault>
        requires { (state self.old).takes_changes ≡ true }
        ensures { Changes (state self.old) (state self.new) change.now result };
}
