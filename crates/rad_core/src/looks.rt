ghost use Rattle.std.specs.Prelude.{◌≡◌, ◌<◌, ◌^◌};
ghost use Rattle.rad_core.specs.Entry.{Look, Stop};
ghost use Rattle.rad_core.specs.Step.{Step};
ghost use Rattle.rad_core.specs.Core.{state_of, origin_of};

use crate::machine::Core;
use crate::seen::Seen;
use rad_policy::Policy;

impl<P: Policy, L> Core<P, L> {
    /// A worker looks at the server: what its state is now. Takes no memory.
    pub fn look(&mut self, worker: u32) -> Seen
        requires few { (state_of self.old).entries < 2 ^ 63 }
        ensures step { Step P.meaning (state_of self.old) (Look worker result) (state_of self.new) }
        ensures origin { origin_of self.new ≡ origin_of self.old }
    {
        self.entries += 1;
        Seen {
            generation: match &self.present {
                Some(_) => self.generations,
                None => 0,
            },
            sessions: 0,
            requests: self.table.len(),
            stopped: self.is_stopped,
        }
    }

    /// A worker stops the server: each worker that looks from now on sees it. Takes no memory.
    pub fn stop(&mut self, worker: u32)
        requires few { (state_of self.old).entries < 2 ^ 63 }
        ensures step { Step P.meaning (state_of self.old) (Stop worker) (state_of self.new) }
        ensures origin { origin_of self.new ≡ origin_of self.old }
    {
        self.entries += 1;
        self.is_stopped = true;
    }
}
