ghost use Rattle.std.specs.Prelude.{◌≡◌, ◌++◌, ◌↔◌, ℕ, List, Option, IsSome, IfOk, IfSome};
ghost use Rattle.rad_outside.specs.Telling.{Tells, Counts};
ghost use Rattle.rad_outside.specs.Crew.{Handed, handed_by};

use crate::fault::KitFault;
use crate::listen::Listen;
use crate::wire::Wire;
use std::alloc::Global;

/// The devices of one worker.
#[derive(Drop)]
pub struct Kit<W, S, K, U, G> {
    /// The number of the listener that the worker serves, from 0.
    pub listener: u32,
    pub wire: W,
    pub control: Option<W>,
    pub shelf: S,
    pub clock: K,
    pub luck: U,
    pub gate: G,
}

/// Who hands out the kits.
pub trait Crew<W: Wire, S, K, U, G> {
    /// The kits that were handed out, in order, each with the call that it answered.
    ghost told: { Self → Option (List (Handed W S K U G)) };

    /// How often the crew has failed.
    ghost faults: { Self → ℕ };

    /// A kit for a worker, with a wire at the listener's address and, where `control` is there, one at that address.
    fn kit(
        &mut self,
        alloc: Global,
        worker: u32,
        listen: &Listen,
        control: Option<&Listen>,
    ) -> Result<Kit<W, S, K, U, G>, KitFault>
        ensures told { Tells (told self.old) (told self.new) (λ before now.
            now ≡ before ++ handed_by worker listen.now control.entry result) }
        ensures faults { Counts (faults self.old) (faults self.new) (result ≡ Err KitFault.Failed) }
        ensures control { IfOk result (λ kit. IsSome kit.control ↔ IsSome control.entry) }
        ensures fresh { IfOk result (λ kit. (W.failures_in_a_row kit.wire ≡ 0)
            × IfSome kit.control (λ wire. W.failures_in_a_row wire ≡ 0)) };
}
