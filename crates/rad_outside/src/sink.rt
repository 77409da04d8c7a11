ghost use Rattle.std.specs.Prelude.{ℕ, List, Option, IsErr};
ghost use Rattle.rad_outside.specs.Telling.{Tells, Counts};
ghost use Rattle.rad_outside.specs.Sink.{Writes};

use crate::fault::Failed;

/// Where lines are printed.
pub trait Sink {
    /// The octets that were written.
    ghost told: { Self → Option (List ℕ) };

    /// How often the sink has failed.
    ghost faults: { Self → ℕ };

    /// Writes octets. After a failure a prefix of them was written.
    fn write(&mut self, bytes: &[u8]) -> Result<(), Failed>
        ensures told { Tells (told self.old) (told self.new) (Writes bytes.now result) }
        ensures faults { Counts (faults self.old) (faults self.new) (IsErr result) };
}
