ghost use Rattle.std.specs.Prelude.{◌≡◌, None, IsErr};
ghost use Rattle.rad_outside.specs.Telling.{Counts};
ghost use Rattle.rad_edge.specs.Memory.{faults_after};

use super::telling::tell;
use rad_outside::{Failed, Sink};

/// Standard output. What the host refuses is told on standard error.
#[derive(Drop)]
pub struct HostSink<R> {
    rt: R,
    faults: u64,
}

impl<R: Print + Eprint> HostSink<R> {
    /// Standard output, with no fault yet.
    pub fn new(rt: R) -> HostSink<R>
        ensures { ⟦<HostSink<R> as Sink>⟧.faults result ≡ 0 }
    {
        HostSink { rt, faults: 0 }
    }
}

impl<R: Print + Eprint> Sink for HostSink<R> {
    ghost told = { λ _. None };

    ghost faults = { λ s. s.faults };

    fn write(&mut self, bytes: &[u8]) -> Result<(), Failed>
        ensures faults { Counts self.old.faults self.new.faults (IsErr result) }
        ensures exact { self.new.faults ≡ faults_after result self.old.faults }
    {
        if let Err(error) = self.rt.write_all(bytes) {
            tell(&self.rt, "write", "standard output", &error);
            self.faults = self.faults.saturating_add(1);
            return Err(Failed);
        }
        Ok(())
    }
}
