ghost use Rattle.std.specs.Prelude.{◌≡◌, [], Some, IfSome, IsErr, IsTrue};
ghost use Rattle.rad_outside.specs.Telling.{Tells, Counts};
ghost use Rattle.rad_outside.specs.Sink.{Writes};
ghost use Rattle.rad_edge.specs.Failing.{fails_next};
ghost use Rattle.rad_edge.specs.MemSink.{after_write};

use super::failing::Failing;
use rad_outside::{Failed, Sink};
use std::alloc::Global;
use std::marker::Model;

/// A sink in memory. It fails where it is to, and where it finds no memory for its record.
#[derive(Debug, Drop)]
pub struct MemSink {
    written: Vec<u8>,
    is_telling: bool,
    faults: u64,
    writes: Failing<u64>,
}

impl Model for MemSink {
    ghost use Rattle.rad_edge.specs.Memory.{told_while};
    ghost use Rattle.rad_edge.specs.MemSink.{SinkState};

    ghost Value = { SinkState };

    ghost view = { λ s. record {
      told = told_while s.is_telling s.written.items;
      faults = s.faults;
      writes = s.writes;
    } };
}

impl MemSink {
    /// An empty sink, and the numbers of the writes that are to fail, counted from 1. Such a write writes nothing.
    pub fn new(alloc: Global, failing: Vec<u64>) -> MemSink
        ensures { result ≡ record {
          told = Some [];
          faults = 0;
          writes = record { failing = failing.items; made = 0 };
        } }
    {
        MemSink {
            written: Vec::new(alloc),
            is_telling: true,
            faults: 0,
            writes: Failing::new(failing),
        }
    }

    /// The octets that were written.
    pub fn octets(&self) -> &[u8]
        ensures { IfSome self.now.told (λ told. result.now ≡ told) }
    {
        self.written.as_slice()
    }
}

impl Sink for MemSink {
    ghost told = { λ s. s.told };

    ghost faults = { λ s. s.faults };

    fn write(&mut self, bytes: &[u8]) -> Result<(), Failed>
        ensures told { Tells self.old.told self.new.told (Writes bytes.now result) }
        ensures faults { Counts self.old.faults self.new.faults (IsErr result) }
        ensures plan { IsTrue (fails_next self.old.writes) → IsErr result }
        ensures state { self.new ≡ after_write self.old bytes.now result }
    {
        if self.writes.next() {
            self.faults = self.faults.saturating_add(1);
            return Err(Failed);
        }
        if self.written.extend_from_slice(bytes).is_err() {
            self.is_telling = false;
            self.faults = self.faults.saturating_add(1);
            return Err(Failed);
        }
        Ok(())
    }
}
