ghost use Rattle.std.specs.Prelude.{◌≡◌, ◌≢◌, [], None, IsErr};
ghost use Rattle.rad_outside.specs.Telling.{Counts};
ghost use Rattle.rad_edge.specs.Memory.{faults_after};

use super::telling::tell;
use rad_outside::{Failed, Shelf};
use std::fs::OpenOptions;
use std::io::Write;
use std::{fs, io, rt};

/// The host's files that only grow. Missing folders of a path are made. What the host refuses is told on standard error.
#[derive(Drop)]
pub struct HostShelf<R> {
    rt: R,
    faults: u64,
}

impl<R: rt::Files + Eprint> HostShelf<R> {
    /// The host's files, with no fault yet.
    pub fn new(rt: R) -> HostShelf<R>
        ensures { ⟦<HostShelf<R> as Shelf>⟧.faults result ≡ 0 }
    {
        HostShelf { rt, faults: 0 }
    }
}

impl<R: rt::Files + Eprint> Shelf for HostShelf<R> {
    ghost told = { λ _. None };

    ghost faults = { λ s. s.faults };

    fn append(&mut self, path: &str, bytes: &[u8]) -> Result<(), Failed>
        requires { bytes.now ≢ [] }
        ensures faults { Counts self.old.faults self.new.faults (IsErr result) }
        ensures exact { self.new.faults ≡ faults_after result self.old.faults }
    {
        if let Err(error) = append_at(&self.rt, path, bytes) {
            tell(&self.rt, "append to", path, &error);
            self.faults = self.faults.saturating_add(1);
            return Err(Failed);
        }
        Ok(())
    }
}

/// Appends to the file at a path, which is made where it is missing, with the folders above it.
fn append_at<R: rt::Files>(rt: &R, path: &str, bytes: &[u8]) -> io::Result<()> {
    if let Some((folder, _)) = path.rsplit_once('/') {
        if !folder.is_empty() {
            fs::create_dir_all(rt, folder)?;
        }
    }
    let mut file = OpenOptions::new().append(true).create(true).open(rt, path)?;
    file.write_all(bytes)
}
