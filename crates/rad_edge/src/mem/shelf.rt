ghost use Rattle.std.specs.Prelude.{◌≡◌, ◌≢◌, ◌++◌, ◌∷◌, [], Some, IfSome, IsSome, IsErr, OnOk, is_some};
ghost use Rattle.rad_outside.specs.Telling.{Tells, Counts};
ghost use Rattle.rad_outside.specs.Shelf.{Appends};
ghost use Rattle.rad_edge.specs.Failing.{next_cut};
ghost use Rattle.rad_edge.specs.MemShelf.{AppendsNext, count_written};

use super::failing::Failing;
use rad_outside::{Append, Failed, NoMemory, Octets, Shelf};
use std::alloc::Global;
use std::marker::Model;

/// A shelf in memory. It fails where it is to, and where it finds no memory for its record.
#[derive(Debug, Drop)]
pub struct MemShelf {
    alloc: Global,
    pieces: Vec<Append>,
    is_telling: bool,
    faults: u64,
    appends: Failing<(u64, usize)>,
}

impl Model for MemShelf {
    ghost use Rattle.rad_edge.specs.Memory.{told_while};
    ghost use Rattle.rad_edge.specs.MemShelf.{ShelfState};

    ghost Value = { ShelfState };

    ghost view = { λ s. record {
      told = told_while s.is_telling s.pieces.items;
      faults = s.faults;
      appends = s.appends;
    } };
}

impl MemShelf {
    /// An empty shelf, and the numbers of the appends that are to fail, counted from 1, each with how many octets of its
    /// piece are still appended. They are cut to one below the piece's length.
    pub fn new(alloc: Global, failing: Vec<(u64, usize)>) -> MemShelf
        ensures { result ≡ record {
          told = Some [];
          faults = 0;
          appends = record { failing = failing.items; made = 0 };
        } }
    {
        MemShelf {
            alloc,
            pieces: Vec::new(alloc),
            is_telling: true,
            faults: 0,
            appends: Failing::new(failing),
        }
    }

    /// Whether the shelf tells, as it does until it finds no memory for its record.
    pub fn is_telling(&self) -> bool
        ensures { result ≡ is_some self.now.told }
    {
        self.is_telling
    }

    /// The pieces that were handed in, in order.
    pub fn appends(&self) -> &[Append]
        ensures { IfSome self.now.told (λ told. result.now ≡ told) }
    {
        self.pieces.as_slice()
    }
}

impl Shelf for MemShelf {
    ghost told = { λ s. s.told };

    ghost faults = { λ s. s.faults };

    fn append(&mut self, path: &str, bytes: &[u8]) -> Result<(), Failed>
        requires { bytes.now ≢ [] }
        ensures told { Tells self.old.told self.new.told (Appends path.now bytes.now result) }
        ensures faults { Counts self.old.faults self.new.faults (IsErr result) }
        ensures plan { IsSome (next_cut self.old.appends) → IsErr result }
        ensures state { AppendsNext path.now bytes.now self.old result self.new }
    {
        let cut = self.appends.next_cut();
        let written = count_of(cut, bytes);
        let is_recorded = push_piece(self.alloc, &mut self.pieces, path, bytes, written).is_ok();
        if !is_recorded {
            self.is_telling = false;
        }
        if cut.is_none() && is_recorded {
            return Ok(());
        }
        self.faults = self.faults.saturating_add(1);
        Err(Failed)
    }
}

/// How many octets of a piece are appended: all, or those that a planned failure leaves.
fn count_of(cut: Option<usize>, piece: &[u8]) -> usize
    ensures { result ≡ count_written cut piece.now }
{
    match cut {
        Some(count) => count.min(piece.len().saturating_sub(1)),
        None => piece.len(),
    }
}

/// Records a piece of which so many octets were appended.
fn push_piece(
    alloc: Global,
    pieces: &mut Vec<Append>,
    path: &str,
    bytes: &[u8],
    written: usize,
) -> Result<(), NoMemory>
    ensures { OnOk result (pieces.new.items
        ≡ pieces.old.items ++ record { path = path.now; piece = bytes.now; written = written } ∷ []) }
{
    let path = Octets::of(alloc, path.as_bytes())?;
    let piece = Octets::of(alloc, bytes)?;
    pieces.push(Append {
        path,
        piece,
        written,
    })?;
    Ok(())
}
