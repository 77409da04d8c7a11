//! A log is read, and its sessions are shown.

ghost use Rattle.std.specs.Prelude.{◌≡◌, ◌++◌, [], ◌∷◌, IfOk};
ghost use Rattle.rad_outside.specs.Telling.{Tells, Counts, Rose};
ghost use Rattle.rad_outside.specs.Printing.{Prints};
ghost use Rattle.radwho.specs.Run.{too_long_line, log_lines, log_at, read_fault_line, ShowsLog, Shows, IsLog};

use crate::listing::lines_of_log;
use crate::printing::say;
use crate::status::Status;
use crate::wanted::Wanted;
use rad_outside::{Failed, Files, Found, NoMemory, Sink};
use rad_text::put_decimal;
use std::alloc::Global;

/// How many octets a log may have: 64 MiB.
const LIMIT: usize = 67_108_864;

/// The line of a log that is too long, with its length.
#[tactic(auto, unfolding(crate::specs::Run::too_long_line))]
fn too_long_line(alloc: Global, length: usize) -> Result<Vec<u8>, NoMemory>
    ensures { IfOk result (λ text. text.items ≡ too_long_line length) }
{
    let mut text = Vec::from_slice(alloc, b"log too long ")?;
    put_decimal(alloc, &mut text, length as u64)?;
    text.push(b'\n')?;
    Ok(text)
}

/// What is printed of a log.
fn log_lines(alloc: Global, wanted: &Wanted, log: &[u8]) -> Result<Vec<u8>, NoMemory>
    ensures { IfOk result (λ text. text.items ≡ log_lines wanted.now log.now) }
{
    if log.len() > LIMIT {
        too_long_line(alloc, log.len())
    } else {
        lines_of_log(alloc, wanted, log)
    }
}

/// Shows the sessions of a log that are wanted.
fn show_log<O: Sink>(alloc: Global, wanted: &Wanted, log: &[u8], out: &mut O) -> Status
    ensures { ShowsLog wanted.now log.now (Rose (O.faults out.old) (O.faults out.new)) (O.told out.old) (O.told out.new) result }
{
    let Ok(text) = log_lines(alloc, wanted, log) else {
        return Status::NoMemory;
    };
    let printed = say(out, text.as_slice());
    if log.len() > LIMIT {
        return Status::TooLong;
    }
    match printed {
        Ok(()) => Status::Done,
        Err(Failed) => Status::PrintFault,
    }
}

/// The log at a path. A path that is no text names no file.
fn log_at<F: Files>(alloc: Global, files: &mut F, path: &[u8]) -> Found
    ensures told { Tells (F.told files.old) (F.told files.new) (λ before now. (now ≡ before) × IsLog before.present path.now result) }
    ensures faults { Counts (F.faults files.old) (F.faults files.new) (result ≡ Found.Failed) }
{
    match str::from_utf8(path) {
        Ok(path) => files.read(alloc, path),
        Err(_) => Found::Missing,
    }
}

/// Prints that the log couldn't be read.
#[tactic(auto, unfolding(crate::specs::Run::read_fault_line))]
fn say_read_fault<O: Sink>(out: &mut O)
    ensures { Tells (O.told out.old) (O.told out.new) (Prints read_fault_line (Rose (O.faults out.old) (O.faults out.new))) }
{
    let _ = say(out, b"read fault\n");
}

/// Reads the log, and shows its sessions that are wanted.
pub(crate) fn show<F: Files, O: Sink>(
    alloc: Global,
    wanted: &Wanted,
    files: &mut F,
    out: &mut O,
) -> Status
    ensures shows { Tells (F.told files.old) (F.told files.new) (λ before now. (now ≡ before)
        × Shows wanted.now (log_at wanted.now.path before.present) (Rose (F.faults files.old) (F.faults files.new))
        (Rose (O.faults out.old) (O.faults out.new)) (O.told out.old) (O.told out.new) result) }
    ensures words { ¬ (result ≡ Status.Words) }
    ensures read { result ≡ Status.ReadFault → Rose (F.faults files.old) (F.faults files.new) }
    ensures print { result ≡ Status.PrintFault → Rose (O.faults out.old) (O.faults out.new) }
{
    match log_at(alloc, files, wanted.path.as_slice()) {
        Found::Bytes(log) => show_log(alloc, wanted, log.as_slice(), out),
        Found::Missing => show_log(alloc, wanted, &[], out),
        Found::Failed => {
            say_read_fault(out);
            Status::ReadFault
        }
        Found::NoMemory => Status::NoMemory,
    }
}
