//! Lines that are printed.

ghost use Rattle.std.specs.Prelude.{OnOk, OnErr};
ghost use Rattle.rad_outside.specs.Telling.{Tells, Rose};
ghost use Rattle.rad_outside.specs.Printing.{Prints};
ghost use Rattle.radwho.specs.Run.{Refuses, usage_line};

use crate::status::Status;
use rad_outside::{Failed, Sink};

/// The line of words that are refused.
const USAGE: &[u8] = b"usage: radwho [-r] [-n] [-s] [-u USER] [-N ADDRESS] [-F FILE]\n";

/// Prints lines. Where the sink fails a front of them may have been printed.
pub(crate) fn say<O: Sink>(out: &mut O, lines: &[u8]) -> Result<(), Failed>
    ensures whole { OnOk result (Tells (O.told out.old) (O.told out.new) (Prints lines.now ⊥)) }
    ensures printed { Tells (O.told out.old) (O.told out.new) (Prints lines.now (Rose (O.faults out.old) (O.faults out.new))) }
    ensures fault { OnErr result (Rose (O.faults out.old) (O.faults out.new)) }
{
    out.write(lines)
}

/// Prints the usage line, for words that are refused.
#[tactic(auto, unfolding(crate::specs::Run::usage_line))]
pub(crate) fn refuse<O: Sink>(out: &mut O) -> Status
    ensures { Refuses (Rose (O.faults out.old) (O.faults out.new)) (O.told out.old) (O.told out.new) result }
{
    let _ = say(out, USAGE);
    Status::Words
}
