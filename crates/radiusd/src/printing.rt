ghost use Rattle.std.specs.Prelude.{◌≡◌, ◌≤◌, OnOk, IfErr};
ghost use Rattle.rad_outside.specs.Telling.{Tells, Rose};
ghost use Rattle.rad_outside.specs.Printing.{Prints, PrintsWhole};

use crate::status::Status;
use rad_outside::Sink;

/// Prints a line. Where the sink fails a front of it may have been printed.
pub(crate) fn say<O: Sink>(out: &mut O, line: &[u8]) -> Result<(), Status>
    ensures ok { OnOk result (Tells (O.told out.old) (O.told out.new) (PrintsWhole line.now)) }
    ensures printed { Tells (O.told out.old) (O.told out.new) (Prints line.now (Rose (O.faults out.old) (O.faults out.new))) }
    ensures fault { IfErr result (λ status. (status ≡ Status.PrintFault) × Rose (O.faults out.old) (O.faults out.new)) }
    ensures later { O.faults out.old ≤ O.faults out.new }
{
    match out.write(line) {
        Ok(()) => Ok(()),
        Err(_) => Err(Status::PrintFault),
    }
}
