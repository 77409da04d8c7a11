ghost use Rattle.std.specs.Prelude.{◌≡◌, ◌⊎◌};
ghost use Rattle.rad_outside.specs.Telling.{Tells, Rose};
ghost use Rattle.radiusd.specs.Lines.{checked_line};
ghost use Rattle.rad_outside.specs.Printing.{Prints, PrintsWhole};

use crate::printing::say;
use crate::status::Status;
use rad_outside::Sink;
use rad_site::Generation;

/// What is printed where a site is checked and has no fault.
const CHECKED: &[u8] = b"Configuration appears to be OK\n";

/// Says that the site that was to be checked could be built, and gives it up. It is all that such a run does with it.
pub(crate) fn pass_check<O: Sink>(out: &mut O, site: Generation) -> Status
    ensures printed { Tells (O.told out.old) (O.told out.new) (Prints checked_line (Rose (O.faults out.old) (O.faults out.new))) }
    ensures done { result ≡ Status.Done → Tells (O.told out.old) (O.told out.new) (PrintsWhole checked_line) }
    ensures status { (result ≡ Status.Done) ⊎ ((result ≡ Status.PrintFault) × Rose (O.faults out.old) (O.faults out.new)) }
{
    drop(site);
    match say(out, CHECKED) {
        Ok(()) => Status::Done,
        Err(status) => status,
    }
}
