//! The line of a run's end, and its status.

ghost use Rattle.std.specs.Prelude.{◌≡◌, ℕ, List, Option, IfOk};
ghost use Rattle.rad_outside.specs.Wire.{WireTold};
ghost use Rattle.radclient.specs.Program.{IsVerdict, Refuses, Says, fault_line, place_line, reason_name, unmade_line, unmade_name};

use crate::fault::{LineFault, Reason};
use crate::status::Status;
use crate::stop::Unmade;
use rad_outside::{NoMemory, Sink};
use rad_text::put_decimal;
use std::alloc::Global;

/// Prints lines whose end no status waits for. Where the sink fails a front of them may have been printed.
pub(crate) fn tell<O: Sink>(out: &mut O, lines: &[u8])
    ensures { (wire : Option WireTold) (wire_faults : ℕ) (luck : Option (List ℕ)) →
        Says lines.now
        (record { wire = wire; wire_faults = wire_faults; luck = luck; out = O.told out.old; out_faults = O.faults out.old })
        (record { wire = wire; wire_faults = wire_faults; luck = luck; out = O.told out.new; out_faults = O.faults out.new }) }
{
    let _ = out.write(lines);
}

/// `FILE[LINE]: REASON` and a newline.
fn place_line(alloc: Global, file: &[u8], line: u32, why: &[u8]) -> Result<Vec<u8>, NoMemory>
    ensures { IfOk result (λ text. text.items ≡ place_line file.now line why.now) }
{
    let mut text = Vec::from_slice(alloc, file)?;
    text.extend_from_slice(b"[")?;
    put_decimal(alloc, &mut text, u64::from(line))?;
    text.extend_from_slice(b"]: ")?;
    text.extend_from_slice(why)?;
    text.push(b'\n')?;
    Ok(text)
}

fn reason_name(reason: Reason) -> &'static [u8]
    ensures { result.now ≡ reason_name reason }
{
    match reason {
        Reason::UnknownAttr => b"UnknownAttr",
        Reason::BadOperator => b"BadOperator",
        Reason::BadValue => b"BadValue",
        Reason::TooMany => b"TooMany",
    }
}

fn unmade_name(why: Unmade) -> &'static [u8]
    ensures { result.now ≡ unmade_name why }
{
    match why {
        Unmade::PasswordTooLong => b"PasswordTooLong",
        Unmade::TooLong => b"TooLong",
    }
}

/// Prints the place of what is refused.
fn refuse_place<O: Sink>(alloc: Global, file: &[u8], line: u32, why: &[u8], out: &mut O) -> Status
    ensures { (wire : Option WireTold) (wire_faults : ℕ) (luck : Option (List ℕ)) →
        Refuses (place_line file.now line why.now)
        (record { wire = wire; wire_faults = wire_faults; luck = luck; out = O.told out.old; out_faults = O.faults out.old })
        (record { wire = wire; wire_faults = wire_faults; luck = luck; out = O.told out.new; out_faults = O.faults out.new }) result }
{
    match place_line(alloc, file, line, why) {
        Ok(text) => {
            tell(out, text.as_slice());
            Status::Refused
        }
        Err(NoMemory) => Status::NoMemory,
    }
}

/// Prints the first fault of a file.
pub(crate) fn refuse_file<O: Sink>(
    alloc: Global,
    file: &[u8],
    fault: LineFault,
    out: &mut O,
) -> Status
    ensures { (wire : Option WireTold) (wire_faults : ℕ) (luck : Option (List ℕ)) →
        Refuses (fault_line file.now fault)
        (record { wire = wire; wire_faults = wire_faults; luck = luck; out = O.told out.old; out_faults = O.faults out.old })
        (record { wire = wire; wire_faults = wire_faults; luck = luck; out = O.told out.new; out_faults = O.faults out.new }) result }
{
    refuse_place(alloc, file, fault.line, reason_name(fault.reason), out)
}

/// Prints why a packet can't be made.
pub(crate) fn refuse_packet<O: Sink>(alloc: Global, file: &[u8], why: Unmade, out: &mut O) -> Status
    ensures { (wire : Option WireTold) (wire_faults : ℕ) (luck : Option (List ℕ)) →
        Refuses (unmade_line file.now why)
        (record { wire = wire; wire_faults = wire_faults; luck = luck; out = O.told out.old; out_faults = O.faults out.old })
        (record { wire = wire; wire_faults = wire_faults; luck = luck; out = O.told out.new; out_faults = O.faults out.new }) result }
{
    refuse_place(alloc, file, 0, unmade_name(why), out)
}

/// The status of a run that tried all packets, by how many got no good reply.
pub(crate) fn verdict(bad: u64) -> Status
    ensures { IsVerdict bad result }
{
    if bad == 0 {
        Status::Done
    } else {
        Status::Unanswered
    }
}
