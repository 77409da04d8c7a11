ghost use Rattle.std.specs.Prelude.{◌≡◌, ◌⊎◌, map, string_bytes, None};
ghost use Rattle.rad_outside.specs.Telling.{Tells, Rose};
ghost use Rattle.radwho.specs.Request.{request};
ghost use Rattle.radwho.specs.Run.{ending_of, IsListed, Refuses, Runs};

use crate::asking::request;
use crate::printing::refuse;
use crate::showing::show;
use crate::status::Status;
use rad_outside::{Files, NoMemory, Sink};
use std::alloc::Global;

/// Does what the words ask for.
fn run<F: Files, O: Sink>(alloc: Global, words: &[String], files: &mut F, out: &mut O) -> Status
    ensures runs { Tells (F.told files.old) (F.told files.new) (λ before now. (now ≡ before)
        × Runs (request (map string_bytes words.now)) before.present (Rose (F.faults files.old) (F.faults files.new))
        (Rose (O.faults out.old) (O.faults out.new)) (O.told out.old) (O.told out.new) result) }
    ensures refused { request (map string_bytes words.now) ≡ None
        → Refuses (Rose (O.faults out.old) (O.faults out.new)) (O.told out.old) (O.told out.new) result }
    ensures words { result ≡ Status.Words → request (map string_bytes words.now) ≡ None }
    ensures read { result ≡ Status.ReadFault → Rose (F.faults files.old) (F.faults files.new) }
    ensures print { result ≡ Status.PrintFault → Rose (O.faults out.old) (O.faults out.new) }
{
    match request(alloc, words) {
        Ok(Some(wanted)) => show(alloc, &wanted, files, out),
        Ok(None) => refuse(out),
        Err(NoMemory) => Status::NoMemory,
    }
}

/// Prints the sessions that the server's log says, in order of NAS and port, and answers the exit status of the program
/// (radwho(1)): 0 exactly where no other applies; 1 exactly where the words aren't
/// `radwho [-r] [-n] [-s] [-u USER] [-N ADDRESS] [-F FILE]`, whose usage line is printed; 3 only where the files failed, with
/// the line `read fault`; 5 exactly where the log has more than 64 MiB (67,108,864 octets), with its length printed; 6 only
/// where the sink failed; 8 want of memory, which may come at any time. A log that is missing has no sessions.
///
/// What is printed is a front of the run's lines, and all of them where the status is 0; where it is 1, 3 or 5, all of them
/// unless the sink failed. `specs/Run.antt` has a row for each cause.
pub fn radwho<F: Files, O: Sink>(alloc: Global, words: &[String], files: &mut F, out: &mut O) -> u8
    ensures runs { Tells (F.told files.old) (F.told files.new) (λ before now. (now ≡ before)
        × Runs (request (map string_bytes words.now)) before.present (Rose (F.faults files.old) (F.faults files.new))
        (Rose (O.faults out.old) (O.faults out.new)) (O.told out.old) (O.told out.new) (ending_of result)) }
    ensures refused { request (map string_bytes words.now) ≡ None
        → Refuses (Rose (O.faults out.old) (O.faults out.new)) (O.told out.old) (O.told out.new) (ending_of result) }
    ensures words { ending_of result ≡ Status.Words → request (map string_bytes words.now) ≡ None }
    ensures read { ending_of result ≡ Status.ReadFault → Rose (F.faults files.old) (F.faults files.new) }
    ensures print { ending_of result ≡ Status.PrintFault → Rose (O.faults out.old) (O.faults out.new) }
    ensures listed { IsListed result }
{
    run(alloc, words, files, out).number()
}
