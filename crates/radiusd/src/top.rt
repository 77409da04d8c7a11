ghost use Rattle.std.specs.Prelude.{◌≡◌, ◌⊎◌, [], map, string_bytes, None, IfOk, IsTrue};
ghost use Rattle.std.specs.List.{AllByRecursion};
ghost use Rattle.rad_outside.specs.Telling.{Tells, Rose};
ghost use Rattle.radiusd.specs.Course.{HasDeafWire, fault_line};
ghost use Rattle.radiusd.specs.ExitStatuses.{number_of, status_of};
ghost use Rattle.radiusd.specs.Headline.{Headline, RunsAs};
ghost use Rattle.rad_serve.specs.History.{state_after, IsFull};
ghost use Rattle.rad_outside.specs.Printing.{Prints};
ghost use Rattle.radiusd.specs.Statuses.{IsRefused, IsChecked, FaultGives, SiteGives, NothingFailed, NothingFailedOfCheck, IsListed};
ghost use Rattle.radiusd.specs.Words.{order_in, IsCheck};

use crate::checking::pass_check;
use crate::order::Task;
use crate::printing::say;
use crate::site::serve_site;
use crate::status::Status;
use crate::words::{USAGE, order_in};
use rad_outside::{Clock, Crew, Files, Gate, Kit, Luck, NoMemory, Octets, Shelf, Sink, Wire};
use rad_policy::Policy;
use rad_serve::Hub;
use rad_site::{BuildFault, Generation, fault_text};
use std::alloc::Global;
use std::sync::Wait;

/// The line of a fault other than want of memory: its text and a newline.
fn fault_line(alloc: Global, fault: &BuildFault) -> Result<Octets, NoMemory>
    requires { ¬ (fault.now ≡ BuildFault.NoMemory) }
    ensures { IfOk result (λ line. line ≡ fault_line fault.now) }
{
    let mut line = fault_text(alloc, fault)?.into_vec();
    line.push(10)?;
    Ok(Octets::from_vec(line))
}

/// The status of a fault.
fn status_of(fault: &BuildFault) -> Status
    ensures { result ≡ status_of fault.now }
{
    match fault {
        BuildFault::Conf(_) => Status::Configuration,
        BuildFault::Dict(_) => Status::Configuration,
        BuildFault::BadSetting(_, _) => Status::Configuration,
        BuildFault::UnknownModule(_, _) => Status::Configuration,
        BuildFault::Users(_, _) => Status::Configuration,
        BuildFault::Tree(_) => Status::Configuration,
        BuildFault::ReadFault => Status::ReadFault,
        BuildFault::NoMemory => Status::NoMemory,
    }
}

/// Prints why a site can't be built in one line, and answers the status for it. Want of memory has no line. Where
/// there is no memory for the line, nothing is printed and the status says so.
fn refuse<O: Sink>(alloc: Global, out: &mut O, fault: &BuildFault) -> Status
    ensures status { (result ≡ status_of fault.now) ⊎ (result ≡ Status.NoMemory) }
    ensures printed { Tells (O.told out.old) (O.told out.new) (Prints (fault_line fault.now)
        (Rose (O.faults out.old) (O.faults out.new) ⊎ (result ≡ Status.NoMemory))) }
{
    if matches!(fault, BuildFault::NoMemory) {
        return Status::NoMemory;
    }
    let Ok(line) = fault_line(alloc, fault) else {
        return Status::NoMemory;
    };
    let _ = say(out, line.as_slice());
    status_of(fault)
}

/// Refuses a site that can't be built. It alone owns the fault, so that its caller drops none.
fn refuse_site<O: Sink>(alloc: Global, out: &mut O, fault: BuildFault) -> Status
    ensures status { (result ≡ status_of fault) ⊎ (result ≡ Status.NoMemory) }
    ensures printed { Tells (O.told out.old) (O.told out.new) (Prints (fault_line fault)
        (Rose (O.faults out.old) (O.faults out.new) ⊎ (result ≡ Status.NoMemory))) }
{
    refuse(alloc, out, &fault)
}

/// Runs the server with these words.
fn run<R, F, W, S, K, U, G, C, L, O>(
    rt: &R,
    alloc: Global,
    words: &[String],
    files: &mut F,
    crew: &mut C,
    kits: &mut Vec<Kit<W, S, K, U, G>>,
    hub: &mut Hub<L>,
    out: &mut O,
) -> Status
where
    R: Wait,
    F: Files,
    W: Wire + Drop,
    S: Shelf + Drop,
    K: Clock + Drop,
    U: Luck + Drop,
    G: Gate + Drop,
    C: Crew<W, S, K, U, G>,
    L: Shelf,
    O: Sink,
    requires { kits.old.items ≡ [] }
    ensures headline { RunsAs (map string_bytes words.now) (F.told files.old) (F.told files.new) (λ course.
        Headline (record { wire = W.told; clock = K.told; luck = U.told; failures = W.failures_in_a_row; has_ended = W.has_ended })
        course (number_of result) (C.told crew.old) (C.told crew.new) hub.old.origin hub.new.origin
        (O.told out.old) (O.told out.new) (O.faults out.old) (O.faults out.new) hub.old.history hub.new.history kits.new.items) }
    ensures words { result ≡ Status.Words → order_in (map string_bytes words.now) ≡ None }
    ensures refusing { order_in (map string_bytes words.now) ≡ None → (result ≡ Status.Words) ⊎ (result ≡ Status.NoMemory) }
    ensures refused { result ≡ Status.Configuration → IsRefused (map string_bytes words.now)
        (F.told files.old) (F.told files.new) (O.told out.old) (O.told out.new) (O.faults out.old) (O.faults out.new) }
    ensures found { FaultGives (map string_bytes words.now)
        ((result ≡ Status.Configuration) ⊎ ((result ≡ Status.ReadFault) ⊎ (result ≡ Status.NoMemory)))
        (F.told files.old) (F.told files.new) }
    ensures read { result ≡ Status.ReadFault → Rose (F.faults files.old) (F.faults files.new) }
    ensures over { result ≡ Status.Done → IsTrue (state_after hub.new.history).is_stopped
        ⊎ AllByRecursion (λ kit. IsTrue (W.has_ended kit.wire)) kits.new.items }
    ensures socket { result ≡ Status.SocketFault → Rose (C.faults crew.old) (C.faults crew.new)
        ⊎ HasDeafWire W.failures_in_a_row kits.new.items }
    ensures print { result ≡ Status.PrintFault → Rose (O.faults out.old) (O.faults out.new) }
    ensures worn { result ≡ Status.Worn → IsFull hub.new.history }
    ensures served { SiteGives (map string_bytes words.now)
        (NothingFailed W.failures_in_a_row (F.faults files.old) (F.faults files.new) (C.faults crew.old) (C.faults crew.new)
        (O.faults out.old) (O.faults out.new) hub.new.history kits.new.items)
        ((result ≡ Status.Done) ⊎ (result ≡ Status.NoMemory)) (F.told files.old) (F.told files.new) }
    ensures checked { IsCheck (order_in (map string_bytes words.now)) → result ≡ Status.Done → IsChecked (map string_bytes words.now)
        (F.told files.old) (F.told files.new) (O.told out.old) (O.told out.new) }
    ensures checking { IsCheck (order_in (map string_bytes words.now)) → SiteGives (map string_bytes words.now)
        (NothingFailedOfCheck (F.faults files.old) (F.faults files.new) (O.faults out.old) (O.faults out.new))
        ((result ≡ Status.Done) ⊎ (result ≡ Status.NoMemory)) (F.told files.old) (F.told files.new) }
    ensures untouched { IsCheck (order_in (map string_bytes words.now)) → (hub.new ≡ hub.old) × (crew.new ≡ crew.old) × (kits.new.items ≡ []) }
{
    let _ = hub.tally();
    let order = match order_in(alloc, words) {
        Ok(Some(order)) => order,
        Ok(None) => {
            let _ = say(out, USAGE);
            return Status::Words;
        }
        Err(NoMemory) => return Status::NoMemory,
    };
    match Generation::build(alloc, files, order.folder.as_str()) {
        Err(fault) => refuse_site(alloc, out, fault),
        Ok(generation) => match order.task {
            Task::Check => pass_check(out, generation),
            Task::Serve => serve_site(rt, alloc, generation, crew, kits, hub, out),
        },
    }
}

/// The server. The words are `radiusd [-C] [-s] [-f] [-d DIR]`, with the site's folder `/etc/raddb` where none is named. With
/// `-s` it serves the site in that folder on one thread until its worker leaves; with `-C` it builds the site, says in one line
/// whether it could, and ends: no kit is taken, nothing is added to the history, and the hub and the crew are as they were. `-f`
/// changes nothing. It answers the exit status of the program: 0 the listener's wire ended, a stop came or the site was checked
/// and has no fault, 1 other words, 2 a fault of the configuration, 3 a read fault, 4 a socket fault, 6 a print fault, 7 a full
/// history, 8 want of memory.
///
/// The headline holds of every run, whatever its status: see `specs/Headline.antt`. What each status says, and when it
/// comes, is in `specs/Statuses.antt`: 1 only where the words are others, which are answered 1 or 8; 2 only where the site is
/// built to a fault of its own text, whose line `FILE[LINE]: REASON` is printed; 3, 4 and 6 only where the files, the crew or a
/// wire, and the sink failed; 7 only where the history has no room for two more entries; 0 only where a stop stands or the wires
/// ended, or the check was ordered, the site is built and the line that says so was printed. A site that has a fault is answered
/// 2, 3 or 8, and one without a fault 0 or 8 where nothing failed.
pub fn radiusd<R, F, W, S, K, U, G, C, L, O>(
    rt: &R,
    alloc: Global,
    words: &[String],
    files: &mut F,
    crew: &mut C,
    kits: &mut Vec<Kit<W, S, K, U, G>>,
    hub: &mut Hub<L>,
    out: &mut O,
) -> u8
where
    R: Wait,
    F: Files + Send,
    W: Wire + Send + Drop,
    S: Shelf + Send + Drop,
    K: Clock + Send + Drop,
    U: Luck + Send + Drop,
    G: Gate + Send + Drop,
    C: Crew<W, S, K, U, G> + Send,
    L: Shelf + Send,
    O: Sink + Send,
    requires { kits.old.items ≡ [] }
    ensures headline { RunsAs (map string_bytes words.now) (F.told files.old) (F.told files.new) (λ course.
        Headline (record { wire = W.told; clock = K.told; luck = U.told; failures = W.failures_in_a_row; has_ended = W.has_ended })
        course (result) (C.told crew.old) (C.told crew.new) hub.old.origin hub.new.origin
        (O.told out.old) (O.told out.new) (O.faults out.old) (O.faults out.new) hub.old.history hub.new.history kits.new.items) }
    ensures words { result ≡ 1 → order_in (map string_bytes words.now) ≡ None }
    ensures refusing { order_in (map string_bytes words.now) ≡ None → (result ≡ 1) ⊎ (result ≡ 8) }
    ensures refused { result ≡ 2 → IsRefused (map string_bytes words.now)
        (F.told files.old) (F.told files.new) (O.told out.old) (O.told out.new) (O.faults out.old) (O.faults out.new) }
    ensures found { FaultGives (map string_bytes words.now)
        ((result ≡ 2) ⊎ ((result ≡ 3) ⊎ (result ≡ 8)))
        (F.told files.old) (F.told files.new) }
    ensures read { result ≡ 3 → Rose (F.faults files.old) (F.faults files.new) }
    ensures over { result ≡ 0 → IsTrue (state_after hub.new.history).is_stopped
        ⊎ AllByRecursion (λ kit. IsTrue (W.has_ended kit.wire)) kits.new.items }
    ensures socket { result ≡ 4 → Rose (C.faults crew.old) (C.faults crew.new)
        ⊎ HasDeafWire W.failures_in_a_row kits.new.items }
    ensures print { result ≡ 6 → Rose (O.faults out.old) (O.faults out.new) }
    ensures worn { result ≡ 7 → IsFull hub.new.history }
    ensures served { SiteGives (map string_bytes words.now)
        (NothingFailed W.failures_in_a_row (F.faults files.old) (F.faults files.new) (C.faults crew.old) (C.faults crew.new)
        (O.faults out.old) (O.faults out.new) hub.new.history kits.new.items)
        ((result ≡ 0) ⊎ (result ≡ 8)) (F.told files.old) (F.told files.new) }
    ensures checked { IsCheck (order_in (map string_bytes words.now)) → result ≡ 0 → IsChecked (map string_bytes words.now)
        (F.told files.old) (F.told files.new) (O.told out.old) (O.told out.new) }
    ensures checking { IsCheck (order_in (map string_bytes words.now)) → SiteGives (map string_bytes words.now)
        (NothingFailedOfCheck (F.faults files.old) (F.faults files.new) (O.faults out.old) (O.faults out.new))
        ((result ≡ 0) ⊎ (result ≡ 8)) (F.told files.old) (F.told files.new) }
    ensures untouched { IsCheck (order_in (map string_bytes words.now)) → (hub.new ≡ hub.old) × (crew.new ≡ crew.old) × (kits.new.items ≡ []) }
    ensures listed { IsListed result }
{
    run(rt, alloc, words, files, crew, kits, hub, out).number()
}
