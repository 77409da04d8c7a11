//! The top call.

ghost use Rattle.std.specs.Prelude.{◌≡◌, List, ℕ, Some, map, string_bytes};
ghost use Rattle.rad_dict.specs.Base.{base_definitions};
ghost use Rattle.radclient.specs.Program.{Ends, Ran, Read, Tail, number_of, pairs_of_groups};
ghost use Rattle.radclient.specs.Client.{client_run};
ghost use Rattle.radclient.specs.declared.status.Status.{Status};
ghost use Rattle.radclient.specs.Words.{line_of};

use crate::asked::Asked;
use crate::ending::{refuse_file, refuse_packet, tell, verdict};
use crate::groups::read_groups;
use crate::running::run;
use crate::status::Status;
use crate::stop::Stop;
use crate::words::order_of;
use rad_dict::Dict;
use rad_outside::{Files, Found, Luck, NoMemory, Octets, Sink, Wire};
use rad_text::ReadError;
use rad_value::Lists;
use std::alloc::Global;

/// What the words are, where they are others.
const USAGE: &[u8] =
    b"usage: radclient [-f FILE] [-x] [-c N] [-r N] [-t N] [-q] SERVER[:PORT] auth|acct SECRET\n";

/// The line of a wire that failed.
const SOCKET_FAULT: &[u8] = b"socket fault\n";

/// The line of a file that can't be read.
const READ_FAULT: &[u8] = b"read fault\n";

/// Tries the packets of groups.
fn try_packets<W: Wire, U: Luck, O: Sink>(
    alloc: Global,
    asked: &Asked,
    file: &[u8],
    dict: &Dict,
    groups: &[Lists],
    wire: &mut W,
    luck: &mut U,
    out: &mut O,
) -> Status
    requires { dict.now ≡ base_definitions }
    ensures { Ran (client_run asked.now (pairs_of_groups groups.now)) file.now
        (record { wire = W.told wire.old; wire_faults = W.faults wire.old; luck = U.told luck.old; out = O.told out.old; out_faults = O.faults out.old })
        (record { wire = W.told wire.new; wire_faults = W.faults wire.new; luck = U.told luck.new; out = O.told out.new; out_faults = O.faults out.new }) result }
{
    match run(alloc, asked, dict, groups, wire, luck, out) {
        Ok(bad) => verdict(bad),
        Err(Stop::Unmade(why)) => refuse_packet(alloc, file, why, out),
        Err(Stop::SocketFault) => {
            tell(out, SOCKET_FAULT);
            Status::SocketFault
        }
        Err(Stop::WriteFault) => Status::WriteFault,
        Err(Stop::NoMemory) => Status::NoMemory,
    }
}

/// Reads the groups of a file's octets and tries their packets.
fn try_groups<W: Wire, U: Luck, O: Sink>(
    alloc: Global,
    asked: &Asked,
    file: &[u8],
    octets: &[u8],
    dict: &Dict,
    wire: &mut W,
    luck: &mut U,
    out: &mut O,
) -> Status
    requires { dict.now ≡ base_definitions }
    ensures { Tail asked.now file.now octets.now
        (record { wire = W.told wire.old; wire_faults = W.faults wire.old; luck = U.told luck.old; out = O.told out.old; out_faults = O.faults out.old })
        (record { wire = W.told wire.new; wire_faults = W.faults wire.new; luck = U.told luck.new; out = O.told out.new; out_faults = O.faults out.new }) result }
{
    match read_groups(alloc, octets, dict) {
        Ok(groups) => { try_packets(alloc, asked, file, dict, groups.as_slice(), wire, luck, out) }
        Err(ReadError::Wrong(fault)) => refuse_file(alloc, file, fault, out),
        Err(ReadError::NoMemory) => Status::NoMemory,
    }
}

/// The file at a path of the next map, or none where it is missing or the files failed.
fn read_path<F: Files>(alloc: Global, files: &mut F, path: &str) -> Result<Option<Octets>, NoMemory>
    ensures { Read path.now (F.told files.old) (F.told files.new) (F.faults files.old) (F.faults files.new) result }
{
    files.begin();
    match files.read(alloc, path) {
        Found::Bytes(octets) => Ok(Some(octets)),
        Found::Missing => Ok(None),
        Found::Failed => Ok(None),
        Found::NoMemory => Err(NoMemory),
    }
}

/// The same where the path may be no text.
fn read_file<F: Files>(
    alloc: Global,
    files: &mut F,
    path: &[u8],
) -> Result<Option<Octets>, NoMemory>
    ensures { Read path.now (F.told files.old) (F.told files.new) (F.faults files.old) (F.faults files.new) result }
{
    match str::from_utf8(path) {
        Ok(path) => read_path(alloc, files, path),
        Err(_) => Ok(None),
    }
}

/// Reads the file and tries its packets.
fn try_file<F: Files, W: Wire, U: Luck, O: Sink>(
    alloc: Global,
    asked: &Asked,
    file: &[u8],
    files: &mut F,
    wire: &mut W,
    luck: &mut U,
    out: &mut O,
) -> Status
    ensures { (words : List (List ℕ)) → line_of words ≡ Some (record { asked = asked.now; file = file.now }) →
        Ends words (F.told files.old) (F.told files.new) (F.faults files.old) (F.faults files.new)
        (record { wire = W.told wire.old; wire_faults = W.faults wire.old; luck = U.told luck.old; out = O.told out.old; out_faults = O.faults out.old })
        (record { wire = W.told wire.new; wire_faults = W.faults wire.new; luck = U.told luck.new; out = O.told out.new; out_faults = O.faults out.new }) result }
{
    match read_file(alloc, files, file) {
        Ok(Some(octets)) => try_octets(alloc, asked, file, octets.as_slice(), wire, luck, out),
        Ok(None) => {
            tell(out, READ_FAULT);
            Status::ReadFault
        }
        Err(NoMemory) => Status::NoMemory,
    }
}

/// Tries the packets of a file's octets.
fn try_octets<W: Wire, U: Luck, O: Sink>(
    alloc: Global,
    asked: &Asked,
    file: &[u8],
    octets: &[u8],
    wire: &mut W,
    luck: &mut U,
    out: &mut O,
) -> Status
    ensures { Tail asked.now file.now octets.now
        (record { wire = W.told wire.old; wire_faults = W.faults wire.old; luck = U.told luck.old; out = O.told out.old; out_faults = O.faults out.old })
        (record { wire = W.told wire.new; wire_faults = W.faults wire.new; luck = U.told luck.new; out = O.told out.new; out_faults = O.faults out.new }) result }
{
    match Dict::base(alloc) {
        Ok(dict) => try_groups(alloc, asked, file, octets, &dict, wire, luck, out),
        Err(NoMemory) => Status::NoMemory,
    }
}

/// Does what the words ask for.
fn run_words<F: Files, W: Wire, U: Luck, O: Sink>(
    alloc: Global,
    words: &[String],
    files: &mut F,
    wire: &mut W,
    luck: &mut U,
    out: &mut O,
) -> Status
    ensures { Ends (map string_bytes words.now) (F.told files.old) (F.told files.new) (F.faults files.old) (F.faults files.new)
        (record { wire = W.told wire.old; wire_faults = W.faults wire.old; luck = U.told luck.old; out = O.told out.old; out_faults = O.faults out.old })
        (record { wire = W.told wire.new; wire_faults = W.faults wire.new; luck = U.told luck.new; out = O.told out.new; out_faults = O.faults out.new }) result }
{
    match order_of(alloc, words) {
        Ok(Some(order)) => try_file(
            alloc,
            &order.asked,
            order.file.as_slice(),
            files,
            wire,
            luck,
            out,
        ),
        Ok(None) => {
            tell(out, USAGE);
            Status::Refused
        }
        Err(NoMemory) => Status::NoMemory,
    }
}

/// The client, after radclient(1): it makes packets of the pairs in a file, sends each to a server until its reply comes, and
/// prints what was sent and what came. The words are `radclient [-f FILE] [-x] [-c N] [-r N] [-t N] [-q] SERVER[:PORT]
/// auth|acct SECRET`. Answers the exit status of the program: 0 every packet got a good reply, 1 one got an Access-Reject or
/// none, 2 other words, a fault of the file or a packet that can't be made, 3 the file can't be read, 4 a socket fault, 6 a
/// write fault, 8 want of memory.
pub fn radclient<F: Files, W: Wire, U: Luck, O: Sink>(
    alloc: Global,
    words: &[String],
    files: &mut F,
    wire: &mut W,
    luck: &mut U,
    out: &mut O,
) -> u8
    ensures ends { (status : Status) × (result ≡ number_of status) ×
        Ends (map string_bytes words.now) (F.told files.old) (F.told files.new) (F.faults files.old) (F.faults files.new)
        (record { wire = W.told wire.old; wire_faults = W.faults wire.old; luck = U.told luck.old; out = O.told out.old; out_faults = O.faults out.old })
        (record { wire = W.told wire.new; wire_faults = W.faults wire.new; luck = U.told luck.new; out = O.told out.new; out_faults = O.faults out.new }) status }
{
    run_words(alloc, words, files, wire, luck, out).number()
}
