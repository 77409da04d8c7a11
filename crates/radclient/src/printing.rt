//! Lines are printed.

ghost use Rattle.std.specs.Prelude.{◌≡◌, ◌≤◌, ℕ, List, Option, IfOk, IfSome, MatchResult, length};
ghost use Rattle.std.specs.Option.{option_copied};
ghost use Rattle.rad_dict.specs.Base.{base_definitions};
ghost use Rattle.rad_outside.specs.Wire.{WireTold};
ghost use Rattle.rad_packet.specs.Packet.{IsWellFormed, packet_of};
ghost use Rattle.radclient.specs.Answers.{Act, saying};
ghost use Rattle.radclient.specs.Client.{lines_at};
ghost use Rattle.radclient.specs.Lines.{closing_lines, sent_lines, unless_quiet};
ghost use Rattle.radclient.specs.Seen.{Goes, Seen, Stops};

use crate::asked::Asked;
use crate::lines::{no_reply_line, reply_lines, sent_lines};
use crate::stop::Stop;
use rad_dict::Dict;
use rad_outside::{NoMemory, Sink};
use rad_value::Lists;
use std::alloc::Global;

/// Prints lines. Where the sink fails a front of them may have been printed.
pub(crate) fn say<O: Sink>(out: &mut O, lines: &[u8]) -> Result<(), Stop>
    ensures { (next : Act) (wire : Option WireTold) (wire_faults : ℕ) (luck : Option (List ℕ)) →
        let before : Seen = record { wire = wire; wire_faults = wire_faults; luck = luck; out = O.told out.old; out_faults = O.faults out.old } in
        let now : Seen = record { wire = wire; wire_faults = wire_faults; luck = luck; out = O.told out.new; out_faults = O.faults out.new } in
        MatchResult result (λ _. Goes (saying lines.now next) next before now) (λ stop. Stops (saying lines.now next) stop before now) }
{
    match out.write(lines) {
        Ok(()) => Ok(()),
        Err(_) => Err(Stop::WriteFault),
    }
}

/// Prints that a request was sent, once it was sent for the first time.
pub(crate) fn say_sent<O: Sink>(
    alloc: Global,
    asked: &Asked,
    left: u32,
    request: &[u8],
    pairs: &Lists,
    dict: &Dict,
    out: &mut O,
) -> Result<(), Stop>
    requires request { 20 ≤ length request.now }
    requires dict { dict.now ≡ base_definitions }
    ensures { (next : Act) (wire : Option WireTold) (wire_faults : ℕ) (luck : Option (List ℕ)) →
        let before : Seen = record { wire = wire; wire_faults = wire_faults; luck = luck; out = O.told out.old; out_faults = O.faults out.old } in
        let now : Seen = record { wire = wire; wire_faults = wire_faults; luck = luck; out = O.told out.new; out_faults = O.faults out.new } in
        let lines = unless_quiet asked.now (lines_at asked.now left (sent_lines asked.now request.now pairs.now.request)) in
        MatchResult result (λ _. Goes (saying lines next) next before now) (λ stop. Stops (saying lines next) stop before now) }
{
    if asked.quiet {
        return Ok(());
    }
    if left != asked.tries {
        return Ok(());
    }
    match sent_lines(alloc, asked, request, pairs, dict) {
        Ok(lines) => say(out, lines.as_slice()),
        Err(NoMemory) => Err(Stop::NoMemory),
    }
}

/// Prints what came of a packet: its reply, or that there was none.
pub(crate) fn say_end<O: Sink>(
    alloc: Global,
    asked: &Asked,
    id: u8,
    reply: Option<&[u8]>,
    dict: &Dict,
    out: &mut O,
) -> Result<(), Stop>
    requires reply { IfSome reply (λ reply. IsWellFormed (packet_of reply.now)) }
    requires dict { dict.now ≡ base_definitions }
    ensures { (next : Act) (wire : Option WireTold) (wire_faults : ℕ) (luck : Option (List ℕ)) →
        let before : Seen = record { wire = wire; wire_faults = wire_faults; luck = luck; out = O.told out.old; out_faults = O.faults out.old } in
        let now : Seen = record { wire = wire; wire_faults = wire_faults; luck = luck; out = O.told out.new; out_faults = O.faults out.new } in
        let lines = unless_quiet asked.now (closing_lines asked.now id (option_copied reply.entry)) in
        MatchResult result (λ _. Goes (saying lines next) next before now) (λ stop. Stops (saying lines next) stop before now) }
{
    if asked.quiet {
        return Ok(());
    }
    match end_lines(alloc, asked, id, reply, dict) {
        Ok(lines) => say(out, lines.as_slice()),
        Err(NoMemory) => Err(Stop::NoMemory),
    }
}

/// What is printed at a packet's end.
fn end_lines(
    alloc: Global,
    asked: &Asked,
    id: u8,
    reply: Option<&[u8]>,
    dict: &Dict,
) -> Result<Vec<u8>, NoMemory>
    requires reply { IfSome reply (λ reply. IsWellFormed (packet_of reply.now)) }
    requires dict { dict.now ≡ base_definitions }
    ensures { IfOk result (λ text. text.items ≡ closing_lines asked.now id (option_copied reply.entry)) }
{
    match reply {
        Some(reply) => reply_lines(alloc, asked, reply, dict),
        None => no_reply_line(alloc, id),
    }
}
