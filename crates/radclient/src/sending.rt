//! A request is sent, and sent again until its reply comes.

ghost use Rattle.std.specs.Prelude.{◌≡◌, ◌≤◌, ℕ, List, Option, Some, IfOk, IfSome, MatchResult, length, take};
ghost use Rattle.std.specs.Option.{option_map};
ghost use Rattle.rad_dict.specs.Base.{base_definitions};
ghost use Rattle.rad_wire.specs.Accepts.{Accepts};
ghost use Rattle.radclient.specs.Answers.{Act, sending};
ghost use Rattle.radclient.specs.Client.{awaited, sent_once, tried};
ghost use Rattle.radclient.specs.Lines.{sent_lines};
ghost use Rattle.radclient.specs.Seen.{Goes, Seen, Stops};

use crate::asked::Asked;
use crate::asking::ask;
use crate::printing::say_sent;
use crate::stop::Stop;
use rad_dict::Dict;
use rad_outside::{Sink, Wire};
use rad_value::Lists;
use std::alloc::Global;

/// Hands a request to the wire.
fn send<W: Wire>(asked: &Asked, request: &[u8], wire: &mut W) -> Result<(), Stop>
    ensures { (next : Act) (luck out : Option (List ℕ)) (out_faults : ℕ) →
        let before : Seen = record { wire = W.told wire.old; wire_faults = W.faults wire.old; luck = luck; out = out; out_faults = out_faults } in
        let now : Seen = record { wire = W.told wire.new; wire_faults = W.faults wire.new; luck = luck; out = out; out_faults = out_faults } in
        MatchResult result
        (λ _. Goes (sending (record { to = asked.now.server; octets = request.now }) next) next before now)
        (λ stop. Stops (sending (record { to = asked.now.server; octets = request.now }) next) stop before now) }
{
    match wire.send(asked.server, request) {
        Ok(()) => Ok(()),
        Err(_) => Err(Stop::SocketFault),
    }
}

/// Hands a request to the wire, and prints that it was sent, once it was sent for the first time.
fn begin_try<W: Wire, O: Sink>(
    alloc: Global,
    asked: &Asked,
    left: u32,
    request: &[u8],
    pairs: &Lists,
    dict: &Dict,
    wire: &mut W,
    out: &mut O,
) -> Result<(), Stop>
    requires request { 20 ≤ length request.now }
    requires dict { dict.now ≡ base_definitions }
    ensures { (next : Act) (luck : Option (List ℕ)) →
        let before : Seen = record { wire = W.told wire.old; wire_faults = W.faults wire.old; luck = luck; out = O.told out.old; out_faults = O.faults out.old } in
        let now : Seen = record { wire = W.told wire.new; wire_faults = W.faults wire.new; luck = luck; out = O.told out.new; out_faults = O.faults out.new } in
        let act = sent_once asked.now request.now (sent_lines asked.now request.now pairs.now.request) left next in
        MatchResult result (λ _. Goes act next before now) (λ stop. Stops act stop before now) }
{
    match send(asked, request, wire) {
        Ok(()) => say_sent(alloc, asked, left, request, pairs, dict, out),
        Err(stop) => Err(stop),
    }
}

/// Sends a request once and asks for its reply.
fn try_once<W: Wire, O: Sink>(
    alloc: Global,
    asked: &Asked,
    left: u32,
    request: &[u8],
    pairs: &Lists,
    dict: &Dict,
    wire: &mut W,
    out: &mut O,
    buffer: &mut [u8; 4096],
) -> Result<Option<usize>, Stop>
    requires request { 20 ≤ length request.now }
    requires dict { dict.now ≡ base_definitions }
    ensures goes { (next : Option (List ℕ) → Act) (luck : Option (List ℕ)) →
        let before : Seen = record { wire = W.told wire.old; wire_faults = W.faults wire.old; luck = luck; out = O.told out.old; out_faults = O.faults out.old } in
        let now : Seen = record { wire = W.told wire.new; wire_faults = W.faults wire.new; luck = luck; out = O.told out.new; out_faults = O.faults out.new } in
        let act = sent_once asked.now request.now (sent_lines asked.now request.now pairs.now.request) left
        (awaited asked.now request.now asked.now.waits next) in
        MatchResult result
        (λ found. Goes act (next (option_map (λ (count : ℕ). take count buffer.new) found)) before now)
        (λ stop. Stops act stop before now) }
    ensures accepted { IfOk result (λ found. IfSome found (λ count. (count ≤ 4096)
        × Accepts request.now (take count buffer.new) asked.now.secret)) }
    ensures buffer { length buffer.new ≡ 4096 }
{
    match begin_try(alloc, asked, left, request, pairs, dict, wire, out) {
        Ok(()) => ask(asked, request, wire, buffer),
        Err(stop) => Err(stop),
    }
}

/// Sends a request and asks for its reply, as often as is asked for. The reply stands at the front of the buffer, and has
/// so many octets.
pub(crate) fn try_request<W: Wire, O: Sink>(
    alloc: Global,
    asked: &Asked,
    request: &[u8],
    pairs: &Lists,
    dict: &Dict,
    wire: &mut W,
    out: &mut O,
    buffer: &mut [u8; 4096],
) -> Result<Option<usize>, Stop>
    requires request { 20 ≤ length request.now }
    requires dict { dict.now ≡ base_definitions }
    ensures goes { (next : Option (List ℕ) → Act) (luck : Option (List ℕ)) →
        let before : Seen = record { wire = W.told wire.old; wire_faults = W.faults wire.old; luck = luck; out = O.told out.old; out_faults = O.faults out.old } in
        let now : Seen = record { wire = W.told wire.new; wire_faults = W.faults wire.new; luck = luck; out = O.told out.new; out_faults = O.faults out.new } in
        let act = tried asked.now request.now (sent_lines asked.now request.now pairs.now.request) asked.now.tries next in
        MatchResult result
        (λ found. Goes act (next (option_map (λ (count : ℕ). take count buffer.new) found)) before now)
        (λ stop. Stops act stop before now) }
    ensures accepted { IfOk result (λ found. IfSome found (λ count. (count ≤ 4096)
        × Accepts request.now (take count buffer.new) asked.now.secret)) }
    ensures buffer { length buffer.new ≡ 4096 }
{
    let mut left = asked.tries;
    while left > 0 {
        match try_once(alloc, asked, left, request, pairs, dict, wire, out, buffer) {
            Ok(Some(count)) => return Ok(Some(count)),
            Ok(None) => left -= 1,
            Err(stop) => return Err(stop),
        }
    }
    Ok(None)
}
