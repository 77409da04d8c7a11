//! The wire is asked for the reply to a request.

ghost use Rattle.std.specs.Prelude.{◌≡◌, ◌&&◌, ◌≤◌, List, ℕ, Option, Some, IfOk, IfSome, MatchResult, length, take};
ghost use Rattle.std.specs.Option.{option_map};
ghost use Rattle.rad_wire.specs.Accepts.{Accepts};
ghost use Rattle.radclient.specs.Answers.{Act};
ghost use Rattle.radclient.specs.Client.{awaited};
ghost use Rattle.radclient.specs.Judging.{is_accepted, is_peer};
ghost use Rattle.radclient.specs.Seen.{Goes, Seen, Stops};

use crate::asked::Asked;
use crate::stop::Stop;
use rad_outside::{Got, Peer, Wire};
use rad_wire::accepts_reply;

/// Whether a datagram from this peer is the reply that a request waits for.
fn is_reply(asked: &Asked, request: &[u8], from: Peer, octets: &[u8]) -> bool
    requires { 20 ≤ length request.now }
    ensures { result ≡ (is_peer from asked.now.server && is_accepted request.now octets.now asked.now.secret) }
{
    from == asked.server && accepts_reply(request, octets, asked.secret.as_slice()).is_ok()
}

/// Asks the wire for the reply to a request that was sent, until it comes or as many answers were used as are asked for.
/// The reply stands at the front of the buffer, and has so many octets.
pub(crate) fn ask<W: Wire>(
    asked: &Asked,
    request: &[u8],
    wire: &mut W,
    buffer: &mut [u8; 4096],
) -> Result<Option<usize>, Stop>
    requires { 20 ≤ length request.now }
    ensures goes { (next : Option (List ℕ) → Act) (luck out : Option (List ℕ)) (out_faults : ℕ) →
        let before : Seen = record { wire = W.told wire.old; wire_faults = W.faults wire.old; luck = luck; out = out; out_faults = out_faults } in
        let now : Seen = record { wire = W.told wire.new; wire_faults = W.faults wire.new; luck = luck; out = out; out_faults = out_faults } in
        MatchResult result
        (λ found. Goes (awaited asked.now request.now asked.now.waits next) (next (option_map (λ (count : ℕ). take count buffer.new) found)) before now)
        (λ stop. Stops (awaited asked.now request.now asked.now.waits next) stop before now) }
    ensures accepted { IfOk result (λ found. IfSome found (λ count. (count ≤ 4096)
        × Accepts request.now (take count buffer.new) asked.now.secret)) }
    ensures buffer { length buffer.new ≡ 4096 }
{
    let mut left = asked.waits;
    while left > 0 {
        match wire.recv(buffer) {
            Got::Datagram(count, from) => {
                let (octets, _) = buffer.split_at(count);
                if is_reply(asked, request, from, octets) {
                    return Ok(Some(count));
                }
            }
            Got::Quiet => {}
            Got::Ended => {}
            Got::Failed => return Err(Stop::SocketFault),
        }
        left -= 1;
    }
    Ok(None)
}
