//! A packet is made of a group's pairs.

ghost use Rattle.std.specs.Prelude.{◌≡◌, ◌≤◌, ◌++◌, ℕ, List, Option, Bool, Ok, Err, IfOk, MatchResult, length};
ghost use Rattle.rad_outside.specs.Wire.{WireTold};
ghost use Rattle.radclient.specs.Answers.{Act};
ghost use Rattle.radclient.specs.Client.{packet, served};
ghost use Rattle.radclient.specs.Making.{IsUnmade, authenticator_of_words, code_for, made, stop_of};
ghost use Rattle.radclient.specs.Seen.{Goes, Seen, Stops};

use crate::asked::{Asked, Kind};
use crate::stop::{Stop, Unmade};
use rad_outside::{Luck, Octets};
use rad_value::{ListName, Lists};
use rad_wire::{RequestFault, request_bytes};
use std::alloc::Global;

/// A group of so many pairs makes no packet.
const MOST: u32 = 2_147_483_648;

/// The code of the requests that are sent (RFC 2865 section 4.1, RFC 2866 section 4.1).
fn code_for(kind: Kind) -> u8
    ensures { result ≡ code_for kind }
{
    match kind {
        Kind::Auth => 1,
        Kind::Acct => 4,
    }
}

/// The Request Authenticator of two random words, the first word first, each with its highest octet first.
fn authenticator_of(high: u64, low: u64) -> [u8; 16]
    ensures octets { result ≡ authenticator_of_words high low }
    ensures length { length result ≡ 16 }
{
    let [a, b, c, d, e, f, g, h] = high.to_be_bytes();
    let [i, j, k, l, m, n, o, p] = low.to_be_bytes();
    [a, b, c, d, e, f, g, h, i, j, k, l, m, n, o, p]
}

/// Why a request isn't made.
fn stop_of(fault: RequestFault) -> Stop
    ensures { result ≡ stop_of fault }
{
    match fault {
        RequestFault::PasswordTooLong(_) => Stop::Unmade(Unmade::PasswordTooLong),
        RequestFault::TooLong(_) => Stop::Unmade(Unmade::TooLong),
        RequestFault::NoMemory => Stop::NoMemory,
    }
}

/// The request of an Identifier, two random words and the pairs of a group.
fn request_of(
    alloc: Global,
    asked: &Asked,
    id: u8,
    high: u64,
    low: u64,
    pairs: &Lists,
) -> Result<Octets, Stop>
    ensures made { MatchResult result
        (λ request. made asked.now id high low pairs.now.request ≡ Ok request)
        (IsUnmade (made asked.now id high low pairs.now.request)) }
    ensures long { IfOk result (λ request. 20 ≤ length request) }
{
    let authenticator = authenticator_of(high, low);
    let code = code_for(asked.kind);
    match request_bytes(
        alloc,
        code,
        id,
        &authenticator,
        pairs,
        asked.secret.as_slice(),
    ) {
        Ok(request) => Ok(request),
        Err(fault) => Err(stop_of(fault)),
    }
}

/// Makes a packet: takes two random words, and makes the request of them and of the pairs of a group.
pub(crate) fn make<U: Luck>(
    alloc: Global,
    asked: &Asked,
    id: u8,
    pairs: &Lists,
    luck: &mut U,
) -> Result<Octets, Stop>
    ensures goes { (next : Bool → Act) (wire : Option WireTold) (wire_faults : ℕ) (out : Option (List ℕ)) (out_faults : ℕ) →
        let before : Seen = record { wire = wire; wire_faults = wire_faults; luck = U.told luck.old; out = out; out_faults = out_faults } in
        let now : Seen = record { wire = wire; wire_faults = wire_faults; luck = U.told luck.new; out = out; out_faults = out_faults } in
        let act = packet asked.now id pairs.now.request next in
        MatchResult result (λ request. Goes act (served asked.now id pairs.now.request request next) before now) (λ stop. Stops act stop before now) }
    ensures long { IfOk result (λ request. 20 ≤ length request) }
{
    if pairs.len(ListName::Request) >= MOST {
        return Err(Stop::Unmade(Unmade::TooLong));
    }
    let high = luck.word();
    let low = luck.word();
    request_of(alloc, asked, id, high, low, pairs)
}
