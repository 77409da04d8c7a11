//! The packets of all groups, one after another.

ghost use Rattle.std.specs.Prelude.{◌≡◌, ◌+◌, ◌%◌, ◌∷◌, ◌++◌, ℕ, List, MatchResult, map, replicate};
ghost use Rattle.rad_dict.specs.Base.{base_definitions};
ghost use Rattle.rad_value.specs.declared.values.Pair.{Pair};
ghost use Rattle.rad_value.specs.PairLists.{PairLists};
ghost use Rattle.radclient.specs.Answers.{Act, Finished, ended};
ghost use Rattle.radclient.specs.Client.{client_run, counted, packets};
ghost use Rattle.radclient.specs.Seen.{Goes, Seen, Stops};

use crate::asked::Asked;
use crate::serving::serve;
use crate::stop::Stop;
use rad_dict::Dict;
use rad_outside::{Luck, Sink, Wire};
use rad_value::Lists;
use std::alloc::Global;

/// How far a run came: the next packet's Identifier, and how many packets got no good reply so far.
#[derive(Clone, Copy, Debug)]
pub(crate) struct Progress {
    id: u8,
    bad: u64,
}

/// The packet after this one.
fn after(from: Progress, good: bool) -> Progress
    ensures id { result.id ≡ (from.id + 1) % 256 }
    ensures bad { result.bad ≡ counted good from.bad }
{
    Progress {
        id: from.id.wrapping_add(1),
        bad: if good {
            from.bad
        } else {
            from.bad.saturating_add(1)
        },
    }
}

/// Serves the next packet, of the pairs of a group.
fn serve_next<W: Wire, U: Luck, O: Sink>(
    alloc: Global,
    asked: &Asked,
    dict: &Dict,
    pairs: &Lists,
    from: Progress,
    wire: &mut W,
    luck: &mut U,
    out: &mut O,
) -> Result<Progress, Stop>
    requires { dict.now ≡ base_definitions }
    ensures { (more : List (List Pair)) →
        let before : Seen = record { wire = W.told wire.old; wire_faults = W.faults wire.old; luck = U.told luck.old; out = O.told out.old; out_faults = O.faults out.old } in
        let now : Seen = record { wire = W.told wire.new; wire_faults = W.faults wire.new; luck = U.told luck.new; out = O.told out.new; out_faults = O.faults out.new } in
        let act = packets asked.now from.id from.bad (pairs.now.request ∷ more) in
        MatchResult result (λ after. Goes act (packets asked.now after.id after.bad more) before now) (λ stop. Stops act stop before now) }
{
    match serve(alloc, asked, dict, from.id, pairs, wire, luck, out) {
        Ok(good) => Ok(after(from, good)),
        Err(stop) => Err(stop),
    }
}

/// Serves the packets of a group.
fn serve_group<W: Wire, U: Luck, O: Sink>(
    alloc: Global,
    asked: &Asked,
    dict: &Dict,
    pairs: &Lists,
    from: Progress,
    wire: &mut W,
    luck: &mut U,
    out: &mut O,
) -> Result<Progress, Stop>
    requires { dict.now ≡ base_definitions }
    ensures { (more : List (List Pair)) →
        let before : Seen = record { wire = W.told wire.old; wire_faults = W.faults wire.old; luck = U.told luck.old; out = O.told out.old; out_faults = O.faults out.old } in
        let now : Seen = record { wire = W.told wire.new; wire_faults = W.faults wire.new; luck = U.told luck.new; out = O.told out.new; out_faults = O.faults out.new } in
        let act = packets asked.now from.id from.bad (replicate asked.now.count pairs.now.request ++ more) in
        MatchResult result (λ after. Goes act (packets asked.now after.id after.bad more) before now) (λ stop. Stops act stop before now) }
{
    let mut progress = from;
    let mut left = asked.count;
    while left > 0 {
        match serve_next(alloc, asked, dict, pairs, progress, wire, luck, out) {
            Ok(after) => progress = after,
            Err(stop) => return Err(stop),
        }
        left -= 1;
    }
    Ok(progress)
}

/// Serves the packets of all groups, and answers how many got no good reply. Nothing is kept of a packet once it was
/// served.
pub(crate) fn run<W: Wire, U: Luck, O: Sink>(
    alloc: Global,
    asked: &Asked,
    dict: &Dict,
    groups: &[Lists],
    wire: &mut W,
    luck: &mut U,
    out: &mut O,
) -> Result<u64, Stop>
    requires { dict.now ≡ base_definitions }
    ensures { let before : Seen = record { wire = W.told wire.old; wire_faults = W.faults wire.old; luck = U.told luck.old; out = O.told out.old; out_faults = O.faults out.old } in
        let now : Seen = record { wire = W.told wire.new; wire_faults = W.faults wire.new; luck = U.told luck.new; out = O.told out.new; out_faults = O.faults out.new } in
        let act = client_run asked.now (map (λ (l : PairLists). l.request) groups.now) in
        MatchResult result (λ bad. Goes act (ended (Finished bad)) before now) (λ stop. Stops act stop before now) }
{
    let mut progress = Progress { id: 0, bad: 0 };
    for pairs in groups {
        match serve_group(alloc, asked, dict, pairs, progress, wire, luck, out) {
            Ok(after) => progress = after,
            Err(stop) => return Err(stop),
        }
    }
    Ok(progress.bad)
}
