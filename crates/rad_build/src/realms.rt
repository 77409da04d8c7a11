//! The realms of a site.

ghost use Rattle.std.specs.Prelude.{◌≡◌, ◌++◌, ◌∷◌, [], false, IfOk};
ghost use Rattle.std.specs.Option.{is_some};
ghost use Rattle.mod_realm.specs.Realms.{realm_of};
ghost use Rattle.rad_build.specs.Nodes.{Gives, after_each};
ghost use Rattle.rad_build.specs.RealmBlock.{is_proxied, with_pair, with_setting, with_named, with_realm, with_item, realms_in};

use crate::fault::BuildFault;
use crate::item::{is_block, named_block};
use crate::refusal::{refuse, refuse_setting};
use mod_realm::Realms;
use rad_conf::{Item, Node};
use rad_outside::{NoMemory, Place};
use std::alloc::Global;

/// The name alone by which a realm keeps users' names whole.
const NOSTRIP: &[u8] = b"nostrip";

/// Whether a pair of this name would send the realm's requests to another server.
fn is_proxied(name: &[u8]) -> bool
    ensures { result ≡ is_proxied name.now }
{
    name == b"authhost".as_slice()
        || name == b"accthost".as_slice()
        || name == b"host".as_slice()
        || name == b"pool".as_slice()
        || name == b"auth_pool".as_slice()
        || name == b"acct_pool".as_slice()
}

/// Whether names stay whole after one more pair.
#[tactic(auto, unfolding(crate::specs::RealmBlock::with_pair))]
fn with_pair(alloc: Global, nostrip: bool, place: &Place, name: &[u8]) -> Result<bool, BuildFault>
    ensures { Gives result (with_pair nostrip place.now name.now) }
{
    if is_proxied(name) {
        return refuse(alloc, place);
    }
    if name == NOSTRIP && !nostrip {
        return refuse_setting(alloc, place, name);
    }
    Ok(nostrip)
}

/// Whether names stay whole after one more item of a realm's block.
#[tactic(auto, unfolding(crate::specs::RealmBlock::with_setting))]
fn with_setting(alloc: Global, nostrip: bool, node: &Node) -> Result<bool, BuildFault>
    ensures { Gives result (with_setting nostrip node.now) }
{
    match &node.item {
        Item::Pair(left, _, _) => with_pair(alloc, nostrip, &node.place, left.text.as_slice()),
        Item::Name(word) => Ok(nostrip || word.text.as_slice() == NOSTRIP),
        Item::Block(_, _, _) => Ok(nostrip),
    }
}

/// Whether names stay whole in a realm of these items.
fn nostrip_of(alloc: Global, items: &[Node]) -> Result<bool, BuildFault>
    ensures { Gives result (after_each with_setting false items.now) }
{
    let mut nostrip = false;
    for item in items {
        nostrip = with_setting(alloc, nostrip, item)?;
    }
    Ok(nostrip)
}

/// The realms with one more by a name that is free.
fn and_realm(known: Realms, name: &[u8], nostrip: bool) -> Result<Realms, NoMemory>
    requires { is_some (realm_of known name.now) ≡ false }
    ensures { IfOk result (λ realms. realms ≡ known ++ record { name = name.now; nostrip = nostrip } ∷ []) }
{
    let mut known = known;
    // The name is free, so only memory can be wanting.
    if known.add(name, nostrip).is_err() {
        return Err(NoMemory);
    }
    Ok(known)
}

/// The realms with one more by this name.
#[tactic(auto, unfolding(crate::specs::RealmBlock::with_named))]
fn with_named(
    alloc: Global,
    known: Realms,
    place: &Place,
    name: &[u8],
    items: &[Node],
) -> Result<Realms, BuildFault>
    ensures { Gives result (with_named known place.now name.now items.now) }
{
    if known.has(alloc, name)? {
        return refuse_setting(alloc, place, name);
    }
    let nostrip = nostrip_of(alloc, items)?;
    Ok(and_realm(known, name, nostrip)?)
}

/// The realms with that of a block.
#[tactic(auto, unfolding(crate::specs::RealmBlock::with_realm))]
fn with_realm(alloc: Global, known: Realms, node: &Node) -> Result<Realms, BuildFault>
    ensures { Gives result (with_realm known node.now) }
{
    match named_block(node) {
        None => refuse_setting(alloc, &node.place, b"realm"),
        Some((name, items)) => with_named(alloc, known, &node.place, name, items),
    }
}

/// The realms after one more item of the top.
#[tactic(auto, unfolding(crate::specs::RealmBlock::with_item))]
fn with_item(alloc: Global, known: Realms, node: &Node) -> Result<Realms, BuildFault>
    ensures { Gives result (with_item known node.now) }
{
    if is_block(b"realm", node) {
        with_realm(alloc, known, node)
    } else {
        Ok(known)
    }
}

/// The realms of a whole configuration.
pub fn realms_in(alloc: Global, nodes: &[Node]) -> Result<Realms, BuildFault>
    ensures { Gives result (realms_in nodes.now) }
{
    let mut known = Realms::new(alloc);
    for node in nodes {
        known = with_item(alloc, known, node)?;
    }
    Ok(known)
}
