//! A listener of a virtual server.

ghost use Rattle.std.specs.Prelude.{◌≡◌, codes};
ghost use Rattle.rad_build.specs.Items.{set_by};
ghost use Rattle.rad_build.specs.Nodes.{Gives, formed, after_each};
ghost use Rattle.rad_build.specs.Numbers.{port_of, bound_address};
ghost use Rattle.rad_build.specs.ListenBlock.{kind_of, nothing, with_pair, with_item, usual_port, port_for, listener_of};

use crate::fault::BuildFault;
use crate::item::{is_assignment, pair_of};
use crate::numbers::{bound_address, port_of};
use crate::refusal::refuse_setting;
use rad_conf::Node;
use rad_outside::{ListenKind, Peer, Place};
use std::alloc::Global;

/// What is known of a listener.
#[derive(Clone, Copy, Debug)]
pub struct Known {
    kind: Option<ListenKind>,
    addr: Option<u32>,
    port: Option<u16>,
}

/// What comes in on a listener, and where it is bound.
#[derive(Clone, Copy, Debug)]
pub struct Bound {
    pub kind: ListenKind,
    pub at: Peer,
}

/// What comes in on a listener of a type.
#[tactic(auto, unfolding(crate::specs::ListenBlock::kind_of))]
fn kind_of(text: &[u8]) -> Option<ListenKind>
    ensures { result ≡ kind_of text.now }
{
    if text == b"auth".as_slice() {
        Some(ListenKind::Auth)
    } else if text == b"acct".as_slice() {
        Some(ListenKind::Acct)
    } else {
        None
    }
}

/// The type that a setting is set to.
fn kind_at(
    alloc: Global,
    place: &Place,
    operator: &[u8],
    value: &[u8],
) -> Result<ListenKind, BuildFault>
    ensures { Gives result (formed place.now (codes "type") (set_by operator.now (kind_of value.now))) }
{
    if is_assignment(operator) {
        if let Some(kind) = kind_of(value) {
            return Ok(kind);
        }
    }
    refuse_setting(alloc, place, b"type")
}

/// The address that a setting is set to.
fn addr_at(alloc: Global, place: &Place, operator: &[u8], value: &[u8]) -> Result<u32, BuildFault>
    ensures { Gives result (formed place.now (codes "ipaddr") (set_by operator.now (bound_address value.now))) }
{
    if is_assignment(operator) {
        if let Some(addr) = bound_address(value) {
            return Ok(addr);
        }
    }
    refuse_setting(alloc, place, b"ipaddr")
}

/// The port that a setting is set to.
fn port_at(alloc: Global, place: &Place, operator: &[u8], value: &[u8]) -> Result<u16, BuildFault>
    ensures { Gives result (formed place.now (codes "port") (set_by operator.now (port_of value.now))) }
{
    if is_assignment(operator) {
        if let Some(port) = port_of(value) {
            return Ok(port);
        }
    }
    refuse_setting(alloc, place, b"port")
}

/// What is known after one more pair.
#[tactic(auto, unfolding(crate::specs::ListenBlock::with_pair))]
fn with_pair(
    alloc: Global,
    known: Known,
    place: &Place,
    name: &[u8],
    operator: &[u8],
    value: &[u8],
) -> Result<Known, BuildFault>
    ensures { Gives result (with_pair known place.now name.now operator.now value.now) }
{
    let mut known = known;
    if name == b"type".as_slice() && known.kind.is_none() {
        known.kind = Some(kind_at(alloc, place, operator, value)?);
        return Ok(known);
    }
    if name == b"ipaddr".as_slice() && known.addr.is_none() {
        known.addr = Some(addr_at(alloc, place, operator, value)?);
        return Ok(known);
    }
    if name == b"port".as_slice() && known.port.is_none() {
        known.port = Some(port_at(alloc, place, operator, value)?);
        return Ok(known);
    }
    Ok(known)
}

/// What is known after one more item.
fn with_item(alloc: Global, known: Known, node: &Node) -> Result<Known, BuildFault>
    ensures { Gives result (with_item known node.now) }
{
    match pair_of(node) {
        None => Ok(known),
        Some((name, operator, value)) => {
            with_pair(alloc, known, &node.place, name, operator, value)
        }
    }
}

/// What is known of a listener by its items.
fn known_of(alloc: Global, items: &[Node]) -> Result<Known, BuildFault>
    ensures { Gives result (after_each with_item nothing items.now) }
{
    let mut known = Known {
        kind: None,
        addr: None,
        port: None,
    };
    for item in items {
        known = with_item(alloc, known, item)?;
    }
    Ok(known)
}

/// The port of a kind of listeners.
fn usual_port(kind: ListenKind) -> u16
    ensures { result ≡ usual_port kind }
{
    match kind {
        ListenKind::Auth => 1812,
        ListenKind::Acct => 1813,
        ListenKind::Control => 0,
    }
}

/// The port that is written; 0, or none, stands for the usual one.
fn port_for(kind: ListenKind, port: Option<u16>) -> u16
    ensures { result ≡ port_for kind port }
{
    match port {
        Some(port) => { if port == 0 { usual_port(kind) } else { port } }
        None => usual_port(kind),
    }
}

/// The listener of the items of a block at this place.
#[tactic(auto, unfolding(crate::specs::ListenBlock::listener_of))]
pub fn listener_of(alloc: Global, place: &Place, items: &[Node]) -> Result<Bound, BuildFault>
    ensures { Gives result (listener_of place.now items.now) }
{
    let known = known_of(alloc, items)?;
    let Some(kind) = known.kind else {
        return refuse_setting(alloc, place, b"type");
    };
    Ok(Bound {
        kind,
        at: Peer {
            addr: known.addr.unwrap_or(0),
            port: port_for(kind, known.port),
        },
    })
}
