//! The virtual servers of a configuration: their names, their sections and their listeners, with the names of the policies.

ghost use Rattle.std.specs.Prelude.{◌≡◌, Ok};
ghost use Rattle.std.specs.Option.{option_copied};
ghost use Rattle.std.specs.Str.{bytes_eq};
ghost use Rattle.rad_build.specs.Nodes.{Gives, after_each};
ghost use Rattle.rad_build.specs.ServerBlocks.{has_name, is_built, and_listener, is_later, with_listen, section_of, and_section, with_other, with_part, with_item, and_name, few_enough, with_named, and_policy, with_policy, with_server, servers_in};

use crate::fault::BuildFault;
use crate::item::{is_block, is_section, kind_of, named_block, nodes_of};
use crate::listen::{Bound, listener_of};
use crate::refusal::{refuse, refuse_setting};
use rad_conf::Node;
use rad_outside::{ListenKind, Octets, Peer, Place};
use sqlite_items::Items;
use std::alloc::Global;

/// The most servers of a site.
const MOST_SERVERS: usize = 64;

/// A listener: the name of its server, and where it is bound.
#[derive(Debug, Drop)]
pub struct Listener {
    pub server: Octets,
    pub at: Peer,
}

/// What is known of the servers: their names in order, those of the policies, the sections of the last server, and their one
/// listener.
#[derive(Debug, Drop)]
pub struct Servers {
    names: Items<Octets>,
    policies: Items<Octets>,
    sections: Items<Octets>,
    listener: Option<Listener>,
}

impl Servers {
    /// Their one listener, if they have it.
    pub fn into_listener(self) -> Option<Listener>
        ensures { result ≡ self.listener }
    {
        let Servers {
            names: _,
            policies: _,
            sections: _,
            listener,
        } = self;
        listener
    }
}

fn is_same(one: &Octets, name: &[u8]) -> bool
    ensures { result ≡ bytes_eq one.now name.now }
{
    one.as_slice() == name
}

/// Whether a server of this name stands.
fn has_name(name: &[u8], names: &[Octets]) -> bool
    ensures { result ≡ has_name name.now names.now }
{
    names.iter().any(|one| is_same(one, name))
}

/// Whether listeners of this kind are built.
fn is_built(kind: ListenKind) -> bool
    ensures { result ≡ is_built kind }
{
    match kind {
        ListenKind::Auth => true,
        ListenKind::Acct | ListenKind::Control => false,
    }
}

/// The servers with a listener of the server of a name.
#[tactic(auto, unfolding(crate::specs::ServerBlocks::and_listener))]
fn and_listener(
    alloc: Global,
    known: Servers,
    name: &[u8],
    place: &Place,
    bound: Bound,
) -> Result<Servers, BuildFault>
    ensures { Gives result (and_listener known name.now place.now bound) }
{
    if !is_built(bound.kind) || known.listener.is_some() {
        return refuse(alloc, place);
    }
    let server = Octets::of(alloc, name)?;
    Ok(Servers {
        names: known.names,
        policies: known.policies,
        sections: known.sections,
        listener: Some(Listener {
            server,
            at: bound.at,
        }),
    })
}

/// Whether an item is a section that no request runs yet.
fn is_later(node: &Node) -> bool
    ensures { result ≡ is_later node.now }
{
    is_section(b"session", node) || is_section(b"preacct", node) || is_section(b"accounting", node)
}

/// The servers with the listener of a block of the server of a name.
fn with_listen(
    alloc: Global,
    name: &[u8],
    known: Servers,
    node: &Node,
) -> Result<Servers, BuildFault>
    ensures { Gives result (with_listen name.now known node.now) }
{
    let bound = listener_of(alloc, &node.place, nodes_of(b"listen", node))?;
    and_listener(alloc, known, name, &node.place, bound)
}

/// The section that an item is, by its word; none of another item.
fn section_of(node: &Node) -> Option<&'static [u8]>
    ensures { option_copied result ≡ section_of node.now }
{
    if is_section(b"authorize", node) {
        return Some(b"authorize");
    }
    if is_section(b"authenticate", node) {
        return Some(b"authenticate");
    }
    if is_section(b"post-auth", node) {
        Some(b"post-auth")
    } else {
        None
    }
}

/// The servers with one more section of the last server.
#[tactic(auto, unfolding(crate::specs::ServerBlocks::and_section))]
fn and_section(
    alloc: Global,
    known: Servers,
    place: &Place,
    word: &[u8],
) -> Result<Servers, BuildFault>
    ensures { Gives result (and_section known place.now word.now) }
{
    if has_name(word, known.sections.as_slice()) {
        return refuse_setting(alloc, place, word);
    }
    let Servers {
        names,
        policies,
        mut sections,
        listener,
    } = known;
    sections.push(Octets::of(alloc, word)?)?;
    Ok(Servers {
        names,
        policies,
        sections,
        listener,
    })
}

/// The servers after one more item of the server of a name that is no section.
fn with_other(
    alloc: Global,
    name: &[u8],
    known: Servers,
    node: &Node,
) -> Result<Servers, BuildFault>
    ensures { Gives result (with_other name.now known node.now) }
{
    if is_block(b"listen", node) {
        with_listen(alloc, name, known, node)
    } else {
        Ok(known)
    }
}

/// The servers after one more item of the server of a name.
#[tactic(auto, unfolding(crate::specs::ServerBlocks::with_item))]
fn with_item(alloc: Global, name: &[u8], known: Servers, node: &Node) -> Result<Servers, BuildFault>
    ensures { Gives result (with_item name.now known node.now) }
{
    if is_later(node) {
        return refuse(alloc, &node.place);
    }
    match section_of(node) {
        Some(word) => and_section(alloc, known, &node.place, word),
        None => with_other(alloc, name, known, node),
    }
}

/// The servers after the items of the server of a name.
fn with_items(
    alloc: Global,
    name: &[u8],
    known: Servers,
    items: &[Node],
) -> Result<Servers, BuildFault>
    ensures { Gives result (after_each (with_item name.now) known items.now) }
{
    let mut known = known;
    for item in items {
        known = with_item(alloc, name, known, item)?;
    }
    Ok(known)
}

/// The servers with one more name, and without a section of it.
fn and_name(alloc: Global, known: Servers, name: &[u8]) -> Result<Servers, BuildFault>
    ensures { Gives result (Ok (and_name known name.now)) }
{
    let Servers {
        mut names,
        policies,
        sections: _,
        listener,
    } = known;
    names.push(Octets::of(alloc, name)?)?;
    Ok(Servers {
        names,
        policies,
        sections: Items::new(alloc),
        listener,
    })
}

/// The servers, where there are at most 64; else the last one is refused.
#[tactic(auto, unfolding(crate::specs::ServerBlocks::few_enough))]
fn few_enough(
    alloc: Global,
    place: &Place,
    name: &[u8],
    known: Servers,
) -> Result<Servers, BuildFault>
    ensures { Gives result (few_enough place.now name.now known) }
{
    if known.names.len() > MOST_SERVERS {
        return refuse_setting(alloc, place, name);
    }
    Ok(known)
}

/// The servers with that of a name and items.
#[tactic(auto, unfolding(crate::specs::ServerBlocks::with_named))]
fn with_named(
    alloc: Global,
    known: Servers,
    place: &Place,
    name: &[u8],
    items: &[Node],
) -> Result<Servers, BuildFault>
    ensures { Gives result (with_named known place.now (name.now, items.now)) }
{
    if has_name(name, known.names.as_slice()) {
        return refuse_setting(alloc, place, name);
    }
    let known = and_name(alloc, known, name)?;
    let known = with_items(alloc, name, known, items)?;
    few_enough(alloc, place, name, known)
}

/// The servers, with the name of one more policy.
#[tactic(auto, unfolding(crate::specs::ServerBlocks::and_policy))]
fn and_policy(
    alloc: Global,
    known: Servers,
    place: &Place,
    name: &[u8],
) -> Result<Servers, BuildFault>
    ensures { Gives result (and_policy known place.now name.now) }
{
    if has_name(name, known.policies.as_slice()) {
        return refuse_setting(alloc, place, name);
    }
    let Servers {
        names,
        mut policies,
        sections,
        listener,
    } = known;
    policies.push(Octets::of(alloc, name)?)?;
    Ok(Servers {
        names,
        policies,
        sections,
        listener,
    })
}

/// The same after one more item of a block `policy`.
#[tactic(auto, unfolding(crate::specs::ServerBlocks::with_policy))]
fn with_policy(alloc: Global, known: Servers, node: &Node) -> Result<Servers, BuildFault>
    ensures { Gives result (with_policy known node.now) }
{
    let Some(name) = kind_of(node) else {
        return Ok(known);
    };
    and_policy(alloc, known, &node.place, name)
}

/// The same after the items of a block `policy`.
fn with_policies(alloc: Global, known: Servers, items: &[Node]) -> Result<Servers, BuildFault>
    ensures { Gives result (after_each with_policy known items.now) }
{
    let mut known = known;
    for item in items {
        known = with_policy(alloc, known, item)?;
    }
    Ok(known)
}

/// The servers after one more item of the top.
#[tactic(auto, unfolding(crate::specs::ServerBlocks::with_server))]
fn with_server(alloc: Global, known: Servers, node: &Node) -> Result<Servers, BuildFault>
    ensures { Gives result (with_server known node.now) }
{
    if is_block(b"policy", node) {
        return with_policies(alloc, known, nodes_of(b"policy", node));
    }
    if !is_block(b"server", node) {
        return Ok(known);
    }
    let Some((name, items)) = named_block(node) else {
        return refuse_setting(alloc, &node.place, b"server");
    };
    with_named(alloc, known, &node.place, name, items)
}

/// The servers of a configuration.
pub fn servers_in(alloc: Global, nodes: &[Node]) -> Result<Servers, BuildFault>
    ensures { Gives result (servers_in nodes.now) }
{
    let mut known = Servers {
        names: Items::new(alloc),
        policies: Items::new(alloc),
        sections: Items::new(alloc),
        listener: None,
    };
    for node in nodes {
        known = with_server(alloc, known, node)?;
    }
    Ok(known)
}
