//! The virtual servers of a configuration.

ghost use Rattle.std.specs.Prelude.{◌≡◌, [], ◌∷◌, ◌++◌, OnOk, IfOk};
ghost use Rattle.std.specs.Option.{option_map};
ghost use Rattle.unlang_tree.specs.Readings.{Gives, Leaves, most_statements, after_each};
ghost use Rattle.unlang_tree.specs.Sites.{site_of};
ghost use Rattle.unlang_tree.specs.Sections.{section_block, with_section, with_item, server_of};
ghost use Rattle.unlang_tree.specs.Policies.{server_block, with_server, servers_of};

use crate::fault::TreeFault;
use crate::policies::{SectionTree, Sections, ServerTree};
use crate::site::SiteRef;
use crate::subsections::parts_of;
use crate::words::section_of;
use rad_conf::{Item, Node};
use rad_outside::Octets;
use rad_words::Section;
use sqlite_items::Items;
use std::alloc::Global;

/// How many statements a server has room for, all its sections together.
const MOST_STATEMENTS: usize = 65_536;

/// What is known of a server: its sections, and how many statements more it has room for.
#[derive(Drop)]
pub struct Known {
    pub sections: Sections,
    pub room: usize,
}

/// The section and the nodes of a server's item, which is a block of that section's name.
fn section_block(node: &Node) -> Option<(Section, &[Node])>
    ensures { option_map (λ block. (block.0, block.1.now)) result ≡ section_block node.now }
{
    match &node.item {
        Item::Pair(_, _, _) => None,
        Item::Name(_) => None,
        Item::Block(kind, _, body) => match section_of(kind.text.as_slice()) {
            None => None,
            Some(section) => Some((section, body.as_slice())),
        },
    }
}

/// What is known after one more section. After a fault it is given up.
#[tactic(auto, unfolding(crate::specs::Sections::with_section))]
fn with_section(
    alloc: Global,
    site: &SiteRef<'_>,
    known: &mut Known,
    section: Section,
    body: &[Node],
) -> Result<(), TreeFault>
    ensures { Leaves result (with_section (site_of site.now) known.old section body.now) known.new }
{
    let parts = parts_of(alloc, site, section, known.room, body)?;
    known.room = parts.room;
    known.sections.push(SectionTree {
        section,
        statements: parts.statements,
        subsections: parts.subsections,
    })?;
    Ok(())
}

/// What is known after one more item. After a fault it is given up.
#[tactic(auto, unfolding(crate::specs::Sections::with_item))]
fn with_item(
    alloc: Global,
    site: &SiteRef<'_>,
    known: &mut Known,
    node: &Node,
) -> Result<(), TreeFault>
    ensures { Leaves result (with_item (site_of site.now) known.old node.now) known.new }
{
    match section_block(node) {
        None => Ok(()),
        Some((section, body)) => with_section(alloc, site, known, section, body),
    }
}

/// What is known of a server by its items.
fn known_of(alloc: Global, site: &SiteRef<'_>, items: &[Node]) -> Result<Known, TreeFault>
    ensures { Gives result (after_each (with_item (site_of site.now)) (record { sections = []; room = most_statements }) items.now) }
{
    let mut known = Known {
        sections: Sections::new(alloc),
        room: MOST_STATEMENTS,
    };
    for item in items {
        with_item(alloc, site, &mut known, item)?;
    }
    Ok(known)
}

/// The server of a name, with these items.
#[tactic(auto, unfolding(crate::specs::Sections::server_of))]
fn server_of(
    alloc: Global,
    site: &SiteRef<'_>,
    name: &[u8],
    items: &[Node],
) -> Result<ServerTree, TreeFault>
    ensures { Gives result (server_of (site_of site.now) name.now items.now) }
{
    let Known { sections, room: _ } = known_of(alloc, site, items)?;
    let name = Octets::of(alloc, name)?;
    Ok(ServerTree { name, sections })
}

/// The name and the nodes of a server.
fn server_block(node: &Node) -> Option<(&[u8], &[Node])>
    ensures { option_map (λ block. (block.0.now, block.1.now)) result ≡ server_block node.now }
{
    match &node.item {
        Item::Pair(_, _, _) => None,
        Item::Name(_) => None,
        Item::Block(kind, name, body) => match name {
            None => None,
            Some(name) => {
                if kind.text.as_slice() == b"server".as_slice() {
                    Some((name.text.as_slice(), body.as_slice()))
                } else {
                    None
                }
            }
        },
    }
}

/// The servers with that of one more node. After a fault they are given up.
#[tactic(auto, unfolding(crate::specs::Policies::with_server))]
fn with_server(
    alloc: Global,
    site: &SiteRef<'_>,
    servers: &mut Items<ServerTree>,
    node: &Node,
) -> Result<(), TreeFault>
    ensures { Leaves result (with_server (site_of site.now) servers.old node.now) servers.new }
{
    let Some((name, items)) = server_block(node) else {
        return Ok(());
    };
    let server = server_of(alloc, site, name, items)?;
    servers.push(server)?;
    Ok(())
}

/// The servers of a configuration, or its first fault in reading order.
pub(crate) fn servers_of(alloc: Global, site: &SiteRef<'_>) -> Result<Items<ServerTree>, TreeFault>
    ensures { Gives result (servers_of (site_of site.now)) }
{
    let mut servers = Items::new(alloc);
    for node in site.root {
        with_server(alloc, site, &mut servers, node)?;
    }
    Ok(servers)
}
