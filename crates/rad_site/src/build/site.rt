//! The site of a whole configuration.

ghost use Rattle.std.specs.Prelude.{◌≡◌, []};
ghost use Rattle.std.specs.List.{find};
ghost use Rattle.std.specs.Option.{option_copied};
ghost use Rattle.rad_outside.specs.Telling.{Counts};
ghost use Rattle.rad_build.specs.Nodes.{Gives, bad_setting, after_each};
ghost use Rattle.rad_build.specs.Sources.{FindsIn};
ghost use Rattle.rad_site.specs.Built.{whole_conf, is_unbuilt, none_unbuilt, with_client, with_item, clients_in, front_in, parts_in, site_behind, site_of};

use crate::build::policies::policies_in;
use crate::generation::Generation;
use rad_access::Policies;
use rad_build::{
    BuildFault, Listener, Modules, Settings, client_at, is_block, modules_in, refuse,
    refuse_setting, servers_in, settings_in,
};
use rad_clients::Clients;
use rad_conf::{Conf, Node};
use rad_dict::Dict;
use rad_outside::{Files, Octets, Place};
use std::alloc::Global;

/// The name of the configuration's file in its folder.
pub(crate) const CONF: &str = "radiusd.conf";

/// The most clients of a site.
const MOST_CLIENTS: usize = 4096;

/// Refuses a configuration that lacks a setting as a whole.
fn refuse_whole<T>(alloc: Global, name: &[u8]) -> Result<T, BuildFault>
    ensures { Gives result (bad_setting whole_conf name.now) }
{
    let file = Octets::of(alloc, CONF.as_bytes())?;
    refuse_setting(alloc, &Place { file, line: 0 }, name)
}

/// Whether an item is a block that isn't built.
fn is_unbuilt(node: &Node) -> bool
    ensures { result ≡ is_unbuilt node.now }
{
    is_block(b"control", node)
}

/// The first block at the top that isn't built.
fn unbuilt_in(nodes: &[Node]) -> Option<&Node>
    ensures { option_copied result ≡ find is_unbuilt nodes.now }
{
    nodes.iter().find(|node| is_unbuilt(node))
}

/// Refuses the first block at the top that isn't built.
fn none_unbuilt(alloc: Global, nodes: &[Node]) -> Result<(), BuildFault>
    ensures { Gives result (none_unbuilt nodes.now) }
{
    match unbuilt_in(nodes) {
        None => Ok(()),
        Some(node) => refuse(alloc, &node.place),
    }
}

/// The clients with one more.
#[tactic(auto, unfolding(crate::specs::Built::with_client))]
fn with_client(alloc: Global, known: Clients, node: &Node) -> Result<Clients, BuildFault>
    ensures { Gives result (with_client known node.now) }
{
    let client = client_at(alloc, node)?;
    let standing = known.of_network(client.bits, client.addr);
    if standing.is_some() || known.len() >= MOST_CLIENTS {
        return refuse_setting(alloc, &node.place, client.name.as_slice());
    }
    Ok(known.with(alloc, client)?)
}

/// The clients after one more item of the top.
fn with_item(alloc: Global, known: Clients, node: &Node) -> Result<Clients, BuildFault>
    ensures { Gives result (with_item known node.now) }
{
    if is_block(b"client", node) {
        with_client(alloc, known, node)
    } else {
        Ok(known)
    }
}

/// The clients of the items of the top.
fn each_client(alloc: Global, nodes: &[Node]) -> Result<Clients, BuildFault>
    ensures { Gives result (after_each with_item [] nodes.now) }
{
    let mut known = Clients::new(alloc);
    for node in nodes {
        known = with_item(alloc, known, node)?;
    }
    Ok(known)
}

/// The clients of a configuration at whose top no block stands that isn't built.
#[tactic(auto, unfolding(crate::specs::Built::clients_in))]
fn clients_in(alloc: Global, nodes: &[Node]) -> Result<Clients, BuildFault>
    ensures { Gives result (clients_in nodes.now) }
{
    none_unbuilt(alloc, nodes)?;
    each_client(alloc, nodes)
}

/// The policies of a configuration with these modules, and its listener.
#[tactic(auto, unfolding(crate::specs::Built::parts_in))]
fn parts_in(
    alloc: Global,
    dict: &Dict,
    modules: Modules,
    conf: &Conf,
) -> Result<(Policies, Listener), BuildFault>
    ensures { Gives result (parts_in dict.now modules conf.now) }
{
    let servers = servers_in(alloc, conf.root().as_slice())?;
    let policies = policies_in(alloc, dict, modules, conf)?;
    match servers.into_listener() {
        Some(listener) => Ok((policies, listener)),
        None => refuse_whole(alloc, b"listen"),
    }
}

/// The settings, and then the clients.
#[tactic(auto, unfolding(crate::specs::Built::front_in))]
fn front_in(alloc: Global, nodes: &[Node]) -> Result<(Settings, Clients), BuildFault>
    ensures { Gives result (front_in nodes.now) }
{
    let settings = settings_in(alloc, nodes)?;
    let clients = clients_in(alloc, nodes)?;
    Ok((settings, clients))
}

/// The generation behind its modules.
#[tactic(auto, unfolding(crate::specs::Built::site_behind))]
fn site_behind(
    alloc: Global,
    dict: Dict,
    front: (Settings, Clients),
    modules: Modules,
    conf: &Conf,
) -> Result<Generation, BuildFault>
    ensures { Gives result (site_behind dict front modules conf.now) }
{
    let (policies, listener) = parts_in(alloc, &dict, modules, conf)?;
    let (settings, clients) = front;
    Ok(Generation {
        dict,
        settings,
        clients,
        policies,
        server: listener.server,
        at: listener.at,
    })
}

/// The generation of a whole configuration with this dictionary.
pub(crate) fn site_of<F: Files>(
    alloc: Global,
    files: &mut F,
    dir: &str,
    dict: Dict,
    conf: &Conf,
) -> Result<Generation, BuildFault>
    ensures told { FindsIn dir.now (λ sources. site_of sources dict conf.now) result
        (F.told files.old) (F.told files.new) }
    ensures faults { Counts (F.faults files.old) (F.faults files.new) (result ≡ Err BuildFault.ReadFault) }
{
    let nodes = conf.root().as_slice();
    let front = front_in(alloc, nodes)?;
    let modules = modules_in(alloc, files, dir, &dict, nodes)?;
    site_behind(alloc, dict, front, modules, conf)
}
