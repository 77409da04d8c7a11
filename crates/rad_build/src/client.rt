//! A client of the configuration.

ghost use Rattle.std.specs.Prelude.{◌≡◌, ◌≤◌, codes, IfOk};
ghost use Rattle.rad_clients.specs.Written.{network_of};
ghost use Rattle.rad_build.specs.Items.{set_by};
ghost use Rattle.rad_build.specs.Nodes.{Gives, formed, refused, after_each};
ghost use Rattle.rad_build.specs.ClientBlock.{secret_value, no_settings, HasPrefix, is_unbuilt, with_pair, with_setting, client_at};

use crate::fault::BuildFault;
use crate::item::{is_assignment, named_block, pair_of};
use crate::refusal::{refuse, refuse_setting};
use rad_clients::{Network, network_of};
use rad_conf::Node;
use rad_outside::{Octets, Place};
use rad_packet::Client;
use std::alloc::Global;

/// The most octets of a secret.
const LONGEST_SECRET: usize = 128;

/// What is known of a client.
#[derive(Debug, Drop)]
pub struct Settings {
    network: Option<Network>,
    secret: Option<Octets>,
}

/// The network that a setting is set to.
fn network_at(
    alloc: Global,
    place: &Place,
    operator: &[u8],
    value: &[u8],
) -> Result<Network, BuildFault>
    ensures network { Gives result (formed place.now (codes "ipaddr") (set_by operator.now (network_of value.now))) }
    ensures fits { IfOk result (λ network. network.bits ≤ 32) }
{
    if is_assignment(operator) {
        if let Some(network) = network_of(value) {
            return Ok(network);
        }
    }
    refuse_setting(alloc, place, b"ipaddr")
}

/// The secret that a setting is set to.
fn secret_at(
    alloc: Global,
    place: &Place,
    operator: &[u8],
    value: &[u8],
) -> Result<Octets, BuildFault>
    ensures { Gives result (formed place.now (codes "secret") (set_by operator.now (secret_value value.now))) }
{
    if is_assignment(operator) && !value.is_empty() && value.len() <= LONGEST_SECRET {
        return Ok(Octets::of(alloc, value)?);
    }
    refuse_setting(alloc, place, b"secret")
}

/// Whether a setting of a client isn't built.
fn is_unbuilt(name: &[u8]) -> bool
    ensures { result ≡ is_unbuilt name.now }
{
    name == b"ipv6addr".as_slice() || name == b"virtual_server".as_slice()
}

/// What is known after one more pair.
#[tactic(auto, unfolding(crate::specs::ClientBlock::with_pair))]
fn with_pair(
    alloc: Global,
    known: Settings,
    place: &Place,
    name: &[u8],
    operator: &[u8],
    value: &[u8],
) -> Result<Settings, BuildFault>
    requires { HasPrefix known }
    ensures known { Gives result (with_pair known place.now name.now operator.now value.now) }
    ensures fits { IfOk result HasPrefix }
{
    let Settings { network, secret } = known;
    if name == b"ipaddr".as_slice() && network.is_none() {
        let network = Some(network_at(alloc, place, operator, value)?);
        return Ok(Settings { network, secret });
    }
    if name == b"secret".as_slice() && secret.is_none() {
        let secret = Some(secret_at(alloc, place, operator, value)?);
        return Ok(Settings { network, secret });
    }
    if is_unbuilt(name) {
        return refuse(alloc, place);
    }
    Ok(Settings { network, secret })
}

/// What is known after one more item.
fn with_setting(alloc: Global, known: Settings, node: &Node) -> Result<Settings, BuildFault>
    requires { HasPrefix known }
    ensures known { Gives result (with_setting known node.now) }
    ensures fits { IfOk result HasPrefix }
{
    match pair_of(node) {
        None => Ok(known),
        Some((name, operator, value)) => {
            with_pair(alloc, known, &node.place, name, operator, value)
        }
    }
}

/// What is known of a client by its items.
fn settings_of(alloc: Global, items: &[Node]) -> Result<Settings, BuildFault>
    ensures known { Gives result (after_each with_setting no_settings items.now) }
    ensures fits { IfOk result HasPrefix }
{
    let mut known = Settings {
        network: None,
        secret: None,
    };
    for item in items {
        known = with_setting(alloc, known, item)?;
    }
    Ok(known)
}

/// The client of a block. Its prefix has at most 32 bits.
#[tactic(auto, unfolding(crate::specs::ClientBlock::client_at))]
pub fn client_at(alloc: Global, node: &Node) -> Result<Client, BuildFault>
    ensures client { Gives result (client_at node.now) }
    ensures fits { IfOk result (λ client. client.bits ≤ 32) }
{
    let Some((name, items)) = named_block(node) else {
        return refuse_setting(alloc, &node.place, b"client");
    };
    let Settings { network, secret } = settings_of(alloc, items)?;
    let Some(network) = network else {
        return refuse_setting(alloc, &node.place, b"ipaddr");
    };
    let Some(secret) = secret else {
        return refuse_setting(alloc, &node.place, b"secret");
    };
    let name = Octets::of(alloc, name)?;
    Ok(Client {
        name,
        addr: network.addr,
        bits: network.bits,
        secret,
    })
}
