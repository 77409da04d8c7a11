//! The settings of a whole site.

ghost use Rattle.std.specs.Prelude.{◌≡◌, Ok, unwrap_or, codes};
ghost use Rattle.std.specs.List.{list_any};
ghost use Rattle.std.specs.Option.{option_copied};
ghost use Rattle.rad_build.specs.Items.{set_by};
ghost use Rattle.rad_build.specs.Nodes.{Gives, formed, after_each};
ghost use Rattle.rad_build.specs.Numbers.{number_between};
ghost use Rattle.rad_build.specs.Settings.{nothing, log_path, with_workers, with_pair, pool_setting, is_pooled, with_pool, with_item, settings_in};

use crate::fault::BuildFault;
use crate::item::{is_assignment, pair_named, pair_of};
use crate::numbers::number_between;
use crate::refusal::refuse_setting;
use crate::settings::Settings;
use rad_conf::{Item, Node};
use rad_outside::{Octets, Place};
use std::alloc::Global;

/// The path of the session log where none is set.
const SESSION_LOG: &[u8] = b"radutmp.log";

/// What is known of a configuration's settings.
#[derive(Debug, Drop)]
pub struct Known {
    cleanup_delay: Option<u32>,
    max_requests: Option<u32>,
    start_servers: Option<u32>,
    session_log: Option<Octets>,
}

/// The number in a range that a setting of a name is set to.
fn number_at(
    alloc: Global,
    place: &Place,
    name: &[u8],
    least: u32,
    most: u32,
    operator: &[u8],
    value: &[u8],
) -> Result<u32, BuildFault>
    ensures { Gives result (formed place.now name.now (set_by operator.now (number_between least most value.now))) }
{
    if is_assignment(operator) {
        if let Some(number) = number_between(least, most, value) {
            return Ok(number);
        }
    }
    refuse_setting(alloc, place, name)
}

/// The path of a log that a setting is set to.
fn log_at(alloc: Global, place: &Place, operator: &[u8], value: &[u8]) -> Result<Octets, BuildFault>
    ensures { Gives result (formed place.now (codes "session_log") (set_by operator.now (log_path value.now))) }
{
    if is_assignment(operator) && !value.is_empty() {
        return Ok(Octets::of(alloc, value)?);
    }
    refuse_setting(alloc, place, b"session_log")
}

/// What is known after a setting `start_servers`.
#[tactic(auto, unfolding(crate::specs::Settings::with_workers))]
fn with_workers(
    alloc: Global,
    known: Known,
    place: &Place,
    operator: &[u8],
    value: &[u8],
) -> Result<Known, BuildFault>
    ensures { Gives result (with_workers known place.now operator.now value.now) }
{
    let mut known = known;
    if known.start_servers.is_none() {
        let count = number_at(alloc, place, b"start_servers", 1, 64, operator, value)?;
        known.start_servers = Some(count);
    }
    Ok(known)
}

/// What is known after one more pair of the top.
#[tactic(auto, unfolding(crate::specs::Settings::with_pair))]
fn with_pair(
    alloc: Global,
    pooled: bool,
    known: Known,
    place: &Place,
    name: &[u8],
    operator: &[u8],
    value: &[u8],
) -> Result<Known, BuildFault>
    ensures { Gives result (with_pair pooled known place.now name.now operator.now value.now) }
{
    let mut known = known;
    if name == b"cleanup_delay".as_slice() && known.cleanup_delay.is_none() {
        let seconds = number_at(alloc, place, b"cleanup_delay", 0, 3600, operator, value)?;
        known.cleanup_delay = Some(seconds);
        return Ok(known);
    }
    if name == b"max_requests".as_slice() && known.max_requests.is_none() {
        let count = number_at(alloc, place, b"max_requests", 1, 65536, operator, value)?;
        known.max_requests = Some(count);
        return Ok(known);
    }
    if name == b"session_log".as_slice() && known.session_log.is_none() {
        let path = log_at(alloc, place, operator, value)?;
        known.session_log = Some(path);
        return Ok(known);
    }
    if name == b"start_servers".as_slice() && !pooled {
        return with_workers(alloc, known, place, operator, value);
    }
    Ok(known)
}

/// The first setting `start_servers` of a block `thread pool`.
fn pool_setting(node: &Node) -> Option<&Node>
    ensures { option_copied result ≡ pool_setting node.now }
{
    match &node.item {
        Item::Pair(_, _, _) => None,
        Item::Name(_) => None,
        Item::Block(kind, name, body) => match name {
            None => None,
            Some(name) => {
                if kind.text.as_slice() == b"thread".as_slice()
                    && name.text.as_slice().eq_ignore_ascii_case(b"pool")
                {
                    pair_named(b"start_servers", body.as_slice())
                } else {
                    None
                }
            }
        },
    }
}

/// Whether an item is a thread pool that has it.
fn is_pooled(node: &Node) -> bool
    ensures { result ≡ is_pooled node.now }
{
    pool_setting(node).is_some()
}

/// Whether a thread pool has it.
fn has_pool(nodes: &[Node]) -> bool
    ensures { result ≡ list_any is_pooled nodes.now }
{
    nodes.iter().any(|node| is_pooled(node))
}

/// What is known after the setting of a thread pool, where it has one.
#[tactic(auto, unfolding(crate::specs::Settings::with_pool))]
fn with_pool(alloc: Global, known: Known, setting: Option<&Node>) -> Result<Known, BuildFault>
    ensures { Gives result (with_pool known (option_copied setting.entry)) }
{
    let Some(setting) = setting else {
        return Ok(known);
    };
    match pair_of(setting) {
        None => Ok(known),
        Some((_, operator, value)) => {
            with_workers(alloc, known, &setting.place, operator, value)
        }
    }
}

/// What is known after one more item of the top.
#[tactic(auto, unfolding(crate::specs::Settings::with_item))]
fn with_item(alloc: Global, pooled: bool, known: Known, node: &Node) -> Result<Known, BuildFault>
    ensures { Gives result (with_item pooled known node.now) }
{
    match pair_of(node) {
        Some((name, operator, value)) => {
            with_pair(alloc, pooled, known, &node.place, name, operator, value)
        }
        None => with_pool(alloc, known, pool_setting(node)),
    }
}

/// What is known of the settings by the items of the top.
fn known_of(alloc: Global, pooled: bool, nodes: &[Node]) -> Result<Known, BuildFault>
    ensures { Gives result (after_each (with_item pooled) nothing nodes.now) }
{
    let mut known = Known {
        cleanup_delay: None,
        max_requests: None,
        start_servers: None,
        session_log: None,
    };
    for node in nodes {
        known = with_item(alloc, pooled, known, node)?;
    }
    Ok(known)
}

/// The path of the session log, and the usual one where none is set.
fn log_of(alloc: Global, path: Option<Octets>) -> Result<Octets, BuildFault>
    ensures { Gives result (Ok (unwrap_or path (codes "radutmp.log"))) }
{
    match path {
        Some(path) => Ok(path),
        None => Ok(Octets::of(alloc, SESSION_LOG)?),
    }
}

/// The settings of a whole configuration.
#[tactic(auto, unfolding(crate::specs::Settings::settings_in))]
pub fn settings_in(alloc: Global, nodes: &[Node]) -> Result<Settings, BuildFault>
    ensures { Gives result (settings_in nodes.now) }
{
    let Known {
        cleanup_delay,
        max_requests,
        start_servers,
        session_log,
    } = known_of(alloc, has_pool(nodes), nodes)?;
    let session_log = log_of(alloc, session_log)?;
    Ok(Settings {
        cleanup_delay: cleanup_delay.unwrap_or(5),
        max_requests: max_requests.unwrap_or(16384),
        start_servers: start_servers.unwrap_or(5),
        session_log,
    })
}
