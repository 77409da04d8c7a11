//! What the names among the statements of a section call: policies, and instances of modules.

ghost use Rattle.std.specs.Prelude.{◌≡◌, ◌++◌, codes, is_some, Err, IfOk};
ghost use Rattle.std.specs.List.{list_any, find};
ghost use Rattle.std.specs.Option.{option_copied};
ghost use Rattle.unlang_tree.specs.Readings.{Gives};
ghost use Rattle.unlang_tree.specs.Instances.{number_of};
ghost use Rattle.unlang_tree.specs.Words.{word_of};
ghost use Rattle.unlang_tree.specs.Calls.{nodes_of, is_block, policies_with, policy_named, policy_for, kind_of, body_of, can_be_called, call_of, is_optional, called_name, call_at, is_entered, not_open};

use crate::fault::TreeFault;
use crate::instances::Instances;
use crate::refusal::{Wrong, refuse};
use crate::statement::{Call, Overrides};
use crate::words::word_of;
use rad_conf::{Item, Node};
use rad_outside::{NoMemory, Octets, Place};
use rad_text::place_at;
use rad_words::Section;
use std::alloc::Global;

/// The nodes of a block of this kind; none of another item.
fn nodes_of<'a>(wanted: &[u8], node: &'a Node) -> &'a [Node]
    ensures { result.now ≡ nodes_of wanted.now node.now }
{
    match &node.item {
        Item::Pair(_, _, _) => &[],
        Item::Name(_) => &[],
        Item::Block(kind, _, body) => {
            if kind.text.as_slice() == wanted {
                body.as_slice()
            } else {
                &[]
            }
        }
    }
}

/// Whether an item is a block of this kind.
fn is_block(wanted: &[u8], node: &Node) -> bool
    ensures { result ≡ is_block wanted.now node.now }
{
    match &node.item {
        Item::Pair(_, _, _) => false,
        Item::Name(_) => false,
        Item::Block(kind, _, _) => kind.text.as_slice() == wanted,
    }
}

/// Whether one of the nodes is a block of this kind.
fn has_block(wanted: &[u8], nodes: &[Node]) -> bool
    ensures { result ≡ list_any (is_block wanted.now) nodes.now }
{
    nodes.iter().any(|node| is_block(wanted, node))
}

/// The first block of policies that has one of this name.
fn policies_with<'a>(root: &'a [Node], name: &[u8]) -> Option<&'a Node>
    ensures { option_copied result ≡ policies_with root.now name.now }
{
    root.iter()
        .find(|node| has_block(name, nodes_of(b"policy", node)))
}

/// The first of the nodes that is a block of this kind.
fn block_of<'a>(wanted: &[u8], nodes: &'a [Node]) -> Option<&'a Node>
    ensures { option_copied result ≡ find (is_block wanted.now) nodes.now }
{
    nodes.iter().find(|node| is_block(wanted, node))
}

/// The policy of this name at the top of a configuration.
#[tactic(auto, unfolding(crate::specs::Calls::policy_named))]
fn policy_named<'a>(root: &'a [Node], name: &[u8]) -> Option<&'a Node>
    ensures { option_copied result ≡ policy_named root.now name.now }
{
    match policies_with(root, name) {
        None => None,
        Some(block) => block_of(name, nodes_of(b"policy", block)),
    }
}

/// The name of a policy for one section alone.
fn dotted(alloc: Global, name: &[u8], section: Section) -> Result<Octets, NoMemory>
    ensures { IfOk result (λ octets. octets ≡ name.now ++ codes "." ++ word_of section) }
{
    let mut octets = Vec::from_slice(alloc, name)?;
    octets.extend_from_slice(b".")?;
    octets.extend_from_slice(word_of(section))?;
    Ok(Octets::from_vec(octets))
}

/// The policy that a name calls in a section.
#[tactic(auto, unfolding(crate::specs::Calls::policy_for))]
pub(crate) fn policy_for<'a>(
    alloc: Global,
    root: &'a [Node],
    section: Section,
    name: &[u8],
) -> Result<Option<&'a Node>, NoMemory>
    ensures { IfOk result (λ policy. option_copied policy ≡ policy_for root.now section name.now) }
{
    let own = dotted(alloc, name, section)?;
    match policy_named(root, own.as_slice()) {
        Some(policy) => Ok(Some(policy)),
        None => Ok(policy_named(root, name)),
    }
}

/// The name that a block is written by; none of another item.
pub(crate) fn kind_of(node: &Node) -> &[u8]
    ensures { result.now ≡ kind_of node.now }
{
    match &node.item {
        Item::Pair(_, _, _) => &[],
        Item::Name(_) => &[],
        Item::Block(kind, _, _) => kind.text.as_slice(),
    }
}

/// The nodes in a block; none of another item.
pub(crate) fn body_of(node: &Node) -> &[Node]
    ensures { result.now ≡ body_of node.now }
{
    match &node.item {
        Item::Pair(_, _, _) => &[],
        Item::Name(_) => &[],
        Item::Block(_, _, body) => body.as_slice(),
    }
}

/// Whether the instance of a number can be called in a section.
fn can_be_called(instances: &Instances, section: Section, number: u32) -> bool
    ensures { result ≡ can_be_called instances.now section number }
{
    match instances.methods(number) {
        None => false,
        Some(methods) => methods.has(section),
    }
}

/// A word that nothing is called by, at its place.
fn unknown(alloc: Global, place: &Place, name: &[u8]) -> Result<Call, TreeFault>
    ensures { Gives result (Err (TreeFault.UnknownModule place.now name.now)) }
{
    let place = place_at(alloc, place.file.as_slice(), place.line)?;
    let name = Octets::of(alloc, name)?;
    Err(TreeFault::UnknownModule(place, name))
}

/// The call of an instance by its name.
#[tactic(auto, unfolding(crate::specs::Calls::call_of))]
fn call_of(
    alloc: Global,
    instances: &Instances,
    section: Section,
    place: &Place,
    name: &[u8],
) -> Result<Call, TreeFault>
    ensures { Gives result (call_of instances.now section place.now name.now) }
{
    let Some(instance) = instances.find(name) else {
        return unknown(alloc, place, name);
    };
    if can_be_called(instances, section, instance) {
        Ok(Call {
            instance,
            overrides: Overrides::new(alloc),
        })
    } else {
        refuse(alloc, place, Wrong::NoSuchMethod)
    }
}

/// Whether a word calls its name only where there is one.
fn is_optional(word: &[u8]) -> bool
    ensures { result ≡ is_optional word.now }
{
    word.first() == Some(&b'-')
}

/// The name that a word calls.
pub(crate) fn called_name(word: &[u8]) -> &[u8]
    ensures { result.now ≡ called_name word.now }
{
    match word.split_first() {
        Some((b'-', name)) => name,
        _ => word,
    }
}

/// Whether there is an instance of this name.
fn has_instance(instances: &Instances, name: &[u8]) -> bool
    ensures { result ≡ is_some (number_of instances.now name.now) }
{
    instances.find(name).is_some()
}

/// The call of an instance by a word that calls no policy; none where it counts as not written.
#[tactic(auto, unfolding(crate::specs::Calls::call_at))]
pub(crate) fn call_at(
    alloc: Global,
    instances: &Instances,
    section: Section,
    place: &Place,
    word: &[u8],
) -> Result<Option<Call>, TreeFault>
    ensures { Gives result (call_at instances.now section place.now word.now) }
{
    let name = called_name(word);
    if is_optional(word) && !has_instance(instances, name) {
        return Ok(None);
    }
    let call = call_of(alloc, instances, section, place, name)?;
    Ok(Some(call))
}

/// Whether a name is among those of the open policies.
fn is_entered(entered: &[Octets], name: &[u8]) -> bool
    ensures { result ≡ is_entered entered.now name.now }
{
    entered.iter().any(|one| name == one.as_slice())
}

/// Refuses a policy that is open already.
#[tactic(auto, unfolding(crate::specs::Calls::not_open))]
pub(crate) fn not_open(
    alloc: Global,
    entered: &[Octets],
    place: &Place,
    name: &[u8],
) -> Result<(), TreeFault>
    ensures { Gives result (not_open entered.now place.now name.now) }
{
    if is_entered(entered, name) {
        refuse(alloc, place, Wrong::PolicyLoop)
    } else {
        Ok(())
    }
}
