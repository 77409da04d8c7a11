//! The variables of a configuration: the values of the pairs that were read before.

ghost use Rattle.std.specs.Prelude.{◌≡◌, ◌++◌, [], map, reverse, IfOk, OnOk};
ghost use Rattle.std.specs.Option.{option_map};
ghost use Rattle.rad_conf.specs.Variables.{pair_value, last_value, nearest_value, value_from, level_of, inside, body_of_kind, within, has_dot, value_of};

use crate::growth::{Growth, Open};
use crate::tree::{Branch, Item, Node, key_of};
use rad_outside::NoMemory;
use std::alloc::Global;

/// The value of a pair of this name.
fn pair_value<'a>(name: &[u8], node: &'a Node) -> Option<&'a [u8]>
    ensures { option_map (λ value. value.now) result ≡ pair_value name.now node.now }
{
    match &node.item {
        Item::Pair(left, _, right) => {
            if left.text.as_slice() == name {
                Some(right.text.as_slice())
            } else {
                None
            }
        }
        Item::Name(_) => None,
        Item::Block(_, _, _) => None,
    }
}

/// The value of the last pair of this name among these nodes, by a look at each.
#[tactic(auto, using(crate::proofs::Opens::reverse_push), unfolding(crate::specs::Variables::first_value))]
fn searched<'a>(name: &[u8], nodes: &'a [Node]) -> Option<&'a [u8]>
    ensures { option_map (λ value. value.now) result ≡ last_value name.now nodes.now }
{
    let mut rest = nodes;
    while let Some((node, before)) = rest.split_last() {
        if let Some(value) = pair_value(name, node) {
            return Some(value);
        }
        rest = before;
    }
    None
}

/// The value of the last pair of this name in a block so far. Where another name has the same key,
/// each pair is looked at.
#[tactic(auto, using(crate::proofs::FoundPairs::none_found, crate::proofs::FoundPairs::some_found))]
fn last_value<'a>(name: &[u8], block: &'a Branch) -> Option<&'a [u8]>
    ensures { option_map (λ value. value.now) result ≡ last_value name.now block.now }
{
    let node = block.last_of(key_of(name))?;
    match pair_value(name, node) {
        Some(value) => Some(value),
        None => searched(name, block.as_slice()),
    }
}

/// Whether a name has a dot.
#[tactic(auto, unfolding(crate::specs::Variables::has_dot))]
fn has_dot(name: &[u8]) -> bool
    ensures { result ≡ has_dot name.now }
{
    let mut rest = name;
    while let Some((octet, after)) = rest.split_first() {
        if *octet == b'.' {
            return true;
        }
        rest = after;
    }
    false
}

/// What stands in the blocks whose kinds were read so far: nodes, and behind them the first of these
/// open blocks.
#[derive(Drop)]
struct Sight<'a> {
    nodes: Vec<&'a Node>,
    inner: &'a [Open],
}

/// The value of the last pair of this name among these nodes.
#[tactic(auto, using(crate::proofs::Opens::reverse_push), unfolding(crate::specs::Variables::first_value))]
fn last_seen<'a>(name: &[u8], nodes: &[&'a Node]) -> Option<&'a [u8]>
    ensures { option_map (λ value. value.now) result ≡ last_value name.now (map (λ node. node.now) nodes.now) }
{
    let mut found = None;
    for node in nodes {
        found = pair_value(name, node).or(found);
    }
    found
}

/// Adds nodes.
fn push_all<'a>(to: &mut Vec<&'a Node>, nodes: &'a [Node]) -> Result<(), NoMemory>
    ensures { OnOk result (map (λ node. node.now) to.new.items ≡ map (λ node. node.now) to.old.items ++ nodes.now) }
{
    let mut rest = nodes;
    while let Some((node, after)) = rest.split_first() {
        to.push(node)?;
        rest = after;
    }
    Ok(())
}

/// Adds the nodes of a block of this kind.
fn push_body<'a>(to: &mut Vec<&'a Node>, wanted: &[u8], node: &'a Node) -> Result<(), NoMemory>
    ensures { OnOk result (map (λ node. node.now) to.new.items ≡ map (λ node. node.now) to.old.items ++ body_of_kind wanted.now node.now) }
{
    match &node.item {
        Item::Pair(_, _, _) => Ok(()),
        Item::Name(_) => Ok(()),
        Item::Block(kind, _, body) => {
            if kind.text.as_slice() == wanted {
                push_all(to, body.as_slice())
            } else {
                Ok(())
            }
        }
    }
}

/// All that stands in blocks of this kind, in order.
#[tactic(auto, unfolding(crate::specs::Variables::within))]
fn within<'a>(alloc: Global, kind: &[u8], nodes: &[&'a Node]) -> Result<Vec<&'a Node>, NoMemory>
    ensures { IfOk result (λ found. map (λ node. node.now) found.items ≡ within kind.now (map (λ node. node.now) nodes.now)) }
{
    let mut found = Vec::new(alloc);
    for node in nodes {
        push_body(&mut found, kind, node)?;
    }
    Ok(found)
}

/// Adds what stands so far right in the block around these open blocks.
fn push_level<'a>(
    to: &mut Vec<&'a Node>,
    opens: &'a [Open],
    last: &'a [Node],
) -> Result<(), NoMemory>
    ensures { OnOk result (map (λ node. node.now) to.new.items ≡ map (λ node. node.now) to.old.items ++ level_of opens.now last.now) }
{
    match opens.first() {
        None => push_all(to, last),
        Some(block) => push_all(to, block.before.as_slice()),
    }
}

impl<'a> Sight<'a> {
    /// The whole tree so far.
    fn of(alloc: Global, opens: &'a [Open], last: &'a [Node]) -> Result<Sight<'a>, NoMemory>
        ensures nodes { IfOk result (λ sight. map (λ node. node.now) sight.nodes.items ≡ level_of opens.now last.now) }
        ensures inner { IfOk result (λ sight. sight.inner.now ≡ opens.now) }
    {
        let mut nodes = Vec::new(alloc);
        push_level(&mut nodes, opens, last)?;
        Ok(Sight {
            nodes,
            inner: opens,
        })
    }

    /// What stands in the blocks of this kind.
    fn inside(self, alloc: Global, kind: &[u8], last: &'a [Node]) -> Result<Sight<'a>, NoMemory>
        ensures { IfOk result (λ sight. (map (λ node. node.now) sight.nodes.items, sight.inner.now) ≡ inside kind.now last.now (map (λ node. node.now) self.entry.nodes.items) self.entry.inner.now) }
    {
        let Sight { nodes, inner } = self;
        let mut nodes = within(alloc, kind, nodes.as_slice())?;
        let Some((block, inner)) = inner.split_first() else {
            return Ok(Sight { nodes, inner: &[] });
        };
        if block.kind.text.as_slice() != kind {
            return Ok(Sight { nodes, inner: &[] });
        }
        push_level(&mut nodes, inner, last)?;
        Ok(Sight { nodes, inner })
    }
}

/// The value of a name with dots, by the tree so far.
#[tactic(auto, unfolding(crate::specs::Variables::value_from))]
fn value_from<'a>(
    alloc: Global,
    name: &[u8],
    opens: &'a [Open],
    last: &'a [Node],
) -> Result<Option<&'a [u8]>, NoMemory>
    ensures { IfOk result (λ found. option_map (λ value. value.now) found ≡ value_from [] name.now last.now (level_of opens.now last.now, opens.now)) }
{
    let mut sight = Sight::of(alloc, opens, last)?;
    let mut part: Vec<u8> = Vec::new(alloc);
    let mut rest = name;
    while let Some((octet, after)) = rest.split_first() {
        let c = *octet;
        if c == b'.' {
            sight = sight.inside(alloc, part.as_slice(), last)?;
            part = Vec::new(alloc);
        } else {
            part.push(c)?;
        }
        rest = after;
    }
    Ok(last_seen(part.as_slice(), sight.nodes.as_slice()))
}

impl Growth {
    /// The value of the nearest pair of this name.
    #[tactic(auto, using(crate::proofs::Opens::reverse_push), unfolding(crate::specs::Variables::nearest_value))]
    fn nearest(&self, name: &[u8]) -> Option<&[u8]>
        ensures { option_map (λ value. value.now) result ≡ nearest_value name.now self.now.nodes (reverse self.now.opens) }
    {
        let mut nodes = &self.nodes;
        let mut opens = self.opens.as_slice();
        while let Some((block, outer)) = opens.split_last() {
            if let Some(value) = last_value(name, nodes) {
                return Some(value);
            }
            nodes = &block.before;
            opens = outer;
        }
        last_value(name, nodes)
    }

    /// The value of a variable.
    pub fn value(&self, alloc: Global, name: &[u8]) -> Result<Option<&[u8]>, NoMemory>
        ensures { IfOk result (λ found. option_map (λ value. value.now) found ≡ value_of self.now name.now) }
    {
        if has_dot(name) {
            return value_from(alloc, name, self.opens.as_slice(), self.nodes.as_slice());
        }
        Ok(self.nearest(name))
    }
}
