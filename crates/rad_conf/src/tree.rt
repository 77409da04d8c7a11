//! The tree of a configuration.

ghost use Rattle.std.specs.Prelude.{◌≡◌, [], ◌∷◌, ◌++◌, slice_get, OnOk, OnErr};
ghost use Rattle.std.specs.Option.{option_copied, option_and_then};
ghost use Rattle.rad_conf.specs.Places.{key_of, pair_key, last_place};
ghost use Rattle.rad_conf.specs.Tree.{body_of};

use rad_outside::{NoMemory, Octets, Place};
use sqlite_items::Items;
use std::alloc::Global;
use std::collections::BTreeMap;
use std::marker::Model;

/// How a word was written.
#[derive(Clone, Copy, Debug, PartialEq, Eq)]
pub enum Quote {
    /// Without quotes.
    Bare,
    /// In single quotes.
    Single,
    /// In double quotes.
    Double,
}

/// A word, and how it was written.
#[derive(Debug, Drop)]
pub struct Word {
    pub quote: Quote,
    pub text: Octets,
}

/// What stands in a block.
#[cycle(node)]
#[derive(Debug, Drop)]
pub enum Item {
    /// The left word, the operator and the right word.
    Pair(Word, Octets, Word),
    Name(Word),
    /// The kind, the name and the body.
    Block(Word, Option<Word>, NodeList),
}

/// An item, and where it begins.
#[cycle(node)]
#[derive(Debug, Drop)]
pub struct Node {
    pub place: Place,
    pub item: Item,
}

/// A list of nodes, in reading order.
pub type NodeList = Items<Node>;

/// The body of a block. All else of the node is dropped.
fn body_of(node: Node) -> Option<NodeList>
    ensures { result ≡ body_of node.item }
{
    let Node { place: _, item } = node;
    match item {
        Item::Pair(_left, _operator, _right) => None,
        Item::Name(_word) => None,
        Item::Block(_kind, _name, body) => Some(body),
    }
}

/// Drops nodes in a loop, however deep their blocks are nested.
/// Where no memory is found for the list of what is left, that is dropped by recursion.
fn take_apart(nodes: NodeList) {
    let mut left = nodes;
    while let Some(node) = left.pop() {
        if let Some(body) = body_of(node) {
            match left.append(body) {
                Ok(()) => {}
                Err(_refused) => return,
            }
        }
    }
}

/// The key of a name.
#[tactic(auto, unfolding(crate::specs::Places::octets_key, crate::specs::Places::key_with))]
pub fn key_of(name: &[u8]) -> u64
    ensures { result ≡ key_of name.now }
{
    let mut key = 0u64;
    for octet in name {
        key = key
            .wrapping_mul(1_099_511_628_211)
            .wrapping_add(u64::from(*octet));
    }
    key
}

/// The key of a pair's name.
fn pair_key(node: &Node) -> Option<u64>
    ensures { result ≡ pair_key node.now }
{
    match &node.item {
        Item::Pair(left, _, _) => Some(key_of(left.text.as_slice())),
        Item::Name(_) => None,
        Item::Block(_, _, _) => None,
    }
}

/// A list of nodes that grows, and is dropped in a loop. The last pair of a name is found in it by the
/// name's key.
pub struct Branch {
    nodes: Vec<Node>,
    places: BTreeMap<u64, usize>,
}

impl Model for Branch {
    ghost use Rattle.std.specs.Prelude.{◌≡◌, ℕ, List};
    ghost use Rattle.std.specs.Ordering.{nat_cmp};
    ghost use Rattle.std.specs.BTreeMap.{get};
    ghost use Rattle.rad_conf.specs.declared.tree.Node.{Node};
    ghost use Rattle.rad_conf.specs.contracts.tree.Node as node;
    ghost use Rattle.rad_conf.specs.Places.{last_place};
    ghost use Rattle.std.specs.Coded.{codes};

    ghost Value = { List Node };

    ghost coded = { Prim.hlevel (codes, node.the_row.coded) };

    ghost view = { λ b. b.nodes.items };

    ghost invariant = { λ b. (key : ℕ) → get nat_cmp b.places key ≡ last_place key b.nodes.items };
}

impl Drop for Branch {
    fn drop(self) {
        let Branch { nodes, places: _ } = self;
        take_apart(Items::from_vec(nodes));
    }
}

impl Branch {
    #[tactic(auto, unfolding(crate::specs::Places::last_place))]
    pub fn new(alloc: Global) -> Branch
        ensures { result ≡ [] }
    {
        Branch {
            nodes: Vec::new(alloc),
            places: BTreeMap::new(alloc),
        }
    }

    pub fn into_list(self) -> NodeList
        ensures { result ≡ self }
    {
        let Branch { nodes, places: _ } = self;
        Items::from_vec(nodes)
    }

    pub fn as_slice(&self) -> &[Node]
        ensures { result.now ≡ self.now }
    {
        self.nodes.as_slice()
    }

    /// The last node that is a pair whose name has this key, where there is one.
    pub fn last_of(&self, key: u64) -> Option<&Node>
        ensures { option_copied result ≡ option_and_then (slice_get self.now) (last_place key self.now) }
    {
        match self.places.get(&key) {
            None => None,
            Some(place) => self.nodes.get(*place),
        }
    }

    pub fn push(&mut self, node: Node) -> Result<(), NoMemory>
        ensures ok { OnOk result (self.new ≡ self.old ++ node ∷ []) }
        ensures err { OnErr result (self.new ≡ self.old) }
    {
        let key = pair_key(&node);
        let place = self.nodes.len();
        if let Err(refused) = self.nodes.push(node) {
            if let Some(body) = body_of(refused.value) {
                take_apart(body);
            }
            return Err(NoMemory);
        }
        let Some(key) = key else {
            return Ok(());
        };
        match self.places.insert(key, place) {
            Ok(_) => Ok(()),
            Err(_) => {
                let _node = self.nodes.pop();
                Err(NoMemory)
            }
        }
    }
}

/// A whole configuration.
pub struct Conf {
    root: NodeList,
}

impl Model for Conf {
    ghost use Rattle.std.specs.Prelude.{List};
    ghost use Rattle.rad_conf.specs.declared.tree.Node.{Node};
    ghost use Rattle.rad_conf.specs.contracts.tree.Node as node;
    ghost use Rattle.std.specs.Coded.{codes};

    ghost Value = { List Node };

    ghost coded = { Prim.hlevel (codes, node.the_row.coded) };

    ghost view = { λ c. c.root };
}

impl Drop for Conf {
    fn drop(self) {
        let Conf { root } = self;
        take_apart(root);
    }
}

impl Conf {
    /// A configuration of these nodes at the top.
    pub(crate) fn of(root: Branch) -> Conf
        ensures { result ≡ root }
    {
        Conf {
            root: root.into_list(),
        }
    }

    /// The nodes at the top, in reading order.
    pub fn root(&self) -> &NodeList
        ensures { result.now ≡ self.now }
    {
        &self.root
    }
}
