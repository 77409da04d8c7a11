//! Items of a configuration by their form.

ghost use Rattle.std.specs.Prelude.{◌≡◌};
ghost use Rattle.std.specs.Option.{option_map, option_copied};
ghost use Rattle.rad_build.specs.Items.{is_assignment, pair_of, setting_of, is_pair_of, pair_named, nodes_of, is_block, is_section, kind_of, named_block};

use rad_conf::{Item, Node};

/// Whether an operator is `=` or `:=`.
pub fn is_assignment(operator: &[u8]) -> bool
    ensures { result ≡ is_assignment operator.now }
{
    operator == b"=".as_slice() || operator == b":=".as_slice()
}

/// A pair by its name, its operator and its value.
pub fn pair_of(node: &Node) -> Option<(&[u8], &[u8], &[u8])>
    ensures { option_map (λ pair. (pair.0.now, pair.1.now, pair.2.now)) result ≡ pair_of node.now }
{
    match &node.item {
        Item::Pair(left, operator, right) => Some((
            left.text.as_slice(),
            operator.as_slice(),
            right.text.as_slice(),
        )),
        Item::Name(_) => None,
        Item::Block(_, _, _) => None,
    }
}

/// The name and the value of an item `name = value` or `name := value`.
pub fn setting_of(node: &Node) -> Option<(&[u8], &[u8])>
    ensures { option_map (λ setting. (setting.0.now, setting.1.now)) result ≡ setting_of node.now }
{
    match &node.item {
        Item::Pair(left, operator, right) => {
            if is_assignment(operator.as_slice()) {
                Some((left.text.as_slice(), right.text.as_slice()))
            } else {
                None
            }
        }
        Item::Name(_) => None,
        Item::Block(_, _, _) => None,
    }
}

/// Whether an item is a pair of this name.
pub fn is_pair_of(wanted: &[u8], node: &Node) -> bool
    ensures { result ≡ is_pair_of wanted.now node.now }
{
    match &node.item {
        Item::Pair(left, _, _) => left.text.as_slice() == wanted,
        Item::Name(_) => false,
        Item::Block(_, _, _) => false,
    }
}

/// The first pair of this name among items.
pub fn pair_named<'a>(wanted: &[u8], items: &'a [Node]) -> Option<&'a Node>
    ensures { option_copied result ≡ pair_named wanted.now items.now }
{
    items.iter().find(|node| is_pair_of(wanted, node))
}

/// The nodes of a block of this kind; none of another item.
pub fn nodes_of<'a>(wanted: &[u8], node: &'a Node) -> &'a [Node]
    ensures { result.now ≡ nodes_of wanted.now node.now }
{
    match &node.item {
        Item::Pair(_, _, _) => &[],
        Item::Name(_) => &[],
        Item::Block(kind, _, body) => {
            if kind.text.as_slice() == wanted {
                body.as_slice()
            } else {
                &[]
            }
        }
    }
}

/// Whether an item is a block of this kind.
pub fn is_block(wanted: &[u8], node: &Node) -> bool
    ensures { result ≡ is_block wanted.now node.now }
{
    match &node.item {
        Item::Pair(_, _, _) => false,
        Item::Name(_) => false,
        Item::Block(kind, _, _) => kind.text.as_slice() == wanted,
    }
}

/// Whether an item is a block of this kind, in any case of its ASCII letters.
pub fn is_section(wanted: &[u8], node: &Node) -> bool
    ensures { result ≡ is_section wanted.now node.now }
{
    match &node.item {
        Item::Pair(_, _, _) => false,
        Item::Name(_) => false,
        Item::Block(kind, _, _) => kind.text.as_slice().eq_ignore_ascii_case(wanted),
    }
}

/// The kind of a block.
pub fn kind_of(node: &Node) -> Option<&[u8]>
    ensures { option_copied result ≡ kind_of node.now }
{
    match &node.item {
        Item::Pair(_, _, _) => None,
        Item::Name(_) => None,
        Item::Block(kind, _, _) => Some(kind.text.as_slice()),
    }
}

/// The name and the nodes of a block that has a name.
pub fn named_block(node: &Node) -> Option<(&[u8], &[Node])>
    ensures { option_map (λ block. (block.0.now, block.1.now)) result ≡ named_block node.now }
{
    match &node.item {
        Item::Pair(_, _, _) => None,
        Item::Name(_) => None,
        Item::Block(_, name, body) => match name {
            None => None,
            Some(name) => Some((name.text.as_slice(), body.as_slice())),
        },
    }
}
