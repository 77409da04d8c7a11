//! Updates of lists.

ghost use Rattle.std.specs.Prelude.{◌≡◌};
ghost use Rattle.std.specs.Str.{str_eq_ignore_ascii_case};
ghost use Rattle.unlang_tree.specs.Readings.{Gives, Leaves};
ghost use Rattle.unlang_tree.specs.Updates.{list_named, without_ampersand, begins_with, list_in, left_of, left_at, operator_of, operator_at, clears, is_count, literal_at, reference_at, expansion_at, bare_at, quoted_at, right_at, line_at, with_line, lines_of, list_at, update_at};

use crate::fault::TreeFault;
use crate::refusal::{Wrong, one_deeper, one_more, refuse};
use crate::update::{Line, Lines, Right};
use rad_conf::{Item, Node, Quote, Word};
use rad_dict::Dict;
use rad_outside::{Octets, Place};
use rad_pairs::{AttrKind, value_of};
use rad_text::ReadError;
use rad_value::{EditOp, ListName, Value};
use std::alloc::Global;
use unlang_reference::{Which, named_alone, reference_of};
use unlang_xlat::{Xlat, XlatFault};

/// The list of a name.
#[tactic(auto, unfolding(crate::specs::Updates::list_named))]
fn list_named(word: &[u8]) -> Option<ListName>
    ensures { result ≡ list_named word.now }
{
    if word.eq_ignore_ascii_case(b"request") {
        Some(ListName::Request)
    } else if word.eq_ignore_ascii_case(b"reply") {
        Some(ListName::Reply)
    } else if word.eq_ignore_ascii_case(b"control") {
        Some(ListName::Control)
    } else {
        None
    }
}

/// A line's left side without the `&` that may stand before it.
fn without_ampersand(text: &[u8]) -> &[u8]
    ensures { result.now ≡ without_ampersand text.now }
{
    match text.split_first() {
        Some((b'&', name)) => name,
        _ => text,
    }
}

/// Whether two texts are one, in any case of their ASCII letters.
fn is_same(one: &[u8], other: &[u8]) -> bool
    ensures { result ≡ str_eq_ignore_ascii_case one.now other.now }
{
    one.eq_ignore_ascii_case(other)
}

/// Whether a text begins with a prefix, in any case of its ASCII letters.
fn begins_with(prefix: &[u8], text: &[u8]) -> bool
    ensures { result ≡ begins_with prefix.now text.now }
{
    let (front, _) = text.split_at(prefix.len().min(text.len()));
    is_same(front, prefix)
}

/// The list that a line's left side names.
#[tactic(auto, unfolding(crate::specs::Updates::list_in))]
fn list_in(text: &[u8]) -> Option<ListName>
    ensures { result ≡ list_in text.now }
{
    if begins_with(b"request:", text) {
        Some(ListName::Request)
    } else if begins_with(b"reply:", text) {
        Some(ListName::Reply)
    } else if begins_with(b"control:", text) {
        Some(ListName::Control)
    } else {
        None
    }
}

/// The list and the attribute of a line's left side, in the block of a list.
#[tactic(auto, unfolding(crate::specs::Updates::left_of))]
fn left_of(dict: &Dict, block: ListName, text: &[u8]) -> Option<(ListName, AttrKind)>
    ensures { result ≡ left_of dict.now block text.now }
{
    let reference = named_alone(text, dict)?;
    let list = match list_in(text) {
        Some(list) => list,
        None => block,
    };
    Some((list, reference.attr))
}

/// The same at the line's place.
#[tactic(auto, unfolding(crate::specs::Updates::left_at))]
fn left_at(
    alloc: Global,
    dict: &Dict,
    block: ListName,
    place: &Place,
    text: &[u8],
) -> Result<(ListName, AttrKind), TreeFault>
    ensures { Gives result (left_at dict.now block place.now text.now) }
{
    match left_of(dict, block, without_ampersand(text)) {
        None => refuse(alloc, place, Wrong::BadUpdate),
        Some(left) => Ok(left),
    }
}

/// The edit that an operator stands for.
#[tactic(auto, unfolding(crate::specs::Updates::operator_of))]
fn operator_of(text: &[u8]) -> Option<EditOp>
    ensures { result ≡ operator_of text.now }
{
    if text == b"=".as_slice() {
        Some(EditOp::AddIfNone)
    } else if text == b":=".as_slice() {
        Some(EditOp::Set)
    } else if text == b"+=".as_slice() {
        Some(EditOp::Append)
    } else if text == b"-=".as_slice() {
        Some(EditOp::Remove)
    } else if text == b"!*".as_slice() {
        Some(EditOp::RemoveAll)
    } else if text == b"==".as_slice() {
        Some(EditOp::Keep)
    } else {
        None
    }
}

/// The operator of a line.
#[tactic(auto, unfolding(crate::specs::Updates::operator_at))]
fn operator_at(alloc: Global, place: &Place, text: &[u8]) -> Result<EditOp, TreeFault>
    ensures { Gives result (operator_at place.now text.now) }
{
    match operator_of(text) {
        None => refuse(alloc, place, Wrong::BadUpdate),
        Some(op) => Ok(op),
    }
}

/// Whether an operator takes an attribute's values away whatever they are.
fn clears(op: EditOp) -> bool
    ensures { result ≡ clears op }
{
    match op {
        EditOp::RemoveAll => true,
        EditOp::AddIfNone | EditOp::Set | EditOp::Append | EditOp::Remove | EditOp::Keep => false,
    }
}

/// Whether a reference means the number of an attribute's values.
fn is_count(which: Which) -> bool
    ensures { result ≡ is_count which }
{
    match which {
        Which::Count => true,
        Which::Nth(_) | Which::All => false,
    }
}

/// A literal, read as a value of the line's attribute.
#[tactic(auto, unfolding(crate::specs::Updates::literal_at))]
fn literal_at(
    alloc: Global,
    dict: &Dict,
    place: &Place,
    attr: AttrKind,
    text: &[u8],
) -> Result<Right, TreeFault>
    ensures { Gives result (literal_at dict.now place.now attr text.now) }
{
    match value_of(alloc, attr, text, dict) {
        Ok(value) => Ok(Right::Value(value)),
        Err(ReadError::NoMemory) => Err(TreeFault::NoMemory),
        Err(ReadError::Wrong(_)) => refuse(alloc, place, Wrong::BadUpdate),
    }
}

/// A reference, from behind its `&` on.
#[tactic(auto, unfolding(crate::specs::Updates::reference_at))]
fn reference_at(alloc: Global, dict: &Dict, place: &Place, text: &[u8]) -> Result<Right, TreeFault>
    ensures { Gives result (reference_at dict.now place.now text.now) }
{
    match reference_of(text, dict) {
        Err(_) => refuse(alloc, place, Wrong::BadUpdate),
        Ok(reference) => {
            if is_count(reference.which) {
                refuse(alloc, place, Wrong::BadUpdate)
            } else {
                Ok(Right::Reference(reference))
            }
        }
    }
}

/// An expansion.
#[tactic(auto, unfolding(crate::specs::Updates::expansion_at))]
fn expansion_at(alloc: Global, dict: &Dict, place: &Place, text: &[u8]) -> Result<Right, TreeFault>
    ensures { Gives result (expansion_at dict.now place.now text.now) }
{
    match Xlat::parse(alloc, text, dict) {
        Ok(expansion) => Ok(Right::Expansion(expansion)),
        Err(XlatFault::NoMemory) => Err(TreeFault::NoMemory),
        Err(
            XlatFault::BadExpansion(_) | XlatFault::UnknownAttr(_) | XlatFault::UnknownFunction(_),
        ) => refuse(alloc, place, Wrong::BadExpansion),
    }
}

/// A bare word: a reference behind `&`, else a literal.
#[tactic(auto, unfolding(crate::specs::Updates::bare_at))]
fn bare_at(
    alloc: Global,
    dict: &Dict,
    place: &Place,
    attr: AttrKind,
    text: &[u8],
) -> Result<Right, TreeFault>
    ensures { Gives result (bare_at dict.now place.now attr text.now) }
{
    match text.split_first() {
        Some((b'&', name)) => reference_at(alloc, dict, place, name),
        _ => literal_at(alloc, dict, place, attr, text),
    }
}

/// What a line's right word says, by its quotes.
fn quoted_at(
    alloc: Global,
    dict: &Dict,
    place: &Place,
    attr: AttrKind,
    word: &Word,
) -> Result<Right, TreeFault>
    ensures { Gives result (quoted_at dict.now place.now attr word.now.quote word.now.text) }
{
    match word.quote {
        Quote::Bare => bare_at(alloc, dict, place, attr, word.text.as_slice()),
        Quote::Single => literal_at(alloc, dict, place, attr, word.text.as_slice()),
        Quote::Double => expansion_at(alloc, dict, place, word.text.as_slice()),
    }
}

/// The right side of a line. Behind `!*` it is passed over.
#[tactic(auto, unfolding(crate::specs::Updates::right_at))]
fn right_at(
    alloc: Global,
    dict: &Dict,
    place: &Place,
    op: EditOp,
    attr: AttrKind,
    word: &Word,
) -> Result<Right, TreeFault>
    ensures { Gives result (right_at dict.now place.now op attr word.now) }
{
    if clears(op) {
        return Ok(Right::Value(Value::Text(Octets::of(alloc, b"")?)));
    }
    quoted_at(alloc, dict, place, attr, word)
}

/// The line of a node, in the block of a list.
#[tactic(auto, unfolding(crate::specs::Updates::line_at))]
fn line_at(alloc: Global, dict: &Dict, block: ListName, node: &Node) -> Result<Line, TreeFault>
    ensures { Gives result (line_at dict.now block node.now) }
{
    match &node.item {
        Item::Pair(left, operator, right) => {
            let (list, attr) = left_at(alloc, dict, block, &node.place, left.text.as_slice())?;
            let op = operator_at(alloc, &node.place, operator.as_slice())?;
            let right = right_at(alloc, dict, &node.place, op, attr, right)?;
            Ok(Line {
                list,
                attr,
                op,
                right,
            })
        }
        Item::Name(_) => refuse(alloc, &node.place, Wrong::BadUpdate),
        Item::Block(_, _, _) => refuse(alloc, &node.place, Wrong::BadUpdate),
    }
}

/// The lines with that of one more node. After a fault they are given up.
#[tactic(auto, unfolding(crate::specs::Updates::with_line))]
fn with_line(
    alloc: Global,
    dict: &Dict,
    block: ListName,
    lines: &mut Lines,
    node: &Node,
) -> Result<(), TreeFault>
    ensures { Leaves result (with_line dict.now block lines.old node.now) lines.new }
{
    let line = line_at(alloc, dict, block, node)?;
    lines.push(line)?;
    Ok(())
}

/// The lines of a block's nodes, in order.
fn lines_of(alloc: Global, dict: &Dict, block: ListName, nodes: &[Node]) -> Result<Lines, TreeFault>
    ensures { Gives result (lines_of dict.now block nodes.now) }
{
    let mut lines = Lines::new(alloc);
    for node in nodes {
        with_line(alloc, dict, block, &mut lines, node)?;
    }
    Ok(lines)
}

/// The list of an update.
#[tactic(auto, unfolding(crate::specs::Updates::list_at))]
fn list_at(alloc: Global, place: &Place, name: &Option<Word>) -> Result<ListName, TreeFault>
    ensures { Gives result (list_at place.now name.now) }
{
    let Some(word) = name else {
        return refuse(alloc, place, Wrong::BadUpdate);
    };
    match list_named(word.text.as_slice()) {
        None => refuse(alloc, place, Wrong::BadUpdate),
        Some(list) => Ok(list),
    }
}

/// The lines of an update, where so many more blocks may be opened and the server has room for so many statements more.
#[tactic(auto, unfolding(crate::specs::Updates::update_at))]
pub(crate) fn update_at(
    alloc: Global,
    dict: &Dict,
    levels: u32,
    room: usize,
    place: &Place,
    name: &Option<Word>,
    nodes: &[Node],
) -> Result<Lines, TreeFault>
    ensures { Gives result (update_at dict.now levels room place.now name.now nodes.now) }
{
    let list = list_at(alloc, place, name)?;
    one_deeper(alloc, levels, place)?;
    one_more(alloc, room, place)?;
    lines_of(alloc, dict, list, nodes)
}
