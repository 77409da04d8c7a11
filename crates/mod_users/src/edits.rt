//! The edits of an entry.

ghost use Rattle.std.specs.Prelude.{◌≡◌, ◌∷◌, [], IfOk};
ghost use Rattle.mod_users.specs.Files.{is_fall_through, is_equals, is_yes, goes_through, falls_through, edit_op, edit_of, edits_of, entry_edits, all_tried};

use crate::Entry;
use rad_outside::NoMemory;
use rad_pairs::{Item, ItemList, PairOp};
use rad_value::{Edit, EditOp, ListName, Lists, Value};
use rad_words::{AttrId, Space};
use std::alloc::Global;

/// The internal attribute Fall-Through.
const FALL_THROUGH: AttrId = AttrId {
    space: Space::Internal,
    number: 9,
};

fn is_fall_through(item: &Item) -> bool
    ensures { result ≡ is_fall_through item.now }
{
    item.attr == FALL_THROUGH
}

/// Whether a value is the text `Yes`, in any case.
fn is_yes(value: &Value) -> bool
    ensures { result ≡ is_yes value.now }
{
    match value {
        Value::Text(text) => text.as_slice().eq_ignore_ascii_case(b"Yes"),
        _ => false,
    }
}

/// Whether this is `Fall-Through = Yes`.
fn goes_through(item: &Item) -> bool
    ensures { result ≡ goes_through item.now }
{
    is_fall_through(item) && matches!(item.op, PairOp::Eq) && is_yes(&item.value)
}

/// Whether the search goes on behind an entry.
pub fn falls_through(entry: &Entry) -> bool
    ensures { result ≡ falls_through entry.now }
{
    for n in 0..entry.replies.len() {
        let Some(item) = entry.replies.get(n) else {
            return false;
        };
        if goes_through(item) {
            return true;
        }
    }
    false
}

/// The edit that an operator stands for.
fn edit_op(op: PairOp) -> Option<EditOp>
    ensures { result ≡ edit_op op }
{
    match op {
        PairOp::Eq => Some(EditOp::AddIfNone),
        PairOp::Set => Some(EditOp::Set),
        PairOp::Append => Some(EditOp::Append),
        PairOp::Equal
        | PairOp::Differs
        | PairOp::Lt
        | PairOp::Le
        | PairOp::Gt
        | PairOp::Ge
        | PairOp::Match
        | PairOp::NoMatch
        | PairOp::Any
        | PairOp::None => None,
    }
}

/// The edit of a list that an item stands for.
fn edit_of(alloc: Global, list: ListName, item: &Item) -> Result<Option<Edit>, NoMemory>
    ensures { IfOk result (λ edit. edit ≡ edit_of list item.now) }
{
    if is_fall_through(item) {
        return Ok(None);
    }
    let Some(op) = edit_op(item.op) else {
        return Ok(None);
    };
    Ok(Some(Edit {
        list,
        attr: item.attr,
        op,
        value: item.value.try_clone(alloc)?,
    }))
}

/// Does an item to a list, and answers whether the list wasn't full for it.
fn do_item(alloc: Global, list: ListName, item: &Item, lists: &mut Lists) -> Result<bool, NoMemory>
    ensures { IfOk result (λ done. (lists.new, done) ≡ all_tried lists.old (edits_of list (item.now ∷ []))) }
{
    match edit_of(alloc, list, item)? {
        Some(edit) => lists.try_update(&edit),
        None => Ok(true),
    }
}

/// Does the items to a list in order, up to the first for which it is full, and answers whether there was none.
fn do_items(
    alloc: Global,
    list: ListName,
    items: &ItemList,
    lists: &mut Lists,
) -> Result<bool, NoMemory>
    ensures { IfOk result (λ done. (lists.new, done) ≡ all_tried lists.old (edits_of list items.now)) }
{
    for n in 0..items.len() {
        let Some(item) = items.get(n) else {
            return Ok(true);
        };
        if !do_item(alloc, list, item, lists)? {
            return Ok(false);
        }
    }
    Ok(true)
}

/// Does an entry's check items to the control list and then its reply items to the reply list.
pub fn do_entry(alloc: Global, entry: &Entry, lists: &mut Lists) -> Result<bool, NoMemory>
    ensures { IfOk result (λ done. (lists.new, done) ≡ all_tried lists.old (entry_edits entry.now)) }
{
    if !do_items(alloc, ListName::Control, &entry.checks, lists)? {
        return Ok(false);
    }
    do_items(alloc, ListName::Reply, &entry.replies, lists)
}
