//! The items of a line of a users file.

ghost use Rattle.std.specs.Prelude.{◌≡◌, ◌≤◌, ◌<◌, length, IfOk, IfSome};
ghost use Rattle.std.specs.Option.{option_map};
ghost use Rattle.rad_text.specs.Find.{Finds};
ghost use Rattle.rad_text.specs.Read.{Gives};
ghost use Rattle.mod_users.specs.ItemParts.{is_behind_blank, solid, operator_at, value_at};
ghost use Rattle.mod_users.specs.Items.{item_at, spot_in, fault_in, placed, items_of};

use crate::fault::{LineFault, Wrong};
use crate::form::{Form, takes};
use crate::placed::{Placed, PlacedList};
use rad_dict::Dict;
use rad_outside::NoMemory;
use rad_pairs::{
    AttrKind, Item, NoValue, PairOp, Spot, attr_by_name, is_missing, name_len, operator_of,
    separated, value_behind, word_at,
};
use rad_text::{ReadError, after_blanks, is_blank};
use rad_value::Value;
use rad_words::Space;
use std::alloc::Global;

/// An item, and how many octets of its line are left from its value on.
#[derive(Debug, Drop)]
pub struct Seen {
    pub item: Item,
    pub left: usize,
}

/// The items of a line up to the first that is wrong, and what is wrong with that.
#[derive(Debug, Drop)]
pub struct Cut {
    pub items: PlacedList,
    pub wrong: Option<LineFault>,
}

/// Whether a blank stands at the front.
fn is_behind_blank(text: &[u8]) -> bool
    ensures { result ≡ is_behind_blank text.now }
{
    match text {
        [] => false,
        [octet, ..] => is_blank(*octet),
    }
}

/// What follows the blanks at the front, or nothing where a comment begins there.
#[tactic(auto, unfolding(crate::specs::ItemParts::solid))]
fn solid(parted: bool, text: &[u8]) -> &[u8]
    ensures rest { result.now ≡ solid parted text.now }
    ensures shorter { length result.now ≤ length text.now }
{
    let rest = after_blanks(text);
    if (parted || is_behind_blank(text)) && rest.first() == Some(&b'#') {
        return &[];
    }
    rest
}

/// The operator of an item at the front, where it may have it there, and what follows it.
#[tactic(auto, unfolding(crate::specs::ItemParts::operator_at))]
fn operator_at(form: Form, space: Space, text: &[u8]) -> Option<(PairOp, &[u8])>
    ensures exact { option_map (λ x. (x.0, x.1.now)) result ≡ operator_at form space text.now }
    ensures shorter { IfSome result (λ x. length x.1.now < length text.now) }
{
    let (op, rest) = operator_of(text)?;
    if !takes(form, space, op) {
        return None;
    }
    Some((op, rest))
}

/// The value at the front, and what follows its item.
#[tactic(auto, unfolding(crate::specs::ItemParts::value_at))]
fn value_at<'a>(
    alloc: Global,
    op: PairOp,
    attr: AttrKind,
    text: &'a [u8],
    dict: &Dict,
) -> Result<(Value, &'a [u8]), ReadError<NoValue>>
    ensures exact { Finds (λ x. (x.0, x.1.now)) result (value_at op attr text.now dict.now) }
    ensures shorter { IfOk result (λ x. length x.1.now ≤ length text.now) }
{
    let (word, rest) = word_at(alloc, text)?;
    let word = if is_missing(text) { None } else { Some(word) };
    let value = value_behind(alloc, op, attr, word, dict)?;
    let rest = separated(solid(false, rest)).ok_or(ReadError::Wrong(NoValue))?;
    Ok((value, rest))
}

/// An item, and what follows it.
#[tactic(auto, unfolding(crate::specs::Items::item_at))]
fn item_at<'a>(
    alloc: Global,
    form: Form,
    text: &'a [u8],
    dict: &Dict,
) -> Result<(Seen, &'a [u8]), ReadError<Wrong>>
    ensures exact { Gives (λ x. (x.0, x.1.now)) result (item_at form text.now dict.now) }
    ensures shorter { IfOk result (λ x. length x.1.now < length text.now) }
{
    let (name, rest) = text.split_at(name_len(text));
    let Some(attr) = attr_by_name(name, dict) else {
        return Err(ReadError::Wrong(Wrong::UnknownAttr(text.len())));
    };
    let Some((op, after)) = operator_at(form, attr.id.space, after_blanks(rest)) else {
        return Err(ReadError::Wrong(Wrong::BadOperator(rest.len())));
    };
    let left = after_blanks(after).len();
    match value_at(alloc, op, attr, solid(false, after), dict) {
        Ok((value, rest)) => {
            let item = Item {
                attr: attr.id,
                op,
                value,
            };
            Ok((Seen { item, left }, rest))
        }
        Err(ReadError::Wrong(NoValue)) => Err(ReadError::Wrong(Wrong::BadValue(left))),
        Err(ReadError::NoMemory) => Err(ReadError::NoMemory),
    }
}

/// The spot in a line from which on so many octets are left.
fn spot_in(number: u32, width: usize, left: usize) -> Spot
    ensures { result ≡ spot_in number width left }
{
    let before = width.saturating_sub(left);
    Spot {
        line: number,
        column: (before.min(4_294_967_294) + 1) as u32,
    }
}

/// What is wrong, with its spot.
fn fault_in(number: u32, width: usize, wrong: Wrong) -> LineFault
    ensures { result ≡ fault_in number width wrong }
{
    match wrong {
        Wrong::UnknownAttr(left) => LineFault::UnknownAttr(spot_in(number, width, left)),
        Wrong::BadOperator(left) => LineFault::BadOperator(spot_in(number, width, left)),
        Wrong::BadValue(left) => LineFault::BadValue(spot_in(number, width, left)),
    }
}

/// An item with its spot.
fn placed(number: u32, width: usize, seen: Seen) -> Placed
    ensures { result ≡ placed number width seen }
{
    let Seen { item, left } = seen;
    Placed {
        item,
        spot: spot_in(number, width, left),
    }
}

/// The items of what is left of a line of this number and so many octets, up to the first that is wrong.
pub fn items_of(
    alloc: Global,
    form: Form,
    parted: bool,
    number: u32,
    width: usize,
    text: &[u8],
    dict: &Dict,
) -> Result<Cut, NoMemory>
    ensures { IfOk result (λ cut. (cut.items, cut.wrong) ≡ items_of form parted number width text.now dict.now) }
{
    let mut items = Vec::new(alloc);
    let mut rest = solid(parted, text);
    while !rest.is_empty() {
        match item_at(alloc, form, rest, dict) {
            Ok((seen, after)) => {
                items.push(placed(number, width, seen))?;
                rest = solid(true, after);
            }
            Err(ReadError::Wrong(wrong)) => {
                return Ok(Cut {
                    items: PlacedList::from_vec(items),
                    wrong: Some(fault_in(number, width, wrong)),
                });
            }
            Err(ReadError::NoMemory) => return Err(NoMemory),
        }
    }
    Ok(Cut {
        items: PlacedList::from_vec(items),
        wrong: None,
    })
}
