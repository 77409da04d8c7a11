//! Texts of pairs that are read.

ghost use Rattle.std.specs.Prelude.{◌≡◌, ◌++◌, ◌≤◌, ◌<◌, length, IfOk, IfErr, OnOk, IfSome};
ghost use Rattle.std.specs.Option.{option_map, option_to_list};
ghost use Rattle.rad_text.specs.Find.{Finds};
ghost use Rattle.rad_text.specs.Read.{Gives};
ghost use Rattle.rad_text.specs.Answers.{IsAnswer};
ghost use Rattle.rad_pairs.specs.PairParts.{is_missing, value_behind, separated, value_at, operator_of};
ghost use Rattle.rad_pairs.specs.Items.{value_error, pair_at, part_at, octets_left, error_left, fault_at, items_of, says};
ghost use Rattle.rad_pairs.specs.PlainItems.{is_plain, other_operator, plain_part_at, part_taking, items_taking, plain_items_of};

use crate::attr_reading::{AttrKind, attr_by_name};
use crate::fault::{NoValue, Wrong};
use crate::operators::{Operator, Taking, operator_at};
use crate::value_reading::value_of;
use crate::words::{after_separator, name_len, word_at};
use crate::{Item, ItemList, PairFault, PairOp};
use rad_dict::Dict;
use rad_outside::Octets;
use rad_text::{ReadError, after_blanks, after_line_end, spot_of};
use rad_value::Value;
use std::alloc::Global;

/// Whether no value stands at the front.
pub fn is_missing(text: &[u8]) -> bool
    ensures { result ≡ is_missing text.now }
{
    match text {
        [] => true,
        _ => after_separator(text).is_some(),
    }
}

/// The value of a word, where there is one, behind an operator.
pub fn value_behind(
    alloc: Global,
    op: PairOp,
    attr: AttrKind,
    word: Option<Octets>,
    dict: &Dict,
) -> Result<Value, ReadError<NoValue>>
    ensures { Finds (λ value. value) result (value_behind op attr word dict.now) }
{
    match (op, word) {
        (PairOp::Any | PairOp::None, _) => Ok(Value::Text(Octets::from_vec(Vec::new(alloc)))),
        (_, None) => Err(ReadError::Wrong(NoValue)),
        (PairOp::Match | PairOp::NoMatch, Some(word)) => Ok(Value::Text(word)),
        (_, Some(word)) => value_of(alloc, attr, word.as_slice(), dict),
    }
}

/// What follows a pair, from behind the blanks after it on.
pub fn separated(text: &[u8]) -> Option<&[u8]>
    ensures exact { option_map (λ x. x.now) result ≡ separated text.now }
    ensures shorter { IfSome result (λ x. length x.now ≤ length text.now) }
{
    match text {
        [] => Some(text),
        _ => after_separator(text),
    }
}

/// The value at the front, and what follows its pair.
#[tactic(auto, unfolding(crate::specs::PairParts::value_at))]
fn value_at<'a>(
    alloc: Global,
    op: PairOp,
    attr: AttrKind,
    text: &'a [u8],
    dict: &Dict,
) -> Result<(Value, &'a [u8]), ReadError<NoValue>>
    ensures exact { Finds (λ x. (x.0, x.1.now)) result (value_at op attr text.now dict.now) }
    ensures shorter { IfOk result (λ x. length x.1.now ≤ length text.now) }
{
    let (word, rest) = word_at(alloc, text)?;
    let word = if is_missing(text) { None } else { Some(word) };
    let value = value_behind(alloc, op, attr, word, dict)?;
    let rest = separated(after_blanks(rest)).ok_or(ReadError::Wrong(NoValue))?;
    Ok((value, rest))
}

/// The operator of a pair at the front, and what follows it.
#[tactic(auto, unfolding(crate::specs::PairParts::operator_of))]
pub fn operator_of(text: &[u8]) -> Option<(PairOp, &[u8])>
    ensures exact { option_map (λ x. (x.0, x.1.now)) result ≡ operator_of text.now }
    ensures shorter { IfSome result (λ x. length x.1.now < length text.now) }
{
    match operator_at(text)? {
        (Operator::OfPair(op), rest) => Some((op, rest)),
        (Operator::Remove, _) => None,
    }
}

/// The value's fault, at the value.
fn value_error(error: ReadError<NoValue>, left: usize) -> ReadError<Wrong>
    ensures { result ≡ value_error error left }
{
    match error {
        ReadError::Wrong(NoValue) => ReadError::Wrong(Wrong::BadValue(left)),
        ReadError::NoMemory => ReadError::NoMemory,
    }
}

/// A pair, and what follows it.
#[tactic(auto, unfolding(crate::specs::Items::pair_at))]
fn pair_at<'a>(
    alloc: Global,
    text: &'a [u8],
    dict: &Dict,
) -> Result<(Item, &'a [u8]), ReadError<Wrong>>
    ensures exact { Gives (λ x. (x.0, x.1.now)) result (pair_at text.now dict.now) }
    ensures shorter { IfOk result (λ x. length x.1.now < length text.now) }
    ensures inside { IfErr result (λ fault. error_left fault ≤ length text.now) }
{
    let (name, rest) = text.split_at(name_len(text));
    let Some(attr) = attr_by_name(name, dict) else {
        return Err(ReadError::Wrong(Wrong::UnknownAttr(text.len())));
    };
    let Some((op, after)) = operator_of(after_blanks(rest)) else {
        return Err(ReadError::Wrong(Wrong::BadOperator(rest.len())));
    };
    let start = after_blanks(after);
    match value_at(alloc, op, attr, start, dict) {
        Ok((value, rest)) => Ok((
            Item {
                attr: attr.id,
                op,
                value,
            },
            rest,
        )),
        Err(error) => Err(value_error(error, start.len())),
    }
}

/// A part of a text, and what follows it.
#[tactic(auto, unfolding(crate::specs::Items::part_at))]
fn part_at<'a>(
    alloc: Global,
    text: &'a [u8],
    dict: &Dict,
) -> Result<(Option<Item>, &'a [u8]), ReadError<Wrong>>
    requires { 0 < length text.now }
    ensures exact { Gives (λ x. (x.0, x.1.now)) result (part_at text.now dict.now) }
    ensures shorter { IfOk result (λ x. length x.1.now < length text.now) }
    ensures inside { IfErr result (λ fault. error_left fault ≤ length text.now) }
{
    let start = after_blanks(text);
    if start.is_empty() {
        return Ok((None, start));
    }
    if let Some(rest) = after_line_end(start) {
        return Ok((None, rest));
    }
    let (item, rest) = pair_at(alloc, start, dict)?;
    Ok((Some(item), rest))
}

/// Whether the operator is `=`.
fn is_plain(op: PairOp) -> bool
    ensures { result ≡ is_plain op }
{
    matches!(op, PairOp::Eq)
}

/// What is wrong with the pair at the front where `=` alone is taken: another operator behind an attribute's name, at
/// the name's end.
#[tactic(auto, unfolding(crate::specs::PlainItems::other_operator))]
fn other_operator(text: &[u8], dict: &Dict) -> Option<Wrong>
    ensures exact { result ≡ other_operator text.now dict.now }
    ensures inside { IfSome result (λ wrong. octets_left wrong ≤ length text.now) }
{
    let (name, rest) = text.split_at(name_len(text));
    attr_by_name(name, dict)?;
    let (op, _) = operator_of(after_blanks(rest))?;
    if is_plain(op) {
        None
    } else {
        Some(Wrong::BadOperator(rest.len()))
    }
}

/// A part of a text that takes `=` alone, and what follows it.
#[tactic(auto, unfolding(crate::specs::PlainItems::plain_part_at))]
fn plain_part_at<'a>(
    alloc: Global,
    text: &'a [u8],
    dict: &Dict,
) -> Result<(Option<Item>, &'a [u8]), ReadError<Wrong>>
    requires { 0 < length text.now }
    ensures exact { Gives (λ x. (x.0, x.1.now)) result (plain_part_at text.now dict.now) }
    ensures shorter { IfOk result (λ x. length x.1.now < length text.now) }
    ensures inside { IfErr result (λ fault. error_left fault ≤ length text.now) }
{
    match other_operator(after_blanks(text), dict) {
        Some(wrong) => Err(ReadError::Wrong(wrong)),
        None => part_at(alloc, text, dict),
    }
}

/// A part of a text that takes these operators, and what follows it.
fn part_taking<'a>(
    alloc: Global,
    taking: Taking,
    text: &'a [u8],
    dict: &Dict,
) -> Result<(Option<Item>, &'a [u8]), ReadError<Wrong>>
    requires { 0 < length text.now }
    ensures exact { Gives (λ x. (x.0, x.1.now)) result (part_taking taking dict.now text.now) }
    ensures shorter { IfOk result (λ x. length x.1.now < length text.now) }
    ensures inside { IfErr result (λ fault. error_left fault ≤ length text.now) }
{
    match taking {
        Taking::Every => part_at(alloc, text, dict),
        Taking::Plain => plain_part_at(alloc, text, dict),
    }
}

/// Adds an item, where there is one.
fn add(items: &mut Vec<Item>, item: Option<Item>) -> Result<(), PairFault>
    ensures ok { OnOk result (items.new.items ≡ items.old.items ++ option_to_list item) }
    ensures err { IfErr result (λ fault. fault ≡ PairFault.NoMemory) }
{
    if let Some(item) = item {
        match items.push(item) {
            Ok(()) => {}
            Err(_refused) => return Err(PairFault::NoMemory),
        }
    }
    Ok(())
}

/// Why a part could not be read, with its place in the text.
fn fault_at(text: &[u8], error: ReadError<Wrong>) -> PairFault
    requires { error_left error ≤ length text.now }
    ensures { result ≡ fault_at text.now error }
{
    match error {
        ReadError::Wrong(Wrong::UnknownAttr(left)) => PairFault::UnknownAttr(spot_of(text, left)),
        ReadError::Wrong(Wrong::BadOperator(left)) => PairFault::BadOperator(spot_of(text, left)),
        ReadError::Wrong(Wrong::BadValue(left)) => PairFault::BadValue(spot_of(text, left)),
        ReadError::NoMemory => PairFault::NoMemory,
    }
}

/// The pairs of a text that takes these operators, in reading order, or the first fault at its place.
fn items_taking(
    alloc: Global,
    taking: Taking,
    text: &[u8],
    dict: &Dict,
) -> Result<ItemList, PairFault>
    ensures { IsAnswer says (items_taking taking text.now dict.now) result }
{
    let mut items = Vec::new(alloc);
    let mut rest = text;
    while !rest.is_empty() {
        match part_taking(alloc, taking, rest, dict) {
            Ok((item, after)) => {
                add(&mut items, item)?;
                rest = after;
            }
            Err(error) => return Err(fault_at(text, error)),
        }
    }
    Ok(ItemList::from_vec(items))
}

/// The pairs of a text, `NAME OPERATOR VALUE`, parted by commas or line ends, as users(5) and radclient(1) write
/// them, in reading order; or the first fault at its place. For each pair UnknownAttr comes before BadOperator, and
/// that before BadValue.
#[tactic(auto, unfolding(crate::specs::Items::items_of))]
pub fn read_pairs(alloc: Global, text: &[u8], dict: &Dict) -> Result<ItemList, PairFault>
    ensures { IsAnswer says (items_of text.now dict.now) result }
{
    items_taking(alloc, Taking::Every, text, dict)
}

/// The same of a text that takes `=` alone, as radclient(1) does: another operator is BadOperator, whatever stands
/// behind it.
#[tactic(auto, unfolding(crate::specs::PlainItems::plain_items_of))]
pub fn read_plain_pairs(alloc: Global, text: &[u8], dict: &Dict) -> Result<ItemList, PairFault>
    ensures { IsAnswer says (plain_items_of text.now dict.now) result }
{
    items_taking(alloc, Taking::Plain, text, dict)
}
