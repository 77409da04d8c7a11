//! Whether items match.

ghost use Rattle.std.specs.Prelude.{◌≡◌, IfOk, IfSome, slice_get, is_some};
ghost use Rattle.std.specs.Option.{option_copied};
ghost use Rattle.std.specs.List.{list_any};
ghost use Rattle.regex.specs.Bytes.{regex_source};
ghost use Rattle.rad_value.specs.Pairs.{first_value};
ghost use Rattle.rad_pairs.specs.ValueText.{plain_text};
ghost use Rattle.mod_users.specs.Patterns.{pattern_of, is_found_in, IsCompiled, IsReady};
ghost use Rattle.mod_users.specs.Rows.{AreReady, IsReadyRow, regex_at};
ghost use Rattle.mod_users.specs.Fits.{compares, found_by, is_met, first_meets, is_equal_to, is_fit, are_fit, is_for, fits, check_fits, reply_met};

use crate::Entry;
use crate::row::Row;
use rad_dict::Dict;
use rad_outside::NoMemory;
use rad_pairs::{Item, ItemList, PairOp, put_plain};
use rad_value::{Cmp, ListName, Lists, Pair, Value, compare};
use regex::bytes::Regex;
use std::alloc::Global;

/// Whether a comparison holds of a value and an item's.
fn compares(cmp: Cmp, item: &Item, value: &Value) -> bool
    ensures { result ≡ compares cmp item.now.value value.now }
{
    compare(value, cmp, &item.value).unwrap_or(false)
}

/// Whether a compiled pattern matches in a text.
fn is_found(alloc: Global, regex: &Regex, text: &[u8]) -> Result<bool, NoMemory>
    requires { IsCompiled (regex_source regex.now) regex.now }
    ensures { IfOk result (λ found. found ≡ is_found_in (regex_source regex.now) text.now) }
{
    let mut matcher = regex.matcher(alloc)?;
    Ok(matcher.is_match(text))
}

/// Whether the pattern of an item, which is compiled, matches in the text of a value; none where it has no pattern.
fn found_by(
    alloc: Global,
    item: &Item,
    regex: Option<&Regex>,
    value: &Value,
    dict: &Dict,
) -> Result<Option<bool>, NoMemory>
    requires { IsReady (pattern_of item.now) (option_copied regex) }
    ensures { IfOk result (λ found. found ≡ found_by item.now (plain_text item.now.attr value.now dict.now)) }
{
    let Some(regex) = regex else {
        return Ok(None);
    };
    let mut text = Vec::new(alloc);
    put_plain(alloc, &mut text, item.attr, value, dict)?;
    Ok(Some(is_found(alloc, regex, text.as_slice())?))
}

/// Whether a value meets an item with its pattern, if any.
pub fn is_met(
    alloc: Global,
    item: &Item,
    regex: Option<&Regex>,
    value: &Value,
    dict: &Dict,
) -> Result<bool, NoMemory>
    requires { IsReady (pattern_of item.now) (option_copied regex) }
    ensures { IfOk result (λ met. met ≡ is_met item.now.op item.now dict.now value.now) }
{
    Ok(match item.op {
        PairOp::Eq | PairOp::Append | PairOp::None => false,
        PairOp::Set | PairOp::Any => true,
        PairOp::Equal => compares(Cmp::Eq, item, value),
        PairOp::Differs => compares(Cmp::Ne, item, value),
        PairOp::Lt => compares(Cmp::Lt, item, value),
        PairOp::Le => compares(Cmp::Le, item, value),
        PairOp::Gt => compares(Cmp::Gt, item, value),
        PairOp::Ge => compares(Cmp::Ge, item, value),
        PairOp::Match => found_by(alloc, item, regex, value, dict)?.unwrap_or(false),
        PairOp::NoMatch => !found_by(alloc, item, regex, value, dict)?.unwrap_or(true),
    })
}

/// Whether the first of the request's values of an item's attribute meets the item.
fn first_meets(
    alloc: Global,
    item: &Item,
    regex: Option<&Regex>,
    lists: &Lists,
    dict: &Dict,
) -> Result<bool, NoMemory>
    requires { IsReady (pattern_of item.now) (option_copied regex) }
    ensures { IfOk result (λ met. met ≡ first_meets item.now lists.now.request dict.now) }
{
    match lists.nth(ListName::Request, item.attr, 0) {
        Some(value) => is_met(alloc, item, regex, value, dict),
        None => Ok(false),
    }
}

/// Whether a pair is of an item's attribute and has an equal value.
fn is_equal_to(item: &Item, pair: &Pair) -> bool
    ensures { result ≡ is_equal_to item.now pair.now }
{
    pair.attr == item.attr && compares(Cmp::Eq, item, &pair.value)
}

/// Whether any of the request's values is equal to an item's.
fn has_equal(item: &Item, lists: &Lists) -> bool
    ensures { result ≡ list_any (is_equal_to item.now) lists.now.request }
{
    for n in 0..lists.len(ListName::Request) {
        let Some(pair) = lists.get(ListName::Request, n) else {
            return false;
        };
        if is_equal_to(item, pair) {
            return true;
        }
    }
    false
}

/// Whether the request has a value of an item's attribute.
fn is_there(item: &Item, lists: &Lists) -> bool
    ensures { result ≡ is_some (first_value item.now.attr lists.now.request) }
{
    lists.nth(ListName::Request, item.attr, 0).is_some()
}

/// Whether a check item with its pattern, if any, matches the request.
pub fn is_fit(
    alloc: Global,
    item: &Item,
    regex: Option<&Regex>,
    lists: &Lists,
    dict: &Dict,
) -> Result<bool, NoMemory>
    requires { IsReady (pattern_of item.now) (option_copied regex) }
    ensures { IfOk result (λ fit. fit ≡ is_fit item.now.op item.now lists.now.request dict.now) }
{
    match item.op {
        PairOp::Eq | PairOp::Set | PairOp::Append => Ok(true),
        PairOp::Equal => Ok(has_equal(item, lists)),
        PairOp::Differs
        | PairOp::Lt
        | PairOp::Le
        | PairOp::Gt
        | PairOp::Ge
        | PairOp::Match
        | PairOp::NoMatch => first_meets(alloc, item, regex, lists, dict),
        PairOp::Any => Ok(is_there(item, lists)),
        PairOp::None => Ok(!is_there(item, lists)),
    }
}

/// What stands at this place among the compiled patterns.
fn regex_at(regexes: &[Option<Regex>], n: usize) -> Option<&Regex>
    ensures { option_copied result ≡ regex_at regexes.now n }
{
    match regexes.get(n) {
        Some(Some(regex)) => Some(regex),
        _ => None,
    }
}

/// The compiled pattern of the item of this place, where it has one.
fn pattern_at<'a>(_items: &ItemList, regexes: &'a [Option<Regex>], n: usize) -> Option<&'a Regex>
    requires { AreReady _items.now regexes.now }
    ensures { IfSome (slice_get _items.now n) (λ item. IsReady (pattern_of item) (option_copied result)) }
{
    regex_at(regexes, n)
}

/// Whether all check items match the request.
fn are_fit(
    alloc: Global,
    items: &ItemList,
    regexes: &[Option<Regex>],
    lists: &Lists,
    dict: &Dict,
) -> Result<bool, NoMemory>
    requires { AreReady items.now regexes.now }
    ensures { IfOk result (λ fit. fit ≡ are_fit items.now lists.now.request dict.now) }
{
    for n in 0..items.len() {
        let Some(item) = items.get(n) else {
            return Ok(true);
        };
        if !is_fit(alloc, item, pattern_at(items, regexes, n), lists, dict)? {
            return Ok(false);
        }
    }
    Ok(true)
}

/// Whether an entry is of this key, or for every key.
fn is_for(key: &[u8], entry: &Entry) -> bool
    ensures { result ≡ is_for key.now entry.now }
{
    let name = entry.name.as_slice();
    name == b"DEFAULT".as_slice() || name == key
}

/// Whether an entry matches the request under this key.
#[tactic(auto, unfolding(crate::specs::Fits::fits))]
pub fn fits(
    alloc: Global,
    row: &Row,
    key: &[u8],
    lists: &Lists,
    dict: &Dict,
) -> Result<bool, NoMemory>
    requires { IsReadyRow row.now }
    ensures { IfOk result (λ fit. fit ≡ fits row.now.entry key.now lists.now.request dict.now) }
{
    if !is_for(key, &row.entry) {
        return Ok(false);
    }
    are_fit(alloc, &row.entry.checks, row.checks.as_slice(), lists, dict)
}

/// Whether the check item of this place matches the request. There it has to be.
pub fn check_fits(
    alloc: Global,
    row: &Row,
    place: usize,
    lists: &Lists,
    dict: &Dict,
) -> Result<bool, NoMemory>
    requires { IsReadyRow row.now }
    ensures { IfOk result (λ fit. fit ≡ check_fits place lists.now.request dict.now row.now.entry) }
{
    match row.entry.checks.get(place) {
        Some(item) => is_fit(
            alloc,
            item,
            pattern_at(&row.entry.checks, row.checks.as_slice(), place),
            lists,
            dict,
        ),
        None => Ok(false),
    }
}

/// Whether a value meets the reply item of this place. There it has to be.
pub fn reply_met(
    alloc: Global,
    row: &Row,
    place: usize,
    value: &Value,
    dict: &Dict,
) -> Result<bool, NoMemory>
    requires { IsReadyRow row.now }
    ensures { IfOk result (λ met. met ≡ reply_met place value.now dict.now row.now.entry) }
{
    match row.entry.replies.get(place) {
        Some(item) => is_met(
            alloc,
            item,
            pattern_at(&row.entry.replies, row.replies.as_slice(), place),
            value,
            dict,
        ),
        None => Ok(false),
    }
}
