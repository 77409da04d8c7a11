//! The items of a filter for a key.

ghost use Rattle.std.specs.Prelude.{◌≡◌, ◌||◌, ◌∷◌, ◌++◌, [], List, Some, slice_get, IfOk, OnOk};
ghost use Rattle.mod_users.specs.declared.entry.Entry.{Entry as AnEntry};
ghost use Rattle.std.specs.Option.{option_copied};
ghost use Rattle.mod_users.specs.Files.{is_fall_through, is_yes, has_any};
ghost use Rattle.mod_users.specs.Fits.{is_for};
ghost use Rattle.mod_filter.specs.Filter.{is_set, goes_through, falls_through, found, goes_by, rules_named, rules_of, rules_in, rule_at, rules_at, rule_for};

use mod_users::{Entry, Users};
use rad_outside::NoMemory;
use rad_pairs::{Item, PairOp};
use rad_value::Value;
use rad_words::{AttrId, Space};
use std::alloc::Global;

/// The internal attribute Fall-Through.
const FALL_THROUGH: AttrId = AttrId {
    space: Space::Internal,
    number: 9,
};

/// Where an item of a filter stands: the number of its entry, and its own among the entry's reply items, from 0.
#[derive(Clone, Copy, Debug, PartialEq, Eq)]
pub(crate) struct Rule {
    pub entry: u32,
    pub item: u32,
}

/// The items of the entries that were found for a key.
#[derive(Debug, Drop)]
pub(crate) struct Rules {
    /// Whether there was an entry.
    pub found: bool,
    pub rules: Vec<Rule>,
}

fn is_fall_through(item: &Item) -> bool
    ensures { result ≡ is_fall_through item.now }
{
    item.attr == FALL_THROUGH
}

/// Whether a value is the text `Yes`, in any case.
fn is_yes(value: &Value) -> bool
    ensures { result ≡ is_yes value.now }
{
    match value {
        Value::Text(text) => text.as_slice().eq_ignore_ascii_case(b"Yes"),
        _ => false,
    }
}

/// Whether the operator is `:=`.
pub(crate) fn is_set(op: PairOp) -> bool
    ensures { result ≡ is_set op }
{
    matches!(op, PairOp::Set)
}

/// Whether this is `Fall-Through := Yes`.
fn goes_through(item: &Item) -> bool
    ensures { result ≡ goes_through item.now }
{
    is_fall_through(item) && is_set(item.op) && is_yes(&item.value)
}

/// Whether the search goes on behind an entry.
fn falls_through(entry: &Entry) -> bool
    ensures { result ≡ falls_through entry.now }
{
    for n in 0..entry.replies.len() {
        let Some(item) = entry.replies.get(n) else {
            return false;
        };
        if goes_through(item) {
            return true;
        }
    }
    false
}

/// Whether an entry is of a key, or for every key.
fn is_for(key: &[u8], entry: &Entry) -> bool
    ensures { result ≡ is_for key.now entry.now }
{
    entry.name.as_slice() == b"DEFAULT".as_slice() || entry.name.as_slice() == key
}

/// The item of a rule.
pub(crate) fn rule_at(users: &Users, rule: Rule) -> Option<&Item>
    ensures { option_copied result ≡ rule_at users.now rule }
{
    match users.get(rule.entry) {
        Some(entry) => entry.replies.get(rule.item as usize),
        None => None,
    }
}

/// Adds the items of an entry to a filter, but those of Fall-Through.
fn push_rules(rules: &mut Vec<Rule>, number: u32, entry: &Entry) -> Result<(), NoMemory>
    ensures { OnOk result ((users : List AnEntry) → slice_get users number ≡ Some entry.now
        → rules_at users rules.new.items ≡ rules_at users rules.old.items ++ rules_of entry.now) }
{
    for n in 0..entry.replies.len() {
        let Some(item) = entry.replies.get(n) else {
            return Ok(());
        };
        push_rule(rules, number, n, item)?;
    }
    Ok(())
}

/// Adds an item to a filter, if it isn't one of Fall-Through. No file has 2^32 items; one that had would be given up as want of
/// memory.
fn push_rule(rules: &mut Vec<Rule>, entry: u32, n: usize, item: &Item) -> Result<(), NoMemory>
    ensures { OnOk result (rules.new.items ≡ rules.old.items ++ rule_for entry n item.now) }
{
    if is_fall_through(item) {
        return Ok(());
    }
    let Ok(item) = u32::try_from(n) else {
        return Err(NoMemory);
    };
    rules.push(Rule { entry, item })?;
    Ok(())
}

/// Adds the items of an entry to a filter, where it is of the key, and answers whether the search goes on behind it.
fn take_entry(made: &mut Rules, number: u32, entry: &Entry, key: &[u8]) -> Result<bool, NoMemory>
    ensures more { IfOk result (λ more. more ≡ goes_by key.now entry.now) }
    ensures found { OnOk result (made.new.found ≡ (made.old.found || is_for key.now entry.now)) }
    ensures rules { OnOk result ((users : List AnEntry) → slice_get users number ≡ Some entry.now
        → rules_at users made.new.rules.items ≡ rules_at users made.old.rules.items ++ rules_named key.now entry.now) }
{
    if !is_for(key, entry) {
        return Ok(true);
    }
    made.found = true;
    push_rules(&mut made.rules, number, entry)?;
    Ok(falls_through(entry))
}

/// The items of a filter for a key.
pub(crate) fn rules_for(alloc: Global, users: &Users, key: &[u8]) -> Result<Rules, NoMemory>
    ensures found { IfOk result (λ made. made.found ≡ has_any (found users.now key.now)) }
    ensures rules { IfOk result (λ made. rules_at users.now made.rules.items ≡ rules_in (found users.now key.now)) }
{
    let mut made = Rules {
        found: false,
        rules: Vec::new(alloc),
    };
    for n in 0..users.len() {
        let Some(entry) = users.get(n) else {
            return Ok(made);
        };
        if !take_entry(&mut made, n, entry, key)? {
            return Ok(made);
        }
    }
    Ok(made)
}
