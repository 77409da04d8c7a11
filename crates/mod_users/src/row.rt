//! Entries with their patterns compiled.

ghost use Rattle.std.specs.Prelude.{◌≡◌, ◌++◌, ◌∷◌, [], length, IfOk, OnOk, IfErr};
ghost use Rattle.mod_users.specs.Patterns.{pattern_of, IsReady};
ghost use Rattle.mod_users.specs.Rows.{AreReady, IsRowOf, AreRows, RefusedIn, placed_in, all_placed, IsReadyOf};

use crate::Entry;
use crate::draft::Draft;
use crate::patterns::{compiled, pattern_of};
use crate::placed::{Placed, PlacedList};
use rad_outside::NoMemory;
use rad_pairs::{Item, ItemList, Spot};
use rad_text::ReadError;
use regex::bytes::Regex;
use std::alloc::Global;

/// An entry, and for each of its check items and of its reply items the pattern, compiled, where it looks for one.
#[derive(Drop)]
pub struct Row {
    pub entry: Entry,
    pub checks: Vec<Option<Regex>>,
    pub replies: Vec<Option<Regex>>,
}

/// Items, and their patterns.
#[derive(Drop)]
pub struct Ready {
    pub items: ItemList,
    pub patterns: Vec<Option<Regex>>,
}

/// The pattern of an item, compiled; where it is refused, the spot of the item's value.
fn regex_of(alloc: Global, item: &Item, spot: Spot) -> Result<Option<Regex>, ReadError<Spot>>
    ensures ready { IfOk result (IsReady (pattern_of item.now)) }
    ensures refused { IfErr result (λ error. RefusedIn error (record { item = item.now; spot = spot } ∷ [])) }
{
    let Some(source) = pattern_of(item) else {
        return Ok(None);
    };
    match compiled(alloc, source)? {
        Some(regex) => Ok(Some(regex)),
        None => Err(ReadError::Wrong(spot)),
    }
}

/// Adds an item and its pattern.
fn keep(
    items: &mut Vec<Item>,
    patterns: &mut Vec<Option<Regex>>,
    item: Item,
    regex: Option<Regex>,
) -> Result<(), NoMemory>
    ensures items { OnOk result (items.new.items ≡ items.old.items ++ item ∷ []) }
    ensures patterns { OnOk result (patterns.new.items ≡ patterns.old.items ++ regex ∷ []) }
{
    items.push(item)?;
    patterns.push(regex)?;
    Ok(())
}

/// Items with their patterns; where one is refused, the spot of the first.
fn ready_items(alloc: Global, placed: PlacedList) -> Result<Ready, ReadError<Spot>>
    ensures ready { IfOk result (λ ready. IsReadyOf placed ready.items ready.patterns.items) }
    ensures refused { IfErr result (λ error. RefusedIn error placed) }
{
    let mut unread = placed.into_vec();
    unread.reverse();
    let mut items = Vec::new(alloc);
    let mut patterns = Vec::new(alloc);
    while let Some(placed) = unread.pop() {
        let Placed { item, spot } = placed;
        match regex_of(alloc, &item, spot) {
            Ok(regex) => keep(&mut items, &mut patterns, item, regex)?,
            Err(error) => return Err(error),
        }
    }
    Ok(Ready {
        items: ItemList::from_vec(items),
        patterns,
    })
}

/// An entry with its patterns; where one is refused, the spot of the first.
fn row_of(alloc: Global, draft: Draft) -> Result<Row, ReadError<Spot>>
    ensures ready { IfOk result (IsRowOf draft) }
    ensures refused { IfErr result (λ error. RefusedIn error (placed_in draft)) }
{
    let Draft {
        name,
        checks,
        replies,
        line,
    } = draft;
    let behind_name = match ready_items(alloc, checks) {
        Ok(ready) => ready,
        Err(error) => return Err(error),
    };
    let below = match ready_items(alloc, replies) {
        Ok(ready) => ready,
        Err(error) => return Err(error),
    };
    let Ready { items, patterns } = behind_name;
    Ok(Row {
        entry: Entry {
            name,
            checks: items,
            replies: below.items,
            line,
        },
        checks: patterns,
        replies: below.patterns,
    })
}

/// The entries with their patterns; where one is refused, the spot of the first.
pub fn rows_of(alloc: Global, drafts: Vec<Draft>) -> Result<Vec<Row>, ReadError<Spot>>
    ensures ready { IfOk result (λ rows. AreRows drafts.items rows.items) }
    ensures bound { IfOk result (λ rows. length rows.items ≡ length drafts.items) }
    ensures refused { IfErr result (λ error. RefusedIn error (all_placed drafts.items)) }
{
    let mut unread = drafts;
    unread.reverse();
    let mut rows = Vec::new(alloc);
    while let Some(draft) = unread.pop() {
        match row_of(alloc, draft) {
            Ok(row) => rows.push(row)?,
            Err(error) => return Err(error),
        }
    }
    Ok(rows)
}
