//! The search for the entries of a request.

ghost use Rattle.std.specs.Prelude.{◌≡◌, ◌+◌, ◌<◌, length, map, IfOk, IfSome};
ghost use Rattle.std.specs.Option.{option_map};
ghost use Rattle.mod_users.specs.Search.{key_with, octets_key, name_key, row_key, default_key, next_place, entry_tried};
ghost use Rattle.mod_users.specs.Rows.{IsReadyRow};

use crate::edits::{do_entry, falls_through};
use crate::fits::fits;
use crate::row::Row;
use rad_dict::Dict;
use rad_index::Index;
use rad_outside::NoMemory;
use rad_value::Lists;
use rad_words::Code;
use std::alloc::Global;

/// What comes behind an entry that was tried.
#[derive(Clone, Copy, Debug, PartialEq, Eq)]
pub enum Next {
    /// It didn't match, and the next one is tried.
    Passed,
    /// It matched, and the next one is tried.
    Through,
    /// The search ends with this code.
    Ends(Code),
}

/// A key that goes on with a number.
#[tactic(auto, unfolding(crate::specs::Search::key_with))]
fn key_with(key: u64, number: u64) -> u64
    ensures { result ≡ key_with key number }
{
    key.wrapping_mul(1_099_511_628_211).wrapping_add(number)
}

/// The key of a name.
#[tactic(auto, unfolding(crate::specs::Search::octets_key))]
pub fn name_key(name: &[u8]) -> u64
    ensures { result ≡ name_key name.now }
{
    let mut key: u64 = 0;
    for octet in name {
        key = key_with(key, u64::from(*octet));
    }
    key
}

/// The key of the name DEFAULT.
pub fn default_key() -> u64
    ensures { result ≡ default_key }
{
    name_key(b"DEFAULT")
}

/// The keys of the entries' names, in order.
pub fn names_of(alloc: Global, rows: &[Row]) -> Result<Index, NoMemory>
    ensures { IfOk result (λ names. names ≡ map row_key rows.now) }
{
    let mut names = Index::new(alloc);
    let mut n = 0;
    while n < rows.len() {
        names = names.with(alloc, name_key(rows[n].entry.name.as_slice()))?;
        n += 1;
    }
    Ok(names)
}

/// The first of the places of two ascending lists, and what is left of them.
pub fn next_place<'a>(
    named: &'a [usize],
    others: &'a [usize],
) -> Option<(usize, &'a [usize], &'a [usize])>
    ensures exact { option_map (λ x. (x.0, x.1.now, x.2.now)) result ≡ next_place named.now others.now }
    ensures shorter { IfSome result (λ x. length x.1.now + length x.2.now < length named.now + length others.now) }
{
    match (named, others) {
        ([], []) => None,
        ([x, xs @ ..], []) => Some((*x, xs, &[])),
        ([], [y, ys @ ..]) => Some((*y, &[], ys)),
        ([x, xs @ ..], [y, ys @ ..]) => {
            if *x < *y {
                Some((*x, xs, others))
            } else if *y < *x {
                Some((*y, named, ys))
            } else {
                Some((*x, xs, ys))
            }
        }
    }
}

/// Tries an entry: where it matches, its edits are done.
#[tactic(auto, unfolding(crate::specs::Search::entry_tried))]
pub fn try_row(
    alloc: Global,
    row: &Row,
    key: &[u8],
    lists: &mut Lists,
    dict: &Dict,
) -> Result<Next, NoMemory>
    requires { IsReadyRow row.now }
    ensures { IfOk result (λ next. (lists.new, next) ≡ entry_tried row.now.entry key.now dict.now lists.old) }
{
    if !fits(alloc, row, key, lists, dict)? {
        return Ok(Next::Passed);
    }
    if !do_entry(alloc, &row.entry, lists)? {
        return Ok(Next::Ends(Code::Fail));
    }
    if falls_through(&row.entry) {
        Ok(Next::Through)
    } else {
        Ok(Next::Ends(Code::Ok))
    }
}
