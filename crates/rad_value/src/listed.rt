//! One list of pairs: its pairs of an attribute, and the edits that are done in it in place.

ghost use Rattle.std.specs.Prelude.{◌≡◌, ℕ, ◌+◌, ◌<◌, ◌≤◌, ◌^◌, ◌↔◌, [], ◌∷◌, ◌++◌, length, position, not, filter, count_by, slice_get, vec_len, vec_capacity, IsTrue, IfOk, OnOk, OnErr, IsSome, is_some};
ghost use Rattle.std.specs.Option.{option_copied};
ghost use Rattle.std.specs.List.{before_first, after_first};
ghost use Rattle.rad_value.specs.Pairs.{is_of, values_of, pairs_of};
ghost use Rattle.rad_value.specs.Edit.{has_attr, edited, edited_by, is_equal_pair, is_other_pair, pair_of, IsFull};

use crate::comparison::is_equal;
use crate::edits::{Edit, EditFault, EditOp};
use crate::{Pair, Value};
use rad_outside::NoMemory;
use rad_words::AttrId;
use std::alloc::Global;

/// An edit adds no pair to a list of so many.
const FULL: usize = 512;

pub(crate) fn is_of(pair: &Pair, attr: AttrId) -> bool
    ensures { result ≡ is_of attr pair.now }
{
    pair.attr == attr
}

fn is_other(pair: &Pair, attr: AttrId) -> bool
    ensures { result ≡ not (is_of attr pair.now) }
{
    !is_of(pair, attr)
}

/// How many pairs of the attribute there are.
pub(crate) fn count(pairs: &[Pair], attr: AttrId) -> usize
    ensures { result ≡ length (pairs_of attr pairs.now) }
{
    pairs.iter().filter(|pair| is_of(pair, attr)).count()
}

/// The n-th value of the attribute, from 0.
pub(crate) fn nth(pairs: &[Pair], attr: AttrId, n: usize) -> Option<&Value>
    ensures { option_copied result ≡ slice_get (values_of attr pairs.now) n }
{
    match nth_pair(pairs, attr, n) {
        Some(pair) => Some(&pair.value),
        None => None,
    }
}

fn nth_pair(pairs: &[Pair], attr: AttrId, n: usize) -> Option<&Pair>
    ensures { option_copied result ≡ slice_get (pairs_of attr pairs.now) n }
{
    pairs.iter().filter(|pair| is_of(pair, attr)).nth(n)
}

fn first_of(pairs: &[Pair], attr: AttrId) -> Option<usize>
    ensures place { result ≡ position (is_of attr) pairs.now }
    ensures found { is_some result ≡ has_attr attr pairs.now }
{
    pairs.iter().position(|pair| is_of(pair, attr))
}

fn remove_all(pairs: &mut Vec<Pair>, attr: AttrId)
    ensures items { pairs.new.items ≡ filter (λ p. not (is_of attr p)) pairs.old.items }
    ensures bound { length pairs.new.items ≤ length pairs.old.items }
    ensures room { vec_capacity pairs.new ≡ vec_capacity pairs.old }
{
    pairs.retain(|pair| is_other(pair, attr));
}

fn new_pair(alloc: Global, edit: &Edit) -> Result<Pair, NoMemory>
    ensures { IfOk result (λ pair. pair ≡ pair_of edit.now) }
{
    Ok(Pair {
        attr: edit.attr,
        value: edit.value.try_clone(alloc)?,
    })
}

/// Adds the edit's pair at the tail, where there is room for it.
fn append(alloc: Global, pairs: &mut Vec<Pair>, edit: &Edit) -> Result<(), EditFault>
    requires { length pairs.old.items ≤ 2 ^ 31 }
    ensures done { OnOk result (pairs.new.items ≡ edited_by EditOp.Append (pair_of edit.now) pairs.old.items) }
    ensures refused { OnErr result (pairs.new.items ≡ pairs.old.items) }
    ensures full { (n : ℕ) → (result ≡ Err (EditFault.ListFull n))
        ↔ IsFull EditOp.Append edit.now.attr pairs.old.items n }
    ensures bound { length pairs.new.items ≤ 2 ^ 31 }
{
    let length = pairs.len();
    if length >= FULL {
        return Err(EditFault::ListFull(length as u32));
    }
    let pair = new_pair(alloc, edit)?;
    pairs.push(pair)?;
    Ok(())
}

/// Adds the edit's pair at the tail, where there is none of its attribute.
fn add_if_none(alloc: Global, pairs: &mut Vec<Pair>, edit: &Edit) -> Result<(), EditFault>
    requires { length pairs.old.items ≤ 2 ^ 31 }
    ensures done { OnOk result (pairs.new.items ≡ edited_by EditOp.AddIfNone (pair_of edit.now) pairs.old.items) }
    ensures refused { OnErr result (pairs.new.items ≡ pairs.old.items) }
    ensures full { (n : ℕ) → (result ≡ Err (EditFault.ListFull n))
        ↔ IsFull EditOp.AddIfNone edit.now.attr pairs.old.items n }
    ensures bound { length pairs.new.items ≤ 2 ^ 31 }
{
    match first_of(pairs, edit.attr) {
        Some(_) => Ok(()),
        None => append(alloc, pairs, edit),
    }
}

/// Puts the edit's pair in the place of the first of its attribute and takes the others away, or adds it
/// where there is none.
fn set(alloc: Global, pairs: &mut Vec<Pair>, edit: &Edit) -> Result<(), EditFault>
    requires { length pairs.old.items ≤ 2 ^ 31 }
    ensures done { OnOk result (pairs.new.items ≡ edited_by EditOp.Set (pair_of edit.now) pairs.old.items) }
    ensures refused { OnErr result (pairs.new.items ≡ pairs.old.items) }
    ensures full { (n : ℕ) → (result ≡ Err (EditFault.ListFull n))
        ↔ IsFull EditOp.Set edit.now.attr pairs.old.items n }
    ensures bound { length pairs.new.items ≤ 2 ^ 31 }
{
    match first_of(pairs, edit.attr) {
        Some(place) => {
            let pair = new_pair(alloc, edit)?;
            replace(pairs, place, pair);
            Ok(())
        }
        None => append(alloc, pairs, edit),
    }
}

/// Puts the pair in the place of the first of its attribute, and takes the others away. The room of the
/// one that left serves, so this takes no memory.
fn replace(pairs: &mut Vec<Pair>, place: usize, pair: Pair)
    requires { position (is_of pair.attr) pairs.old.items ≡ Some place }
    ensures set { pairs.new.items ≡ edited_by EditOp.Set pair pairs.old.items }
    ensures bound { length pairs.new.items ≤ length pairs.old.items }
{
    remove_all(pairs, pair.attr);
    pairs.insert(place, pair).unwrap();
}

fn stays_at_remove(pair: &Pair, edit: &Edit) -> bool
    ensures { result ≡ not (is_equal_pair (pair_of edit.now) pair.now) }
{
    !(is_of(pair, edit.attr) && is_equal(&pair.value, &edit.value))
}

fn stays_at_keep(pair: &Pair, edit: &Edit) -> bool
    ensures { result ≡ not (is_other_pair (pair_of edit.now) pair.now) }
{
    !(is_of(pair, edit.attr) && !is_equal(&pair.value, &edit.value))
}

/// Takes the pairs of the edit's attribute away that have its value.
fn remove(pairs: &mut Vec<Pair>, edit: &Edit)
    ensures items { pairs.new.items ≡ edited_by EditOp.Remove (pair_of edit.now) pairs.old.items }
    ensures bound { length pairs.new.items ≤ length pairs.old.items }
{
    pairs.retain(|pair| stays_at_remove(pair, edit));
}

/// Takes the pairs of the edit's attribute away that have another value.
fn keep(pairs: &mut Vec<Pair>, edit: &Edit)
    ensures items { pairs.new.items ≡ edited_by EditOp.Keep (pair_of edit.now) pairs.old.items }
    ensures bound { length pairs.new.items ≤ length pairs.old.items }
{
    pairs.retain(|pair| stays_at_keep(pair, edit));
}

/// Does the edit in this list, in place.
pub(crate) fn update(alloc: Global, pairs: &mut Vec<Pair>, edit: &Edit) -> Result<(), EditFault>
    requires { length pairs.old.items ≤ 2 ^ 31 }
    ensures done { OnOk result (pairs.new.items ≡ edited pairs.old.items edit.now) }
    ensures refused { OnErr result (pairs.new.items ≡ pairs.old.items) }
    ensures full { (n : ℕ) → (result ≡ Err (EditFault.ListFull n))
        ↔ IsFull edit.now.op edit.now.attr pairs.old.items n }
    ensures bound { length pairs.new.items ≤ 2 ^ 31 }
{
    match edit.op {
        EditOp::AddIfNone => add_if_none(alloc, pairs, edit),
        EditOp::Set => set(alloc, pairs, edit),
        EditOp::Append => append(alloc, pairs, edit),
        EditOp::Remove => {
            remove(pairs, edit);
            Ok(())
        }
        EditOp::RemoveAll => {
            remove_all(pairs, edit.attr);
            Ok(())
        }
        EditOp::Keep => {
            keep(pairs, edit);
            Ok(())
        }
    }
}
