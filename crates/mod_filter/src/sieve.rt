//! Pairs that don't stay are taken out of a list, in place.

ghost use Rattle.std.specs.Prelude.{◌≡◌, ◌<◌, Bool, true, length, slice_get, IfOk, OnOk};
ghost use Rattle.std.specs.Option.{option_map_or};
ghost use Rattle.rad_value.specs.declared.values.Pair.{Pair as APair};
ghost use Rattle.rad_value.specs.PairLists.{list_of};
ghost use Rattle.mod_filter.specs.Sieve.{sifted, without, without_at};

use rad_outside::NoMemory;
use rad_value::{Edit, EditOp, ListName, Lists, Pair};
use std::alloc::Global;

/// Which pairs of a list stay.
pub trait Sieve: Drop {
    /// The test: true of the pairs that stay.
    ghost keeps: { Self → APair → Bool };

    /// Whether a pair stays.
    fn stays(&self, alloc: Global, pair: &Pair) -> Result<bool, NoMemory>
        ensures { IfOk result (λ answer. answer ≡ keeps self.now pair.now) };
}

/// Whether the pair of a place stays. It does where there is none.
fn stays_at<S: Sieve>(
    alloc: Global,
    sieve: &S,
    list: ListName,
    lists: &Lists,
    n: u32,
) -> Result<bool, NoMemory>
    ensures { IfOk result (λ answer. answer ≡ option_map_or (S.keeps sieve.now) (slice_get (list_of lists.now list) n) true) }
{
    match lists.get(list, n) {
        Some(pair) => sieve.stays(alloc, pair),
        None => Ok(true),
    }
}

/// The edit that takes a pair out of a list, and all that are equal to it.
fn without(alloc: Global, list: ListName, pair: &Pair) -> Result<Edit, NoMemory>
    ensures { IfOk result (λ edit. edit ≡ without list pair.now) }
{
    Ok(Edit {
        list,
        attr: pair.attr,
        op: EditOp::Remove,
        value: pair.value.try_clone(alloc)?,
    })
}

/// Takes the pair of a place out of a list, and all that are equal to it.
fn remove_at(alloc: Global, list: ListName, lists: &mut Lists, n: u32) -> Result<(), NoMemory>
    ensures { OnOk result (lists.new ≡ without_at list n lists.old) }
{
    let Some(pair) = lists.get(list, n) else {
        return Ok(());
    };
    let edit = without(alloc, list, pair)?;
    match lists.update(&edit) {
        Ok(_) => Ok(()),
        Err(_) => Err(NoMemory),
    }
}

/// Leaves of a list the pairs that stay, in order. After `NoMemory` some may still be there that don't.
pub fn sift<S: Sieve>(
    alloc: Global,
    sieve: &S,
    list: ListName,
    lists: &mut Lists,
) -> Result<(), NoMemory>
    ensures { OnOk result (lists.new ≡ sifted (S.keeps sieve.now) list lists.old) }
{
    let mut n = 0;
    while n < lists.len(list) {
        if stays_at(alloc, sieve, list, lists, n)? {
            n += 1;
        } else {
            remove_at(alloc, list, lists, n)?;
        }
    }
    Ok(())
}
