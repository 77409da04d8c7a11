//! Letters that are joined behind one hyphen.

ghost use Rattle.std.specs.Prelude.{◌≡◌, Some};
ghost use Rattle.rad_args.specs.Words.{is_in, without_equals, valued, last_letter, joined};
ghost use Rattle.rad_args.specs.Pushed.{Reads};

use crate::item::Item;
use crate::reading::Reading;
use rad_outside::{NoMemory, Octets};
use std::alloc::Global;

/// Whether the letter is one of these.
fn is_in(letter: u8, letters: &[u8]) -> bool
    ensures { result ≡ is_in letter letters.now }
{
    letters.contains(&letter)
}

/// A value in its letter's own word, without one `=` at its front.
fn without_equals(text: &[u8]) -> &[u8]
    ensures { result.now ≡ without_equals text.now }
{
    match text {
        [b'=', rest @ ..] => rest,
        _ => text,
    }
}

/// Adds a letter with a value, by what follows it in its word.
#[tactic(auto, using(crate::proofs::Items::nothing_in_front))]
fn put_valued(
    alloc: Global,
    items: &mut Vec<Item>,
    letter: u8,
    text: &[u8],
) -> Result<Option<Reading>, NoMemory>
    ensures { Reads items.old.items items.new.items result (Some (valued letter text.now)) }
{
    match text {
        [] => Ok(Some(Reading::Value(letter))),
        _ => {
            items.push(Item::Valued(letter, Octets::of(alloc, without_equals(text))?))?;
            Ok(Some(Reading::Letters))
        }
    }
}

/// Adds the last of joined letters, which has a value.
fn put_last(
    alloc: Global,
    items: &mut Vec<Item>,
    options: &[u8],
    letter: u8,
    text: &[u8],
) -> Result<Option<Reading>, NoMemory>
    ensures { Reads items.old.items items.new.items result (last_letter options.now letter text.now) }
{
    if is_in(letter, options) {
        put_valued(alloc, items, letter, text)
    } else {
        Ok(None)
    }
}

/// Adds the letters that are joined behind a hyphen.
#[tactic(auto, using(crate::proofs::Items::nothing_in_front, crate::proofs::Items::twice_in_front), unfolding(crate::specs::Words::joined))]
pub(crate) fn put_joined(
    alloc: Global,
    items: &mut Vec<Item>,
    flags: &[u8],
    options: &[u8],
    text: &[u8],
) -> Result<Option<Reading>, NoMemory>
    ensures { Reads items.old.items items.new.items result (joined flags.now options.now text.now) }
{
    let mut rest = text;
    while let Some((letter, after)) = rest.split_first() {
        if !is_in(*letter, flags) {
            return put_last(alloc, items, options, *letter, after);
        }
        items.push(Item::Letter(*letter))?;
        rest = after;
    }
    Ok(Some(Reading::Letters))
}
