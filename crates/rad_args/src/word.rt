//! One word, by what was read before it.

ghost use Rattle.std.specs.Prelude.{◌≡◌};
ghost use Rattle.rad_args.specs.Words.{begins_with_hyphen, is_value, letters_or_plain, read_word};
ghost use Rattle.rad_args.specs.Pushed.{Reads};

use crate::item::Item;
use crate::joined::put_joined;
use crate::reading::Reading;
use rad_outside::{NoMemory, Octets};
use std::alloc::Global;

/// Whether a word may be a letter's value as the next word: a hyphen alone, or without a hyphen at its front.
fn is_value(word: &[u8]) -> bool
    ensures { result ≡ is_value word.now }
{
    match word {
        [b'-'] => true,
        [b'-', ..] => false,
        _ => true,
    }
}

/// Adds what a word is where letters may stand.
#[tactic(auto, using(crate::proofs::Items::nothing_in_front), unfolding(crate::specs::Words::letters_or_plain))]
fn put_letters_or_plain(
    alloc: Global,
    items: &mut Vec<Item>,
    flags: &[u8],
    options: &[u8],
    word: &[u8],
) -> Result<Option<Reading>, NoMemory>
    ensures { Reads items.old.items items.new.items result (letters_or_plain flags.now options.now word.now) }
{
    match word {
        [b'-', b'-'] => Ok(Some(Reading::Plainly)),
        [b'-', letters @ ..] if !letters.is_empty() => put_joined(
            alloc, items, flags, options, letters,
        ),
        _ => {
            items.push(Item::Plain(Octets::of(alloc, word)?))?;
            Ok(Some(Reading::Letters))
        }
    }
}

/// Adds what a word is, by what was read before it.
pub(crate) fn put_word(
    alloc: Global,
    items: &mut Vec<Item>,
    flags: &[u8],
    options: &[u8],
    reading: Reading,
    word: &[u8],
) -> Result<Option<Reading>, NoMemory>
    ensures { Reads items.old.items items.new.items result (read_word flags.now options.now reading word.now) }
{
    match reading {
        Reading::Letters => put_letters_or_plain(alloc, items, flags, options, word),
        Reading::Value(letter) => {
            if !is_value(word) {
                return Ok(None);
            }
            items.push(Item::Valued(letter, Octets::of(alloc, word)?))?;
            Ok(Some(Reading::Letters))
        }
        Reading::Plainly => {
            items.push(Item::Plain(Octets::of(alloc, word)?))?;
            Ok(Some(Reading::Plainly))
        }
    }
}
