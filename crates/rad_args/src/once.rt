//! No letter stands twice.

ghost use Rattle.std.specs.Prelude.{◌≡◌};
ghost use Rattle.rad_args.specs.Words.{has_letter, is_again, are_once};

use crate::item::Item;

/// Whether the letter stands among the items, with a value or without.
pub(crate) fn has_letter(items: &[Item], letter: u8) -> bool
    ensures { result ≡ has_letter letter items.now }
{
    let mut rest = items;
    while let Some((item, after)) = rest.split_first() {
        if item.is_letter(letter) {
            return true;
        }
        rest = after;
    }
    false
}

/// Whether the item's letter stands among the items, too.
fn is_again(item: &Item, items: &[Item]) -> bool
    ensures { result ≡ is_again item.now items.now }
{
    match item {
        Item::Letter(letter) => has_letter(items, *letter),
        Item::Valued(letter, _) => has_letter(items, *letter),
        Item::Plain(_) => false,
    }
}

/// Whether no letter stands twice.
#[tactic(auto, unfolding(crate::specs::Words::are_once))]
pub(crate) fn are_once(items: &[Item]) -> bool
    ensures { result ≡ are_once items.now }
{
    let mut rest = items;
    while let Some((item, after)) = rest.split_first() {
        if is_again(item, after) {
            return false;
        }
        rest = after;
    }
    true
}
