//! Numbers among the words.

ghost use Rattle.std.specs.Prelude.{◌≡◌};
ghost use Rattle.rad_args.specs.Numbers.{number_in};

use rad_text::number_of;

/// The number that a word writes in 1 to 10 decimal digits, where it is one from the least to the most; else none.
#[tactic(auto, unfolding(crate::specs::Numbers::number_in))]
pub fn number_in(least: u32, most: u32, word: &[u8]) -> Option<u32>
    ensures { result ≡ number_in least most word.now }
{
    if word.len() > 10 {
        return None;
    }
    let number = number_of(10, word)?;
    if least <= number && number <= most {
        Some(number)
    } else {
        None
    }
}
