//! The fields of a line, word by word.

ghost use Rattle.std.specs.Prelude.{◌≡◌};
ghost use Rattle.std.specs.Option.{option_map};
ghost use Rattle.rad_sessions.specs.Log.{address_at, number_at, seconds_after};

use crate::cut::cut_at;
use rad_text::{address_of, digit_value, number_of};

/// The address that the first word writes, and what is behind it.
#[tactic(auto, unfolding(crate::specs::Log::address_at))]
pub(crate) fn address_at(text: &[u8]) -> Option<(u32, &[u8])>
    ensures { option_map (λ x. (x.0, x.1.now)) result ≡ address_at text.now }
{
    let (word, rest) = cut_at(b' ', text)?;
    Some((address_of(word)?, rest))
}

/// The number that the first word writes, and what is behind it.
#[tactic(auto, unfolding(crate::specs::Log::number_at))]
pub(crate) fn number_at(text: &[u8]) -> Option<(u32, &[u8])>
    ensures { option_map (λ x. (x.0, x.1.now)) result ≡ number_at text.now }
{
    let (word, rest) = cut_at(b' ', text)?;
    Some((number_of(10, word)?, rest))
}

/// The number that digits write, in 64 bits.
#[tactic(auto, unfolding(crate::specs::Log::seconds_after))]
pub(crate) fn seconds_of(digits: &[u8]) -> u64
    ensures { result ≡ seconds_after 0 digits.now }
{
    let mut seconds = 0u64;
    for octet in digits {
        let more = u128::from(seconds) * 10 + u128::from(digit_value(*octet));
        seconds = (more % 18_446_744_073_709_551_616) as u64;
    }
    seconds
}
