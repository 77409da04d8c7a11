//! Octets as hexadecimal digits.

ghost use Rattle.std.specs.Prelude.{◌≡◌, ◌<◌, ◌++◌, OnOk, IfOk};
ghost use Rattle.std.specs.Char.{digit_char};
ghost use Rattle.rad_sessions.specs.Laws.{AreOctets};
ghost use Rattle.rad_sessions.specs.Log.{hex_of, hex_word, octets_of};

use rad_outside::{NoMemory, Octets};
use rad_text::digit_value;
use std::alloc::Global;

/// A digit in lower case.
fn hex_digit(number: u8) -> u8
    requires { number < 16 }
    ensures { result ≡ digit_char number }
{
    if number < 10 {
        48 + number
    } else {
        87 + number
    }
}

/// Adds two digits an octet.
fn put_hex(text: &mut Vec<u8>, octets: &[u8]) -> Result<(), NoMemory>
    ensures text { OnOk result (text.new.items ≡ text.old.items ++ hex_of octets.now) }
    ensures typed { OnOk result (AreOctets octets.now) }
{
    for octet in octets {
        text.push(hex_digit(*octet / 16))?;
        text.push(hex_digit(*octet % 16))?;
    }
    Ok(())
}

/// Adds two digits an octet, or `-` where there is none.
pub(crate) fn put_hex_word(text: &mut Vec<u8>, octets: &[u8]) -> Result<(), NoMemory>
    ensures typed { OnOk result (AreOctets octets.now) }
    ensures text { OnOk result (text.new.items ≡ text.old.items ++ hex_word octets.now) }
{
    match octets {
        [] => {
            text.push(b'-')?;
            Ok(())
        }
        _ => put_hex(text, octets),
    }
}

/// The octets that pairs of digits write.
#[tactic(auto, unfolding(crate::specs::Log::octets_of))]
pub(crate) fn octets_of(alloc: Global, digits: &[u8]) -> Result<Octets, NoMemory>
    ensures { IfOk result (λ octets. octets ≡ octets_of digits.now) }
{
    let mut octets = Vec::new(alloc);
    let mut rest = digits;
    while let [high, low, after @ ..] = rest {
        octets.push(((digit_value(*high) * 16 + digit_value(*low)) % 256) as u8)?;
        rest = after;
    }
    Ok(Octets::from_vec(octets))
}
