//! Numbers as digits: decimal or hexadecimal, of 32 bits.

ghost use Rattle.std.specs.Prelude.{◌≡◌, ◌≤◌, ◌<◌, length, IfSome};
ghost use Rattle.std.specs.Option.{option_map};
ghost use Rattle.std.specs.Char.{digit_value, is_digit};
ghost use Rattle.rad_text.specs.Numerals.{digits_at, fitting, number_at, number_of, is_hexadecimal, numeral_of};

/// The value of a digit or a letter in radix 36, else 36.
pub fn digit_value(octet: u8) -> u32
    ensures { result ≡ digit_value octet }
{
    match octet {
        b'0'..=b'9' => u32::from(octet - b'0'),
        b'A'..=b'Z' => u32::from(octet - b'A') + 10,
        b'a'..=b'z' => u32::from(octet - b'a') + 10,
        _ => 36,
    }
}

/// Whether the octet is a digit in this radix.
pub fn is_digit(octet: u8, radix: u32) -> bool
    ensures { result ≡ is_digit octet radix }
{
    digit_value(octet) < radix
}

/// The number at the front, of one digit or more and below 2^32, and what follows it.
#[tactic(auto, unfolding(crate::specs::Numerals::number_at))]
pub fn number_at(radix: u32, text: &[u8]) -> Option<(u32, &[u8])>
    requires { radix ≤ 36 }
    ensures exact { option_map (λ x. (x.0, x.1.now)) result ≡ number_at radix text.now }
    ensures shorter { IfSome result (λ x. length x.1.now ≤ length text.now) }
{
    match text {
        [first, ..] if is_digit(*first, radix) => digits_at(radix, text),
        _ => None,
    }
}

/// The number of the digits at the front.
#[tactic(auto, unfolding(crate::specs::Numerals::digits_at))]
fn digits_at(radix: u32, text: &[u8]) -> Option<(u32, &[u8])>
    requires { radix ≤ 36 }
    ensures exact { option_map (λ x. (x.0, x.1.now)) result ≡ fitting (digits_at radix 0 text.now) }
    ensures shorter { IfSome result (λ x. length x.1.now ≤ length text.now) }
{
    let mut number = 0u32;
    let mut rest = text;
    while let Some((octet, after)) = rest.split_first() {
        if !is_digit(*octet, radix) {
            break;
        }
        number = number.checked_mul(radix)?.checked_add(digit_value(*octet))?;
        rest = after;
    }
    Some((number, rest))
}

/// The number that a whole text writes.
#[tactic(auto, unfolding(crate::specs::Numerals::number_of))]
pub fn number_of(radix: u32, text: &[u8]) -> Option<u32>
    requires { radix ≤ 36 }
    ensures { result ≡ number_of radix text.now }
{
    match number_at(radix, text)? {
        (number, []) => Some(number),
        _ => None,
    }
}

/// Whether `0x` stands at the front.
pub fn is_hexadecimal(text: &[u8]) -> bool
    ensures { result ≡ is_hexadecimal text.now }
{
    matches!(text, [b'0', b'x', ..])
}

/// The number that a whole text writes in decimal, or in hexadecimal behind `0x`.
#[tactic(auto, unfolding(crate::specs::Numerals::numeral_of))]
pub fn numeral_of(text: &[u8]) -> Option<u32>
    ensures { result ≡ numeral_of text.now }
{
    match text {
        [b'0', b'x', digits @ ..] => number_of(16, digits),
        _ => number_of(10, text),
    }
}
