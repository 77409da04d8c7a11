//! Numbers, addresses and ports as settings have them.

ghost use Rattle.std.specs.Prelude.{◌≡◌, ◌≤◌, IfSome};
ghost use Rattle.rad_build.specs.Numbers.{between, number_between, port_of, bound_address};

use rad_text::{address_of, number_of};

/// A number, where it is in a range.
fn between(least: u32, most: u32, number: u32) -> Option<u32>
    ensures value { result ≡ between least most number }
    ensures range { IfSome result (λ number. number ≤ most) }
{
    if least <= number && number <= most {
        Some(number)
    } else {
        None
    }
}

/// A number of 1 to 10 decimal digits in a range.
#[tactic(auto, unfolding(crate::specs::Numbers::number_between))]
pub fn number_between(least: u32, most: u32, text: &[u8]) -> Option<u32>
    ensures value { result ≡ number_between least most text.now }
    ensures range { IfSome result (λ number. number ≤ most) }
{
    if text.len() > 10 {
        return None;
    }
    match number_of(10, text) {
        Some(number) => between(least, most, number),
        None => None,
    }
}

/// A port: 0 to 65,535.
pub fn port_of(text: &[u8]) -> Option<u16>
    ensures { result ≡ port_of text.now }
{
    match number_between(0, 65535, text) {
        Some(port) => Some(port as u16),
        None => None,
    }
}

/// An address to bind to: four decimal parts, or `*` for every address.
#[tactic(auto, unfolding(crate::specs::Numbers::bound_address))]
pub fn bound_address(text: &[u8]) -> Option<u32>
    ensures { result ≡ bound_address text.now }
{
    if text == b"*".as_slice() {
        Some(0)
    } else {
        address_of(text)
    }
}
