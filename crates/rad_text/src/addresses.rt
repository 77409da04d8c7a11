//! Addresses of IPv4 and decimal numbers, read and printed.

ghost use Rattle.std.specs.Prelude.{◌≡◌, ◌++◌, OnOk};
ghost use Rattle.std.specs.Option.{option_map};
ghost use Rattle.std.specs.Fmt.{decimal};
ghost use Rattle.rad_text.specs.Addresses.{part_at, next_part_at, address_of, dotted};

use crate::numerals::number_at;
use rad_outside::NoMemory;
use std::alloc::Global;

/// A part of an address, and what follows it.
#[tactic(auto, unfolding(crate::specs::Addresses::part_at))]
fn part_at(text: &[u8]) -> Option<(u8, &[u8])>
    ensures { option_map (λ x. (x.0, x.1.now)) result ≡ part_at text.now }
{
    let (part, rest) = number_at(10, text)?;
    if text.len() - rest.len() <= 3 && part < 256 {
        Some((part as u8, rest))
    } else {
        None
    }
}

/// The same behind a dot.
fn next_part_at(text: &[u8]) -> Option<(u8, &[u8])>
    ensures { option_map (λ x. (x.0, x.1.now)) result ≡ next_part_at text.now }
{
    match text {
        [b'.', rest @ ..] => part_at(rest),
        _ => None,
    }
}

/// The address of a whole text `a.b.c.d`, in network order as a number: four decimal parts of one to three digits, each
/// 255 at most, after RFC 1123 section 2.1. None where the text is no address.
#[tactic(auto, unfolding(crate::specs::Addresses::address_of))]
pub fn address_of(text: &[u8]) -> Option<u32>
    ensures { result ≡ address_of text.now }
{
    let (a, rest) = part_at(text)?;
    let (b, rest) = next_part_at(rest)?;
    let (c, rest) = next_part_at(rest)?;
    let (d, rest) = next_part_at(rest)?;
    match rest {
        [] => Some(u32::from_be_bytes([a, b, c, d])),
        _ => None,
    }
}

/// Adds a number in decimal digits.
pub fn put_decimal(alloc: Global, text: &mut Vec<u8>, number: u64) -> Result<(), NoMemory>
    ensures { OnOk result (text.new.items ≡ text.old.items ++ decimal number) }
{
    let digits = number.to_string(alloc)?;
    text.extend_from_slice(digits.as_bytes())?;
    Ok(())
}

/// Adds an address in four decimal parts, joined by dots.
#[tactic(auto, unfolding(crate::specs::Addresses::dotted))]
pub fn put_dotted(alloc: Global, text: &mut Vec<u8>, address: u32) -> Result<(), NoMemory>
    ensures { OnOk result (text.new.items ≡ text.old.items ++ dotted address) }
{
    put_decimal(alloc, text, u64::from(address / 16777216))?;
    text.push(b'.')?;
    put_decimal(alloc, text, u64::from(address / 65536 % 256))?;
    text.push(b'.')?;
    put_decimal(alloc, text, u64::from(address / 256 % 256))?;
    text.push(b'.')?;
    put_decimal(alloc, text, u64::from(address % 256))
}
