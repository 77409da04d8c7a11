//! Texts that are filled up to a width.

ghost use Rattle.std.specs.Prelude.{◌≡◌, ◌++◌, replicate, OnOk};
ghost use Rattle.std.specs.Fmt.{decimal};
ghost use Rattle.rad_dates.specs.Padded.{right_in, left_in, digits_in};

use rad_outside::NoMemory;
use std::alloc::Global;

/// Adds an octet so often.
fn put_often(text: &mut Vec<u8>, octet: u8, count: usize) -> Result<(), NoMemory>
    ensures { OnOk result (text.new.items ≡ text.old.items ++ replicate count octet) }
{
    for _ in 0..count {
        text.push(octet)?;
    }
    Ok(())
}

/// Adds a text at the right of a width, with what it is filled with in front; a longer text stands whole.
pub fn put_right(text: &mut Vec<u8>, fill: u8, width: usize, word: &[u8]) -> Result<(), NoMemory>
    ensures { OnOk result (text.new.items ≡ text.old.items ++ right_in fill width word.now) }
{
    put_often(text, fill, width.saturating_sub(word.len()))?;
    text.extend_from_slice(word)?;
    Ok(())
}

/// Adds a text at the left of a width, with blanks behind; a longer text stands whole.
pub fn put_left(text: &mut Vec<u8>, width: usize, word: &[u8]) -> Result<(), NoMemory>
    ensures { OnOk result (text.new.items ≡ text.old.items ++ left_in width word.now) }
{
    text.extend_from_slice(word)?;
    put_often(text, b' ', width.saturating_sub(word.len()))
}

/// Adds a number in decimal digits at the right of a width; a longer one stands whole.
pub fn put_number(
    alloc: Global,
    text: &mut Vec<u8>,
    fill: u8,
    width: usize,
    number: u64,
) -> Result<(), NoMemory>
    ensures { OnOk result (text.new.items ≡ text.old.items ++ right_in fill width (decimal number)) }
{
    let digits = number.to_string(alloc)?;
    put_right(text, fill, width, digits.as_bytes())
}

/// Adds a number in decimal digits, with zeros in front up to a width.
pub fn put_digits(
    alloc: Global,
    text: &mut Vec<u8>,
    width: usize,
    number: u64,
) -> Result<(), NoMemory>
    ensures { OnOk result (text.new.items ≡ text.old.items ++ digits_in width number) }
{
    put_number(alloc, text, b'0', width, number)
}
