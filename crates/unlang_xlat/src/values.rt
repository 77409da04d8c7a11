//! The texts of single values of a scope, and of functions.

ghost use Rattle.std.specs.Prelude.{◌≡◌, ◌<◌, ◌++◌, OnOk, slice_get};
ghost use Rattle.std.specs.Option.{option_copied};
ghost use Rattle.md5.specs.Md5.{md5};
ghost use Rattle.std.specs.Char.{digit_char};
ghost use Rattle.std.specs.List.{flat_map};
ghost use Rattle.rad_pairs.specs.ValueText.{two_digits, hexadecimal};
ghost use Rattle.unlang_reference.specs.Values as references;
ghost use Rattle.unlang_xlat.specs.Texts.{captured, looped, loop_text, called};

use crate::part::Function;
use md5::{Digest, Md5};
use rad_dict::Dict;
use rad_outside::{NoMemory, Octets};
use rad_pairs::put_plain;
use rad_text::{put_decimal, put_dotted};
use rad_value::{Lists, Scope, Value};
use std::alloc::Global;
use unlang_reference::{Reference, Which};

/// Adds octets.
pub fn put(text: &mut Vec<u8>, octets: &[u8]) -> Result<(), NoMemory>
    ensures { OnOk result (text.new.items ≡ text.old.items ++ octets.now) }
{
    text.extend_from_slice(octets)?;
    Ok(())
}

/// The lower-case digit of a number below 16.
fn digit_char(number: u8) -> u8
    requires { number < 16 }
    ensures { result ≡ digit_char number }
{
    if number < 10 {
        b'0' + number
    } else {
        b'a' + (number - 10)
    }
}

/// Adds octets as two lower-case hexadecimal digits each.
fn put_hexadecimal(text: &mut Vec<u8>, octets: &[u8]) -> Result<(), NoMemory>
    ensures { OnOk result (text.new.items ≡ text.old.items ++ flat_map two_digits octets.now) }
{
    for octet in octets {
        text.extend_from_slice(&[digit_char(*octet / 16), digit_char(*octet % 16)])?;
    }
    Ok(())
}

/// Adds octets as `0x` and their digits.
fn put_octets(text: &mut Vec<u8>, octets: &[u8]) -> Result<(), NoMemory>
    ensures { OnOk result (text.new.items ≡ text.old.items ++ hexadecimal octets.now) }
{
    put(text, b"0x")?;
    put_hexadecimal(text, octets)?;
    Ok(())
}

/// Adds the values that a reference names. A single value is not copied first.
pub fn put_reference(
    alloc: Global,
    text: &mut Vec<u8>,
    reference: Reference,
    lists: &Lists,
    dict: &Dict,
) -> Result<(), NoMemory>
    ensures { OnOk result (text.new.items ≡ text.old.items ++ references.text_of reference lists.now dict.now) }
{
    match reference.which {
        Which::Nth(n) => match lists.nth(reference.list, reference.attr.id, n) {
            Some(value) => put_plain(alloc, text, reference.attr.id, value, dict),
            None => Ok(()),
        },
        Which::All | Which::Count => reference.put_text(alloc, text, lists, dict),
    }
}

/// The capture of this number, from 0.
pub fn capture_at(scope: &Scope, n: u8) -> Option<&Option<Octets>>
    ensures { option_copied result ≡ slice_get scope.now.captures n }
{
    scope.captures.get(usize::from(n))
}

/// The value of the loop of this number, 0 the outermost.
pub fn loop_at(scope: &Scope, n: u8) -> Option<&Option<Value>>
    ensures { option_copied result ≡ slice_get scope.now.loops n }
{
    scope.loops.get(usize::from(n))
}

/// Adds what was captured, where anything was.
pub fn put_capture(text: &mut Vec<u8>, capture: Option<&Option<Octets>>) -> Result<(), NoMemory>
    ensures { OnOk result (text.new.items ≡ text.old.items ++ captured (option_copied capture.entry)) }
{
    match capture {
        Some(Some(octets)) => put(text, octets.as_slice()),
        _ => Ok(()),
    }
}

/// Adds the text of a loop's value, in which a number stands in decimal.
fn put_loop_value(alloc: Global, text: &mut Vec<u8>, value: &Value) -> Result<(), NoMemory>
    ensures { OnOk result (text.new.items ≡ text.old.items ++ loop_text value.now) }
{
    match value {
        Value::Text(octets) => put(text, octets.as_slice()),
        Value::Octets(octets) => put_octets(text, octets.as_slice()),
        Value::Addr(address) => put_dotted(alloc, text, *address),
        Value::Number(number) => put_decimal(alloc, text, u64::from(*number)),
        Value::Date(seconds) => put_decimal(alloc, text, u64::from(*seconds)),
        Value::Byte(number) => put_decimal(alloc, text, u64::from(*number)),
        Value::Short(number) => put_decimal(alloc, text, u64::from(*number)),
    }
}

/// The same of a loop, where it runs.
pub fn put_loop(
    alloc: Global,
    text: &mut Vec<u8>,
    value: Option<&Option<Value>>,
) -> Result<(), NoMemory>
    ensures { OnOk result (text.new.items ≡ text.old.items ++ looped (option_copied value.entry)) }
{
    match value {
        Some(Some(value)) => put_loop_value(alloc, text, value),
        _ => Ok(()),
    }
}

/// Adds what a function gives of a text, which may be changed for that.
pub fn put_called(
    alloc: Global,
    text: &mut Vec<u8>,
    function: Function,
    argument: &mut [u8],
) -> Result<(), NoMemory>
    ensures { OnOk result (text.new.items ≡ text.old.items ++ called function argument.old) }
{
    match function {
        Function::Lower => {
            argument.make_ascii_lowercase();
            put(text, argument)
        }
        Function::Upper => {
            argument.make_ascii_uppercase();
            put(text, argument)
        }
        Function::Digest => put_digest(text, argument),
        Function::Length => put_decimal(alloc, text, argument.len() as u64),
    }
}

/// Adds the digest of a text, after RFC 1321, in hexadecimal digits.
fn put_digest(text: &mut Vec<u8>, argument: &[u8]) -> Result<(), NoMemory>
    ensures { OnOk result (text.new.items ≡ text.old.items ++ flat_map two_digits (md5 argument.now)) }
{
    let digest = Md5::digest(argument);
    put_hexadecimal(text, &digest)
}
