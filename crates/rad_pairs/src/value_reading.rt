//! Texts of values that are read.

ghost use Rattle.std.specs.Prelude.{◌≡◌, IfOk};
ghost use Rattle.rad_text.specs.Find.{Finds};
ghost use Rattle.rad_text.specs.Read.{found};
ghost use Rattle.rad_text.specs.Answers.{IsAnswer};
ghost use Rattle.rad_pairs.specs.ValueReading.{digit_pairs, octets_of, number_in, byte_of, short_of, value_of, says};

use crate::ValueFault;
use crate::attr_reading::AttrKind;
use crate::fault::NoValue;
use rad_dict::{AttrDef, Dict};
use rad_outside::{NoMemory, Octets};
use rad_text::{ReadError, address_of, digit_value, is_digit, number_of, numeral_of};
use rad_value::Value;
use rad_words::{AttrId, Kind};
use std::alloc::Global;

/// Octets of two digits each.
#[tactic(auto, unfolding(crate::specs::ValueReading::digit_pairs))]
fn digit_pairs(alloc: Global, text: &[u8]) -> Result<Option<Octets>, NoMemory>
    ensures { IfOk result (λ octets. octets ≡ digit_pairs text.now) }
{
    let mut octets = Vec::new(alloc);
    let mut rest = text;
    while let Some((first, after)) = rest.split_first() {
        let Some((second, after)) = after.split_first() else {
            return Ok(None);
        };
        if !is_digit(*first, 16) || !is_digit(*second, 16) {
            return Ok(None);
        }
        octets.push((digit_value(*first) * 16 + digit_value(*second)) as u8)?;
        rest = after;
    }
    Ok(Some(Octets::from_vec(octets)))
}

/// Octets behind `0x`, else the text itself.
#[tactic(auto, unfolding(crate::specs::ValueReading::octets_of))]
fn octets_of(alloc: Global, text: &[u8]) -> Result<Octets, NoMemory>
    ensures { IfOk result (λ octets. octets ≡ octets_of text.now) }
{
    if let [b'0', b'x', digits @ ..] = text {
        if let Some(octets) = digit_pairs(alloc, digits)? {
            return Ok(octets);
        }
    }
    Octets::of(alloc, text)
}

/// A number by the name of the attribute's value, else by its digits.
#[tactic(auto, unfolding(crate::specs::ValueReading::number_in))]
fn number_in(attr: AttrId, text: &[u8], dict: &Dict) -> Option<u32>
    ensures { result ≡ number_in attr text.now dict.now }
{
    match dict.value_number(attr, text) {
        Some(number) => Some(number),
        None => numeral_of(text),
    }
}

fn byte_of(number: u32) -> Option<Value>
    ensures { result ≡ byte_of number }
{
    if number < 256 {
        Some(Value::Byte(number as u8))
    } else {
        None
    }
}

fn short_of(number: u32) -> Option<Value>
    ensures { result ≡ short_of number }
{
    if number < 65536 {
        Some(Value::Short(number as u16))
    } else {
        None
    }
}

/// The value that was found, or that the text is none.
fn said(value: Option<Value>) -> Result<Value, ReadError<NoValue>>
    ensures { Finds (λ value. value) result value }
{
    value.ok_or(ReadError::Wrong(NoValue))
}

/// The value that a text means for an attribute and its kind, as `read_value` says. `NoValue` where it means none.
pub fn value_of(
    alloc: Global,
    attr: AttrKind,
    text: &[u8],
    dict: &Dict,
) -> Result<Value, ReadError<NoValue>>
    ensures { Finds (λ value. value) result (value_of attr.kind attr.id text.now dict.now) }
{
    match attr.kind {
        Kind::Text => Ok(Value::Text(Octets::of(alloc, text)?)),
        Kind::Octets => Ok(Value::Octets(octets_of(alloc, text)?)),
        Kind::Addr => said(address_of(text).map(Value::Addr)),
        Kind::Number => said(number_in(attr.id, text, dict).map(Value::Number)),
        Kind::Date => said(number_of(10, text).map(Value::Date)),
        Kind::Byte => said(number_in(attr.id, text, dict).and_then(byte_of)),
        Kind::Short => said(number_in(attr.id, text, dict).and_then(short_of)),
    }
}

/// The value that a text means for a definition's attribute and kind. Quotes are taken away and escapes read
/// before. A Number is the name of a value, decimal or `0x` digits, up to 2^32 - 1; Byte and Short are the same in
/// their range; Addr is four decimal parts of one to three digits; Date is decimal; Octets are `0x` and an even
/// number of digits, else the text itself.
pub fn read_value(
    alloc: Global,
    text: &[u8],
    def: &AttrDef,
    dict: &Dict,
) -> Result<Value, ValueFault>
    ensures { IsAnswer says (found ValueFault.BadValue (value_of def.now.kind def.now.id text.now dict.now)) result }
{
    let attr = AttrKind {
        id: def.id,
        kind: def.kind,
    };
    Ok(value_of(alloc, attr, text, dict)?)
}
