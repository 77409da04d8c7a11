//! Texts that are printed.

ghost use Rattle.std.specs.Prelude.{◌≡◌, ◌<◌, [], ◌∷◌, ◌++◌, Ok, IfOk, OnOk};
ghost use Rattle.std.specs.Fmt.{decimal};
ghost use Rattle.std.specs.Char.{digit_char};
ghost use Rattle.rad_pairs.specs.ValueText.{escaped, quoted, two_digits, hexadecimal, number_text, value_text, plain_text, numbered_text, attr_text, pair_text};
ghost use Rattle.rad_pairs.specs.Items.{items_of};
ghost use Rattle.rad_pairs.specs.ReadingBack.{AreOctets, InRange, IsSpace, HasItsKind, item_of};

use rad_dict::Dict;
use rad_outside::{NoMemory, Octets};
use rad_text::{put_decimal, put_dotted};
use rad_value::{Pair, Value};
use rad_words::{AttrId, Space};
use std::alloc::Global;

/// An octet in double quotes.
fn put_escaped(text: &mut Vec<u8>, octet: u8) -> Result<(), NoMemory>
    ensures text { OnOk result (text.new.items ≡ text.old.items ++ escaped octet) }
    ensures range { octet < 256 }
{
    match octet {
        b'"' | b'\\' => text.extend_from_slice(&[b'\\', octet])?,
        0x20..=0x7e => text.push(octet)?,
        _ => text.extend_from_slice(&[
            b'\\',
            b'0' + octet / 64,
            b'0' + octet / 8 % 8,
            b'0' + octet % 8,
        ])?,
    }
    Ok(())
}

#[tactic(auto, unfolding(crate::specs::ValueText::quoted))]
fn put_quoted(text: &mut Vec<u8>, octets: &[u8]) -> Result<(), NoMemory>
    ensures text { OnOk result (text.new.items ≡ text.old.items ++ quoted octets.now) }
    ensures range { OnOk result (AreOctets octets.now) }
{
    text.push(b'"')?;
    for octet in octets {
        put_escaped(text, *octet)?;
    }
    text.push(b'"')?;
    Ok(())
}

/// The lower-case digit of a number below 16.
fn digit_char(number: u8) -> u8
    requires { number < 16 }
    ensures { result ≡ digit_char number }
{
    if number < 10 {
        b'0' + number
    } else {
        b'a' + (number - 10)
    }
}

#[tactic(auto, unfolding(crate::specs::ValueText::hexadecimal))]
fn put_hexadecimal(text: &mut Vec<u8>, octets: &[u8]) -> Result<(), NoMemory>
    ensures text { OnOk result (text.new.items ≡ text.old.items ++ hexadecimal octets.now) }
    ensures range { OnOk result (AreOctets octets.now) }
{
    text.extend_from_slice(b"0x")?;
    for octet in octets {
        text.extend_from_slice(&[digit_char(*octet / 16), digit_char(*octet % 16)])?;
    }
    Ok(())
}

#[tactic(auto, unfolding(crate::specs::ValueText::number_text))]
fn put_number(
    alloc: Global,
    text: &mut Vec<u8>,
    attr: AttrId,
    number: u32,
    dict: &Dict,
) -> Result<(), NoMemory>
    ensures { OnOk result (text.new.items ≡ text.old.items ++ number_text attr number dict.now) }
{
    match dict.value_name(attr, number) {
        Some(name) => text.extend_from_slice(name)?,
        None => put_decimal(alloc, text, u64::from(number))?,
    }
    Ok(())
}

fn put_value(
    alloc: Global,
    text: &mut Vec<u8>,
    attr: AttrId,
    value: &Value,
    dict: &Dict,
) -> Result<(), NoMemory>
    ensures text { OnOk result (text.new.items ≡ text.old.items ++ value_text attr value.now dict.now) }
    ensures range { OnOk result (InRange value.now) }
{
    match value {
        Value::Text(octets) => put_quoted(text, octets.as_slice()),
        Value::Octets(octets) => put_hexadecimal(text, octets.as_slice()),
        Value::Addr(address) => put_dotted(alloc, text, *address),
        Value::Number(number) => put_number(alloc, text, attr, *number, dict),
        Value::Date(seconds) => put_decimal(alloc, text, u64::from(*seconds)),
        Value::Byte(number) => put_number(alloc, text, attr, u32::from(*number), dict),
        Value::Short(number) => put_number(alloc, text, attr, u32::from(*number), dict),
    }
}

/// Adds the text of a value of this attribute as it stands in an expansion: a text as it is, without quotes, and every other
/// value as in a pair.
pub fn put_plain(
    alloc: Global,
    text: &mut Vec<u8>,
    attr: AttrId,
    value: &Value,
    dict: &Dict,
) -> Result<(), NoMemory>
    ensures { OnOk result (text.new.items ≡ text.old.items ++ plain_text attr value.now dict.now) }
{
    match value {
        Value::Text(octets) => {
            text.extend_from_slice(octets.as_slice())?;
            Ok(())
        }
        other => put_value(alloc, text, attr, other, dict),
    }
}

#[tactic(auto, unfolding(crate::specs::ValueText::numbered_text))]
fn put_numbered(alloc: Global, text: &mut Vec<u8>, attr: AttrId) -> Result<(), NoMemory>
    ensures { OnOk result (text.new.items ≡ text.old.items ++ numbered_text attr.space attr.number) }
{
    text.extend_from_slice(b"Attr-")?;
    if let Space::Vendor(vendor) = attr.space {
        text.extend_from_slice(b"26.")?;
        put_decimal(alloc, text, u64::from(vendor))?;
        text.push(b'.')?;
    }
    put_decimal(alloc, text, u64::from(attr.number))
}

#[tactic(auto, unfolding(crate::specs::ValueText::attr_text))]
fn put_attr(alloc: Global, text: &mut Vec<u8>, attr: AttrId, dict: &Dict) -> Result<(), NoMemory>
    ensures text { OnOk result (text.new.items ≡ text.old.items ++ attr_text attr dict.now) }
    ensures range { IsSpace attr.space }
{
    match dict.attr_of(attr) {
        Some(row) => text.extend_from_slice(row.name.as_slice())?,
        None => put_numbered(alloc, text, attr)?,
    }
    Ok(())
}

/// The text of a value of this attribute, as it stands in a pair: a text in double quotes, octets as `0x` and
/// lower-case digits, an address dotted, a number by its name or in decimal, a date in decimal seconds.
pub fn print_value(
    alloc: Global,
    attr: AttrId,
    value: &Value,
    dict: &Dict,
) -> Result<Octets, NoMemory>
    ensures { IfOk result (λ text. text ≡ value_text attr value.now dict.now) }
{
    let mut text = Vec::new(alloc);
    put_value(alloc, &mut text, attr, value, dict)?;
    Ok(Octets::from_vec(text))
}

/// `NAME = VALUE`, as radclient(1) prints it. An attribute without a definition is `Attr-N`, or `Attr-26.V.N` for
/// number N of vendor V. The text reads back as the pair, with the operator `=`, wherever the value is of its
/// attribute's kind.
pub fn print_pair(alloc: Global, pair: &Pair, dict: &Dict) -> Result<Octets, NoMemory>
    ensures text { IfOk result (λ text. text ≡ pair_text pair.now dict.now) }
    ensures read_back { IfOk result (λ text. HasItsKind pair.now dict.now → items_of text dict.now ≡ Ok (item_of pair.now ∷ [])) }
{
    dict.each_name_means_one_thing();
    let mut text = Vec::new(alloc);
    put_attr(alloc, &mut text, pair.attr, dict)?;
    text.extend_from_slice(b" = ")?;
    put_value(alloc, &mut text, pair.attr, &pair.value, dict)?;
    Ok(Octets::from_vec(text))
}
