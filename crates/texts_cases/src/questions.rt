//! Questions to a dictionary, and its answers as text.
//!
//! `attr NAME` and `attr_of SPACE NUMBER` ask for a definition, whose text is its space, number, kind and name;
//! `value_name SPACE NUMBER VALUE` asks for a value's name and `value_number SPACE NUMBER NAME` for its number. A space
//! is `Standard`, `Internal` or `Vendor(NUMBER)`. What isn't known is `none`.

use crate::turns::first_word;
use rad_dict::{AttrDef, Dict};
use rad_outside::NoMemory;
use rad_words::{AttrId, Space};
use shared_cases::{Case, after_word, decimal, push_number};
use std::alloc::Global;

/// What the case's questions give, which are its fields of a name. What all of them give stands there once; where they
/// differ, one stands behind the other.
pub fn answers(alloc: Global, dict: &Dict, case: &Case, name: &[u8]) -> Result<Vec<u8>, NoMemory> {
    let mut text = Vec::new(alloc);
    for field in &case.fields {
        if field.name.as_slice() == name {
            let one = answer_to(alloc, dict, field.text.as_slice())?;
            if one.as_slice() != text.as_slice() {
                text.extend_from_slice(one.as_slice())?;
            }
        }
    }
    Ok(text)
}

/// What a question gives.
fn answer_to(alloc: Global, dict: &Dict, question: &[u8]) -> Result<Vec<u8>, NoMemory> {
    if let Some(name) = after_word(question, b"attr") {
        return definition_text(alloc, dict.attr(name));
    }
    let (call, rest) = first_word(question);
    let (space, rest) = first_word(rest);
    let (number, last) = first_word(rest);
    let id = AttrId {
        space: space_of(space),
        number: number_of(number),
    };
    match call {
        b"attr_of" => definition_text(alloc, dict.attr_of(id)),
        b"value_name" => name_text(alloc, dict.value_name(id, number_of(last))),
        b"value_number" => number_text(alloc, dict.value_number(id, last)),
        _ => Ok(Vec::from_slice(alloc, b"no such question")?),
    }
}

/// The space that a word says.
fn space_of(word: &[u8]) -> Space {
    match word {
        b"Standard" => Space::Standard,
        b"Internal" => Space::Internal,
        _ => Space::Vendor(number_of(word)),
    }
}

/// The number that a word says.
fn number_of(word: &[u8]) -> u32 {
    u32::try_from(decimal(word)).unwrap_or(u32::MAX)
}

fn definition_text(alloc: Global, def: Option<&AttrDef>) -> Result<Vec<u8>, NoMemory> {
    let Some(def) = def else {
        return Ok(Vec::from_slice(alloc, b"none")?);
    };
    let (space, number, kind) = (def.id.space, def.id.number, def.kind);
    let mut text = format!(in alloc; "{space:?} {number} {kind:?} ")?.into_bytes();
    text.extend_from_slice(def.name.as_slice())?;
    Ok(text)
}

fn name_text(alloc: Global, name: Option<&[u8]>) -> Result<Vec<u8>, NoMemory> {
    Ok(Vec::from_slice(alloc, name.unwrap_or(b"none"))?)
}

fn number_text(alloc: Global, number: Option<u32>) -> Result<Vec<u8>, NoMemory> {
    let mut text = Vec::new(alloc);
    match number {
        Some(number) => push_number(alloc, &mut text, u64::from(number))?,
        None => text.extend_from_slice(b"none")?,
    }
    Ok(text)
}
