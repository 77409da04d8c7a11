//! Updates as text: ` LINE:update{..}`, each line of it as the list, the attribute as `SPACE.NUMBER` (`V1` is vendor 1), the
//! operator and the right side, and a semicolon. A value is its kind and its raw text or number; a reference is `&`, its list,
//! its attribute and its place; an expansion is `expansion`.

use rad_outside::NoMemory;
use rad_value::{EditOp, ListName, Value};
use rad_words::{AttrId, Space};
use shared_cases::push_number;
use std::alloc::Global;
use unlang_reference::{Reference, Which};
use unlang_tree::{Line, Right};

/// Writes an update.
pub fn push_update(alloc: Global, to: &mut Vec<u8>, lines: &[Line]) -> Result<(), NoMemory> {
    to.extend_from_slice(b"update{")?;
    for line in lines {
        to.extend_from_slice(list_text(line.list))?;
        to.push(b' ')?;
        push_attr(alloc, to, line.attr.id)?;
        to.extend_from_slice(operator_text(line.op))?;
        push_right(alloc, to, &line.right)?;
        to.push(b';')?;
    }
    Ok(to.push(b'}')?)
}

fn list_text(list: ListName) -> &'static [u8] {
    match list {
        ListName::Request => b"request",
        ListName::Reply => b"reply",
        ListName::Control => b"control",
    }
}

fn operator_text(op: EditOp) -> &'static [u8] {
    match op {
        EditOp::AddIfNone => b" = ",
        EditOp::Set => b" := ",
        EditOp::Append => b" += ",
        EditOp::Remove => b" -= ",
        EditOp::RemoveAll => b" !* ",
        EditOp::Keep => b" == ",
    }
}

fn push_attr(alloc: Global, to: &mut Vec<u8>, attr: AttrId) -> Result<(), NoMemory> {
    match attr.space {
        Space::Standard => to.push(b'S')?,
        Space::Internal => to.push(b'I')?,
        Space::Vendor(vendor) => {
            to.push(b'V')?;
            push_number(alloc, to, u64::from(vendor))?;
        }
    }
    to.push(b'.')?;
    push_number(alloc, to, u64::from(attr.number))
}

fn push_right(alloc: Global, to: &mut Vec<u8>, right: &Right) -> Result<(), NoMemory> {
    match right {
        Right::Value(value) => push_value(alloc, to, value),
        Right::Reference(reference) => push_reference(alloc, to, reference),
        Right::Expansion(_) => Ok(to.extend_from_slice(b"expansion")?),
    }
}

fn push_value(alloc: Global, to: &mut Vec<u8>, value: &Value) -> Result<(), NoMemory> {
    match value {
        Value::Text(text) => {
            to.extend_from_slice(b"text ")?;
            Ok(to.extend_from_slice(text.as_slice())?)
        }
        Value::Octets(octets) => {
            to.extend_from_slice(b"octets")?;
            for octet in octets.as_slice() {
                to.push(b' ')?;
                push_number(alloc, to, u64::from(*octet))?;
            }
            Ok(())
        }
        Value::Addr(number) => push_numbered(alloc, to, b"addr ", *number),
        Value::Number(number) => push_numbered(alloc, to, b"number ", *number),
        Value::Date(number) => push_numbered(alloc, to, b"date ", *number),
        Value::Byte(number) => push_numbered(alloc, to, b"byte ", u32::from(*number)),
        Value::Short(number) => push_numbered(alloc, to, b"short ", u32::from(*number)),
    }
}

fn push_numbered(
    alloc: Global,
    to: &mut Vec<u8>,
    kind: &[u8],
    number: u32,
) -> Result<(), NoMemory> {
    to.extend_from_slice(kind)?;
    push_number(alloc, to, u64::from(number))
}

fn push_reference(alloc: Global, to: &mut Vec<u8>, reference: &Reference) -> Result<(), NoMemory> {
    to.push(b'&')?;
    to.extend_from_slice(list_text(reference.list))?;
    to.push(b' ')?;
    push_attr(alloc, to, reference.attr.id)?;
    match reference.which {
        Which::Nth(n) => {
            to.push(b'[')?;
            push_number(alloc, to, u64::from(n))?;
            Ok(to.push(b']')?)
        }
        Which::All => Ok(to.extend_from_slice(b"[*]")?),
        Which::Count => Ok(to.extend_from_slice(b"[#]")?),
    }
}
