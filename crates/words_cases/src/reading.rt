//! Texts of pairs and of values are read.

use crate::notation::{NoAnswer, answered, meaning_of, push_attr, push_value};
use rad_dict::{AttrDef, Dict};
use rad_outside::{NoMemory, Octets};
use rad_pairs::{Item, ItemList, PairFault, PairOp, Spot, ValueFault, read_pairs, read_value};
use rad_words::{AttrId, Kind, Space};
use shared_cases::{Case, Subject, push_number};
use std::alloc::Global;

/// A text of pairs gives its pairs, or its first fault.
#[derive(Drop)]
pub struct PairTexts;

impl Subject for PairTexts {
    fn answer(&mut self, alloc: Global, case: &Case) -> Result<Vec<u8>, NoMemory> {
        let base = Dict::base(alloc)?;
        shown(alloc, read_pairs(alloc, case.cell(0), &base))
    }
}

/// The items that were read, `no pair` where there are none, or the fault as `FAULT LINE:COLUMN`.
pub fn shown(alloc: Global, read: Result<ItemList, PairFault>) -> Result<Vec<u8>, NoMemory> {
    let mut text = Vec::new(alloc);
    match read {
        Ok(items) => {
            for item in &items.into_vec() {
                push_item(alloc, &mut text, item)?;
            }
        }
        Err(PairFault::UnknownAttr(at)) => push_fault(alloc, &mut text, b"UnknownAttr ", at)?,
        Err(PairFault::BadOperator(at)) => push_fault(alloc, &mut text, b"BadOperator ", at)?,
        Err(PairFault::BadValue(at)) => push_fault(alloc, &mut text, b"BadValue ", at)?,
        Err(PairFault::NoMemory) => return Err(NoMemory),
    }
    if text.is_empty() {
        text.extend_from_slice(b"no pair")?;
    }
    Ok(text)
}

fn push_fault(alloc: Global, to: &mut Vec<u8>, name: &[u8], at: Spot) -> Result<(), NoMemory> {
    to.extend_from_slice(name)?;
    push_number(alloc, to, u64::from(at.line))?;
    to.push(b':')?;
    push_number(alloc, to, u64::from(at.column))
}

/// Writes an item as `ATTRIBUTE OPERATOR VALUE;`.
fn push_item(alloc: Global, to: &mut Vec<u8>, item: &Item) -> Result<(), NoMemory> {
    push_attr(alloc, to, item.attr)?;
    to.extend_from_slice(spelling(item.op))?;
    push_value(alloc, to, &item.value)?;
    to.push(b';')?;
    Ok(())
}

fn spelling(op: PairOp) -> &'static [u8] {
    match op {
        PairOp::Eq => b" = ",
        PairOp::Set => b" := ",
        PairOp::Append => b" += ",
        PairOp::Equal => b" == ",
        PairOp::Differs => b" != ",
        PairOp::Lt => b" < ",
        PairOp::Le => b" <= ",
        PairOp::Gt => b" > ",
        PairOp::Ge => b" >= ",
        PairOp::Match => b" =~ ",
        PairOp::NoMatch => b" !~ ",
        PairOp::Any => b" =* ",
        PairOp::None => b" !* ",
    }
}

const KINDS: [(&[u8], Kind); 7] = [
    (b"text", Kind::Text),
    (b"octets", Kind::Octets),
    (b"address", Kind::Addr),
    (b"number", Kind::Number),
    (b"date", Kind::Date),
    (b"byte", Kind::Byte),
    (b"short", Kind::Short),
];

/// A kind and a text give the value that the text means for Service-Type, were it of that kind.
#[derive(Drop)]
pub struct ValueTexts;

impl Subject for ValueTexts {
    fn answer(&mut self, alloc: Global, case: &Case) -> Result<Vec<u8>, NoMemory> {
        let base = Dict::base(alloc)?;
        answered(alloc, meant(alloc, &base, case.cell(0), case.cell(1)))
    }
}

fn meant(alloc: Global, dict: &Dict, kind: &[u8], text: &[u8]) -> Result<Vec<u8>, NoAnswer> {
    let service_type = AttrDef {
        id: AttrId {
            space: Space::Standard,
            number: 6,
        },
        kind: meaning_of(&KINDS, kind)?,
        name: Octets::of(alloc, b"Service-Type")?,
    };
    let mut shown = Vec::new(alloc);
    match read_value(alloc, text, &service_type, dict) {
        Ok(value) => push_value(alloc, &mut shown, &value)?,
        Err(ValueFault::BadValue) => shown.extend_from_slice(b"BadValue")?,
        Err(ValueFault::NoMemory) => return Err(NoAnswer::NoMemory),
    }
    Ok(shown)
}
