//! Pairs and values are printed, and pairs that were printed are read back.

use crate::notation::{NoAnswer, answered, attr_of, meaning_of, value_of};
use crate::reading::shown;
use rad_dict::Dict;
use rad_outside::NoMemory;
use rad_pairs::{print_pair, print_value, read_pairs};
use rad_value::Pair;
use shared_cases::{Case, Subject};
use std::alloc::Global;

/// `pair` or `value`, an attribute and a value of it give the text of the pair or of its value; `back` gives the
/// pair that is read from the text of the pair.
#[derive(Drop)]
pub struct PrintedTexts;

impl Subject for PrintedTexts {
    fn answer(&mut self, alloc: Global, case: &Case) -> Result<Vec<u8>, NoMemory> {
        let base = Dict::base(alloc)?;
        answered(alloc, printed(alloc, &base, case))
    }
}

fn printed(alloc: Global, dict: &Dict, case: &Case) -> Result<Vec<u8>, NoAnswer> {
    let call = meaning_of(&CALLS, case.cell(0))?;
    let pair = Pair {
        attr: attr_of(case.cell(1))?,
        value: value_of(alloc, case.cell(2))?,
    };
    Ok(match call {
        Call::Value => print_value(alloc, pair.attr, &pair.value, dict)?.into_vec(),
        Call::Pair => print_pair(alloc, &pair, dict)?.into_vec(),
        Call::Back => read_back(alloc, &pair, dict)?,
    })
}

/// What is tried.
#[derive(Clone, Copy)]
enum Call {
    Value,
    Pair,
    Back,
}

const CALLS: [(&[u8], Call); 3] = [
    (b"value", Call::Value),
    (b"pair", Call::Pair),
    (b"back", Call::Back),
];

/// Prints a pair, and shows what is read from that.
fn read_back(alloc: Global, pair: &Pair, dict: &Dict) -> Result<Vec<u8>, NoMemory> {
    let text = print_pair(alloc, pair, dict)?;
    shown(alloc, read_pairs(alloc, text.as_slice(), dict))
}
