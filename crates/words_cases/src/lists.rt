//! Lists of pairs are edited and read.

use crate::notation::{
    NoAnswer, answered, attr_of, meaning_of, number_of, pair_of, push_pair, push_value,
};
use rad_outside::NoMemory;
use rad_value::{Edit, EditFault, EditOp, ListName, Lists, Pair};
use rad_words::AttrId;
use shared_cases::{Case, Subject, push_number, words};
use std::alloc::Global;

const LISTS: [ListName; 3] = [ListName::Request, ListName::Reply, ListName::Control];

const LIST_NAMES: [(&[u8], ListName); 3] = [
    (b"request", ListName::Request),
    (b"reply", ListName::Reply),
    (b"control", ListName::Control),
];

const OPERATORS: [(&[u8], EditOp); 6] = [
    (b"=", EditOp::AddIfNone),
    (b":=", EditOp::Set),
    (b"+=", EditOp::Append),
    (b"-=", EditOp::Remove),
    (b"!*", EditOp::RemoveAll),
    (b"==", EditOp::Keep),
];

/// What every list but the one that is edited has.
const OTHERS: &[u8] = b"s26=n0 s1=n0";

/// A list's name, its pairs, an operator and a pair give what an edit answers and what all lists have then.
#[derive(Drop)]
pub struct Edits;

impl Subject for Edits {
    fn answer(&mut self, alloc: Global, case: &Case) -> Result<Vec<u8>, NoMemory> {
        answered(alloc, edited(alloc, case))
    }
}

fn edited(alloc: Global, case: &Case) -> Result<Vec<u8>, NoAnswer> {
    let list = meaning_of(&LIST_NAMES, case.cell(0))?;
    let edit = edit_of(alloc, list, &[case.cell(2), case.cell(3)])?;
    let mut lists = Lists::new(alloc);
    for list in LISTS {
        let pairs = if list == edit.list {
            case.cell(1)
        } else {
            OTHERS
        };
        put(alloc, &mut lists, list, words(alloc, pairs)?.as_slice())?;
    }
    let mut text = Vec::new(alloc);
    push_updated(alloc, &mut text, &mut lists, &edit)?;
    for list in LISTS {
        text.extend_from_slice(b" |")?;
        push_pairs(alloc, &mut text, &lists, list)?;
    }
    Ok(text)
}

/// The edit of an operator and a pair.
fn edit_of(alloc: Global, list: ListName, given: &[&[u8]]) -> Result<Edit, NoAnswer> {
    let [sign, pair] = given else {
        return Err(NoAnswer::Misspelt);
    };
    let op = meaning_of(&OPERATORS, sign)?;
    let Pair { attr, value } = pair_of(alloc, pair)?;
    Ok(Edit {
        list,
        attr,
        op,
        value,
    })
}

/// Adds pairs to a list of fewer than 1000.
fn put(alloc: Global, lists: &mut Lists, list: ListName, pairs: &[&[u8]]) -> Result<(), NoAnswer> {
    for pair in pairs {
        let pair = pair_of(alloc, pair)?;
        if lists.len(list) >= 1000 {
            return Err(NoAnswer::Misspelt);
        }
        lists.push(list, pair)?;
    }
    Ok(())
}

/// Does an edit and writes what it answers.
fn push_updated(
    alloc: Global,
    to: &mut Vec<u8>,
    lists: &mut Lists,
    edit: &Edit,
) -> Result<(), NoAnswer> {
    let (front, length) = match lists.update(edit) {
        Ok(updated) => (b"done ", updated.length),
        Err(EditFault::ListFull(length)) => (b"full ", length),
        Err(EditFault::NoMemory) => return Err(NoAnswer::NoMemory),
    };
    to.extend_from_slice(front)?;
    push_number(alloc, to, u64::from(length))?;
    Ok(())
}

/// Writes a blank and a pair for each pair of a list.
fn push_pairs(
    alloc: Global,
    to: &mut Vec<u8>,
    lists: &Lists,
    list: ListName,
) -> Result<(), NoMemory> {
    for place in 0..lists.len(list) {
        if let Some(pair) = lists.get(list, place) {
            to.push(b' ')?;
            push_pair(alloc, to, pair)?;
        }
    }
    Ok(())
}

/// Steps on three lists give a line for each step that asks.
#[derive(Drop)]
pub struct Steps;

impl Subject for Steps {
    fn answer(&mut self, alloc: Global, case: &Case) -> Result<Vec<u8>, NoMemory> {
        answered(alloc, stepped(alloc, case))
    }
}

fn stepped(alloc: Global, case: &Case) -> Result<Vec<u8>, NoAnswer> {
    let mut lists = Lists::new(alloc);
    let mut text = Vec::new(alloc);
    for field in &case.fields {
        let given = words(alloc, field.text.as_slice())?;
        let name = field.name.as_slice();
        if name == b"put".as_slice() {
            put_times(alloc, &mut lists, given.as_slice())?;
        } else if name != b"gives".as_slice() {
            let step = meaning_of(&STEPS, name)?;
            take_step(alloc, &mut text, &mut lists, step, given.as_slice())?;
            text.push(b'\n')?;
        }
    }
    Ok(text)
}

/// Adds pairs to a list so many times.
fn put_times(alloc: Global, lists: &mut Lists, given: &[&[u8]]) -> Result<(), NoAnswer> {
    let [list, times, pairs @ ..] = given else {
        return Err(NoAnswer::Misspelt);
    };
    let list = meaning_of(&LIST_NAMES, list)?;
    for _ in 0..number_of(times) {
        put(alloc, lists, list, pairs)?;
    }
    Ok(())
}

/// A step that answers.
#[derive(Clone, Copy)]
enum Step {
    Update,
    Try,
    Length,
    Values,
    Pair,
    Text,
}

const STEPS: [(&[u8], Step); 6] = [
    (b"update", Step::Update),
    (b"try", Step::Try),
    (b"length", Step::Length),
    (b"values", Step::Values),
    (b"pair", Step::Pair),
    (b"text", Step::Text),
];

/// Takes a step that answers, and writes what it answers.
fn take_step(
    alloc: Global,
    to: &mut Vec<u8>,
    lists: &mut Lists,
    step: Step,
    given: &[&[u8]],
) -> Result<(), NoAnswer> {
    let [list, given @ ..] = given else {
        return Err(NoAnswer::Misspelt);
    };
    let list = meaning_of(&LIST_NAMES, list)?;
    match step {
        Step::Update => push_updated(alloc, to, lists, &edit_of(alloc, list, given)?),
        Step::Try => push_tried(to, lists, &edit_of(alloc, list, given)?),
        Step::Length => push_length(alloc, to, lists, list),
        Step::Values => push_values(alloc, to, lists, list, attr_of(only(given)?)?),
        Step::Pair => push_pair_at(alloc, to, lists, list, number_of(only(given)?)),
        Step::Text => push_first_text(to, lists, list, attr_of(only(given)?)?),
    }
}

/// The only word of several.
fn only<'a>(given: &[&'a [u8]]) -> Result<&'a [u8], NoAnswer> {
    match given {
        [word] => Ok(word),
        _ => Err(NoAnswer::Misspelt),
    }
}

/// Does an edit, and writes whether its list wasn't full for it.
fn push_tried(to: &mut Vec<u8>, lists: &mut Lists, edit: &Edit) -> Result<(), NoAnswer> {
    let answer = if lists.try_update(edit)? {
        b"done"
    } else {
        b"full"
    };
    to.extend_from_slice(answer)?;
    Ok(())
}

fn push_length(
    alloc: Global,
    to: &mut Vec<u8>,
    lists: &Lists,
    list: ListName,
) -> Result<(), NoAnswer> {
    push_number(alloc, to, u64::from(lists.len(list)))?;
    Ok(())
}

/// Writes how many pairs of an attribute a list has, and the values of the first five.
fn push_values(
    alloc: Global,
    to: &mut Vec<u8>,
    lists: &Lists,
    list: ListName,
    attr: AttrId,
) -> Result<(), NoAnswer> {
    push_number(alloc, to, u64::from(lists.count(list, attr)))?;
    to.push(b':')?;
    for place in 0..5 {
        to.push(b' ')?;
        match lists.nth(list, attr, place) {
            Some(value) => push_value(alloc, to, value)?,
            None => to.push(b'-')?,
        }
    }
    Ok(())
}

/// Writes the pair at a place of a list.
fn push_pair_at(
    alloc: Global,
    to: &mut Vec<u8>,
    lists: &Lists,
    list: ListName,
    place: u32,
) -> Result<(), NoAnswer> {
    match lists.get(list, place) {
        Some(pair) => push_pair(alloc, to, pair)?,
        None => to.push(b'-')?,
    }
    Ok(())
}

/// Writes the text of a list's first pair of an attribute.
fn push_first_text(
    to: &mut Vec<u8>,
    lists: &Lists,
    list: ListName,
    attr: AttrId,
) -> Result<(), NoAnswer> {
    match lists.first_text(list, attr) {
        Some(text) => to.extend_from_slice(text)?,
        None => to.extend_from_slice(b"none")?,
    }
    Ok(())
}
