//! The default actions of groups, and a table of names and numbers.

use crate::notation::{NoAnswer, answered, meaning_of, number_of};
use rad_outside::NoMemory;
use rad_tables::{Action, GroupKind, default_actions};
use rad_words::{Code, Names, Section, names};
use shared_cases::{Case, Subject, push_number};
use std::alloc::Global;

/// The codes in the order of a case's signs.
const CODES: [Code; 9] = [
    Code::Reject,
    Code::Fail,
    Code::Ok,
    Code::Handled,
    Code::Invalid,
    Code::Userlock,
    Code::Notfound,
    Code::Noop,
    Code::Updated,
];

const SECTIONS: [(&[u8], Section); 6] = [
    (b"authorize", Section::Authorize),
    (b"authenticate", Section::Authenticate),
    (b"session", Section::Session),
    (b"preacct", Section::Preacct),
    (b"accounting", Section::Accounting),
    (b"post-auth", Section::PostAuth),
];

const KINDS: [(&[u8], GroupKind); 2] = [
    (b"plain", GroupKind::Plain),
    (b"redundant", GroupKind::Redundant),
];

/// The signs of actions.
const SIGNS: [(&[u8], Action); 7] = [
    (b"R", Action::Return),
    (b"!", Action::Reject),
    (b"1", Action::Priority(1)),
    (b"2", Action::Priority(2)),
    (b"3", Action::Priority(3)),
    (b"4", Action::Priority(4)),
    (b"5", Action::Priority(5)),
];

/// The names of the codes, in the order of a case's signs.
const CODE_NAMES: [(&[u8], Code); 9] = [
    (b"reject", Code::Reject),
    (b"fail", Code::Fail),
    (b"ok", Code::Ok),
    (b"handled", Code::Handled),
    (b"invalid", Code::Invalid),
    (b"userlock", Code::Userlock),
    (b"notfound", Code::Notfound),
    (b"noop", Code::Noop),
    (b"updated", Code::Updated),
];

/// A section, a kind of group, and an action of its own for a code, if any, give the nine actions.
#[derive(Drop)]
pub struct Columns;

impl Subject for Columns {
    fn answer(&mut self, alloc: Global, case: &Case) -> Result<Vec<u8>, NoMemory> {
        answered(alloc, column(alloc, case))
    }
}

fn column(alloc: Global, case: &Case) -> Result<Vec<u8>, NoAnswer> {
    let section = meaning_of(&SECTIONS, case.cell(0))?;
    let actions = default_actions(section, meaning_of(&KINDS, case.cell(1))?);
    let actions = match case.cell(2) {
        b"" => actions,
        code => actions.with(
            meaning_of(&CODE_NAMES, code)?,
            meaning_of(&SIGNS, case.cell(3))?,
        ),
    };
    let mut signs = Vec::new(alloc);
    for code in CODES {
        push_action(alloc, &mut signs, actions.at(code))?;
    }
    Ok(signs)
}

fn push_action(alloc: Global, to: &mut Vec<u8>, action: Action) -> Result<(), NoMemory> {
    match action {
        Action::Return => to.push(b'R')?,
        Action::Reject => to.push(b'!')?,
        Action::Priority(priority) => push_number(alloc, to, u64::from(priority))?,
    }
    Ok(())
}

/// The table in which cases look names and numbers up.
fn pods() -> Names<3> {
    names![7 b"Pod-A", 0 b"pod-b", 4294967295 b"Pod-C"]
}

/// `number` and a name, or `name` and a number, give what the table has for it.
#[derive(Drop)]
pub struct NamesAndNumbers;

impl Subject for NamesAndNumbers {
    fn answer(&mut self, alloc: Global, case: &Case) -> Result<Vec<u8>, NoMemory> {
        answered(alloc, looked_up(alloc, case.cell(0), case.cell(1)))
    }
}

/// What is looked up.
#[derive(Clone, Copy)]
enum Sought {
    Number,
    Name,
}

const SOUGHT: [(&[u8], Sought); 2] = [(b"number", Sought::Number), (b"name", Sought::Name)];

fn looked_up(alloc: Global, sought: &[u8], key: &[u8]) -> Result<Vec<u8>, NoAnswer> {
    let mut found = Vec::new(alloc);
    match meaning_of(&SOUGHT, sought)? {
        Sought::Number => match pods().number(key) {
            Some(number) => push_number(alloc, &mut found, u64::from(number))?,
            None => found.extend_from_slice(b"none")?,
        },
        Sought::Name => match pods().name(number_of(key)) {
            Some(name) => found.extend_from_slice(name)?,
            None => found.extend_from_slice(b"none")?,
        },
    }
    Ok(found)
}
