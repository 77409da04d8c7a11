//! Users files, and look-ups in them.

use crate::values::push_items;
use mod_users::{Entry, Users, UsersFault};
use rad_dict::Dict;
use rad_outside::NoMemory;
use rad_pairs::Spot;
use shared_cases::{Case, Subject, after_word, decimal, push_number};
use std::alloc::Global;

/// A users file's text, for how many entries it has or its fault.
#[derive(Drop)]
pub struct UsersTextCases;

impl Subject for UsersTextCases {
    fn answer(&mut self, alloc: Global, case: &Case) -> Result<Vec<u8>, NoMemory> {
        let dict = Dict::base(alloc)?;
        count_text(alloc, users_in(alloc, case.cell(0), &dict))
    }
}

/// A filter file's text, for how many entries it has or its fault.
#[derive(Drop)]
pub struct FilterTextCases;

impl Subject for FilterTextCases {
    fn answer(&mut self, alloc: Global, case: &Case) -> Result<Vec<u8>, NoMemory> {
        let dict = Dict::base(alloc)?;
        count_text(alloc, filter_in(alloc, case.cell(0), &dict))
    }
}

/// The text of a file of `users`, or none for no entries, and what to `ask` of it, for the answer.
#[derive(Drop)]
pub struct UsersCases;

impl Subject for UsersCases {
    fn answer(&mut self, alloc: Global, case: &Case) -> Result<Vec<u8>, NoMemory> {
        let question = case.text(b"ask");
        let Some(text) = case.find(b"users") else {
            return answer_to(alloc, &Users::new(alloc), question);
        };
        let dict = Dict::base(alloc)?;
        match users_in(alloc, text, &dict) {
            Ok(users) => answer_to(alloc, &users, question),
            Err(fault) => users_fault(alloc, fault),
        }
    }
}

/// Where a text that is too long to be read has its fault.
const TOO_LONG: Spot = Spot { line: 0, column: 0 };

/// The users of a text. A text of more than 4 MiB isn't read, and has its fault at line 0.
pub fn users_in(alloc: Global, text: &[u8], dict: &Dict) -> Result<Users, UsersFault> {
    if text.len() > 4_194_304 {
        return Err(UsersFault::BadEntry(TOO_LONG));
    }
    Users::read(alloc, text, dict)
}

/// The entries of a filter file, under the same limit.
pub fn filter_in(alloc: Global, text: &[u8], dict: &Dict) -> Result<Users, UsersFault> {
    if text.len() > 4_194_304 {
        return Err(UsersFault::BadEntry(TOO_LONG));
    }
    Users::read_filter(alloc, text, dict)
}

/// How many entries were read, or the fault.
fn count_text(alloc: Global, read: Result<Users, UsersFault>) -> Result<Vec<u8>, NoMemory> {
    match read {
        Ok(users) => {
            let count = users.len();
            Ok(format!(in alloc; "Entries {count}")?.into_bytes())
        }
        Err(fault) => users_fault(alloc, fault),
    }
}

/// A fault of a users file as text: its name, and the line and the column of its spot.
pub fn users_fault(alloc: Global, fault: UsersFault) -> Result<Vec<u8>, NoMemory> {
    match fault {
        UsersFault::UnknownAttr(spot) => at_spot(alloc, b"UnknownAttr", spot),
        UsersFault::BadOperator(spot) => at_spot(alloc, b"BadOperator", spot),
        UsersFault::BadValue(spot) => at_spot(alloc, b"BadValue", spot),
        UsersFault::BadPattern(spot) => at_spot(alloc, b"BadPattern", spot),
        UsersFault::BadEntry(spot) => at_spot(alloc, b"BadEntry", spot),
        UsersFault::NoMemory => Err(NoMemory),
    }
}

/// A name, and a line and a column with a colon between them.
fn at_spot(alloc: Global, name: &[u8], spot: Spot) -> Result<Vec<u8>, NoMemory> {
    let mut text = Vec::from_slice(alloc, name)?;
    text.push(b' ')?;
    push_number(alloc, &mut text, u64::from(spot.line))?;
    text.push(b':')?;
    push_number(alloc, &mut text, u64::from(spot.column))?;
    Ok(text)
}

/// What `len` or `get PLACE` gives.
fn answer_to(alloc: Global, users: &Users, question: &[u8]) -> Result<Vec<u8>, NoMemory> {
    if let Some(place) = after_word(question, b"get") {
        let place = u32::try_from(decimal(place)).unwrap_or(u32::MAX);
        return entry_text(alloc, users.get(place));
    }
    let mut text = Vec::new(alloc);
    push_number(alloc, &mut text, u64::from(users.len()))?;
    Ok(text)
}

/// An entry's line, name, check items and reply items.
fn entry_text(alloc: Global, entry: Option<&Entry>) -> Result<Vec<u8>, NoMemory> {
    let Some(entry) = entry else {
        return Ok(Vec::from_slice(alloc, b"none")?);
    };
    let mut text = Vec::from_slice(alloc, b"line ")?;
    push_number(alloc, &mut text, u64::from(entry.line))?;
    text.extend_from_slice(b", name ")?;
    text.extend_from_slice(entry.name.as_slice())?;
    text.extend_from_slice(b", checks ")?;
    push_items(alloc, &mut text, &entry.checks)?;
    text.extend_from_slice(b", replies ")?;
    push_items(alloc, &mut text, &entry.replies)?;
    Ok(text)
}
