//! Which items and entries of users files match.

use crate::requests::scope_of;
use crate::users_files::{filter_in, users_fault, users_in};
use mod_users::Users;
use rad_dict::Dict;
use rad_edge::MemFiles;
use rad_outside::{NoMemory, Octets};
use rad_pairs::read_pairs;
use rad_value::Scope;
use shared_cases::{Case, Subject};
use std::alloc::Global;

/// A dictionary's text, where the file needs more than the base, a file of `users`, a `key` and a request's pairs: for
/// which check items of its first entry match, and whether the entry does.
#[derive(Drop)]
pub struct MatchCases;

impl Subject for MatchCases {
    fn answer(&mut self, alloc: Global, case: &Case) -> Result<Vec<u8>, NoMemory> {
        let dict = dictionary_of(alloc, case)?;
        let scope = scope_of(alloc, case, &dict)?;
        match users_in(alloc, case.text(b"users"), &dict) {
            Ok(users) => match_text(alloc, &users, case.text(b"key"), &scope, &dict),
            Err(fault) => users_fault(alloc, fault),
        }
    }
}

/// A `filter` file and a `pair`: which reply items of the file's first entry its value meets.
#[derive(Drop)]
pub struct MeetCases;

impl Subject for MeetCases {
    fn answer(&mut self, alloc: Global, case: &Case) -> Result<Vec<u8>, NoMemory> {
        let dict = dictionary_of(alloc, case)?;
        match filter_in(alloc, case.text(b"filter"), &dict) {
            Ok(users) => meet_text(alloc, &users, case.text(b"pair"), &dict),
            Err(fault) => users_fault(alloc, fault),
        }
    }
}

/// The base, or a dictionary of the case's own, which adds to it.
fn dictionary_of(alloc: Global, case: &Case) -> Result<Dict, NoMemory> {
    let Some(text) = case.find(b"dictionary") else {
        return Dict::base(alloc);
    };
    let mut files = dictionary_file(alloc, text)?;
    match Dict::read(alloc, &mut files, "etc/dictionary") {
        Ok(dict) => Ok(dict),
        Err(_) => Dict::base(alloc),
    }
}

/// The file `etc/dictionary` alone, which holds this text.
fn dictionary_file(alloc: Global, text: &[u8]) -> Result<MemFiles, NoMemory> {
    let path = Octets::of(alloc, b"etc/dictionary")?;
    let mut map = Vec::new(alloc);
    map.push((path, Octets::of(alloc, text)?))?;
    let mut maps = Vec::new(alloc);
    maps.push(map)?;
    Ok(MemFiles::new(maps, Vec::new(alloc)))
}

/// `yes` or `no` for each check item of the first entry, and for the entry.
fn match_text(
    alloc: Global,
    users: &Users,
    key: &[u8],
    scope: &Scope,
    dict: &Dict,
) -> Result<Vec<u8>, NoMemory> {
    let mut text = Vec::from_slice(alloc, b"items")?;
    let count = match users.get(0) {
        Some(entry) => entry.checks.len(),
        None => 0,
    };
    for item in 0..count {
        let item = u32::try_from(item).unwrap_or(u32::MAX);
        push_verdict(&mut text, users.item_fits(alloc, 0, item, scope, dict)?)?;
    }
    text.extend_from_slice(b", entry")?;
    push_verdict(&mut text, users.fits(alloc, 0, key, scope, dict)?)?;
    Ok(text)
}

/// `yes` or `no` for each reply item of the first entry and the value of the first pair of a text.
fn meet_text(alloc: Global, users: &Users, pair: &[u8], dict: &Dict) -> Result<Vec<u8>, NoMemory> {
    let mut text = Vec::from_slice(alloc, b"items")?;
    let Ok(pairs) = read_pairs(alloc, pair, dict) else {
        return Ok(Vec::from_slice(alloc, b"no pair")?);
    };
    let Some(pair) = pairs.get(0) else {
        return Ok(Vec::from_slice(alloc, b"no pair")?);
    };
    let count = match users.get(0) {
        Some(entry) => entry.replies.len(),
        None => 0,
    };
    for item in 0..count {
        let item = u32::try_from(item).unwrap_or(u32::MAX);
        let meets = users.reply_meets(alloc, 0, item, &pair.value, dict)?;
        push_verdict(&mut text, meets)?;
    }
    Ok(text)
}

fn push_verdict(text: &mut Vec<u8>, holds: bool) -> Result<(), NoMemory> {
    text.extend_from_slice(if holds { b" yes" } else { b" no" })?;
    Ok(())
}
