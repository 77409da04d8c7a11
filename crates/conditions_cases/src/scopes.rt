//! How a scope is written in cases: the request's pairs as radclient(1) reads them, and what else there is in parts that `|`
//! parts: `reply PAIRS`, `control PAIRS`, `last CODE`, `capture TEXT`, which stands before the condition as the whole of a
//! match, and `nested TIMES FRONT BEHIND`, what stands around the condition so many times.

use rad_dict::Dict;
use rad_outside::{Octets, Peer};
use rad_value::{ListName, Lists, Scope};
use rad_words::Code;
use scope_cases::{NoScope, put};
use shared_cases::{after_word, decimal};
use std::alloc::Global;

/// The scope of a case, and what stands around its condition.
#[derive(Drop)]
pub struct Setting {
    pub scope: Scope,
    /// How many times it stands there, at most 100,000.
    pub times: u32,
    pub front: Vec<u8>,
    pub behind: Vec<u8>,
}

/// What stands around the condition.
fn surround(alloc: Global, setting: &mut Setting, part: &[u8]) -> Result<(), NoScope> {
    let mut parts = part.split(|octet| *octet == b' ');
    let times = decimal(parts.next().unwrap_or(&[])).min(100_000);
    setting.times = u32::try_from(times).unwrap_or(0);
    setting.front = Vec::from_slice(alloc, parts.next().unwrap_or(&[]))?;
    setting.behind = Vec::from_slice(alloc, parts.next().unwrap_or(&[]))?;
    Ok(())
}

/// Takes a part of what else there is.
fn take(alloc: Global, setting: &mut Setting, part: &[u8], dict: &Dict) -> Result<(), NoScope> {
    if let Some(pairs) = after_word(part, b"reply") {
        return put(
            alloc,
            &mut setting.scope.lists,
            ListName::Reply,
            pairs,
            dict,
        );
    }
    if let Some(pairs) = after_word(part, b"control") {
        return put(
            alloc,
            &mut setting.scope.lists,
            ListName::Control,
            pairs,
            dict,
        );
    }
    if let Some(name) = after_word(part, b"last") {
        setting.scope.last = Some(Code::named(name).ok_or(NoScope::Misspelt)?);
        return Ok(());
    }
    if let Some(text) = after_word(part, b"capture") {
        setting.scope.captures[0] = Some(Octets::of(alloc, text)?);
        return Ok(());
    }
    surround(
        alloc,
        setting,
        after_word(part, b"nested").ok_or(NoScope::Misspelt)?,
    )
}

/// The setting of two cells.
pub fn setting_of(
    alloc: Global,
    request: &[u8],
    parts: &[u8],
    dict: &Dict,
) -> Result<Setting, NoScope> {
    let mut lists = Lists::new(alloc);
    put(alloc, &mut lists, ListName::Request, request, dict)?;
    let from = Peer { addr: 0, port: 0 };
    let mut setting = Setting {
        scope: Scope::new(lists, from, 0, 0, [0; 16]),
        times: 0,
        front: Vec::new(alloc),
        behind: Vec::new(alloc),
    };
    for part in parts.split(|octet| *octet == b'|') {
        if !part.is_empty() {
            take(alloc, &mut setting, part, dict)?;
        }
    }
    Ok(setting)
}
