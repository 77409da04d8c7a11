//! How a scope is written in cases: the request's pairs as radclient(1) reads them, and what else there is in parts that `|`
//! parts: `reply PAIRS`, `control PAIRS`, `moment SECONDS`, `from ADDRESS` (a number), `capture N TEXT` and `loop N PAIR`, of
//! which the pair's value is the loop's.

use rad_dict::Dict;
use rad_outside::{LAST_MOMENT, Octets, Peer};
use rad_value::{ListName, Lists, Scope, Value};
use scope_cases::{NoScope, pairs_of, put};
use shared_cases::{after_word, decimal};
use std::alloc::Global;

/// What stands in a scope beside its lists.
#[derive(Drop)]
struct Others {
    moment: u64,
    from: u32,
    captures: [Option<Octets>; 9],
    loops: [Option<Value>; 8],
}

/// The number before a blank, and what stands behind the blank.
fn numbered(text: &[u8]) -> Result<(usize, &[u8]), NoScope> {
    match text {
        [digit @ b'0'..=b'9', b' ', rest @ ..] => Ok((usize::from(*digit - b'0'), rest)),
        _ => Err(NoScope::Misspelt),
    }
}

/// The value of a text's only pair.
fn value_of(alloc: Global, text: &[u8], dict: &Dict) -> Result<Value, NoScope> {
    match pairs_of(alloc, text, dict)?.pop() {
        Some(pair) => Ok(pair.value),
        None => Err(NoScope::Misspelt),
    }
}

/// Sets a place of an array.
fn set<T: Drop>(places: &mut [Option<T>], n: usize, value: T) -> Result<(), NoScope> {
    match places.get_mut(n) {
        Some(place) => {
            *place = Some(value);
            Ok(())
        }
        None => Err(NoScope::Misspelt),
    }
}

/// Takes a part of what else there is.
fn take(
    alloc: Global,
    lists: &mut Lists,
    others: &mut Others,
    part: &[u8],
    dict: &Dict,
) -> Result<(), NoScope> {
    if let Some(pairs) = after_word(part, b"reply") {
        return put(alloc, lists, ListName::Reply, pairs, dict);
    }
    if let Some(pairs) = after_word(part, b"control") {
        return put(alloc, lists, ListName::Control, pairs, dict);
    }
    if let Some(seconds) = after_word(part, b"moment") {
        others.moment = decimal(seconds);
        return Ok(());
    }
    if let Some(address) = after_word(part, b"from") {
        others.from = u32::try_from(decimal(address)).unwrap_or(u32::MAX);
        return Ok(());
    }
    if let Some(capture) = after_word(part, b"capture") {
        let (n, text) = numbered(capture)?;
        return set(&mut others.captures, n, Octets::of(alloc, text)?);
    }
    let (n, pair) = numbered(after_word(part, b"loop").ok_or(NoScope::Misspelt)?)?;
    set(&mut others.loops, n, value_of(alloc, pair, dict)?)
}

/// The scope of two cells.
pub fn scope_of(
    alloc: Global,
    request: &[u8],
    parts: &[u8],
    dict: &Dict,
) -> Result<Scope, NoScope> {
    let mut lists = Lists::new(alloc);
    put(alloc, &mut lists, ListName::Request, request, dict)?;
    let mut others = Others {
        moment: 0,
        from: 0,
        captures: [None, None, None, None, None, None, None, None, None],
        loops: [None, None, None, None, None, None, None, None],
    };
    for part in parts.split(|octet| *octet == b'|') {
        if !part.is_empty() {
            take(alloc, &mut lists, &mut others, part, dict)?;
        }
    }
    let Others {
        moment,
        from,
        captures,
        loops,
    } = others;
    let from = Peer {
        addr: from,
        port: 0,
    };
    let moment = moment.min(LAST_MOMENT);
    let mut scope = Scope::new(lists, from, moment, 0, [0; 16]);
    scope.captures = captures;
    scope.loops = loops;
    Ok(scope)
}
