//! The scope of a request that a case gives.
//!
//! The request has the User-Name `name`, or one of kind octets, `name_octets`, or none, and the pairs of `request`, as
//! pairs are written. Its control list and its reply list have so many pairs of one octet as `control` and `reply` say.

use rad_dict::Dict;
use rad_outside::{NoMemory, Octets, Peer};
use rad_pairs::read_pairs;
use rad_value::{ListName, Lists, Pair, Scope, Value};
use rad_words::{AttrId, Space};
use shared_cases::{Case, decimal};
use std::alloc::Global;

/// The scope of a case's request.
pub fn scope_of(alloc: Global, case: &Case, dict: &Dict) -> Result<Scope, NoMemory> {
    let lists = lists_of(alloc, case, dict)?;
    let from = Peer { addr: 0, port: 0 };
    Ok(Scope::new(lists, from, 0, 0, [0; 16]))
}

/// The lists before the module runs.
fn lists_of(alloc: Global, case: &Case, dict: &Dict) -> Result<Lists, NoMemory> {
    let mut lists = Lists::new(alloc);
    let control = decimal(case.text(b"control"));
    let reply = decimal(case.text(b"reply"));
    push_bytes(&mut lists, ListName::Control, 25, control)?;
    push_bytes(&mut lists, ListName::Reply, 33, reply)?;
    if let Some(name) = case.find(b"name") {
        let value = Value::Text(Octets::of(alloc, name)?);
        push(&mut lists, ListName::Request, standard(1), value)?;
    }
    if let Some(name) = case.find(b"name_octets") {
        let value = Value::Octets(Octets::of(alloc, name)?);
        push(&mut lists, ListName::Request, standard(1), value)?;
    }
    push_pairs(alloc, &mut lists, case.text(b"request"), dict)?;
    Ok(lists)
}

/// Adds the pairs of a text to the request list.
fn push_pairs(alloc: Global, lists: &mut Lists, text: &[u8], dict: &Dict) -> Result<(), NoMemory> {
    let Ok(items) = read_pairs(alloc, text, dict) else {
        return Ok(());
    };
    for n in 0..items.len() {
        if let Some(item) = items.get(n) {
            let value = item.value.try_clone(alloc)?;
            push(lists, ListName::Request, item.attr, value)?;
        }
    }
    Ok(())
}

fn standard(number: u32) -> AttrId {
    AttrId {
        space: Space::Standard,
        number,
    }
}

/// Adds so many pairs of a standard attribute, whose values are one octet.
fn push_bytes(lists: &mut Lists, list: ListName, number: u32, count: u64) -> Result<(), NoMemory> {
    for _ in 0..count {
        push(lists, list, standard(number), Value::Byte(0))?;
    }
    Ok(())
}

/// Adds a pair to a list of less than a thousand pairs.
fn push(lists: &mut Lists, list: ListName, attr: AttrId, value: Value) -> Result<(), NoMemory> {
    if lists.len(list) < 1000 {
        lists.push(list, Pair { attr, value })?;
    }
    Ok(())
}
