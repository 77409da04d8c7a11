//! What the module `files` does to the lists of a request.

use crate::requests::scope_of;
use crate::users_files::{users_fault, users_in};
use crate::values::{push_attribute, push_value};
use mod_users::FilesModule;
use rad_dict::Dict;
use rad_outside::{LAST_MOMENT, NoMemory};
use rad_value::{ListName, Lists, Pair, Scope, Value};
use shared_cases::{Case, Subject, push_number};
use std::alloc::Global;
use unlang_xlat::Xlat;

/// The key of a module that sets none.
const KEY: &[u8] = b"%{%{Stripped-User-Name}:-%{User-Name}}";

/// The text of a file of `users`, an expansion that is the `key` and a request, for the module's code and the lists that
/// it leaves.
///
/// The module runs twice, if the case isn't to run `once`. What both runs give stands there once; where they differ, one
/// stands behind the other.
#[derive(Drop)]
pub struct RunCases;

impl Subject for RunCases {
    fn answer(&mut self, alloc: Global, case: &Case) -> Result<Vec<u8>, NoMemory> {
        let dict = Dict::base(alloc)?;
        let Ok(key) = Xlat::parse(alloc, case.find(b"key").unwrap_or(KEY), &dict) else {
            return Ok(Vec::from_slice(alloc, b"no key")?);
        };
        match users_in(alloc, case.text(b"users"), &dict) {
            Ok(users) => run_all(alloc, &FilesModule::new(users, key), case, &dict),
            Err(fault) => users_fault(alloc, fault),
        }
    }
}

fn run_all(
    alloc: Global,
    module: &FilesModule,
    case: &Case,
    dict: &Dict,
) -> Result<Vec<u8>, NoMemory> {
    let mut scope = scope_of(alloc, case, dict)?;
    let mut first = run(alloc, module, &mut scope, dict)?;
    if case.find(b"once").is_some() {
        return Ok(first);
    }
    let second = run(alloc, module, &mut scope, dict)?;
    if first.as_slice() != second.as_slice() {
        first.extend_from_slice(second.as_slice())?;
    }
    Ok(first)
}

/// Runs the module, and shows its code and the lists.
fn run(
    alloc: Global,
    module: &FilesModule,
    scope: &mut Scope,
    dict: &Dict,
) -> Result<Vec<u8>, NoMemory> {
    if scope.moment > LAST_MOMENT {
        return Ok(Vec::from_slice(alloc, b"a moment that is too late")?);
    }
    let code = module.authorize(alloc, scope, dict)?;
    let mut text = format!(in alloc; "{code:?}")?.into_bytes();
    text.extend_from_slice(b", control ")?;
    push_list(alloc, &mut text, &scope.lists, ListName::Control)?;
    text.extend_from_slice(b", reply ")?;
    push_list(alloc, &mut text, &scope.lists, ListName::Reply)?;
    text.extend_from_slice(b", request ")?;
    push_number(
        alloc,
        &mut text,
        u64::from(scope.lists.len(ListName::Request)),
    )?;
    Ok(text)
}

/// Writes how many pairs a list has, and those whose values aren't one octet.
fn push_list(
    alloc: Global,
    to: &mut Vec<u8>,
    lists: &Lists,
    list: ListName,
) -> Result<(), NoMemory> {
    push_number(alloc, to, u64::from(lists.len(list)))?;
    to.extend_from_slice(b" [")?;
    for n in 0..lists.len(list) {
        if let Some(pair) = lists.get(list, n) {
            push_pair(alloc, to, pair)?;
        }
    }
    to.push(b']')?;
    Ok(())
}

/// Writes a pair whose value isn't one octet, with a sign behind it.
fn push_pair(alloc: Global, to: &mut Vec<u8>, pair: &Pair) -> Result<(), NoMemory> {
    if matches!(pair.value, Value::Byte(_)) {
        return Ok(());
    }
    push_attribute(alloc, to, pair.attr)?;
    push_value(alloc, to, &pair.value)?;
    to.push(b';')?;
    Ok(())
}
