//! Expansions that are read and expanded.

use crate::scopes::scope_of;
use rad_dict::Dict;
use rad_outside::{LAST_MOMENT, NoMemory, Octets};
use rad_value::Scope;
use scope_cases::NoScope;
use shared_cases::{Case, Subject, push_number};
use std::alloc::Global;
use unlang_xlat::{Xlat, XlatFault};

/// `text` or `path`, the request's pairs, what else the scope has, and the text of an expansion give its text or its path in
/// that scope, or the text's fault and its offset.
#[derive(Drop)]
pub struct Expansions;

impl Subject for Expansions {
    fn answer(&mut self, alloc: Global, case: &Case) -> Result<Vec<u8>, NoMemory> {
        let dict = Dict::base(alloc)?;
        let scope = match scope_of(alloc, case.cell(1), case.cell(2), &dict) {
            Ok(scope) => scope,
            Err(NoScope::Misspelt) => return said(alloc, b"the scope is misspelt"),
            Err(NoScope::NoMemory) => return Err(NoMemory),
        };
        match Xlat::parse(alloc, case.cell(3), &dict) {
            Ok(xlat) => expanded(alloc, case.cell(0), &xlat, &scope, &dict),
            Err(fault) => fault_text(alloc, fault),
        }
    }
}

fn said(alloc: Global, text: &[u8]) -> Result<Vec<u8>, NoMemory> {
    Ok(Vec::from_slice(alloc, text)?)
}

/// What the call of this name gives.
fn expanded(
    alloc: Global,
    call: &[u8],
    xlat: &Xlat,
    scope: &Scope,
    dict: &Dict,
) -> Result<Vec<u8>, NoMemory> {
    if scope.moment > LAST_MOMENT {
        return said(alloc, b"the moment is too late");
    }
    let text: Octets = if call == b"path".as_slice() {
        xlat.expand_path(alloc, scope, dict)?
    } else {
        xlat.expand(alloc, scope, dict)?
    };
    Ok(text.into_vec())
}

/// A fault's name, and its offset.
fn fault_text(alloc: Global, fault: XlatFault) -> Result<Vec<u8>, NoMemory> {
    let (name, offset) = match fault {
        XlatFault::BadExpansion(offset) => (b"BadExpansion ".as_slice(), offset),
        XlatFault::UnknownAttr(offset) => (b"UnknownAttr ".as_slice(), offset),
        XlatFault::UnknownFunction(offset) => (b"UnknownFunction ".as_slice(), offset),
        XlatFault::NoMemory => return Err(NoMemory),
    };
    let mut text = said(alloc, name)?;
    push_number(alloc, &mut text, u64::from(offset))?;
    Ok(text)
}
