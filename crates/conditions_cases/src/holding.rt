//! Conditions that are read and evaluated.

use crate::scopes::{Setting, setting_of};
use rad_dict::Dict;
use rad_outside::{LAST_MOMENT, NoMemory};
use rad_value::Scope;
use scope_cases::NoScope;
use shared_cases::{Case, Subject, push_number};
use std::alloc::Global;
use unlang_cond::{Cond, CondFault};

/// The request's pairs, what else there is, and the text of a condition give whether it holds and the captures then, or the
/// text's fault and its offset.
#[derive(Drop)]
pub struct Conditions;

impl Subject for Conditions {
    fn answer(&mut self, alloc: Global, case: &Case) -> Result<Vec<u8>, NoMemory> {
        let dict = Dict::base(alloc)?;
        let setting = match setting_of(alloc, case.cell(0), case.cell(1), &dict) {
            Ok(setting) => setting,
            Err(NoScope::Misspelt) => return said(alloc, b"the scope is misspelt"),
            Err(NoScope::NoMemory) => return Err(NoMemory),
        };
        let text = nested(alloc, &setting, case.cell(2))?;
        match Cond::parse(alloc, text.as_slice(), &dict) {
            Ok(cond) => held(alloc, &cond, setting.scope, &dict),
            Err(fault) => fault_text(alloc, fault),
        }
    }
}

fn said(alloc: Global, text: &[u8]) -> Result<Vec<u8>, NoMemory> {
    Ok(Vec::from_slice(alloc, text)?)
}

/// The condition between what stands before it and behind it, so many times each.
fn nested(alloc: Global, setting: &Setting, condition: &[u8]) -> Result<Vec<u8>, NoMemory> {
    let mut text = Vec::new(alloc);
    for _ in 0..setting.times {
        text.extend_from_slice(setting.front.as_slice())?;
    }
    text.extend_from_slice(condition)?;
    for _ in 0..setting.times {
        text.extend_from_slice(setting.behind.as_slice())?;
    }
    Ok(text)
}

/// Whether the condition holds, and the captures then.
fn held(alloc: Global, cond: &Cond, mut scope: Scope, dict: &Dict) -> Result<Vec<u8>, NoMemory> {
    if scope.moment > LAST_MOMENT {
        return said(alloc, b"the moment is too late");
    }
    let holds = cond.holds(alloc, &mut scope, dict)?;
    let mut text = if holds {
        said(alloc, b"true")?
    } else {
        said(alloc, b"false")?
    };
    for (n, capture) in scope.captures.iter().enumerate() {
        if let Some(capture) = capture {
            text.push(b'|')?;
            push_number(alloc, &mut text, n as u64)?;
            text.push(b'=')?;
            text.extend_from_slice(capture.as_slice())?;
        }
    }
    Ok(text)
}

/// A fault's name, and its offset.
fn fault_text(alloc: Global, fault: CondFault) -> Result<Vec<u8>, NoMemory> {
    let (name, offset) = match fault {
        CondFault::BadCondition(offset) => (b"BadCondition ".as_slice(), offset),
        CondFault::UnknownAttr(offset) => (b"UnknownAttr ".as_slice(), offset),
        CondFault::BadPattern(offset) => (b"BadPattern ".as_slice(), offset),
        CondFault::NoMemory => return Err(NoMemory),
    };
    let mut text = said(alloc, name)?;
    push_number(alloc, &mut text, u64::from(offset))?;
    Ok(text)
}
