//! A case's fields as a run.

use crate::plan::Plan;
use rad_edge::Cue;
use rad_outside::{NoMemory, Octets};
use shared_cases::{Case, Field, hexadecimal, numbers, peer_of, texts};
use std::alloc::Global;

/// What a case says.
pub fn plan_of(alloc: Global, case: &Case) -> Result<Plan, NoMemory> {
    let mut plan = Plan::new(alloc)?;
    for field in &case.fields {
        if !take(alloc, &mut plan, field)? {
            plan.is_read = false;
        }
    }
    Ok(plan)
}

/// Takes a field, if it is one that a case can have.
fn take(alloc: Global, plan: &mut Plan, field: &Field) -> Result<bool, NoMemory> {
    let text = field.text.as_slice();
    match field.name.as_slice() {
        [b'@', path @ ..] => {
            let path = Octets::of(alloc, path)?;
            let text = Octets::of(alloc, text)?;
            plan.files.push((path, text))?;
        }
        b"words" => plan.words = texts(alloc, text)?,
        b"from" => plan.from = peer_of(text),
        b"datagram" => {
            let octets = Octets::from_vec(hexadecimal(alloc, text)?);
            plan.script.push(Cue::Datagram(octets, plan.from))?;
        }
        b"quiet" => plan.script.push(Cue::Quiet)?,
        b"gives" => {}
        name => return take_numbers(alloc, plan, name, text),
    }
    Ok(true)
}

/// Takes a field of numbers, if it is one.
fn take_numbers(
    alloc: Global,
    plan: &mut Plan,
    name: &[u8],
    text: &[u8],
) -> Result<bool, NoMemory> {
    let list = numbers(alloc, text)?;
    match name {
        b"luck" => plan.luck = list,
        b"failing-reads" => plan.failing_reads = list,
        b"failing-receives" => plan.failing_receives = list,
        b"failing-sends" => plan.failing_sends = list,
        b"failing-writes" => plan.failing_writes = list,
        _ => return Ok(false),
    }
    Ok(true)
}
