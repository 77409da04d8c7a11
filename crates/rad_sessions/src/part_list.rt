//! What lists of parts have together.

ghost use Rattle.std.specs.Prelude.{◌≡◌, ◌≤◌, [], map, IfOk};
ghost use Rattle.std.specs.Arc.{arc_value};
ghost use Rattle.std.specs.Option.{option_copied};
ghost use Rattle.rad_sessions.specs.Listed.{limit};
ghost use Rattle.rad_sessions.specs.Parts.{found_in, joined, lengths, parts_after};

use crate::change::Change;
use crate::listed::Listed;
use crate::part_change::part_after;
use crate::session::Session;
use rad_outside::NoMemory;
use std::alloc::Global;
use std::sync::Arc;

/// How many sessions stand in parts.
pub(crate) fn lengths(parts: &[Arc<Listed>]) -> usize
    requires { lengths (map arc_value parts.now) ≤ limit }
    ensures { result ≡ lengths (map arc_value parts.now) }
{
    let mut length = 0usize;
    for part in parts {
        length += part.len();
    }
    length
}

/// The first session at a place in parts.
pub(crate) fn found_in(parts: &[Arc<Listed>], nas: u32, port: u32) -> Option<&Session>
    ensures { option_copied result ≡ found_in (nas, port) (map arc_value parts.now) }
{
    for part in parts {
        if let Some(session) = part.at(nas, port) {
            return Some(session);
        }
    }
    None
}

/// The parts after a change.
pub(crate) fn parts_after(
    alloc: Global,
    parts: &[Arc<Listed>],
    change: &Change,
) -> Result<Vec<Arc<Listed>>, NoMemory>
    ensures { IfOk result (λ next. map arc_value next.items ≡ parts_after 0 (map arc_value parts.now) change.now) }
{
    let mut next = Vec::with_capacity(alloc, parts.len())?;
    let mut number = 0usize;
    for part in parts {
        next.push(part_after(alloc, number, part, change)?)?;
        number += 1;
    }
    Ok(next)
}

/// The sessions of parts as one list.
pub(crate) fn joined(alloc: Global, parts: &[Arc<Listed>]) -> Result<Listed, NoMemory>
    ensures { IfOk result (λ listed. listed ≡ joined [] (map arc_value parts.now)) }
{
    let mut listed = Listed::new(alloc);
    for part in parts {
        listed.take_in(part)?;
    }
    Ok(listed)
}
