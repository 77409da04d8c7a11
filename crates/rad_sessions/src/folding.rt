//! The sessions of a log.

ghost use Rattle.std.specs.Prelude.{◌≡◌, ◌≤◌, length, IfOk};
ghost use Rattle.rad_sessions.specs.Listed.{limit};
ghost use Rattle.rad_sessions.specs.Log.{folded};

use crate::cut::cut_at;
use crate::listed::Listed;
use rad_outside::NoMemory;
use std::alloc::Global;

/// The list of the sessions of a log, a line at a time.
pub(crate) fn folded(alloc: Global, bytes: &[u8]) -> Result<Listed, NoMemory>
    ensures list { IfOk result (λ listed. listed ≡ folded bytes.now) }
    ensures fits { IfOk result (λ listed. length listed ≤ limit) }
{
    let mut listed = Listed::new(alloc);
    let mut rest = bytes;
    while let Some((line, after)) = cut_at(b'\n', rest) {
        listed.after_line(alloc, line)?;
        rest = after;
    }
    Ok(listed)
}
