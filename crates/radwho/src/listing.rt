//! The lines of the sessions that are wanted.

ghost use Rattle.std.specs.Prelude.{◌≡◌, ◌++◌, OnOk, IfOk};
ghost use Rattle.std.specs.List.{slice_get};
ghost use Rattle.rad_sessions.specs.Log.{folded};
ghost use Rattle.radwho.specs.Lines.{line_if, line_at, lines_of};

use crate::columns::put_columns;
use crate::raw::put_raw;
use crate::wanted::Wanted;
use rad_outside::NoMemory;
use rad_sessions::{Session, SessionList, fold_log};
use std::alloc::Global;

/// Adds the line of a session, where it is wanted.
fn put_line(
    alloc: Global,
    text: &mut Vec<u8>,
    wanted: &Wanted,
    session: &Session,
) -> Result<(), NoMemory>
    ensures { OnOk result (text.new.items ≡ text.old.items ++ line_if wanted.now session.now) }
{
    if !wanted.is_wanted(session) {
        return Ok(());
    }
    if wanted.is_raw {
        put_raw(alloc, text, session)
    } else {
        put_columns(alloc, text, session)
    }
}

/// Adds the line of the session at a position.
fn put_line_at(
    alloc: Global,
    text: &mut Vec<u8>,
    wanted: &Wanted,
    sessions: &SessionList,
    index: usize,
) -> Result<(), NoMemory>
    ensures { OnOk result (text.new.items ≡ text.old.items ++ line_at wanted.now (slice_get sessions.now index)) }
{
    match sessions.get(index) {
        Some(session) => put_line(alloc, text, wanted, session),
        None => Ok(()),
    }
}

/// The lines of the sessions that are wanted, in their order.
fn lines_of(alloc: Global, wanted: &Wanted, sessions: &SessionList) -> Result<Vec<u8>, NoMemory>
    ensures { IfOk result (λ text. text.items ≡ lines_of wanted.now sessions.now) }
{
    let mut text = Vec::new(alloc);
    for index in 0..sessions.len() {
        put_line_at(alloc, &mut text, wanted, sessions, index)?;
    }
    Ok(text)
}

/// The lines of the sessions of a log that are wanted.
pub(crate) fn lines_of_log(alloc: Global, wanted: &Wanted, log: &[u8]) -> Result<Vec<u8>, NoMemory>
    ensures { IfOk result (λ text. text.items ≡ lines_of wanted.now (folded log.now)) }
{
    let sessions = fold_log(alloc, log)?.sorted()?;
    lines_of(alloc, wanted, &sessions)
}
