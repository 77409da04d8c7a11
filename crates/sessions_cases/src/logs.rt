//! A log is folded, and its sessions are written out.
use rad_outside::NoMemory;
use rad_sessions::{Session, SessionList, fold_log};
use shared_cases::{Case, Subject, push_number};
use std::alloc::Global;

/// A log gives its sessions in order, each as `NAS/PORT/FRAMED/SINCE/USER/ID` with addresses as numbers, parted by
/// blanks.
#[derive(Drop)]
pub struct Logs;

impl Subject for Logs {
    fn answer(&mut self, alloc: Global, case: &Case) -> Result<Vec<u8>, NoMemory> {
        let list = fold_log(alloc, case.cell(0))?.sorted()?;
        let mut answer = Vec::new(alloc);
        push_list(alloc, &mut answer, &list, b' ')?;
        Ok(answer)
    }
}

/// The sessions of a list, with a mark between two of them.
pub fn push_list(
    alloc: Global,
    answer: &mut Vec<u8>,
    list: &SessionList,
    mark: u8,
) -> Result<(), NoMemory> {
    for index in 0..list.len() {
        if index > 0 {
            answer.push(mark)?;
        }
        if let Some(session) = list.get(index) {
            push_session(alloc, answer, session)?;
        }
    }
    Ok(())
}

/// A session as `NAS/PORT/FRAMED/SINCE/USER/ID`.
pub fn push_session(
    alloc: Global,
    answer: &mut Vec<u8>,
    session: &Session,
) -> Result<(), NoMemory> {
    push_number(alloc, answer, u64::from(session.nas))?;
    answer.push(b'/')?;
    push_number(alloc, answer, u64::from(session.port))?;
    answer.push(b'/')?;
    push_number(alloc, answer, u64::from(session.framed))?;
    answer.push(b'/')?;
    push_number(alloc, answer, session.since)?;
    answer.push(b'/')?;
    answer.extend_from_slice(session.user.as_slice())?;
    answer.push(b'/')?;
    answer.extend_from_slice(session.id.as_slice())?;
    Ok(())
}
