//! Many sessions at once.
use rad_outside::{NoMemory, Octets};
use rad_sessions::{Change, Session, Sessions, fold_log, line_of};
use shared_cases::push_number;
use std::alloc::Global;

/// So many sessions, of which the one with number K from 0 stands on port K modulo 256 of the NAS with address 1 and K / 256,
/// with address K, since 1000, of the user K modulo 1000, and with identifier K, the last two as digits.
pub fn many(alloc: Global, count: u32) -> Result<Sessions, NoMemory> {
    let mut log = Vec::new(alloc);
    for number in 0..count {
        let line = line_of(alloc, &Change::Begin(numbered(alloc, number)?))?;
        log.extend_from_slice(line.as_slice())?;
    }
    fold_log(alloc, log.as_slice())
}

fn numbered(alloc: Global, number: u32) -> Result<Session, NoMemory> {
    Ok(Session {
        nas: number / 256 + 1,
        port: number % 256,
        framed: number,
        since: 1000,
        user: digits(alloc, number % 1000)?,
        id: digits(alloc, number)?,
    })
}

fn digits(alloc: Global, number: u32) -> Result<Octets, NoMemory> {
    let mut text = Vec::new(alloc);
    push_number(alloc, &mut text, u64::from(number))?;
    Ok(Octets::from_vec(text))
}
