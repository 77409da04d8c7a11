//! What a line of the log says.

ghost use Rattle.std.specs.Prelude.{◌≡◌, IfOk};
ghost use Rattle.std.specs.Option.{option_map};
ghost use Rattle.std.specs.Str.{bytes_eq};
ghost use Rattle.rad_sessions.specs.Log.{line_of, session_at, seconds_after, octets_of, renew_at, end_at, clear_at, begin_at, fields_at, guess_of, if_written, change_of};

use crate::change::Change;
use crate::cut::cut_at;
use crate::fields::{address_at, number_at, seconds_of};
use crate::hexadecimal::octets_of;
use crate::session::Session;
use crate::written::put_line;
use rad_outside::NoMemory;
use std::alloc::Global;

/// The fields of a session as a line has them, its user and identifier as digits.
#[derive(Drop)]
struct Fields<'a> {
    nas: u32,
    port: u32,
    framed: u32,
    since: u64,
    user: &'a [u8],
    id: &'a [u8],
}

/// What the fields of a line would say of a session.
#[tactic(auto, unfolding(crate::specs::Log::session_at))]
fn fields_of(text: &[u8]) -> Option<Fields<'_>>
    ensures { option_map (λ f. record { nas = f.nas; port = f.port; framed = f.framed; since = f.since; user = octets_of f.user.now; id = octets_of f.id.now }) result ≡ session_at text.now }
{
    let (nas, rest) = address_at(text)?;
    let (port, rest) = number_at(rest)?;
    let (framed, rest) = address_at(rest)?;
    let (since, rest) = cut_at(b' ', rest)?;
    let (user, rest) = cut_at(b' ', rest)?;
    let (id, _) = cut_at(b' ', rest)?;
    Some(Fields {
        nas,
        port,
        framed,
        since: seconds_of(since),
        user,
        id,
    })
}

/// The session of these fields.
fn session_of(alloc: Global, fields: &Fields<'_>) -> Result<Session, NoMemory>
    ensures { let f = fields.now in IfOk result (λ session. session ≡ record { nas = f.nas; port = f.port; framed = f.framed; since = f.since; user = octets_of f.user.now; id = octets_of f.id.now }) }
{
    Ok(Session {
        nas: fields.nas,
        port: fields.port,
        framed: fields.framed,
        since: fields.since,
        user: octets_of(alloc, fields.user)?,
        id: octets_of(alloc, fields.id)?,
    })
}

fn begin_at(alloc: Global, text: &[u8]) -> Result<Option<Change>, NoMemory>
    ensures { IfOk result (λ said. said ≡ begin_at text.now) }
{
    match fields_of(text) {
        Some(fields) => Ok(Some(Change::Begin(session_of(alloc, &fields)?))),
        None => Ok(None),
    }
}

#[tactic(auto, unfolding(crate::specs::Log::renew_at))]
fn renew_at(text: &[u8]) -> Option<Change>
    ensures { result ≡ renew_at text.now }
{
    let (nas, rest) = address_at(text)?;
    let (port, rest) = number_at(rest)?;
    let (framed, _) = address_at(rest)?;
    Some(Change::Renew { nas, port, framed })
}

#[tactic(auto, unfolding(crate::specs::Log::end_at))]
fn end_at(text: &[u8]) -> Option<Change>
    ensures { result ≡ end_at text.now }
{
    let (nas, rest) = address_at(text)?;
    let (port, _) = number_at(rest)?;
    Some(Change::End { nas, port })
}

#[tactic(auto, unfolding(crate::specs::Log::clear_at))]
fn clear_at(text: &[u8]) -> Option<Change>
    ensures { result ≡ clear_at text.now }
{
    let (nas, _) = address_at(text)?;
    Some(Change::Clear { nas })
}

/// What a line would say behind a word that begins with this octet.
#[tactic(auto, unfolding(crate::specs::Log::fields_at))]
fn fields_at(alloc: Global, first: u8, rest: &[u8]) -> Result<Option<Change>, NoMemory>
    ensures { IfOk result (λ said. said ≡ fields_at first rest.now) }
{
    match first {
        b'b' => begin_at(alloc, rest),
        b'r' => Ok(renew_at(rest)),
        b'e' => Ok(end_at(rest)),
        b'c' => Ok(clear_at(rest)),
        _ => Ok(None),
    }
}

/// What a line would say, if it is written so.
#[tactic(auto, unfolding(crate::specs::Log::guess_of))]
fn guess_of(alloc: Global, line: &[u8]) -> Result<Option<Change>, NoMemory>
    ensures { IfOk result (λ said. said ≡ guess_of line.now) }
{
    match cut_at(b' ', line) {
        Some(([first, ..], rest)) => fields_at(alloc, *first, rest),
        _ => Ok(None),
    }
}

/// Whether a change is written as exactly this line.
fn is_written(alloc: Global, change: &Change, line: &[u8]) -> Result<bool, NoMemory>
    ensures { IfOk result (λ is. is ≡ bytes_eq (line_of change.now) line.now) }
{
    let mut text = Vec::new(alloc);
    put_line(alloc, &mut text, change)?;
    Ok(text.as_slice() == line)
}

/// The change, where it is written as exactly this line.
fn if_written(alloc: Global, line: &[u8], change: Change) -> Result<Option<Change>, NoMemory>
    ensures { IfOk result (λ said. said ≡ if_written line.now change) }
{
    if is_written(alloc, &change, line)? {
        Ok(Some(change))
    } else {
        Ok(None)
    }
}

/// The change that a line says, or none.
#[tactic(auto, unfolding(crate::specs::Log::change_of))]
pub(crate) fn change_of(alloc: Global, line: &[u8]) -> Result<Option<Change>, NoMemory>
    ensures { IfOk result (λ said. said ≡ change_of line.now) }
{
    match guess_of(alloc, line)? {
        Some(change) => if_written(alloc, line, change),
        None => Ok(None),
    }
}
