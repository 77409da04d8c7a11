//! Changes as lines of the log.

ghost use Rattle.std.specs.Prelude.{◌≡◌, ◌<◌, ℕ, List, [], ◌++◌, length, take, Some, false, OnOk, IfOk};
ghost use Rattle.rad_sessions.specs.Laws.{AreOctets, IsSession, IsChange};
ghost use Rattle.rad_sessions.specs.Listed.{after, is_too_many};
ghost use Rattle.rad_sessions.specs.Log.{change_of, folded, line_of, piece_of, fields_of, word_then, dot, hex_word};
ghost use Rattle.rad_text.specs.Addresses.{dotted};
ghost use Rattle.std.specs.Fmt.{decimal};

use crate::change::Change;
use crate::hexadecimal::put_hex_word;
use crate::session::Session;
use rad_outside::{NoMemory, Octets};
use rad_text::{put_decimal, put_dotted};
use std::alloc::Global;

/// What is appended to the log for a change: a line `~`, which ends what stands there unended, and the change's own line
/// with its newline. The change's fields are of their types, as those of each change that is made, so the line is read back
/// as the change: behind any log the whole piece says this change, where it adds no session to as many as may stand, and a
/// piece that isn't whole says nothing.
pub fn line_of(alloc: Global, change: &Change) -> Result<Octets, NoMemory>
    ensures octets { IfOk result (λ octets. octets ≡ piece_of change.now) }
    ensures typed { OnOk result (IsChange change.now) }
    ensures back { OnOk result (change_of (line_of change.now) ≡ Some change.now) }
    ensures whole { OnOk result ((log : List ℕ) → is_too_many (folded log) change.now ≡ false → folded (log ++ piece_of change.now) ≡ after (folded log) change.now) }
    ensures torn { OnOk result ((log : List ℕ) (count : ℕ) → count < length (piece_of change.now) → folded (log ++ take count (piece_of change.now)) ≡ folded log) }
{
    let mut text = Vec::new(alloc);
    text.extend_from_slice(b"~\n")?;
    put_line(alloc, &mut text, change)?;
    text.push(b'\n')?;
    Ok(Octets::from_vec(text))
}

/// Adds a change's line, without its newline.
#[tactic(auto, unfolding(crate::specs::Log::line_of))]
pub(crate) fn put_line(alloc: Global, text: &mut Vec<u8>, change: &Change) -> Result<(), NoMemory>
    ensures typed { OnOk result (IsChange change.now) }
    ensures text { OnOk result (text.new.items ≡ text.old.items ++ line_of change.now) }
{
    match change {
        Change::Begin(session) => {
            text.extend_from_slice(b"begin ")?;
            put_session(alloc, text, session)?;
        }
        Change::Renew { nas, port, framed } => {
            text.extend_from_slice(b"renew ")?;
            put_place(alloc, text, *nas, *port)?;
            put_address(alloc, text, *framed)?;
        }
        Change::End { nas, port } => {
            text.extend_from_slice(b"end ")?;
            put_place(alloc, text, *nas, *port)?;
        }
        Change::Clear { nas } => {
            text.extend_from_slice(b"clear ")?;
            put_address(alloc, text, *nas)?;
        }
    }
    text.push(b'.')?;
    Ok(())
}

/// Adds an address and a blank.
fn put_address(alloc: Global, text: &mut Vec<u8>, address: u32) -> Result<(), NoMemory>
    ensures { OnOk result (text.new.items ≡ text.old.items ++ word_then (dotted address) []) }
{
    put_dotted(alloc, text, address)?;
    text.push(b' ')?;
    Ok(())
}

/// Adds a number and a blank.
fn put_number(alloc: Global, text: &mut Vec<u8>, number: u64) -> Result<(), NoMemory>
    ensures { OnOk result (text.new.items ≡ text.old.items ++ word_then (decimal number) []) }
{
    put_decimal(alloc, text, number)?;
    text.push(b' ')?;
    Ok(())
}

/// Adds octets in hexadecimal and a blank.
fn put_octets(text: &mut Vec<u8>, octets: &[u8]) -> Result<(), NoMemory>
    ensures typed { OnOk result (AreOctets octets.now) }
    ensures text { OnOk result (text.new.items ≡ text.old.items ++ word_then (hex_word octets.now) []) }
{
    put_hex_word(text, octets)?;
    text.push(b' ')?;
    Ok(())
}

/// Adds a NAS and a port.
fn put_place(alloc: Global, text: &mut Vec<u8>, nas: u32, port: u32) -> Result<(), NoMemory>
    ensures { OnOk result (text.new.items ≡ text.old.items ++ word_then (dotted nas) (word_then (decimal port) [])) }
{
    put_address(alloc, text, nas)?;
    put_number(alloc, text, u64::from(port))
}

/// Adds the fields of a session.
fn put_session(alloc: Global, text: &mut Vec<u8>, session: &Session) -> Result<(), NoMemory>
    ensures typed { OnOk result (IsSession session.now) }
    ensures text { OnOk result (text.new.items ++ dot ≡ text.old.items ++ fields_of session.now) }
{
    put_place(alloc, text, session.nas, session.port)?;
    put_address(alloc, text, session.framed)?;
    put_number(alloc, text, session.since)?;
    put_octets(text, session.user.as_slice())?;
    put_octets(text, session.id.as_slice())
}
