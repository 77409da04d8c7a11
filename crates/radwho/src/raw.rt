//! A session as fields with commas between them.

ghost use Rattle.std.specs.Prelude.{◌≡◌, ◌++◌, true, OnOk};
ghost use Rattle.std.specs.Fmt.{decimal};
ghost use Rattle.rad_text.specs.Addresses.{dotted};
ghost use Rattle.radwho.specs.Lines.{comma_then, escaped, raw_line};

use crate::escapes::put_escaped;
use rad_outside::NoMemory;
use rad_sessions::Session;
use rad_text::{put_decimal, put_dotted};
use std::alloc::Global;

/// Adds a number and a comma.
fn put_number(alloc: Global, text: &mut Vec<u8>, number: u64) -> Result<(), NoMemory>
    ensures { OnOk result (text.new.items ≡ text.old.items ++ comma_then (decimal number)) }
{
    put_decimal(alloc, text, number)?;
    text.push(b',')?;
    Ok(())
}

/// Adds an address and a comma.
fn put_address(alloc: Global, text: &mut Vec<u8>, address: u32) -> Result<(), NoMemory>
    ensures { OnOk result (text.new.items ≡ text.old.items ++ comma_then (dotted address)) }
{
    put_dotted(alloc, text, address)?;
    text.push(b',')?;
    Ok(())
}

/// Adds a name and a comma.
fn put_name(text: &mut Vec<u8>, name: &[u8]) -> Result<(), NoMemory>
    ensures { OnOk result (text.new.items ≡ text.old.items ++ comma_then (escaped true name.now)) }
{
    put_escaped(text, true, name)?;
    text.push(b',')?;
    Ok(())
}

/// Adds a session as a raw line.
#[tactic(auto, unfolding(crate::specs::Lines::raw_line))]
pub(crate) fn put_raw(alloc: Global, text: &mut Vec<u8>, session: &Session) -> Result<(), NoMemory>
    ensures { OnOk result (text.new.items ≡ text.old.items ++ raw_line session.now) }
{
    put_name(text, session.user.as_slice())?;
    put_number(alloc, text, u64::from(session.port))?;
    put_number(alloc, text, session.since)?;
    put_address(alloc, text, session.nas)?;
    put_address(alloc, text, session.framed)?;
    put_escaped(text, true, session.id.as_slice())?;
    text.push(b'\n')?;
    Ok(())
}
