//! A session in columns.

ghost use Rattle.std.specs.Prelude.{◌≡◌, ◌++◌, OnOk};
ghost use Rattle.radwho.specs.Lines.{since_text, user_column, port_column, since_column, address_column, column_line};

use crate::escapes::put_escaped;
use rad_dates::{date_of, put_date_time, put_left, put_number};
use rad_outside::{LAST_MOMENT, NoMemory};
use rad_sessions::Session;
use rad_text::{put_decimal, put_dotted};
use std::alloc::Global;

/// Adds a user's name as a column.
#[tactic(auto, unfolding(crate::specs::Lines::user_column))]
fn put_user(alloc: Global, text: &mut Vec<u8>, user: &[u8]) -> Result<(), NoMemory>
    ensures { OnOk result (text.new.items ≡ text.old.items ++ user_column user.now) }
{
    let mut name = Vec::new(alloc);
    put_escaped(&mut name, false, user)?;
    put_left(text, 20, name.as_slice())?;
    text.push(b' ')?;
    Ok(())
}

/// Adds a port as a column.
#[tactic(auto, unfolding(crate::specs::Lines::port_column))]
fn put_port(alloc: Global, text: &mut Vec<u8>, port: u32) -> Result<(), NoMemory>
    ensures { OnOk result (text.new.items ≡ text.old.items ++ port_column port) }
{
    put_number(alloc, text, b' ', 10, u64::from(port))?;
    text.push(b' ')?;
    Ok(())
}

/// Adds when a session began: its date, or the number where it is later than dates are shown.
fn put_since(alloc: Global, text: &mut Vec<u8>, since: u64) -> Result<(), NoMemory>
    ensures { OnOk result (text.new.items ≡ text.old.items ++ since_text since) }
{
    if since <= LAST_MOMENT {
        put_date_time(alloc, text, date_of(since))
    } else {
        put_decimal(alloc, text, since)
    }
}

/// Adds when a session began, as a column.
#[tactic(auto, unfolding(crate::specs::Lines::since_column))]
fn put_since_column(alloc: Global, text: &mut Vec<u8>, since: u64) -> Result<(), NoMemory>
    ensures { OnOk result (text.new.items ≡ text.old.items ++ since_column since) }
{
    put_since(alloc, text, since)?;
    text.push(b' ')?;
    Ok(())
}

/// Adds an address as a column.
#[tactic(auto, unfolding(crate::specs::Lines::address_column))]
fn put_address(alloc: Global, text: &mut Vec<u8>, address: u32) -> Result<(), NoMemory>
    ensures { OnOk result (text.new.items ≡ text.old.items ++ address_column address) }
{
    let mut dotted = Vec::new(alloc);
    put_dotted(alloc, &mut dotted, address)?;
    put_left(text, 15, dotted.as_slice())?;
    text.push(b' ')?;
    Ok(())
}

/// Adds a session in columns.
#[tactic(auto, unfolding(crate::specs::Lines::column_line))]
pub(crate) fn put_columns(
    alloc: Global,
    text: &mut Vec<u8>,
    session: &Session,
) -> Result<(), NoMemory>
    ensures { OnOk result (text.new.items ≡ text.old.items ++ column_line session.now) }
{
    put_user(alloc, text, session.user.as_slice())?;
    put_port(alloc, text, session.port)?;
    put_since_column(alloc, text, session.since)?;
    put_address(alloc, text, session.nas)?;
    put_address(alloc, text, session.framed)?;
    put_escaped(text, false, session.id.as_slice())?;
    text.push(b'\n')?;
    Ok(())
}
