//! The named values that every dictionary has, in tables of their names and numbers: those that RFC 2865
//! and RFC 2866 number, under this project's own spellings after FreeRADIUS.

ghost use Rattle.std.specs.Prelude.{◌≡◌, ◌++◌, map, IfOk};
ghost use Rattle.rad_words.specs.Names.{row_of, AreInverse};
ghost use Rattle.rad_dict.specs.BaseValues.{base_values, value_names};
ghost use Rattle.rad_dict.specs.Rows.{values_of};

use crate::ValueDef;
use crate::value_rows::ValueRows;
use rad_outside::{NoMemory, Octets};
use rad_words::{AttrId, NameRow, Names, Space, names};
use std::alloc::Global;

/// The values of Service-Type.
#[tactic(auto, unfolding(crate::specs::BaseValues::base_values))]
fn service_types() -> Names<11>
    ensures rows { result ≡ value_names 6 base_values }
    ensures inverse { AreInverse result }
{
    names![
        1 b"Login-User",
        2 b"Framed-User",
        3 b"Callback-Login-User",
        4 b"Callback-Framed-User",
        5 b"Outbound-User",
        6 b"Administrative-User",
        7 b"NAS-Prompt-User",
        8 b"Authenticate-Only",
        9 b"Callback-NAS-Prompt",
        10 b"Call-Check",
        11 b"Callback-Administrative",
    ]
}

/// The values of Framed-Protocol.
#[tactic(auto, unfolding(crate::specs::BaseValues::base_values))]
fn framed_protocols() -> Names<2>
    ensures rows { result ≡ value_names 7 base_values }
    ensures inverse { AreInverse result }
{
    names![
        1 b"PPP",
        2 b"SLIP",
    ]
}

/// The values of Framed-Routing.
#[tactic(auto, unfolding(crate::specs::BaseValues::base_values))]
fn framed_routings() -> Names<4>
    ensures rows { result ≡ value_names 10 base_values }
    ensures inverse { AreInverse result }
{
    names![
        0 b"None",
        1 b"Broadcast",
        2 b"Listen",
        3 b"Broadcast-Listen",
    ]
}

/// The values of Framed-Compression.
#[tactic(auto, unfolding(crate::specs::BaseValues::base_values))]
fn framed_compressions() -> Names<2>
    ensures rows { result ≡ value_names 13 base_values }
    ensures inverse { AreInverse result }
{
    names![
        0 b"None",
        1 b"Van-Jacobson-TCP-IP",
    ]
}

/// The values of Login-Service.
#[tactic(auto, unfolding(crate::specs::BaseValues::base_values))]
fn login_services() -> Names<5>
    ensures rows { result ≡ value_names 15 base_values }
    ensures inverse { AreInverse result }
{
    names![
        0 b"Telnet",
        1 b"Rlogin",
        2 b"TCP-Clear",
        3 b"PortMaster",
        4 b"LAT",
    ]
}

/// The values of Termination-Action.
#[tactic(auto, unfolding(crate::specs::BaseValues::base_values))]
fn termination_actions() -> Names<2>
    ensures rows { result ≡ value_names 29 base_values }
    ensures inverse { AreInverse result }
{
    names![
        0 b"Default",
        1 b"RADIUS-Request",
    ]
}

/// The values of Acct-Status-Type.
#[tactic(auto, unfolding(crate::specs::BaseValues::base_values))]
fn acct_status_types() -> Names<5>
    ensures rows { result ≡ value_names 40 base_values }
    ensures inverse { AreInverse result }
{
    names![
        1 b"Start",
        2 b"Stop",
        3 b"Interim-Update",
        7 b"Accounting-On",
        8 b"Accounting-Off",
    ]
}

/// The values of Acct-Authentic.
#[tactic(auto, unfolding(crate::specs::BaseValues::base_values))]
fn acct_authentics() -> Names<3>
    ensures rows { result ≡ value_names 45 base_values }
    ensures inverse { AreInverse result }
{
    names![
        1 b"RADIUS",
        2 b"Local",
        3 b"Remote",
    ]
}

/// The values of Acct-Terminate-Cause.
#[tactic(auto, unfolding(crate::specs::BaseValues::base_values))]
fn acct_terminate_causes() -> Names<11>
    ensures rows { result ≡ value_names 49 base_values }
    ensures inverse { AreInverse result }
{
    names![
        1 b"User-Request",
        2 b"Lost-Carrier",
        3 b"Lost-Service",
        4 b"Idle-Timeout",
        5 b"Session-Timeout",
        6 b"Admin-Reset",
        7 b"Admin-Reboot",
        8 b"Port-Error",
        9 b"NAS-Error",
        10 b"NAS-Request",
        11 b"NAS-Reboot",
    ]
}

/// The values of NAS-Port-Type.
#[tactic(auto, unfolding(crate::specs::BaseValues::base_values))]
fn nas_port_types() -> Names<6>
    ensures rows { result ≡ value_names 61 base_values }
    ensures inverse { AreInverse result }
{
    names![
        0 b"Async",
        1 b"Sync",
        2 b"ISDN",
        5 b"Virtual",
        15 b"Ethernet",
        19 b"Wireless-802.11",
    ]
}

/// The named values of the base.
pub(crate) fn base_values(alloc: Global) -> Result<ValueRows, NoMemory>
    ensures { IfOk result (λ rows. rows ≡ base_values) }
{
    let rows = add_table(alloc, ValueRows::new(alloc), 6, service_types())?;
    let rows = add_table(alloc, rows, 7, framed_protocols())?;
    let rows = add_table(alloc, rows, 10, framed_routings())?;
    let rows = add_table(alloc, rows, 13, framed_compressions())?;
    let rows = add_table(alloc, rows, 15, login_services())?;
    let rows = add_table(alloc, rows, 29, termination_actions())?;
    let rows = add_table(alloc, rows, 40, acct_status_types())?;
    let rows = add_table(alloc, rows, 45, acct_authentics())?;
    let rows = add_table(alloc, rows, 49, acct_terminate_causes())?;
    add_table(alloc, rows, 61, nas_port_types())
}

/// The same with the values of a standard attribute's table.
fn add_table<const N: usize>(
    alloc: Global,
    rows: ValueRows,
    attr: u32,
    table: Names<N>,
) -> Result<ValueRows, NoMemory>
    ensures { IfOk result (λ new. new ≡ rows ++ values_of attr table.entry) }
{
    add_rows(alloc, rows, attr, table.rows())
}

fn add_rows(
    alloc: Global,
    rows: ValueRows,
    attr: u32,
    names: &[NameRow],
) -> Result<ValueRows, NoMemory>
    ensures { IfOk result (λ new. new ≡ rows ++ values_of attr (map row_of names.now)) }
{
    let mut grown = rows;
    for (name, number) in names {
        let def = ValueDef {
            attr: AttrId {
                space: Space::Standard,
                number: attr,
            },
            number: *number,
            name: Octets::of(alloc, name)?,
        };
        grown = grown.with(alloc, def)?;
    }
    Ok(grown)
}
