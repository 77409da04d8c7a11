//! The attributes that every dictionary has, in tables of their names and numbers.

ghost use Rattle.std.specs.Prelude.{◌≡◌, ◌++◌, length, map, IfOk};
ghost use Rattle.rad_words.specs.Names.{row_of, AreInverse};
ghost use Rattle.rad_dict.specs.BaseAttributes.{standard_attrs, internal_attrs, base_attrs, names_of, kinds_of};
ghost use Rattle.rad_dict.specs.Rows.{attrs_of};
ghost use Rattle.rad_dict.specs.Readings.{is_base};

use crate::AttrDef;
use crate::attr_rows::AttrRows;
use rad_outside::{NoMemory, Octets};
use rad_words::{AttrId, Kind, NameRow, Names, Space, names};
use std::alloc::Global;

/// The attributes of one space: their names and numbers, and their kinds in the same order.
#[derive(Drop)]
struct AttrTable<const N: usize> {
    names: Names<N>,
    kinds: [Kind; N],
}

/// The table of these attributes, each a number, a name as octets and a kind.
macro_rules! attributes {
    ($($number:literal $name:literal $kind:ident),* $(,)?) => {
        AttrTable {
            names: names![$($number $name),*],
            kinds: [$(Kind::$kind),*],
        }
    };
}

/// The attributes of RFC 2865 and RFC 2866, and those of RFC 2869 and RFC 3579 that the server uses.
#[tactic(auto, unfolding(crate::specs::BaseAttributes::standard_attrs))]
fn standard() -> AttrTable<54>
    ensures names { result.names ≡ names_of standard_attrs }
    ensures kinds { result.kinds ≡ kinds_of standard_attrs }
    ensures inverse { AreInverse result.names }
{
    attributes![
        1 b"User-Name" Text,
        2 b"User-Password" Text,
        3 b"CHAP-Password" Octets,
        4 b"NAS-IP-Address" Addr,
        5 b"NAS-Port" Number,
        6 b"Service-Type" Number,
        7 b"Framed-Protocol" Number,
        8 b"Framed-IP-Address" Addr,
        9 b"Framed-IP-Netmask" Addr,
        10 b"Framed-Routing" Number,
        11 b"Filter-Id" Text,
        12 b"Framed-MTU" Number,
        13 b"Framed-Compression" Number,
        14 b"Login-IP-Host" Addr,
        15 b"Login-Service" Number,
        16 b"Login-TCP-Port" Number,
        18 b"Reply-Message" Text,
        19 b"Callback-Number" Text,
        20 b"Callback-Id" Text,
        22 b"Framed-Route" Text,
        24 b"State" Octets,
        25 b"Class" Octets,
        26 b"Vendor-Specific" Octets,
        27 b"Session-Timeout" Number,
        28 b"Idle-Timeout" Number,
        29 b"Termination-Action" Number,
        30 b"Called-Station-Id" Text,
        31 b"Calling-Station-Id" Text,
        32 b"NAS-Identifier" Text,
        33 b"Proxy-State" Octets,
        34 b"Login-LAT-Service" Text,
        35 b"Login-LAT-Node" Text,
        36 b"Login-LAT-Group" Octets,
        37 b"Framed-AppleTalk-Link" Number,
        38 b"Framed-AppleTalk-Network" Number,
        39 b"Framed-AppleTalk-Zone" Text,
        40 b"Acct-Status-Type" Number,
        41 b"Acct-Delay-Time" Number,
        42 b"Acct-Input-Octets" Number,
        43 b"Acct-Output-Octets" Number,
        44 b"Acct-Session-Id" Text,
        45 b"Acct-Authentic" Number,
        46 b"Acct-Session-Time" Number,
        47 b"Acct-Input-Packets" Number,
        48 b"Acct-Output-Packets" Number,
        49 b"Acct-Terminate-Cause" Number,
        50 b"Acct-Multi-Session-Id" Text,
        51 b"Acct-Link-Count" Number,
        55 b"Event-Timestamp" Date,
        60 b"CHAP-Challenge" Octets,
        61 b"NAS-Port-Type" Number,
        62 b"Port-Limit" Number,
        63 b"Login-LAT-Port" Text,
        80 b"Message-Authenticator" Octets,
    ]
}

/// The attributes that never go on the wire, numbered from 1.
#[tactic(auto, unfolding(crate::specs::BaseAttributes::internal_attrs))]
fn internal() -> AttrTable<15>
    ensures names { result.names ≡ names_of internal_attrs }
    ensures kinds { result.kinds ≡ kinds_of internal_attrs }
    ensures inverse { AreInverse result.names }
{
    attributes![
        1 b"Auth-Type" Text,
        2 b"Post-Auth-Type" Text,
        3 b"Response-Packet-Type" Text,
        4 b"Cleartext-Password" Text,
        5 b"MD5-Password" Octets,
        6 b"SHA-Password" Octets,
        7 b"SSHA-Password" Octets,
        8 b"Simultaneous-Use" Number,
        9 b"Fall-Through" Text,
        10 b"Realm" Text,
        11 b"Stripped-User-Name" Text,
        12 b"Tmp-String-0" Text,
        13 b"Tmp-String-1" Text,
        14 b"Tmp-Integer-0" Number,
        15 b"Tmp-Integer-1" Number,
    ]
}

/// Whether this is a standard attribute of the base under its own name, whatever its kind.
pub(crate) fn is_base(def: &AttrDef) -> bool
    ensures { result ≡ is_base def.now }
{
    match standard().names.number(def.name.as_slice()) {
        Some(number) => {
            let space = Space::Standard;
            AttrId { space, number } == def.id
        }
        None => false,
    }
}

/// The attributes of the base.
pub(crate) fn base_attrs(alloc: Global) -> Result<AttrRows, NoMemory>
    ensures { IfOk result (λ rows. rows ≡ base_attrs) }
{
    let rows = add_table(alloc, AttrRows::new(alloc), Space::Standard, standard())?;
    add_table(alloc, rows, Space::Internal, internal())
}

/// The same with the attributes of a table.
fn add_table<const N: usize>(
    alloc: Global,
    rows: AttrRows,
    space: Space,
    table: AttrTable<N>,
) -> Result<AttrRows, NoMemory>
    ensures { IfOk result (λ new. new ≡ rows ++ attrs_of space table.entry.names table.entry.kinds) }
{
    let AttrTable { names, kinds } = table;
    add_rows(alloc, rows, space, names.rows(), &kinds)
}

fn add_rows(
    alloc: Global,
    rows: AttrRows,
    space: Space,
    names: &[NameRow],
    kinds: &[Kind],
) -> Result<AttrRows, NoMemory>
    requires { length names.now ≡ length kinds.now }
    ensures { IfOk result (λ new. new ≡ rows ++ attrs_of space (map row_of names.now) kinds.now) }
{
    let mut grown = rows;
    for (i, (name, number)) in names.iter().enumerate() {
        let def = AttrDef {
            id: AttrId {
                space,
                number: *number,
            },
            kind: kinds[i],
            name: Octets::of(alloc, name)?,
        };
        grown = grown.with(alloc, def)?;
    }
    Ok(grown)
}
