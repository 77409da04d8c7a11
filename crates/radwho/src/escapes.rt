//! Octets as they are shown.

ghost use Rattle.std.specs.Prelude.{◌≡◌, ◌++◌, OnOk};
ghost use Rattle.radwho.specs.Lines.{is_escaped, shown, escaped};

use rad_outside::NoMemory;

/// Whether an octet isn't shown as it is: one that isn't printed in ASCII, a backslash, and a comma where commas part fields.
fn is_escaped(commas: bool, octet: u8) -> bool
    ensures { result ≡ is_escaped commas octet }
{
    octet < 32 || octet > 126 || octet == b'\\' || (commas && octet == b',')
}

/// Adds an octet as it is shown.
fn put_shown(text: &mut Vec<u8>, commas: bool, octet: u8) -> Result<(), NoMemory>
    ensures { OnOk result (text.new.items ≡ text.old.items ++ shown commas octet) }
{
    if is_escaped(commas, octet) {
        text.extend_from_slice(&[b'\\', 48 + octet / 64, 48 + octet / 8 % 8, 48 + octet % 8])?;
    } else {
        text.push(octet)?;
    }
    Ok(())
}

/// Adds octets as they are shown.
pub(crate) fn put_escaped(text: &mut Vec<u8>, commas: bool, octets: &[u8]) -> Result<(), NoMemory>
    ensures { OnOk result (text.new.items ≡ text.old.items ++ escaped commas octets.now) }
{
    let mut rest = octets;
    while let Some((octet, after)) = rest.split_first() {
        put_shown(text, commas, *octet)?;
        rest = after;
    }
    Ok(())
}
