//! The lines that the server prints.

ghost use Rattle.std.specs.Prelude.{◌≡◌, ◌++◌, IfOk, OnOk};
ghost use Rattle.std.specs.Fmt.{decimal};
ghost use Rattle.radiusd.specs.Lines.{dotted, listening_line, counts_line};

use rad_outside::{NoMemory, Octets, Peer};
use rad_serve::Counts;
use std::alloc::Global;

/// Adds a number in decimal digits.
fn push_number(alloc: Global, text: &mut Vec<u8>, number: u64) -> Result<(), NoMemory>
    ensures { OnOk result (text.new.items ≡ text.old.items ++ decimal number) }
{
    let digits = number.to_string(alloc)?;
    text.extend_from_slice(digits.as_bytes())?;
    Ok(())
}

/// Adds an address in four decimal parts.
fn push_address(alloc: Global, text: &mut Vec<u8>, addr: u32) -> Result<(), NoMemory>
    ensures { OnOk result (text.new.items ≡ text.old.items ++ dotted addr) }
{
    push_number(alloc, text, u64::from(addr / 16777216))?;
    text.extend_from_slice(b".")?;
    push_number(alloc, text, u64::from(addr / 65536 % 256))?;
    text.extend_from_slice(b".")?;
    push_number(alloc, text, u64::from(addr / 256 % 256))?;
    text.extend_from_slice(b".")?;
    push_number(alloc, text, u64::from(addr % 256))
}

/// `listening SERVER ADDRESS:PORT auth workers 1` and a newline.
pub(crate) fn listening_line(alloc: Global, server: &[u8], at: Peer) -> Result<Octets, NoMemory>
    ensures { IfOk result (λ line. line ≡ listening_line server.now at) }
{
    let mut text = Vec::from_slice(alloc, b"listening ")?;
    text.extend_from_slice(server)?;
    text.extend_from_slice(b" ")?;
    push_address(alloc, &mut text, at.addr)?;
    text.extend_from_slice(b":")?;
    push_number(alloc, &mut text, u64::from(at.port))?;
    text.extend_from_slice(b" auth workers 1")?;
    text.push(10)?;
    Ok(Octets::from_vec(text))
}

/// `requests N replies N reloads N refused N` and a newline.
pub(crate) fn counts_line(alloc: Global, counts: Counts) -> Result<Octets, NoMemory>
    ensures { IfOk result (λ line. line ≡ counts_line counts) }
{
    let mut text = Vec::from_slice(alloc, b"requests ")?;
    push_number(alloc, &mut text, counts.requests)?;
    text.extend_from_slice(b" replies ")?;
    push_number(alloc, &mut text, counts.replies)?;
    text.extend_from_slice(b" reloads ")?;
    push_number(alloc, &mut text, counts.reloads)?;
    text.extend_from_slice(b" refused ")?;
    push_number(alloc, &mut text, counts.refused)?;
    text.push(10)?;
    Ok(Octets::from_vec(text))
}
