//! The text of an expansion as the path of a file.

ghost use Rattle.std.specs.Prelude.{◌≡◌, ℕ, ◌++◌, List, map, IfOk, OnOk};
ghost use Rattle.rad_outside.specs.Moments.{IsInTime};
ghost use Rattle.unlang_xlat.specs.Texts.{cut};
ghost use Rattle.unlang_xlat.specs.Paths.{is_safe, safe_octet, first_octet, safe_text, is_braced, path_part, path_expanded};

use crate::part::Part;
use crate::texts::{LONGEST, put_part};
use rad_dict::Dict;
use rad_outside::NoMemory;
use rad_value::Scope;
use std::alloc::Global;

/// Whether the octet may stand in the name of a file.
fn is_safe(octet: u8) -> bool
    ensures { result ≡ is_safe octet }
{
    matches!(octet, b'0'..=b'9' | b'A'..=b'Z' | b'a'..=b'z' | b'.' | b'-' | b'_')
}

/// The octet in the safe spelling.
fn safe_octet(octet: u8) -> u8
    ensures { result ≡ safe_octet octet }
{
    if is_safe(octet) { octet } else { b'_' }
}

/// The same of the octet that stands first.
fn first_octet(octet: u8) -> u8
    ensures { result ≡ first_octet octet }
{
    if octet == b'.' {
        b'_'
    } else {
        safe_octet(octet)
    }
}

/// Adds octets in the safe spelling, of which none stands first.
fn put_rest(text: &mut Vec<u8>, octets: &[u8]) -> Result<(), NoMemory>
    ensures { OnOk result (text.new.items ≡ text.old.items ++ map safe_octet octets.now) }
{
    for octet in octets {
        text.push(safe_octet(*octet))?;
    }
    Ok(())
}

/// Adds a text in the safe spelling.
fn put_safe(text: &mut Vec<u8>, octets: &[u8]) -> Result<(), NoMemory>
    ensures { OnOk result (text.new.items ≡ text.old.items ++ safe_text octets.now) }
{
    let Some((first, rest)) = octets.split_first() else {
        return Ok(());
    };
    text.push(first_octet(*first))?;
    put_rest(text, rest)
}

/// Whether the part is written in braces.
fn is_braced(part: &Part) -> bool
    ensures { result ≡ is_braced part.now }
{
    !matches!(part, Part::Plain(_) | Part::Percent | Part::Date(_))
}

/// Adds the text of a part of a path.
fn put_path_part(
    alloc: Global,
    text: &mut Vec<u8>,
    part: &Part,
    scope: &Scope,
    dict: &Dict,
) -> Result<(), NoMemory>
    requires { IsInTime scope.now.moment }
    ensures { OnOk result (text.new.items ≡ text.old.items ++ path_part scope.now dict.now part.now) }
{
    if !is_braced(part) {
        return put_part(alloc, text, part, scope, dict);
    }
    let mut own = Vec::new(alloc);
    put_part(alloc, &mut own, part, scope, dict)?;
    put_safe(text, own.as_slice())
}

/// The same, unless all of it is cut off.
fn put_path_within(
    alloc: Global,
    text: &mut Vec<u8>,
    part: &Part,
    scope: &Scope,
    dict: &Dict,
) -> Result<(), NoMemory>
    requires { IsInTime scope.now.moment }
    ensures { OnOk result ((more : List ℕ) → cut (text.new.items ++ more) ≡ cut (text.old.items ++ (path_part scope.now dict.now part.now ++ more))) }
{
    if text.len() >= LONGEST {
        return Ok(());
    }
    put_path_part(alloc, text, part, scope, dict)
}

/// The path that parts write, cut.
pub fn cut_path(
    alloc: Global,
    parts: &[Part],
    scope: &Scope,
    dict: &Dict,
) -> Result<Vec<u8>, NoMemory>
    requires { IsInTime scope.now.moment }
    ensures { IfOk result (λ path. path.items ≡ path_expanded scope.now dict.now parts.now) }
{
    let mut path = Vec::new(alloc);
    for part in parts {
        put_path_within(alloc, &mut path, part, scope, dict)?;
    }
    path.truncate(LONGEST);
    Ok(path)
}
