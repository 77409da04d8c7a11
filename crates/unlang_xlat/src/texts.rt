//! The text of an expansion in a scope.

ghost use Rattle.std.specs.Prelude.{◌≡◌, ℕ, ◌++◌, List, IfOk, OnOk};
ghost use Rattle.rad_outside.specs.Moments.{IsInTime};
ghost use Rattle.unlang_xlat.specs.Texts.{cut, part_text, expanded};

use crate::dates::put_date;
use crate::part::Part;
use crate::values::{capture_at, loop_at, put, put_called, put_capture, put_loop, put_reference};
use rad_dict::Dict;
use rad_outside::NoMemory;
use rad_text::put_dotted;
use rad_value::Scope;
use std::alloc::Global;

/// How many octets the text of an expansion has at most.
pub const LONGEST: usize = 4096;

/// The text of parts, cut.
#[cycle(texts)]
pub fn cut_text(
    alloc: Global,
    parts: &[Part],
    scope: &Scope,
    dict: &Dict,
) -> Result<Vec<u8>, NoMemory>
    requires { IsInTime scope.now.moment }
    ensures { IfOk result (λ text. text.items ≡ expanded scope.now dict.now parts.now) }
{
    let mut text = Vec::new(alloc);
    for part in parts {
        put_within(alloc, &mut text, part, scope, dict)?;
    }
    text.truncate(LONGEST);
    Ok(text)
}

/// Adds the text of a part, unless all of it is cut off.
#[cycle(texts)]
fn put_within(
    alloc: Global,
    text: &mut Vec<u8>,
    part: &Part,
    scope: &Scope,
    dict: &Dict,
) -> Result<(), NoMemory>
    requires { IsInTime scope.now.moment }
    ensures { OnOk result ((more : List ℕ) → cut (text.new.items ++ more) ≡ cut (text.old.items ++ (part_text scope.now dict.now part.now ++ more))) }
{
    if text.len() >= LONGEST {
        return Ok(());
    }
    put_part(alloc, text, part, scope, dict)
}

/// Adds the text of a part.
#[cycle(texts)]
pub fn put_part(
    alloc: Global,
    text: &mut Vec<u8>,
    part: &Part,
    scope: &Scope,
    dict: &Dict,
) -> Result<(), NoMemory>
    requires { IsInTime scope.now.moment }
    ensures { OnOk result (text.new.items ≡ text.old.items ++ part_text scope.now dict.now part.now) }
{
    match part {
        Part::Plain(octets) => put(text, octets.as_slice()),
        Part::Percent => put(text, b"%"),
        Part::Date(date) => put_date(alloc, text, *date, scope.moment),
        Part::Reference(reference) => put_reference(alloc, text, *reference, &scope.lists, dict),
        Part::Capture(n) => put_capture(text, capture_at(scope, *n)),
        Part::Loop(n) => put_loop(alloc, text, loop_at(scope, *n)),
        Part::Source => put_dotted(alloc, text, scope.from.addr),
        Part::NoSource => Ok(()),
        Part::Alternative(first, second) => {
            let start = text.len();
            put_part(alloc, text, first.get(), scope, dict)?;
            if text.len() == start {
                put_part(alloc, text, second.get(), scope, dict)?;
            }
            Ok(())
        }
        Part::Call(function, parts) => {
            let mut argument = cut_text(alloc, parts.as_slice(), scope, dict)?;
            put_called(alloc, text, *function, argument.as_mut_slice())
        }
    }
}
