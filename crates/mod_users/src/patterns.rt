//! Patterns that are compiled, once, when a users file is read.

ghost use Rattle.std.specs.Prelude.{◌≡◌, IfOk};
ghost use Rattle.std.specs.Option.{option_copied};
ghost use Rattle.mod_users.specs.Patterns.{is_look, pattern_of, IsBuilt, IsAnswerTo};

use rad_outside::NoMemory;
use rad_pairs::{Item, PairOp};
use rad_value::Value;
use regex::Error;
use regex::bytes::Regex;
use std::alloc::Global;

/// Whether the operator is `=~` or `!~`.
fn is_look(op: PairOp) -> bool
    ensures { result ≡ is_look op }
{
    matches!(op, PairOp::Match | PairOp::NoMatch)
}

/// The pattern of an item, where it looks for one.
pub fn pattern_of(item: &Item) -> Option<&[u8]>
    ensures { option_copied result ≡ pattern_of item.now }
{
    match &item.value {
        Value::Text(text) if is_look(item.op) => Some(text.as_slice()),
        _ => None,
    }
}

/// What `regex` makes of a text: the pattern, or none where it refuses it.
fn built(alloc: Global, source: &str) -> Result<Option<Regex>, NoMemory>
    ensures { IfOk result (IsBuilt source.now) }
{
    match Regex::new(alloc, source) {
        Ok(regex) => Ok(Some(regex)),
        Err(Error::Syntax(_)) => Ok(None),
        // A pattern that would take more than 10 MiB when compiled is want of memory, as is a failed allocation.
        Err(_) => Err(NoMemory),
    }
}

/// The pattern of a text, compiled; none where it is no UTF-8, or is refused by `regex`.
pub fn compiled(alloc: Global, source: &[u8]) -> Result<Option<Regex>, NoMemory>
    ensures { IfOk result (IsAnswerTo source.now) }
{
    match str::from_utf8(source) {
        Ok(source) => built(alloc, source),
        Err(_) => Ok(None),
    }
}
