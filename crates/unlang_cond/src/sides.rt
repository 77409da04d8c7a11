//! Sides of comparisons.

ghost use Rattle.std.specs.Prelude.{◌≡◌, ◌≤◌, ◌<◌, length, IfOk};
ghost use Rattle.rad_text.specs.Read.{Gives};
ghost use Rattle.rad_text.specs.Find.{Finds};
ghost use Rattle.unlang_cond.specs.Words.{bare_len};
ghost use Rattle.unlang_cond.specs.Sides.{is_quoted, double_at, single_at, quoted_at, referred, bare_side, side_at, value_read, operand_of};

use crate::atom::{Operand, Side};
use crate::expansion::expansion_of;
use crate::fault::Wrong;
use crate::words::{bare_len, written};
use rad_conf::sign::{after_first, octet_at};
use rad_conf::{QuotedSpelling, quoted_len};
use rad_dict::Dict;
use rad_outside::Octets;
use rad_pairs::{NoValue, value_of};
use rad_text::{ReadError, numeral_of};
use rad_value::Value;
use std::alloc::Global;
use unlang_reference::{NoReference, Reference, Which, named_alone, reference_of};

/// Whether a quote stands at the front.
pub fn is_quoted(text: &[u8]) -> bool
    ensures { result ≡ is_quoted text.now }
{
    matches!(octet_at(text, 0), b'"' | b'\'')
}

/// The double-quoted text at the front, and what follows it.
#[tactic(auto, unfolding(crate::specs::Sides::double_at))]
fn double_at<'a>(
    alloc: Global,
    text: &'a [u8],
    dict: &Dict,
) -> Result<(Side, &'a [u8]), ReadError<Wrong>>
    ensures exact { Gives (λ x. (x.0, x.1.now)) result (double_at text.now dict.now) }
    ensures shorter { IfOk result (λ x. length x.1.now < length text.now) }
{
    let behind = after_first(text);
    let Some(len) = quoted_len(b'"', behind) else {
        return Err(ReadError::Wrong(Wrong::BadCondition(text.len())));
    };
    let (raw, _) = behind.split_at(len);
    let (_, rest) = behind.split_at(len + 1);
    let octets = written(alloc, QuotedSpelling::Double, raw)?;
    let expansion = expansion_of(alloc, octets.as_slice(), text.len(), dict)?;
    Ok((Side::Expansion(expansion), rest))
}

/// The single-quoted text at the front, and what follows it.
#[tactic(auto, unfolding(crate::specs::Sides::single_at))]
fn single_at(alloc: Global, text: &[u8]) -> Result<(Side, &[u8]), ReadError<Wrong>>
    ensures exact { Gives (λ x. (x.0, x.1.now)) result (single_at text.now) }
    ensures shorter { IfOk result (λ x. length x.1.now < length text.now) }
{
    let behind = after_first(text);
    let Some(len) = quoted_len(b'\'', behind) else {
        return Err(ReadError::Wrong(Wrong::BadCondition(text.len())));
    };
    let (raw, _) = behind.split_at(len);
    let (_, rest) = behind.split_at(len + 1);
    let octets = written(alloc, QuotedSpelling::Single, raw)?;
    Ok((Side::Literal(octets), rest))
}

/// The quoted text at the front, and what follows it.
pub fn quoted_at<'a>(
    alloc: Global,
    text: &'a [u8],
    dict: &Dict,
) -> Result<(Side, &'a [u8]), ReadError<Wrong>>
    ensures exact { Gives (λ x. (x.0, x.1.now)) result (quoted_at text.now dict.now) }
    ensures shorter { IfOk result (λ x. length x.1.now < length text.now) }
{
    if octet_at(text, 0) == b'"' {
        double_at(alloc, text, dict)
    } else {
        single_at(alloc, text)
    }
}

/// The reference of a bare word that begins with `&`, from which on so many octets are left.
pub fn referred(word: &[u8], left: usize, dict: &Dict) -> Result<Reference, ReadError<Wrong>>
    ensures { Gives (λ x. x) result (referred word.now left dict.now) }
{
    match reference_of(after_first(word), dict) {
        Ok(reference) => Ok(reference),
        Err(NoReference::UnknownAttr) => Err(ReadError::Wrong(Wrong::UnknownAttr(left))),
        Err(NoReference::BadPlace) => Err(ReadError::Wrong(Wrong::BadCondition(left))),
    }
}

/// What a bare word on the right side is, from which on so many octets are left.
fn bare_side(alloc: Global, word: &[u8], left: usize, dict: &Dict) -> Result<Side, ReadError<Wrong>>
    ensures { Gives (λ x. x) result (bare_side word.now left dict.now) }
{
    match word {
        [] => Err(ReadError::Wrong(Wrong::BadCondition(left))),
        [b'&', ..] => Ok(Side::Reference(referred(word, left, dict)?)),
        _ => match named_alone(word, dict) {
            Some(reference) => Ok(Side::Reference(reference)),
            None => Ok(Side::Literal(Octets::of(alloc, word)?)),
        },
    }
}

/// The right side at the front, and what follows it.
#[tactic(auto, unfolding(crate::specs::Sides::side_at))]
pub fn side_at<'a>(
    alloc: Global,
    text: &'a [u8],
    dict: &Dict,
) -> Result<(Side, &'a [u8]), ReadError<Wrong>>
    ensures exact { Gives (λ x. (x.0, x.1.now)) result (side_at text.now dict.now) }
    ensures shorter { IfOk result (λ x. length x.1.now ≤ length text.now) }
{
    if is_quoted(text) {
        return quoted_at(alloc, text, dict);
    }
    let (word, rest) = text.split_at(bare_len(text));
    let side = bare_side(alloc, word, text.len(), dict)?;
    Ok((side, rest))
}

/// The value that a text means beside a reference: a number beside `[#]`, else one of the attribute.
pub fn value_read(
    alloc: Global,
    reference: Reference,
    text: &[u8],
    dict: &Dict,
) -> Result<Value, ReadError<NoValue>>
    ensures { Finds (λ value. value) result (value_read reference text.now dict.now) }
{
    match reference.which {
        Which::Count => match numeral_of(text) {
            Some(number) => Ok(Value::Number(number)),
            None => Err(ReadError::Wrong(NoValue)),
        },
        Which::Nth(_) | Which::All => value_of(alloc, reference.attr, text, dict),
    }
}

/// What a reference is compared with, where the right side has so many octets from it on.
pub fn operand_of(
    alloc: Global,
    reference: Reference,
    side: Side,
    left: usize,
    dict: &Dict,
) -> Result<Operand, ReadError<Wrong>>
    ensures { Gives (λ x. x) result (operand_of reference side left dict.now) }
{
    match side {
        Side::Reference(other) => Ok(Operand::Reference(other)),
        Side::Expansion(expansion) => Ok(Operand::Expansion(expansion)),
        Side::Literal(text) => match value_read(alloc, reference, text.as_slice(), dict) {
            Ok(value) => Ok(Operand::Value(value)),
            Err(ReadError::Wrong(NoValue)) => Err(ReadError::Wrong(Wrong::BadCondition(left))),
            Err(ReadError::NoMemory) => Err(ReadError::NoMemory),
        },
    }
}
