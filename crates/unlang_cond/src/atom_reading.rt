//! Atoms of a condition.

ghost use Rattle.std.specs.Prelude.{◌≡◌, ◌≤◌, ◌<◌, length, IfOk};
ghost use Rattle.rad_text.specs.Read.{Gives};
ghost use Rattle.unlang_cond.specs.Sides.{is_quoted, quoted_at};
ghost use Rattle.unlang_cond.specs.Atoms.{constant_of, named_lead, lead_of, flag_at, pattern_at, compared, compared_at, looked_at, related, led_by, atom_at};

use crate::atom::{Atom, Pattern, Side};
use crate::fault::Wrong;
use crate::operator::{Relation, relation_at};
use crate::sides::{is_quoted, operand_of, quoted_at, referred, side_at};
use crate::words::bare_len;
use rad_conf::quoted_len;
use rad_conf::sign::{after_first, octet_at};
use rad_dict::Dict;
use rad_outside::Octets;
use rad_text::{ReadError, after_blanks};
use rad_value::Cmp;
use rad_words::Code;
use std::alloc::Global;
use unlang_reference::{Reference, named_alone};

/// What a bare word at the front of an atom is.
#[derive(Clone, Copy)]
pub enum Lead {
    Constant(bool),
    Returned(Code),
    Reference(Reference),
}

/// The constant of this name, in any case of its letters.
#[tactic(auto, unfolding(crate::specs::Atoms::constant_of))]
fn constant_of(word: &[u8]) -> Option<bool>
    ensures { result ≡ constant_of word.now }
{
    if word.eq_ignore_ascii_case(b"true") {
        Some(true)
    } else if word.eq_ignore_ascii_case(b"false") {
        Some(false)
    } else {
        None
    }
}

/// A bare word that doesn't begin with `&`, at the front of an atom.
#[tactic(auto, unfolding(crate::specs::Atoms::named_lead))]
fn named_lead(word: &[u8], dict: &Dict) -> Option<Lead>
    ensures { result ≡ named_lead word.now dict.now }
{
    if let Some(constant) = constant_of(word) {
        return Some(Lead::Constant(constant));
    }
    if let Some(code) = Code::named(word) {
        return Some(Lead::Returned(code));
    }
    let reference = named_alone(word, dict)?;
    Some(Lead::Reference(reference))
}

/// What a bare word at the front of an atom is, from which on so many octets are left.
fn lead_of(word: &[u8], left: usize, dict: &Dict) -> Result<Lead, ReadError<Wrong>>
    ensures { Gives (λ x. x) result (lead_of word.now left dict.now) }
{
    match word {
        [] => Err(ReadError::Wrong(Wrong::BadCondition(left))),
        [b'&', ..] => Ok(Lead::Reference(referred(word, left, dict)?)),
        _ => named_lead(word, dict).ok_or(ReadError::Wrong(Wrong::BadCondition(left))),
    }
}

/// Whether `i` stands at the front, and what follows it.
fn flag_at(text: &[u8]) -> (bool, &[u8])
    ensures flag { result.0 ≡ (flag_at text.now).0 }
    ensures rest { result.1.now ≡ (flag_at text.now).1 }
    ensures shorter { length result.1.now ≤ length text.now }
{
    match text {
        [b'i', rest @ ..] => (true, rest),
        _ => (false, text),
    }
}

/// The pattern at the front, and what follows it.
#[tactic(auto, unfolding(crate::specs::Atoms::pattern_at))]
fn pattern_at(alloc: Global, text: &[u8]) -> Result<(Pattern, &[u8]), ReadError<Wrong>>
    ensures exact { Gives (λ x. (x.0, x.1.now)) result (pattern_at text.now) }
    ensures shorter { IfOk result (λ x. length x.1.now ≤ length text.now) }
{
    if octet_at(text, 0) != b'/' {
        return Err(ReadError::Wrong(Wrong::BadCondition(text.len())));
    }
    let behind = after_first(text);
    let Some(len) = quoted_len(b'/', behind) else {
        return Err(ReadError::Wrong(Wrong::BadCondition(text.len())));
    };
    let (source, _) = behind.split_at(len);
    let (_, rest) = behind.split_at(len + 1);
    let (insensitive, rest) = flag_at(rest);
    let source = Octets::of(alloc, source)?;
    let left = text.len();
    let pattern = Pattern {
        source,
        insensitive,
        left,
    };
    Ok((pattern, rest))
}

/// The comparison of two sides, where the right one has so many octets from it on.
fn compared(
    alloc: Global,
    side: Side,
    cmp: Cmp,
    right: Side,
    left: usize,
    dict: &Dict,
) -> Result<Atom, ReadError<Wrong>>
    ensures { Gives (λ x. x) result (compared side cmp right left dict.now) }
{
    match side {
        Side::Reference(reference) => {
            let operand = operand_of(alloc, reference, right, left, dict)?;
            Ok(Atom::Values(reference, cmp, operand))
        }
        Side::Literal(text) => Ok(Atom::Texts(Side::Literal(text), cmp, right)),
        Side::Expansion(text) => Ok(Atom::Texts(Side::Expansion(text), cmp, right)),
    }
}

/// The comparison of a side with the right side at the front, and what follows it.
#[tactic(auto, unfolding(crate::specs::Atoms::compared_at))]
fn compared_at<'a>(
    alloc: Global,
    side: Side,
    cmp: Cmp,
    text: &'a [u8],
    dict: &Dict,
) -> Result<(Atom, &'a [u8]), ReadError<Wrong>>
    ensures exact { Gives (λ x. (x.0, x.1.now)) result (compared_at side cmp text.now dict.now) }
    ensures shorter { IfOk result (λ x. length x.1.now ≤ length text.now) }
{
    let (right, rest) = side_at(alloc, text, dict)?;
    let atom = compared(alloc, side, cmp, right, text.len(), dict)?;
    Ok((atom, rest))
}

/// The look for the pattern at the front, and what follows it.
#[tactic(auto, unfolding(crate::specs::Atoms::looked_at))]
fn looked_at(
    alloc: Global,
    side: Side,
    negative: bool,
    text: &[u8],
) -> Result<(Atom, &[u8]), ReadError<Wrong>>
    ensures exact { Gives (λ x. (x.0, x.1.now)) result (looked_at side negative text.now) }
    ensures shorter { IfOk result (λ x. length x.1.now ≤ length text.now) }
{
    let (pattern, rest) = pattern_at(alloc, text)?;
    Ok((Atom::Look(side, negative, pattern), rest))
}

/// The atom of a side by what stands behind it, and what follows the atom.
#[tactic(auto, unfolding(crate::specs::Atoms::related))]
fn related<'a>(
    alloc: Global,
    side: Side,
    text: &'a [u8],
    dict: &Dict,
) -> Result<(Atom, &'a [u8]), ReadError<Wrong>>
    ensures exact { Gives (λ x. (x.0, x.1.now)) result (related side text.now dict.now) }
    ensures shorter { IfOk result (λ x. length x.1.now ≤ length text.now) }
{
    let behind = after_blanks(text);
    match relation_at(behind) {
        (Relation::Nothing, _) => Ok((Atom::Present(side), text)),
        (Relation::Compares(cmp), right) => {
            compared_at(alloc, side, cmp, after_blanks(right), dict)
        }
        (Relation::Looks(negative), right) => looked_at(alloc, side, negative, after_blanks(right)),
        (Relation::Other, _) => Err(ReadError::Wrong(Wrong::BadCondition(behind.len()))),
    }
}

/// The atom that a bare word begins, and what follows the atom.
fn led_by<'a>(
    alloc: Global,
    lead: Lead,
    text: &'a [u8],
    dict: &Dict,
) -> Result<(Atom, &'a [u8]), ReadError<Wrong>>
    ensures exact { Gives (λ x. (x.0, x.1.now)) result (led_by lead text.now dict.now) }
    ensures shorter { IfOk result (λ x. length x.1.now ≤ length text.now) }
{
    match lead {
        Lead::Constant(constant) => Ok((Atom::Constant(constant), text)),
        Lead::Returned(code) => Ok((Atom::Returned(code), text)),
        Lead::Reference(reference) => related(alloc, Side::Reference(reference), text, dict),
    }
}

/// The atom at the front, and what follows it.
#[tactic(auto, unfolding(crate::specs::Atoms::atom_at))]
pub fn atom_at<'a>(
    alloc: Global,
    text: &'a [u8],
    dict: &Dict,
) -> Result<(Atom, &'a [u8]), ReadError<Wrong>>
    ensures exact { Gives (λ x. (x.0, x.1.now)) result (atom_at text.now dict.now) }
    ensures shorter { IfOk result (λ x. length x.1.now < length text.now) }
{
    if is_quoted(text) {
        let (side, rest) = quoted_at(alloc, text, dict)?;
        return related(alloc, side, rest, dict);
    }
    let (word, rest) = text.split_at(bare_len(text));
    let lead = lead_of(word, text.len(), dict)?;
    led_by(alloc, lead, rest, dict)
}
