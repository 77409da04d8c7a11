//! Texts of references.

ghost use Rattle.std.specs.Prelude.{◌≡◌, ◌≤◌, length};
ghost use Rattle.std.specs.Option.{option_map};
ghost use Rattle.std.specs.Str.{str_eq_ignore_ascii_case};
ghost use Rattle.unlang_reference.specs.Reading.{after_prefix, listed, name_len, is_close, nth_of, place_of, which_of, reference_of, named_alone};

use crate::{Reference, Which};
use rad_dict::Dict;
use rad_pairs::attr_by_name;
use rad_text::number_at;
use rad_value::ListName;

/// Why a text is no reference.
#[derive(Clone, Copy, Debug, PartialEq, Eq)]
pub enum NoReference {
    /// The name is no attribute's.
    UnknownAttr,
    /// What stands behind the name of an attribute is no place.
    BadPlace,
}

/// Whether two texts are one, in any case of their ASCII letters.
fn is_same(one: &[u8], other: &[u8]) -> bool
    ensures { result ≡ str_eq_ignore_ascii_case one.now other.now }
{
    one.eq_ignore_ascii_case(other)
}

/// What follows the prefix, where the text begins with it, in any case of its ASCII letters.
fn after_prefix<'a>(prefix: &[u8], text: &'a [u8]) -> Option<&'a [u8]>
    ensures { option_map (λ rest. rest.now) result ≡ after_prefix prefix.now text.now }
{
    let (front, rest) = text.split_at(prefix.len().min(text.len()));
    if is_same(front, prefix) {
        Some(rest)
    } else {
        None
    }
}

/// The list that a text names before its attribute, and what follows the list's name.
#[tactic(auto, unfolding(crate::specs::Reading::listed))]
fn listed(text: &[u8]) -> (ListName, &[u8])
    ensures list { result.0 ≡ (listed text.now).0 }
    ensures rest { result.1.now ≡ (listed text.now).1 }
{
    if let Some(rest) = after_prefix(b"request:", text) {
        return (ListName::Request, rest);
    }
    if let Some(rest) = after_prefix(b"reply:", text) {
        return (ListName::Reply, rest);
    }
    match after_prefix(b"control:", text) {
        Some(rest) => (ListName::Control, rest),
        None => (ListName::Request, text),
    }
}

/// How many octets of a text stand before its first `[`.
#[tactic(auto, unfolding(crate::specs::Reading::name_len))]
fn name_len(text: &[u8]) -> usize
    ensures length { result ≡ name_len text.now }
    ensures within { result ≤ length text.now }
{
    let mut len = 0;
    let mut rest = text;
    while let Some((octet, after)) = rest.split_first() {
        if *octet == b'[' {
            break;
        }
        len += 1;
        rest = after;
    }
    len
}

/// Whether a text is the bracket that closes a place.
fn is_close(text: &[u8]) -> bool
    ensures { result ≡ is_close text.now }
{
    matches!(text, [b']'])
}

/// `n]`
fn nth_of(text: &[u8]) -> Option<Which>
    ensures { result ≡ nth_of text.now }
{
    let (number, rest) = number_at(10, text)?;
    if is_close(rest) {
        Some(Which::Nth(number))
    } else {
        None
    }
}

/// A place from behind its first bracket on.
fn place_of(text: &[u8]) -> Option<Which>
    ensures { result ≡ place_of text.now }
{
    match text {
        [b'*', rest @ ..] if is_close(rest) => Some(Which::All),
        [b'#', rest @ ..] if is_close(rest) => Some(Which::Count),
        _ => nth_of(text),
    }
}

/// Which values the text behind an attribute's name means.
fn which_of(text: &[u8]) -> Option<Which>
    ensures { result ≡ which_of text.now }
{
    match text {
        [] => Some(Which::Nth(0)),
        [b'[', rest @ ..] => place_of(rest),
        _ => None,
    }
}

/// The reference of a text `[list:]Attr[place]`: the list is `request`, `reply` or `control`, in any case of its letters,
/// and the request's where none is named; the place is `[n]` from 0 in decimal below 2^32, `[*]` or `[#]`, and `[0]`
/// where none stands. An unknown name comes before a place that can't be read.
#[tactic(auto, unfolding(crate::specs::Reading::reference_of))]
pub fn reference_of(text: &[u8], dict: &Dict) -> Result<Reference, NoReference>
    ensures { result ≡ reference_of text.now dict.now }
{
    let (list, rest) = listed(text);
    let (name, place) = rest.split_at(name_len(rest));
    let attr = attr_by_name(name, dict).ok_or(NoReference::UnknownAttr)?;
    let which = which_of(place).ok_or(NoReference::BadPlace)?;
    Ok(Reference { list, attr, which })
}

/// The reference of a text that is the name of an attribute, with or without a list before it and with no place behind
/// it: to the attribute's first value.
#[tactic(auto, unfolding(crate::specs::Reading::named_alone))]
pub fn named_alone(text: &[u8], dict: &Dict) -> Option<Reference>
    ensures { result ≡ named_alone text.now dict.now }
{
    let (list, name) = listed(text);
    let attr = attr_by_name(name, dict)?;
    let which = Which::Nth(0);
    Some(Reference { list, attr, which })
}
