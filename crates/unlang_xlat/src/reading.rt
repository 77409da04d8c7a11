//! Texts of expansions that are read. A part within parts is read by the same functions with a level less to go, so that no
//! text leads deeper than the levels that are given.

ghost use Rattle.std.specs.Prelude.{◌≡◌, ◌+◌, ◌<◌, ◌≤◌, length, drop, IfOk};
ghost use Rattle.rad_text.specs.Read.{Gives};
ghost use Rattle.unlang_xlat.specs.Reading.{begins_part, part_at, plain_of, alone_at, piece_at, second_at, closes, parts_in, listed_at, call_at, named_at, alternative_at, braced};

use crate::fault::Wrong;
use crate::part::Part;
use crate::spans::{behind, behind_sign, len_before, plain_len};
use crate::words::{date_part, function_named, is_list, referenced, word_part};
use rad_dict::Dict;
use rad_outside::Octets;
use rad_text::ReadError;
use sqlite_items::{Boxed, Items};
use std::alloc::Global;

/// The part whose `%` stands at the front, and what follows it. Parts in braces have so many levels left.
#[cycle(reading)]
#[tactic(auto, unfolding(crate::specs::Reading::part_at))]
fn part_at<'a>(
    alloc: Global,
    levels: u32,
    text: &'a [u8],
    dict: &Dict,
) -> Result<(Part, &'a [u8]), ReadError<Wrong>>
    ensures exact { Gives (λ x. (x.0, x.1.now)) result (part_at (braced dict.now levels) text.now) }
    ensures shorter { IfOk result (λ x. length x.1.now < length text.now) }
{
    match text {
        [_, b'%', rest @ ..] => Ok((Part::Percent, rest)),
        [_, b'{', ..] => braced(alloc, levels, text, dict),
        [_, letter, rest @ ..] => match date_part(*letter) {
            Some(date) => Ok((Part::Date(date), rest)),
            None => Err(ReadError::Wrong(Wrong::BadExpansion(text.len()))),
        },
        _ => Err(ReadError::Wrong(Wrong::BadExpansion(text.len()))),
    }
}

/// Plain text of so many octets, and what follows it.
fn plain_of(alloc: Global, len: usize, text: &[u8]) -> Result<(Part, &[u8]), ReadError<Wrong>>
    requires { len ≤ length text.now }
    ensures exact { Gives (λ x. (x.0, x.1.now)) result (plain_of len text.now) }
    ensures shorter { IfOk result (λ x. length x.1.now + len ≡ length text.now) }
{
    let (plain, rest) = text.split_at(len);
    Ok((Part::Plain(Octets::of(alloc, plain)?), rest))
}

/// The part or the plain text at the front, and what follows it.
#[cycle(reading)]
#[tactic(auto, unfolding(crate::specs::Reading::piece_at))]
fn piece_at<'a>(
    alloc: Global,
    levels: u32,
    inside: bool,
    text: &'a [u8],
    dict: &Dict,
) -> Result<(Part, &'a [u8]), ReadError<Wrong>>
    ensures exact { Gives (λ x. (x.0, x.1.now)) result (piece_at (braced dict.now levels) inside text.now) }
    ensures shorter { IfOk result (λ x. length x.1.now < length text.now) }
{
    match text.split_first() {
        None => Err(ReadError::Wrong(Wrong::BadExpansion(0))),
        Some((b'%', _)) => part_at(alloc, levels, text, dict),
        Some((_, after)) => plain_of(alloc, plain_len(inside, after) + 1, text),
    }
}

/// Whether a `%` stands at the front.
fn begins_part(text: &[u8]) -> bool
    ensures { result ≡ begins_part text.now }
{
    text.first() == Some(&b'%')
}

/// What follows the `%` and the brace at the front.
fn behind_brace(text: &[u8]) -> &[u8]
    ensures rest { result.now ≡ drop 2 text.now }
    ensures shorter { length result.now ≤ length text.now }
{
    let (_, body) = text.split_at(text.len().min(2));
    body
}

/// Whether the octet closes the part of which so many octets are left, where one is open.
fn closes(outer: Option<usize>, octet: u8) -> bool
    ensures { result ≡ closes outer octet }
{
    outer.is_some() && octet == b'}'
}

/// The parts up to the brace that closes the part they stand in, or up to the text's end where they stand in none; and what follows them.
#[cycle(reading)]
#[tactic(auto, unfolding(crate::specs::Reading::parts_in))]
pub fn parts_in<'a>(
    alloc: Global,
    levels: u32,
    outer: Option<usize>,
    text: &'a [u8],
    dict: &Dict,
) -> Result<(Items<Part>, &'a [u8]), ReadError<Wrong>>
    ensures exact { Gives (λ x. (x.0, x.1.now)) result (parts_in (braced dict.now levels) outer (length text.now) text.now) }
    ensures shorter { IfOk result (λ x. length x.1.now ≤ length text.now) }
{
    let mut parts = Items::new(alloc);
    let mut rest = text;
    while let Some((octet, after)) = rest.split_first() {
        if closes(outer, *octet) {
            return Ok((parts, after));
        }
        let (part, more) = piece_at(alloc, levels, outer.is_some(), rest, dict)?;
        parts.push(part)?;
        rest = more;
    }
    match outer {
        None => Ok((parts, rest)),
        Some(left) => Err(ReadError::Wrong(Wrong::BadExpansion(left))),
    }
}

/// The second side of an alternative: a part or plain text, and what follows it.
#[cycle(reading)]
#[tactic(auto, unfolding(crate::specs::Reading::second_at))]
fn second_at<'a>(
    alloc: Global,
    levels: u32,
    text: &'a [u8],
    dict: &Dict,
) -> Result<(Part, &'a [u8]), ReadError<Wrong>>
    ensures exact { Gives (λ x. (x.0, x.1.now)) result (second_at (braced dict.now levels) text.now) }
    ensures shorter { IfOk result (λ x. length x.1.now ≤ length text.now) }
{
    if begins_part(text) {
        return part_at(alloc, levels, text, dict);
    }
    plain_of(alloc, plain_len(true, text), text)
}

/// The alternative of two whose first side stands at the front, and what follows it. Of the alternative so many octets are
/// left.
#[cycle(reading)]
#[tactic(auto, unfolding(crate::specs::Reading::alternative_at))]
fn alternative_at<'a>(
    alloc: Global,
    levels: u32,
    left: usize,
    body: &'a [u8],
    dict: &Dict,
) -> Result<(Part, &'a [u8]), ReadError<Wrong>>
    ensures exact { Gives (λ x. (x.0, x.1.now)) result (alternative_at (braced dict.now levels) left body.now) }
    ensures shorter { IfOk result (λ x. length x.1.now < length body.now) }
{
    let (first, rest) = part_at(alloc, levels, body, dict)?;
    let rest = behind_sign(rest).ok_or(ReadError::Wrong(Wrong::BadExpansion(left)))?;
    let (second, rest) = second_at(alloc, levels, rest, dict)?;
    let rest = behind(b'}', rest).ok_or(ReadError::Wrong(Wrong::BadExpansion(left)))?;
    let first = Boxed::new(alloc, first)?;
    Ok((Part::Alternative(first, Boxed::new(alloc, second)?), rest))
}

/// The function of this name of the parts at the front, and what follows it. Of the part so many octets are left.
#[cycle(reading)]
#[tactic(auto, unfolding(crate::specs::Reading::call_at))]
fn call_at<'a>(
    alloc: Global,
    levels: u32,
    left: usize,
    name: &[u8],
    text: &'a [u8],
    dict: &Dict,
) -> Result<(Part, &'a [u8]), ReadError<Wrong>>
    ensures exact { Gives (λ x. (x.0, x.1.now)) result (call_at (braced dict.now levels) left name.now text.now) }
    ensures shorter { IfOk result (λ x. length x.1.now ≤ length text.now) }
{
    let Some(function) = function_named(name) else {
        return Err(ReadError::Wrong(Wrong::UnknownFunction(left)));
    };
    let (parts, rest) = parts_in(alloc, levels, Some(left), text, dict)?;
    Ok((Part::Call(function, parts), rest))
}

/// The reference that names its list, up to the brace, and what follows it. Of the part so many octets are left.
#[tactic(auto, unfolding(crate::specs::Reading::listed_at))]
fn listed_at<'a>(
    left: usize,
    body: &'a [u8],
    dict: &Dict,
) -> Result<(Part, &'a [u8]), ReadError<Wrong>>
    ensures exact { Gives (λ x. (x.0, x.1.now)) result (listed_at left body.now dict.now) }
    ensures shorter { IfOk result (λ x. length x.1.now < length body.now) }
{
    let (text, rest) = body.split_at(len_before(b'}', b'}', body));
    let rest = behind(b'}', rest).ok_or(ReadError::Wrong(Wrong::BadExpansion(left)))?;
    Ok((referenced(left, text, dict)?, rest))
}

/// The part of a word that stands alone in braces, and what follows it.
fn alone_at<'a>(
    left: usize,
    word: &[u8],
    rest: &'a [u8],
    dict: &Dict,
) -> Result<(Part, &'a [u8]), ReadError<Wrong>>
    ensures exact { Gives (λ x. (x.0, x.1.now)) result (alone_at left word.now rest.now dict.now) }
    ensures shorter { IfOk result (λ x. length x.1.now ≡ length rest.now) }
{
    Ok((word_part(left, word, dict)?, rest))
}

/// The part in braces that begins with a name, from behind its brace on, and what follows it. Of the part so many octets are
/// left.
#[cycle(reading)]
#[tactic(auto, unfolding(crate::specs::Reading::named_at))]
fn named_at<'a>(
    alloc: Global,
    levels: u32,
    left: usize,
    body: &'a [u8],
    dict: &Dict,
) -> Result<(Part, &'a [u8]), ReadError<Wrong>>
    ensures exact { Gives (λ x. (x.0, x.1.now)) result (named_at (braced dict.now levels) left body.now dict.now) }
    ensures shorter { IfOk result (λ x. length x.1.now < length body.now) }
{
    let (name, rest) = body.split_at(len_before(b':', b'}', body));
    match rest.split_first() {
        None => Err(ReadError::Wrong(Wrong::BadExpansion(left))),
        Some((b'}', after)) => alone_at(left, name, after, dict),
        Some((_, after)) => {
            if is_list(name) {
                listed_at(left, body, dict)
            } else {
                call_at(alloc, levels, left, name, after, dict)
            }
        }
    }
}

/// The part in braces whose `%` stands at the front, and what follows it; a fault where no level is left.
#[cycle(reading)]
fn braced<'a>(
    alloc: Global,
    levels: u32,
    text: &'a [u8],
    dict: &Dict,
) -> Result<(Part, &'a [u8]), ReadError<Wrong>>
    ensures exact { Gives (λ x. (x.0, x.1.now)) result (braced dict.now levels text.now) }
    ensures shorter { IfOk result (λ x. length x.1.now < length text.now) }
{
    if levels == 0 {
        return Err(ReadError::Wrong(Wrong::BadExpansion(text.len())));
    }
    let body = behind_brace(text);
    if begins_part(body) {
        alternative_at(alloc, levels - 1, text.len(), body, dict)
    } else {
        named_at(alloc, levels - 1, text.len(), body, dict)
    }
}
