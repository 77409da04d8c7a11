//! Names and words at the front of a text.

ghost use Rattle.std.specs.Prelude.{◌≡◌, ◌≤◌, ◌<◌, length, IfOk, IfSome, Some, None, if◌then◌else◌};
ghost use Rattle.std.specs.Option.{option_map};
ghost use Rattle.rad_text.specs.Find.{Finds};
ghost use Rattle.rad_pairs.specs.Words.{after_separator, ends_word, word_len, name_len, single_quoted, is_octal, octal, escape_at, written, double_quoted, word_at};

use crate::fault::NoValue;
use crate::operators::operator_at;
use rad_outside::Octets;
use rad_text::{ReadError, after_line_end};
use std::alloc::Global;

/// What follows the sign that parts two pairs, where one stands at the front: a comma or a line end.
pub fn after_separator(text: &[u8]) -> Option<&[u8]>
    ensures exact { option_map (λ x. x.now) result ≡ after_separator text.now }
    ensures shorter { IfSome result (λ x. length x.now < length text.now) }
{
    match text {
        [b',', rest @ ..] => Some(rest),
        _ => after_line_end(text),
    }
}

/// Whether a bare word ends before the text.
fn ends_word(text: &[u8]) -> bool
    ensures { result ≡ ends_word text.now }
{
    match text {
        [b' ' | b'\t', ..] => true,
        _ => after_separator(text).is_some(),
    }
}

/// The length of the bare word at the front.
#[tactic(auto, unfolding(crate::specs::Words::word_len))]
fn word_len(text: &[u8]) -> usize
    ensures length { result ≡ word_len text.now }
    ensures within { result ≤ length text.now }
{
    let mut len = 0;
    let mut rest = text;
    while let Some((_, after)) = rest.split_first() {
        if ends_word(rest) {
            break;
        }
        len += 1;
        rest = after;
    }
    len
}

/// The length of the name at the front.
#[tactic(auto, unfolding(crate::specs::Words::name_len))]
pub fn name_len(text: &[u8]) -> usize
    ensures length { result ≡ name_len text.now }
    ensures within { result ≤ length text.now }
{
    let mut len = 0;
    let mut rest = text;
    while let Some((_, after)) = rest.split_first() {
        if ends_word(rest) || operator_at(rest).is_some() {
            break;
        }
        len += 1;
        rest = after;
    }
    len
}

/// What stands before the next single quote, and what follows that; none where the line ends before.
#[tactic(auto, unfolding(crate::specs::Words::single_quoted))]
fn single_quoted(text: &[u8]) -> Option<(&[u8], &[u8])>
    ensures exact { option_map (λ x. (x.0.now, x.1.now)) result ≡ single_quoted text.now }
    ensures shorter { IfSome result (λ x. length x.1.now ≤ length text.now) }
{
    let mut len = 0;
    let mut rest = text;
    while let Some((octet, after)) = rest.split_first() {
        match *octet {
            b'\'' => {
                let (quoted, _) = text.split_at(len);
                return Some((quoted, after));
            }
            b'\n' => break,
            _ => {
                len += 1;
                rest = after;
            }
        }
    }
    None
}

/// The octet that three octal digits up to 377 write, where they stand at the front.
fn octal_at(text: &[u8]) -> Option<u8>
    ensures { result ≡ (if is_octal text.now then Some (octal text.now) else None) }
{
    match text {
        [a @ b'0'..=b'3', b @ b'0'..=b'7', c @ b'0'..=b'7', ..] => {
            Some((*a - b'0') * 64 + (*b - b'0') * 8 + (*c - b'0'))
        }
        _ => None,
    }
}

/// The octet that an escape writes from behind its backslash on, and how many octets it has there.
fn escape_at(text: &[u8]) -> Option<(u8, usize)>
    ensures exact { result ≡ escape_at text.now }
    ensures within { IfSome result (λ x. x.1 ≤ length text.now) }
{
    if let [escaped @ (b'"' | b'\\'), ..] = text {
        return Some((*escaped, 1));
    }
    let octet = octal_at(text)?;
    Some((octet, 3))
}

/// The octet that an octet at the front writes in double quotes, and how many that follow it belong to it.
fn written(octet: u8, rest: &[u8]) -> (u8, usize)
    ensures exact { result ≡ written octet rest.now }
    ensures within { result.1 ≤ length rest.now }
{
    if octet != b'\\' {
        return (octet, 0);
    }
    match escape_at(rest) {
        Some(escape) => escape,
        None => (octet, 0),
    }
}

/// What the text up to the closing double quote writes, and what follows that.
#[tactic(auto, unfolding(crate::specs::Words::double_quoted))]
fn double_quoted(alloc: Global, text: &[u8]) -> Result<(Octets, &[u8]), ReadError<NoValue>>
    ensures exact { Finds (λ x. (x.0, x.1.now)) result (double_quoted 0 text.now) }
    ensures shorter { IfOk result (λ x. length x.1.now ≤ length text.now) }
{
    let mut octets = Vec::new(alloc);
    let mut rest = text;
    while let Some((octet, after)) = rest.split_first() {
        match *octet {
            b'"' => return Ok((Octets::from_vec(octets), after)),
            b'\n' => break,
            other => {
                let (value, len) = written(other, after);
                octets.push(value)?;
                let (_, unread) = after.split_at(len);
                rest = unread;
            }
        }
    }
    Err(ReadError::Wrong(NoValue))
}

/// The word at the front, and what follows it; BadValue where its quote isn't closed on its line.
#[tactic(auto, unfolding(crate::specs::Words::word_at))]
pub fn word_at(alloc: Global, text: &[u8]) -> Result<(Octets, &[u8]), ReadError<NoValue>>
    ensures exact { Finds (λ x. (x.0, x.1.now)) result (word_at text.now) }
    ensures shorter { IfOk result (λ x. length x.1.now ≤ length text.now) }
{
    match text {
        [b'"', rest @ ..] => double_quoted(alloc, rest),
        [b'\'', rest @ ..] => {
            let (word, rest) = single_quoted(rest).ok_or(ReadError::Wrong(NoValue))?;
            Ok((Octets::of(alloc, word)?, rest))
        }
        _ => {
            let (word, rest) = text.split_at(word_len(text));
            Ok((Octets::of(alloc, word)?, rest))
        }
    }
}
