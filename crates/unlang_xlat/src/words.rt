//! The words that stand behind `%` and in braces.

ghost use Rattle.std.specs.Prelude.{◌≡◌, ◌≤◌};
ghost use Rattle.unlang_xlat.specs.Words.{date_part, function_named, is_list, digit_alone, is_loop, loop_of, fixed_part, reference_error, word_part, referenced};
ghost use Rattle.rad_text.specs.Read.{Gives};

use crate::fault::Wrong;
use crate::part::{DatePart, Function, Part};
use rad_dict::Dict;
use rad_text::ReadError;
use unlang_reference::{NoReference, reference_of};

/// What a letter behind `%` says of the moment.
pub fn date_part(letter: u8) -> Option<DatePart>
    ensures { result ≡ date_part letter }
{
    match letter {
        b'Y' => Some(DatePart::Year),
        b'm' => Some(DatePart::Month),
        b'd' => Some(DatePart::Day),
        b'H' => Some(DatePart::Hour),
        b'D' => Some(DatePart::Date),
        b'l' => Some(DatePart::Seconds),
        b't' => Some(DatePart::Stamp),
        _ => None,
    }
}

/// The function of a name, which is exact in case.
#[tactic(auto, unfolding(crate::specs::Words::function_named))]
pub fn function_named(name: &[u8]) -> Option<Function>
    ensures { result ≡ function_named name.now }
{
    if name == b"tolower".as_slice() {
        return Some(Function::Lower);
    }
    if name == b"toupper".as_slice() {
        return Some(Function::Upper);
    }
    if name == b"md5".as_slice() {
        return Some(Function::Digest);
    }
    if name == b"strlen".as_slice() {
        return Some(Function::Length);
    }
    None
}

/// Whether the name is a list's, in any case of its letters.
pub fn is_list(name: &[u8]) -> bool
    ensures { result ≡ is_list name.now }
{
    name.eq_ignore_ascii_case(b"request")
        || name.eq_ignore_ascii_case(b"reply")
        || name.eq_ignore_ascii_case(b"control")
}

/// The number of a text that is one decimal digit, up to a greatest.
fn digit_alone(greatest: u8, text: &[u8]) -> Option<u8>
    requires { greatest ≤ 9 }
    ensures { result ≡ digit_alone greatest text.now }
{
    match text {
        [digit] if b'0' <= *digit && *digit <= b'0' + greatest => Some(*digit - b'0'),
        _ => None,
    }
}

/// Whether a text is what stands before a loop's number, in any case of its letters.
#[tactic(auto, unfolding(crate::specs::Words::is_loop))]
fn is_loop(front: &[u8]) -> bool
    ensures { result ≡ is_loop front.now }
{
    front.eq_ignore_ascii_case(b"Foreach-Variable-")
}

/// The loop that a word names.
#[tactic(auto, unfolding(crate::specs::Words::loop_of))]
fn loop_of(word: &[u8]) -> Option<u8>
    ensures { result ≡ loop_of word.now }
{
    let (front, digit) = word.split_at(word.len().min(17));
    if is_loop(front) {
        digit_alone(7, digit)
    } else {
        None
    }
}

/// The part of a word that stands for no attribute.
#[tactic(auto, unfolding(crate::specs::Words::fixed_part))]
fn fixed_part(word: &[u8]) -> Option<Part>
    ensures { result ≡ fixed_part word.now }
{
    if let Some(capture) = digit_alone(8, word) {
        return Some(Part::Capture(capture));
    }
    if word.eq_ignore_ascii_case(b"Packet-Src-IP-Address") {
        return Some(Part::Source);
    }
    if word.eq_ignore_ascii_case(b"Packet-Src-IPv6-Address") {
        return Some(Part::NoSource);
    }
    Some(Part::Loop(loop_of(word)?))
}

/// What is wrong with a reference, in the part of which so many octets are left.
fn reference_error(left: usize, error: NoReference) -> Wrong
    ensures { result ≡ reference_error left error }
{
    match error {
        NoReference::UnknownAttr => Wrong::UnknownAttr(left),
        NoReference::BadPlace => Wrong::BadExpansion(left),
    }
}

/// The part of a reference, of which so many octets are left.
#[tactic(auto, unfolding(crate::specs::Words::referenced))]
pub fn referenced(left: usize, text: &[u8], dict: &Dict) -> Result<Part, ReadError<Wrong>>
    ensures { Gives (λ part. part) result (referenced left text.now dict.now) }
{
    match reference_of(text, dict) {
        Ok(reference) => Ok(Part::Reference(reference)),
        Err(error) => Err(ReadError::Wrong(reference_error(left, error))),
    }
}

/// The part of a word that stands alone in its braces, of which so many octets are left.
#[tactic(auto, unfolding(crate::specs::Words::word_part))]
pub fn word_part(left: usize, word: &[u8], dict: &Dict) -> Result<Part, ReadError<Wrong>>
    ensures { Gives (λ part. part) result (word_part left word.now dict.now) }
{
    match fixed_part(word) {
        Some(part) => Ok(part),
        None => referenced(left, word, dict),
    }
}
