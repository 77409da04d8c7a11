//! Words, blanks and comments, each a part of the text at its front.

ghost use Rattle.std.specs.Prelude.{◌≡◌, ◌+◌, ◌<◌, ◌≤◌, length, IfOk, IfSome};
ghost use Rattle.rad_text.specs.Read.{Gives};
ghost use Rattle.rad_conf.specs.Words.{bare_left, bare_len, quoted_len, bare_word, quoted_word, word_at, after_comment, is_condition};

use crate::fault::Wrong;
use crate::growth::Growth;
use crate::sign::{Sign, after_first, sign_at};
use crate::spelling::{Spelling, spelled};
use crate::tree::{Quote, Word};
use rad_text::ReadError;
use std::alloc::Global;

/// How many octets of a bare word are left where so many are passed over.
fn bare_left(passed: usize, text: &[u8]) -> usize
    requires { passed ≤ length text.now }
    ensures exact { result ≡ bare_left passed text.now }
    ensures within { result ≤ length text.now }
{
    if passed == 0 {
        sign_at(text).bare_octets()
    } else {
        passed
    }
}

/// The length of the bare word at the front.
#[tactic(auto, unfolding(crate::specs::Words::bare_len))]
pub fn bare_len(text: &[u8]) -> usize
    ensures length { result ≡ bare_len 0 text.now }
    ensures within { result ≤ length text.now }
{
    let mut len = 0;
    let mut passed = 0;
    let mut rest = text;
    while let Some((_, after)) = rest.split_first() {
        let left = bare_left(passed, rest);
        if left == 0 {
            break;
        }
        passed = left - 1;
        len += 1;
        rest = after;
    }
    len
}

/// How many octets stand before the quote that closes.
#[tactic(auto, unfolding(crate::specs::Words::quoted_from))]
pub fn quoted_len(quote: u8, text: &[u8]) -> Option<usize>
    ensures exact { result ≡ quoted_len quote text.now }
    ensures within { IfSome result (λ len. len + 1 ≤ length text.now) }
{
    let mut len = 0;
    let mut escaped = false;
    let mut rest = text;
    while let Some((octet, after)) = rest.split_first() {
        let c = *octet;
        if c == b'\n' {
            return None;
        }
        if c == quote && !escaped {
            return Some(len);
        }
        escaped = c == b'\\' && !escaped;
        len += 1;
        rest = after;
    }
    None
}

/// The bare word at the front, and what follows it.
#[tactic(auto, unfolding(crate::specs::Words::bare_word))]
fn bare_word<'a>(
    alloc: Global,
    growth: &Growth,
    text: &'a [u8],
) -> Result<(Word, &'a [u8]), ReadError<Wrong>>
    ensures exact { Gives (λ x. (x.0, x.1.now)) result (bare_word growth.now text.now) }
    ensures rest { IfOk result (λ x. length x.1.now + bare_len 0 text.now ≡ length text.now) }
{
    let (raw, rest) = text.split_at(bare_len(text));
    let text = spelled(alloc, growth, Spelling::Plain, raw)?;
    let quote = Quote::Bare;
    Ok((Word { quote, text }, rest))
}

/// The word behind a quote, and what follows the quote that closes it.
#[tactic(auto, unfolding(crate::specs::Words::quoted_word))]
fn quoted_word<'a>(
    alloc: Global,
    growth: &Growth,
    quote: Quote,
    how: Spelling,
    mark: u8,
    text: &'a [u8],
) -> Result<(Word, &'a [u8]), ReadError<Wrong>>
    ensures exact { Gives (λ x. (x.0, x.1.now)) result (quoted_word growth.now quote how mark text.now) }
    ensures shorter { IfOk result (λ x. length x.1.now < length text.now) }
{
    match quoted_len(mark, text) {
        None => Err(ReadError::Wrong(Wrong::BadQuote)),
        Some(len) => {
            let (raw, _) = text.split_at(len);
            let (_, rest) = text.split_at(len + 1);
            let text = spelled(alloc, growth, how, raw)?;
            Ok((Word { quote, text }, rest))
        }
    }
}

/// The word at the front, and what follows it.
#[tactic(auto, using(crate::proofs::WordLemmas::bare_some), unfolding(crate::specs::Words::word_at))]
pub fn word_at<'a>(
    alloc: Global,
    growth: &Growth,
    text: &'a [u8],
) -> Result<(Word, &'a [u8]), ReadError<Wrong>>
    ensures exact { Gives (λ x. (x.0, x.1.now)) result (word_at growth.now text.now) }
    ensures shorter { IfOk result (λ x. length x.1.now < length text.now) }
{
    match sign_at(text) {
        Sign::Bare(_) => bare_word(alloc, growth, text),
        Sign::Double => {
            let text = after_first(text);
            quoted_word(alloc, growth, Quote::Double, Spelling::Double, b'"', text)
        }
        Sign::Single => {
            let text = after_first(text);
            quoted_word(alloc, growth, Quote::Single, Spelling::Single, b'\'', text)
        }
        _ => Err(ReadError::Wrong(Wrong::Stray)),
    }
}

/// What follows a comment: its line's end, or nothing.
#[tactic(auto, unfolding(crate::specs::Words::after_comment))]
pub fn after_comment(text: &[u8]) -> &[u8]
    ensures rest { result.now ≡ after_comment text.now }
    ensures shorter { length result.now ≤ length text.now }
{
    let mut rest = text;
    while let Some((octet, after)) = rest.split_first() {
        if *octet == b'\n' {
            break;
        }
        rest = after;
    }
    rest
}

/// Whether a word stands before a condition.
#[tactic(auto, unfolding(crate::specs::Words::is_condition))]
pub fn is_condition(word: &[u8]) -> bool
    ensures { result ≡ is_condition word.now }
{
    word.eq_ignore_ascii_case(b"if") || word.eq_ignore_ascii_case(b"elsif")
}
