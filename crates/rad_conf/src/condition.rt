//! Conditions: the text from a `(` to its matching `)`.

ghost use Rattle.std.specs.Prelude.{◌≡◌, ◌+◌, ◌≤◌, ◌<◌, ◌++◌, ◌∷◌, [], length, take, IfOk, OnOk};
ghost use Rattle.rad_text.specs.Read.{Gives};
ghost use Rattle.rad_conf.specs.Words.{behind};
ghost use Rattle.rad_conf.specs.Conditions.{double_part, single_part, pattern_part, other_part, part_at, awaits_after, depth_after, condition_from, condition_at};

use crate::fault::Wrong;
use crate::growth::Growth;
use crate::sign::{after_first, octet_at, operator_at, variable_at};
use crate::spelling::{Spelling, push_variable, spelled};
use crate::word::quoted_len;
use rad_outside::{NoMemory, Octets};
use rad_text::ReadError;
use std::alloc::Global;

/// A condition, and how many lines end in it.
#[derive(Debug, Drop)]
pub struct Condition {
    pub text: Octets,
    pub lines: usize,
}

/// Adds the first octets of a text.
fn push_front(out: &mut Vec<u8>, text: &[u8], len: usize) -> Result<(), NoMemory>
    requires { len ≤ length text.now }
    ensures { OnOk result (out.new.items ≡ out.old.items ++ take len text.now) }
{
    let (front, _) = text.split_at(len);
    out.extend_from_slice(front)?;
    Ok(())
}

/// Adds a text between double quotes.
fn push_quoted(out: &mut Vec<u8>, text: &[u8]) -> Result<(), NoMemory>
    ensures { OnOk result (out.new.items ≡ out.old.items ++ 34 ∷ (text.now ++ 34 ∷ [])) }
{
    out.push(b'"')?;
    out.extend_from_slice(text)?;
    out.push(b'"')?;
    Ok(())
}

/// Adds a double-quoted text behind its quote.
fn double_part(
    alloc: Global,
    growth: &Growth,
    out: &mut Vec<u8>,
    text: &[u8],
) -> Result<usize, ReadError<Wrong>>
    ensures { Gives (λ passed. (out.new.items, passed)) result (behind out.old.items (double_part growth.now text.now)) }
{
    let Some(len) = quoted_len(b'"', text) else {
        return Err(ReadError::Wrong(Wrong::BadQuote));
    };
    let (raw, _) = text.split_at(len);
    let kept = spelled(alloc, growth, Spelling::Kept, raw)?;
    push_quoted(out, kept.as_slice())?;
    Ok(len + 1)
}

/// Adds the single-quoted text at the front.
fn single_part(out: &mut Vec<u8>, text: &[u8]) -> Result<usize, ReadError<Wrong>>
    ensures { Gives (λ passed. (out.new.items, passed)) result (behind out.old.items (single_part text.now)) }
{
    let Some(len) = quoted_len(b'\'', after_first(text)) else {
        return Err(ReadError::Wrong(Wrong::BadQuote));
    };
    push_front(out, text, len + 2)?;
    Ok(len + 1)
}

/// Adds the pattern at the front, or a slash that begins none.
fn pattern_part(out: &mut Vec<u8>, text: &[u8]) -> Result<usize, NoMemory>
    requires { 0 < length text.now }
    ensures { IfOk result (λ passed. behind out.old.items (pattern_part text.now) ≡ Ok (out.new.items, passed)) }
{
    match quoted_len(b'/', after_first(text)) {
        None => {
            push_front(out, text, 1)?;
            Ok(0)
        }
        Some(len) => {
            push_front(out, text, len + 2)?;
            Ok(len + 1)
        }
    }
}

/// Adds a variable's value, an operator or an octet.
fn other_part(
    alloc: Global,
    growth: &Growth,
    out: &mut Vec<u8>,
    text: &[u8],
) -> Result<usize, ReadError<Wrong>>
    ensures { Gives (λ passed. (out.new.items, passed)) result (behind out.old.items (other_part growth.now text.now)) }
{
    if let Some(len) = variable_at(text) {
        return push_variable(alloc, growth, out, len, text);
    }
    let (octet, next) = (octet_at(text, 0), octet_at(text, 1));
    out.push(octet)?;
    if operator_at(octet, next) == 2 {
        out.push(next)?;
        return Ok(1);
    }
    Ok(0)
}

/// Adds what stands for the part of a condition at the front, and answers how many octets behind its
/// first are passed over with it.
#[tactic(auto, unfolding(crate::specs::Conditions::part_at))]
fn part_at(
    alloc: Global,
    growth: &Growth,
    out: &mut Vec<u8>,
    awaits: bool,
    text: &[u8],
) -> Result<usize, ReadError<Wrong>>
    ensures { Gives (λ passed. (out.new.items, passed)) result (behind out.old.items (part_at growth.now awaits text.now)) }
{
    match octet_at(text, 0) {
        b'"' => double_part(alloc, growth, out, after_first(text)),
        b'\'' => single_part(out, text),
        b'/' if awaits => Ok(pattern_part(out, text)?),
        _ => other_part(alloc, growth, out, text),
    }
}

/// Whether a pattern may begin behind the part at the front.
#[tactic(auto, unfolding(crate::specs::Conditions::awaits_after))]
fn awaits_after(awaits: bool, text: &[u8]) -> bool
    ensures { result ≡ awaits_after awaits text.now }
{
    let (octet, next) = (octet_at(text, 0), octet_at(text, 1));
    (operator_at(octet, next) == 2 && next == b'~') || (matches!(octet, b' ' | b'\t') && awaits)
}

/// How many parentheses are open behind an octet.
#[tactic(auto, unfolding(crate::specs::Conditions::depth_after))]
fn depth_after(octet: u8, depth: usize) -> usize
    requires { depth < 9223372036854775807 }
    ensures exact { result ≡ depth_after octet depth }
    ensures within { result ≤ depth + 1 }
{
    match octet {
        b'(' => depth + 1,
        b')' => depth.saturating_sub(1),
        _ => depth,
    }
}

/// The condition at the front, and what follows it.
#[tactic(auto, unfolding(crate::specs::Conditions::condition_at, crate::specs::Conditions::condition_from))]
pub fn condition_at<'a>(
    alloc: Global,
    growth: &Growth,
    text: &'a [u8],
) -> Result<(Condition, &'a [u8]), ReadError<Wrong>>
    ensures exact { Gives (λ x. (x.0.text, x.0.lines, x.1.now)) result (condition_at growth.now text.now) }
    ensures shorter { IfOk result (λ x. x.0.lines + length x.1.now ≤ length text.now) }
{
    if octet_at(text, 0) != b'(' {
        return Err(ReadError::Wrong(Wrong::Stray));
    }
    let mut out = Vec::new(alloc);
    let mut depth = 0;
    let mut lines = 0;
    let mut awaits = false;
    let mut passed = 0;
    let mut rest = text;
    while let Some((octet, after)) = rest.split_first() {
        let c = *octet;
        if passed == 0 {
            passed = part_at(alloc, growth, &mut out, awaits, rest)?;
            depth = depth_after(c, depth);
            if c == b')' && depth == 0 {
                let text = Octets::from_vec(out);
                return Ok((Condition { text, lines }, after));
            }
            awaits = awaits_after(awaits, rest);
            if c == b'\n' {
                lines += 1;
            }
        } else {
            passed -= 1;
        }
        rest = after;
    }
    Err(ReadError::Wrong(Wrong::Stray))
}
