//! Tokens of a condition.

ghost use Rattle.std.specs.Prelude.{◌≡◌, ◌+◌, ◌≤◌, ◌<◌, length, IfOk};
ghost use Rattle.rad_text.specs.Read.{Gives};
ghost use Rattle.unlang_cond.specs.Tokens.{operand_at, link_at, token_at, awaits_after, depth_after};

use crate::atom::Token;
use crate::atom_reading::atom_at;
use crate::fault::Wrong;
use rad_dict::Dict;
use rad_text::ReadError;
use std::alloc::Global;

/// The token at the front where an operand is due, and what follows it.
fn operand_at<'a>(
    alloc: Global,
    text: &'a [u8],
    dict: &Dict,
) -> Result<(Token, &'a [u8]), ReadError<Wrong>>
    ensures exact { Gives (λ x. (x.0, x.1.now)) result (operand_at text.now dict.now) }
    ensures shorter { IfOk result (λ x. length x.1.now < length text.now) }
{
    match text {
        [b'!', rest @ ..] => Ok((Token::Not, rest)),
        [b'(', rest @ ..] => Ok((Token::Open, rest)),
        _ => {
            let (atom, rest) = atom_at(alloc, text, dict)?;
            Ok((Token::Atom(atom), rest))
        }
    }
}

/// The token at the front behind an operand under so many open parentheses, and what follows it.
fn link_at(depth: usize, text: &[u8]) -> Result<(Token, &[u8]), ReadError<Wrong>>
    ensures exact { Gives (λ x. (x.0, x.1.now)) result (link_at depth text.now) }
    ensures shorter { IfOk result (λ x. length x.1.now < length text.now) }
{
    match text {
        [b')', rest @ ..] if depth > 0 => Ok((Token::Close, rest)),
        [b'&', b'&', rest @ ..] => Ok((Token::And, rest)),
        [b'|', b'|', rest @ ..] => Ok((Token::Or, rest)),
        _ => Err(ReadError::Wrong(Wrong::BadCondition(text.len()))),
    }
}

/// The token at the front, and what follows it.
pub fn token_at<'a>(
    alloc: Global,
    awaits: bool,
    depth: usize,
    text: &'a [u8],
    dict: &Dict,
) -> Result<(Token, &'a [u8]), ReadError<Wrong>>
    ensures exact { Gives (λ x. (x.0, x.1.now)) result (token_at awaits depth text.now dict.now) }
    ensures shorter { IfOk result (λ x. length x.1.now < length text.now) }
{
    if awaits {
        operand_at(alloc, text, dict)
    } else {
        link_at(depth, text)
    }
}

/// Whether an operand is due behind a token.
pub fn awaits_after(token: &Token) -> bool
    ensures { result ≡ awaits_after token.now }
{
    match token {
        Token::Not | Token::Open | Token::And | Token::Or => true,
        Token::Close | Token::Atom(_) => false,
    }
}

/// How many parentheses are open behind a token.
pub fn depth_after(token: &Token, depth: usize) -> usize
    requires { depth < 9223372036854775807 }
    ensures exact { result ≡ depth_after token.now depth }
    ensures within { result ≤ depth + 1 }
{
    match token {
        Token::Open => depth + 1,
        Token::Close => depth.saturating_sub(1),
        _ => depth,
    }
}
