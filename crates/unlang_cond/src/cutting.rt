//! A condition cut into tokens.

ghost use Rattle.std.specs.Prelude.{◌≡◌, None, IfOk};
ghost use Rattle.unlang_cond.specs.Tokens.{depth_from, tokens_of, wrong_at_end, StopsAt};

use crate::atom::Token;
use crate::fault::Wrong;
use crate::token_reading::{awaits_after, depth_after, token_at};
use rad_dict::Dict;
use rad_outside::NoMemory;
use rad_text::{ReadError, after_blanks};
use std::alloc::Global;

/// The tokens of a condition up to what is wrong first, if anything.
#[derive(Drop)]
pub struct Cut {
    pub tokens: Vec<Token>,
    pub wrong: Option<Wrong>,
}

/// What is wrong at the end of a condition.
fn wrong_at_end(awaits: bool, depth: usize) -> Option<Wrong>
    ensures { result ≡ wrong_at_end awaits depth }
{
    if awaits || depth > 0 {
        Some(Wrong::BadCondition(0))
    } else {
        None
    }
}

/// The tokens that were read before what is wrong.
fn stopped(tokens: Vec<Token>, error: ReadError<Wrong>) -> Result<Cut, NoMemory>
    ensures tokens { IfOk result (λ cut. cut.tokens.items ≡ tokens.items) }
    ensures wrong { IfOk result (λ cut. StopsAt error cut.wrong) }
{
    match error {
        ReadError::Wrong(wrong) => Ok(Cut {
            tokens,
            wrong: Some(wrong),
        }),
        ReadError::NoMemory => Err(NoMemory),
    }
}

/// The tokens of a text. Where nothing is wrong, each parenthesis is closed.
pub fn tokens_of(alloc: Global, text: &[u8], dict: &Dict) -> Result<Cut, NoMemory>
    ensures tokens { IfOk result (λ cut. tokens_of text.now dict.now ≡ (cut.tokens.items, cut.wrong)) }
    ensures closed { IfOk result (λ cut. cut.wrong ≡ None → depth_from 0 cut.tokens.items ≡ 0) }
{
    let mut tokens = Vec::new(alloc);
    let mut depth = 0;
    let mut awaits = true;
    let mut rest = after_blanks(text);
    while !rest.is_empty() {
        match token_at(alloc, awaits, depth, rest, dict) {
            Ok((token, after)) => {
                awaits = awaits_after(&token);
                depth = depth_after(&token, depth);
                tokens.push(token)?;
                rest = after_blanks(after);
            }
            Err(error) => return stopped(tokens, error),
        }
    }
    let wrong = wrong_at_end(awaits, depth);
    Ok(Cut { tokens, wrong })
}
