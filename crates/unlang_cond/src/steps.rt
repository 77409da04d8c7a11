//! The steps of a condition: its tokens with their patterns compiled.

ghost use Rattle.std.specs.Prelude.{◌≡◌, IfOk, IfErr};
ghost use Rattle.std.specs.Option.{option_copied};
ghost use Rattle.unlang_cond.specs.Steps.{pattern_in, pattern_of_atom, IsReady, IsReadyStep, AreSteps, RefusedBy, RefusedIn};

use crate::atom::{Atom, Pattern, Token};
use crate::groups::Step;
use crate::patterns::{CompiledPattern, compiled};
use rad_text::ReadError;
use std::alloc::Global;

/// The pattern of an atom, if it looks for one.
fn pattern_of_atom(atom: &Atom) -> Option<&Pattern>
    ensures { option_copied result ≡ pattern_of_atom atom.now }
{
    match atom {
        Atom::Look(_, _, pattern) => Some(pattern),
        _ => None,
    }
}

/// The pattern of a token, if it has one.
fn pattern_in(token: &Token) -> Option<&Pattern>
    ensures { option_copied result ≡ pattern_in token.now }
{
    match token {
        Token::Atom(atom) => pattern_of_atom(atom),
        _ => None,
    }
}

/// The pattern of a token, compiled; where it is refused, how many octets are left from it on.
fn compiled_of(alloc: Global, token: &Token) -> Result<Option<CompiledPattern>, ReadError<usize>>
    ensures ready { IfOk result (IsReady (pattern_in token.now)) }
    ensures refused { IfErr result (λ error. RefusedBy error (pattern_in token.now)) }
{
    match pattern_in(token) {
        None => Ok(None),
        Some(pattern) => match compiled(alloc, pattern)? {
            Some(compiled) => Ok(Some(compiled)),
            None => Err(ReadError::Wrong(pattern.left)),
        },
    }
}

/// The step of a token.
fn step_of(alloc: Global, token: Token) -> Result<Step, ReadError<usize>>
    ensures ready { IfOk result (λ step. IsReadyStep token step) }
    ensures refused { IfErr result (λ error. RefusedBy error (pattern_in token)) }
{
    let pattern = compiled_of(alloc, &token)?;
    Ok(Step { token, pattern })
}

/// The steps of tokens; where a pattern is refused, how many octets are left from the first of them on.
pub fn steps_of(alloc: Global, tokens: Vec<Token>) -> Result<Vec<Step>, ReadError<usize>>
    ensures ready { IfOk result (λ steps. AreSteps tokens.items steps.items) }
    ensures refused { IfErr result (λ error. RefusedIn error tokens.items) }
{
    let mut unread = tokens;
    unread.reverse();
    let mut steps = Vec::new(alloc);
    while let Some(token) = unread.pop() {
        match step_of(alloc, token) {
            Ok(step) => steps.push(step)?,
            Err(error) => return Err(error),
        }
    }
    Ok(steps)
}
