//! Expansions of double-quoted texts.

ghost use Rattle.std.specs.Prelude.{◌≡◌, IfOk};
ghost use Rattle.rad_text.specs.Read.{Gives};
ghost use Rattle.rad_outside.specs.Moments.{IsInTime};
ghost use Rattle.unlang_cond.specs.Expansions.{error_of, expansion_of, expansion_text};

use crate::fault::Wrong;
use rad_dict::Dict;
use rad_outside::{NoMemory, Octets};
use rad_text::ReadError;
use rad_value::Scope;
use std::alloc::Global;
use unlang_xlat::{Xlat, XlatFault};

/// What an expansion's fault is in a condition, where its quote has so many octets from it on.
fn error_of(fault: XlatFault, left: usize) -> ReadError<Wrong>
    ensures { result ≡ error_of fault left }
{
    match fault {
        XlatFault::UnknownAttr(_) => ReadError::Wrong(Wrong::UnknownAttr(left)),
        XlatFault::BadExpansion(_) | XlatFault::UnknownFunction(_) => {
            ReadError::Wrong(Wrong::BadCondition(left))
        }
        XlatFault::NoMemory => ReadError::NoMemory,
    }
}

/// The expansion of a double-quoted text, whose quote has so many octets from it on.
pub fn expansion_of(
    alloc: Global,
    text: &[u8],
    left: usize,
    dict: &Dict,
) -> Result<Xlat, ReadError<Wrong>>
    ensures { Gives (λ x. x) result (expansion_of text.now left dict.now) }
{
    match Xlat::parse(alloc, text, dict) {
        Ok(expansion) => Ok(expansion),
        Err(fault) => Err(error_of(fault, left)),
    }
}

/// The text of an expansion in a scope.
pub fn expansion_text(
    alloc: Global,
    expansion: &Xlat,
    scope: &Scope,
    dict: &Dict,
) -> Result<Octets, NoMemory>
    requires { IsInTime scope.now.moment }
    ensures { IfOk result (λ text. text ≡ expansion_text expansion.now scope.now dict.now) }
{
    expansion.expand(alloc, scope, dict)
}
