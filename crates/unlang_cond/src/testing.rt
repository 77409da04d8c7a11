//! Atoms of a condition, tested in a scope.

ghost use Rattle.std.specs.Prelude.{◌≡◌, [], ◌∷◌, IfOk};
ghost use Rattle.std.specs.Option.{option_copied};
ghost use Rattle.rad_outside.specs.Moments.{IsInTime};
ghost use Rattle.unlang_reference.specs.Values.{values_of};
ghost use Rattle.unlang_cond.specs.Steps.{pattern_of_atom, IsReady};
ghost use Rattle.unlang_cond.specs.Tests.{is_code, side_text, is_present, operand_values, one_holds, values_hold, both_hold, look_in, test, OnlyCaptures};

use crate::atom::{Atom, Operand, Side};
use crate::expansion::expansion_text;
use crate::patterns::CompiledPattern;
use crate::sides::value_read;
use crate::texts::texts_hold;
use rad_dict::Dict;
use rad_outside::{NoMemory, Octets};
use rad_text::ReadError;
use rad_value::{Cmp, Scope, Value, compare};
use rad_words::Code;
use std::alloc::Global;
use unlang_reference::Reference;
use unlang_xlat::Xlat;

/// Whether the last code is this one.
fn is_code(last: Option<Code>, code: Code) -> bool
    ensures { result ≡ is_code last code }
{
    match last {
        Some(last) => last as u8 == code as u8,
        None => false,
    }
}

/// The text of a side, none where a reference names no value.
fn side_text(
    alloc: Global,
    side: &Side,
    scope: &Scope,
    dict: &Dict,
) -> Result<Option<Octets>, NoMemory>
    requires { IsInTime scope.now.moment }
    ensures { IfOk result (λ text. text ≡ side_text side.now scope.now dict.now) }
{
    match side {
        Side::Reference(reference) => {
            if reference.count(&scope.lists) == 0 {
                return Ok(None);
            }
            let mut text = Vec::new(alloc);
            reference.put_text(alloc, &mut text, &scope.lists, dict)?;
            Ok(Some(Octets::from_vec(text)))
        }
        Side::Literal(text) => Ok(Some(Octets::of(alloc, text.as_slice())?)),
        Side::Expansion(expansion) => Ok(Some(expansion_text(alloc, expansion, scope, dict)?)),
    }
}

/// Whether a reference has a value, or a quoted text isn't empty.
fn is_present(alloc: Global, side: &Side, scope: &Scope, dict: &Dict) -> Result<bool, NoMemory>
    requires { IsInTime scope.now.moment }
    ensures { IfOk result (λ holds. holds ≡ is_present side.now scope.now dict.now) }
{
    match side {
        Side::Reference(reference) => Ok(reference.count(&scope.lists) > 0),
        Side::Literal(text) => Ok(text.as_slice().len() > 0),
        Side::Expansion(expansion) => {
            let text = expansion_text(alloc, expansion, scope, dict)?;
            Ok(text.as_slice().len() > 0)
        }
    }
}

/// The value as which an expansion is read beside a reference, if it is one, as a list.
fn expansion_values(
    alloc: Global,
    reference: Reference,
    expansion: &Xlat,
    scope: &Scope,
    dict: &Dict,
) -> Result<Vec<Value>, NoMemory>
    requires { IsInTime scope.now.moment }
    ensures { IfOk result (λ values. values.items ≡ operand_values reference (Operand.Expansion expansion.now) scope.now dict.now) }
{
    let text = expansion_text(alloc, expansion, scope, dict)?;
    let mut values = Vec::new(alloc);
    match value_read(alloc, reference, text.as_slice(), dict) {
        Ok(value) => values.push(value)?,
        Err(ReadError::Wrong(_)) => {}
        Err(ReadError::NoMemory) => return Err(NoMemory),
    }
    Ok(values)
}

/// A list of one value.
fn one_value(alloc: Global, value: &Value) -> Result<Vec<Value>, NoMemory>
    ensures { IfOk result (λ values. values.items ≡ value.now ∷ []) }
{
    let copy = value.try_clone(alloc)?;
    let mut values = Vec::new(alloc);
    values.push(copy)?;
    Ok(values)
}

/// The values with which a reference is compared.
fn operand_values(
    alloc: Global,
    reference: Reference,
    operand: &Operand,
    scope: &Scope,
    dict: &Dict,
) -> Result<Vec<Value>, NoMemory>
    requires { IsInTime scope.now.moment }
    ensures { IfOk result (λ values. values.items ≡ operand_values reference operand.now scope.now dict.now) }
{
    match operand {
        Operand::Reference(other) => other.values(alloc, &scope.lists),
        Operand::Value(value) => one_value(alloc, value),
        Operand::Expansion(expansion) => {
            expansion_values(alloc, reference, expansion, scope, dict)
        }
    }
}

/// Whether the comparison holds of a value and one of the others.
fn one_holds(cmp: Cmp, rights: &[Value], left: &Value) -> bool
    ensures { result ≡ one_holds cmp rights.now left.now }
{
    rights
        .iter()
        .any(|right| compare(left, cmp, right).unwrap_or(false))
}

/// Whether the comparison holds of two values, one of each side.
fn values_hold(lefts: &[Value], cmp: Cmp, rights: &[Value]) -> bool
    ensures { result ≡ values_hold lefts.now cmp rights.now }
{
    lefts.iter().any(|left| one_holds(cmp, rights, left))
}

/// A comparison of values.
fn test_values(
    alloc: Global,
    reference: Reference,
    cmp: Cmp,
    operand: &Operand,
    scope: &Scope,
    dict: &Dict,
) -> Result<bool, NoMemory>
    requires { IsInTime scope.now.moment }
    ensures { IfOk result (λ holds. holds
        ≡ values_hold (values_of reference scope.now.lists) cmp (operand_values reference operand.now scope.now dict.now)) }
{
    let lefts = reference.values(alloc, &scope.lists)?;
    let rights = operand_values(alloc, reference, operand, scope, dict)?;
    Ok(values_hold(lefts.as_slice(), cmp, rights.as_slice()))
}

/// A comparison of texts.
fn test_texts(
    alloc: Global,
    left: &Side,
    cmp: Cmp,
    right: &Side,
    scope: &Scope,
    dict: &Dict,
) -> Result<bool, NoMemory>
    requires { IsInTime scope.now.moment }
    ensures { IfOk result (λ holds. holds
        ≡ both_hold (side_text left.now scope.now dict.now) cmp (side_text right.now scope.now dict.now)) }
{
    let Some(left) = side_text(alloc, left, scope, dict)? else {
        return Ok(false);
    };
    match side_text(alloc, right, scope, dict)? {
        Some(right) => Ok(texts_hold(left.as_slice(), cmp, right.as_slice())),
        None => Ok(false),
    }
}

/// A look for a pattern, which sets the captures.
fn test_look(
    alloc: Global,
    side: &Side,
    negative: bool,
    compiled: &CompiledPattern,
    scope: &mut Scope,
    dict: &Dict,
) -> Result<bool, NoMemory>
    requires { IsInTime scope.old.moment }
    ensures test { IfOk result (λ holds. (holds, scope.new)
        ≡ look_in (side_text side.now scope.old dict.now) negative compiled.now scope.old) }
    ensures alone { OnlyCaptures scope.old scope.new }
{
    let Some(text) = side_text(alloc, side, scope, dict)? else {
        return Ok(false);
    };
    match compiled.look(alloc, text.as_slice())? {
        Some(captures) => {
            scope.captures = captures;
            Ok(!negative)
        }
        None => {
            scope.captures = [None, None, None, None, None, None, None, None, None];
            Ok(negative)
        }
    }
}

/// What an atom says of a scope. Its pattern is compiled, if it looks for one.
pub fn test(
    alloc: Global,
    atom: &Atom,
    compiled: Option<&CompiledPattern>,
    scope: &mut Scope,
    dict: &Dict,
) -> Result<bool, NoMemory>
    requires moment { IsInTime scope.old.moment }
    requires ready { IsReady (pattern_of_atom atom.now) (option_copied compiled) }
    ensures test { IfOk result (λ holds. (holds, scope.new) ≡ test atom.now scope.old dict.now) }
    ensures alone { OnlyCaptures scope.old scope.new }
{
    match atom {
        Atom::Constant(constant) => Ok(*constant),
        Atom::Returned(code) => Ok(is_code(scope.last, *code)),
        Atom::Present(side) => is_present(alloc, side, scope, dict),
        Atom::Values(reference, cmp, operand) => {
            test_values(alloc, *reference, *cmp, operand, scope, dict)
        }
        Atom::Texts(left, cmp, right) => test_texts(alloc, left, *cmp, right, scope, dict),
        Atom::Look(side, negative, _) => match compiled {
            Some(compiled) => test_look(alloc, side, *negative, compiled, scope, dict),
            None => unreachable!(),
        },
    }
}
