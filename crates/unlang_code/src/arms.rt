//! Which arm of an `if` is taken.

ghost use Rattle.std.specs.Prelude.{◌≡◌, IfOk, OnOk};
ghost use Rattle.std.specs.Option.{option_copied};
ghost use Rattle.rad_outside.specs.Moments.{IsInTime};
ghost use Rattle.unlang_cond.specs.Tests.{OnlyCaptures};
ghost use Rattle.unlang_tree.specs.declared.statement.Arm.{out-Arm};
ghost use Rattle.unlang_code.specs.Choosing.{asks, taken_of};

use rad_dict::Dict;
use rad_outside::NoMemory;
use rad_value::Scope;
use std::alloc::Global;
use unlang_tree::Arm;

/// Whether an arm is taken: where its condition holds, and always where it has none.
fn is_met(alloc: Global, arm: &Arm, scope: &mut Scope, dict: &Dict) -> Result<bool, NoMemory>
    requires { IsInTime scope.old.moment }
    ensures asked { IfOk result (λ met. (met, scope.new) ≡ asks dict.now (out-Arm arm.now).condition scope.old) }
    ensures alone { OnlyCaptures scope.old scope.new }
{
    match &arm.condition {
        Some(condition) => condition.holds(alloc, scope, dict),
        None => Ok(true),
    }
}

/// The first arm that is taken, if one is. The conditions up to its own are tried in order and set the scope's captures;
/// nothing else of the scope changes, and no condition behind is tried.
pub(crate) fn taken_of<'a>(
    alloc: Global,
    arms: &'a [Arm],
    scope: &mut Scope,
    dict: &Dict,
) -> Result<Option<&'a Arm>, NoMemory>
    requires { IsInTime scope.old.moment }
    ensures taken { IfOk result (λ arm. taken_of dict.now arms.now scope.old ≡ (option_copied arm, scope.new)) }
    ensures alone { OnlyCaptures scope.old scope.new }
{
    for arm in arms {
        let met = is_met(alloc, arm, scope, dict)?;
        if met {
            return Ok(Some(arm));
        }
    }
    Ok(None)
}
