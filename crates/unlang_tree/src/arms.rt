//! The arms of an `if`: what they ask, and where they may stand.

ghost use Rattle.std.specs.Prelude.{◌≡◌, OnOk, IfOk};
ghost use Rattle.std.specs.Option.{option_copied};
ghost use Rattle.unlang_tree.specs.Readings.{Gives};
ghost use Rattle.unlang_tree.specs.Arms.{arm_of, goes_on, is_later_arm, name_of, judged_at, asked, condition_at, asks, is_open, is_last_open, not_stray, arms_of, gone_on, with_last, with_next};
ghost use Rattle.unlang_cond.specs.Conditions.{reading_of};

use crate::calls::kind_of;
use crate::fault::TreeFault;
use crate::refusal::{Wrong, refuse};
use crate::statement::{Arm, Arms, Statement, StatementKind, Statements};
use crate::words::{ArmWord, arm_named};
use rad_conf::{Item, Node};
use rad_dict::Dict;
use rad_outside::{NoMemory, Place};
use std::alloc::Global;
use unlang_cond::{Cond, CondFault};

/// The word by which a block is an arm.
pub(crate) fn arm_of(node: &Node) -> Option<ArmWord>
    ensures { result ≡ arm_of node.now }
{
    arm_named(kind_of(node))
}

/// Whether an arm goes on with the `if` before it.
fn goes_on(word: ArmWord) -> bool
    ensures { result ≡ goes_on word }
{
    match word {
        ArmWord::If => false,
        ArmWord::Elsif | ArmWord::Else => true,
    }
}

/// Whether a node goes on with the `if` before it.
fn is_later_arm(node: &Node) -> bool
    ensures { result ≡ is_later_arm node.now }
{
    match arm_of(node) {
        None => false,
        Some(word) => goes_on(word),
    }
}

/// The text that is written as a block's name.
fn name_of(node: &Node) -> Option<&[u8]>
    ensures { option_copied result ≡ name_of node.now }
{
    match &node.item {
        Item::Pair(_, _, _) => None,
        Item::Name(_) => None,
        Item::Block(_, name, _) => match name {
            None => None,
            Some(name) => Some(name.text.as_slice()),
        },
    }
}

/// The condition of a text.
fn judged_at(
    alloc: Global,
    dict: &Dict,
    place: &Place,
    text: &[u8],
) -> Result<Option<Cond>, TreeFault>
    ensures { Gives result (judged_at place.now (reading_of text.now dict.now)) }
{
    match Cond::parse(alloc, text, dict) {
        Ok(condition) => Ok(Some(condition)),
        Err(CondFault::NoMemory) => Err(TreeFault::NoMemory),
        Err(CondFault::BadPattern(_)) => refuse(alloc, place, Wrong::BadPattern),
        Err(CondFault::BadCondition(_) | CondFault::UnknownAttr(_)) => {
            refuse(alloc, place, Wrong::BadCondition)
        }
    }
}

/// The condition that is a block's name.
fn asked(alloc: Global, dict: &Dict, node: &Node) -> Result<Option<Cond>, TreeFault>
    ensures { Gives result (asked dict.now node.now.place (name_of node.now)) }
{
    match name_of(node) {
        None => refuse(alloc, &node.place, Wrong::BadCondition),
        Some(text) => judged_at(alloc, dict, &node.place, text),
    }
}

/// What an arm asks.
#[tactic(auto, unfolding(crate::specs::Arms::condition_at))]
pub(crate) fn condition_at(
    alloc: Global,
    dict: &Dict,
    word: ArmWord,
    node: &Node,
) -> Result<Option<Cond>, TreeFault>
    ensures { Gives result (condition_at dict.now word node.now) }
{
    match word {
        ArmWord::If | ArmWord::Elsif => asked(alloc, dict, node),
        ArmWord::Else => Ok(None),
    }
}

/// Whether an arm asks for a condition.
fn asks(arm: &Arm) -> bool
    ensures { result ≡ asks arm.now }
{
    arm.condition.is_some()
}

/// Whether an `elsif` or `else` may follow a statement.
pub(crate) fn is_open(statement: &Statement) -> bool
    ensures { result ≡ is_open statement.now }
{
    match &statement.kind {
        StatementKind::Call(_) => false,
        StatementKind::Group(_) => false,
        StatementKind::Return => false,
        StatementKind::Update(_) => false,
        StatementKind::If(arms) => match arms.as_slice().last() {
            None => false,
            Some(arm) => asks(arm),
        },
    }
}

/// Whether an `elsif` or `else` may follow the last of statements.
pub(crate) fn is_last_open(statements: &[Statement]) -> bool
    ensures { result ≡ is_last_open statements.now }
{
    match statements.last() {
        None => false,
        Some(statement) => is_open(statement),
    }
}

/// Refuses an `elsif` or `else` where none may stand.
#[tactic(auto, unfolding(crate::specs::Arms::not_stray))]
pub(crate) fn not_stray(alloc: Global, may_go_on: bool, node: &Node) -> Result<(), TreeFault>
    ensures { Gives result (not_stray may_go_on node.now) }
{
    if is_later_arm(node) && !may_go_on {
        refuse(alloc, &node.place, Wrong::UnknownKeyword)
    } else {
        Ok(())
    }
}

/// The arms of a statement.
fn arms_of(alloc: Global, kind: StatementKind) -> Arms
    ensures { result ≡ arms_of kind }
{
    match kind {
        StatementKind::Call(_) => Arms::new(alloc),
        StatementKind::Group(_) => Arms::new(alloc),
        StatementKind::Return => Arms::new(alloc),
        StatementKind::Update(_) => Arms::new(alloc),
        StatementKind::If(arms) => arms,
    }
}

/// An `if` with the arms of one that goes on with it.
fn gone_on(alloc: Global, statement: Statement, more: Statement) -> Result<Statement, NoMemory>
    ensures { IfOk result (λ whole. whole ≡ gone_on statement more) }
{
    let Statement { place, kind } = statement;
    let mut arms = arms_of(alloc, kind);
    arms.append(arms_of(alloc, more.kind))?;
    let kind = StatementKind::If(arms);
    Ok(Statement { place, kind })
}

/// The last of the statements, with the arms of one that goes on with it.
fn with_last(alloc: Global, statements: &mut Statements, more: Statement) -> Result<(), NoMemory>
    ensures { OnOk result (statements.new ≡ with_last statements.old more) }
{
    let Some(last) = statements.pop() else {
        return Ok(());
    };
    statements.push(gone_on(alloc, last, more)?)?;
    Ok(())
}

/// The statements with what a node reads as: one more, or more arms of the last one.
pub(crate) fn with_next(
    alloc: Global,
    statements: &mut Statements,
    node: &Node,
    one: Statement,
) -> Result<(), NoMemory>
    ensures { OnOk result (statements.new ≡ with_next statements.old node.now one) }
{
    if is_later_arm(node) {
        return with_last(alloc, statements, one);
    }
    statements.push(one)?;
    Ok(())
}
