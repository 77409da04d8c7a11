//! Statements of a section, after unlang(5).

use crate::update::Lines;
use rad_outside::Place;
use rad_tables::Action;
use rad_words::Code;
use sqlite_items::Items;
use unlang_cond::Cond;

/// An action that a call takes on one code, in the place of the default one.
#[derive(Clone, Copy, Debug)]
pub struct Override {
    pub code: Code,
    pub action: Action,
}

/// The actions of a call that aren't the default ones, in order; of one code given twice the last counts.
pub type Overrides = Items<Override>;

/// A call of a module.
#[derive(Debug, Drop)]
pub struct Call {
    /// The number of the instance.
    pub instance: u32,
    pub overrides: Overrides,
}

/// Which of its members a block of statements runs, and how.
#[derive(Clone, Copy, Debug, PartialEq, Eq)]
pub enum GroupForm {
    /// `group { .. }`: all, in order.
    Group,
    /// `redundant { .. }`: in order, as far as the actions of such a block say.
    Redundant,
    /// `load-balance { .. }`: one of them.
    LoadBalance,
    /// `redundant-load-balance { .. }`: begun at one of them, once round, as `redundant`.
    RedundantLoadBalance,
    /// The call of a policy: the policy's statements, laid out where it is called, all, in order. The actions are those of
    /// the call.
    Policy,
}

/// A block of statements, which is judged in its parent by its own code and actions.
#[cycle(statement)]
#[derive(Drop)]
pub struct Group {
    pub form: GroupForm,
    pub overrides: Overrides,
    pub statements: Statements,
}

/// An arm of an `if`: `if (c) { .. }`, `elsif (c) { .. }`, or `else { .. }`, which asks nothing.
#[cycle(statement)]
#[derive(Drop)]
pub struct Arm {
    /// What has to hold; `None` for `else`.
    pub condition: Option<Cond>,
    pub statements: Statements,
}

/// The arms of an `if`, in order.
pub type Arms = Items<Arm>;

/// What a statement does.
#[cycle(statement)]
#[derive(Drop)]
pub enum StatementKind {
    /// `name`, or `-name` where there is such an instance.
    Call(Call),
    /// `group { .. }` and its kin, and the call of a policy.
    Group(Group),
    /// `return`: ends the section.
    Return,
    /// `update list { lines }`
    Update(Lines),
    /// `if (c) { .. }` with its `elsif` and `else`: the first whose condition holds runs as a group of its own.
    If(Arms),
}

/// A statement, and where it begins in the configuration.
#[cycle(statement)]
#[derive(Drop)]
pub struct Statement {
    pub place: Place,
    pub kind: StatementKind,
}

/// Statements, in order.
pub type Statements = Items<Statement>;
