//! The evaluation of a condition, step by step, with a group for each open parenthesis.

ghost use Rattle.std.specs.Prelude.{◌≡◌, [], ◌∷◌, IfOk, OnOk};
ghost use Rattle.std.specs.Option.{option_copied};
ghost use Rattle.rad_outside.specs.Moments.{IsInTime};
ghost use Rattle.unlang_cond.specs.Tests.{OnlyCaptures};
ghost use Rattle.unlang_cond.specs.Steps.{pattern_of_atom, pattern_in, IsReady};
ghost use Rattle.unlang_cond.specs.Machine.{settled, opened, alternative, shut, fresh_group, groups_of, opening, closing, atom_taken, advance, is_met, top_met};

use crate::atom::{Atom, Token};
use crate::patterns::CompiledPattern;
use crate::testing::test;
use rad_dict::Dict;
use rad_outside::NoMemory;
use rad_value::Scope;
use std::alloc::Global;

/// A token of a condition, and its pattern, compiled, where it has one.
#[derive(Drop)]
pub struct Step {
    pub token: Token,
    pub pattern: Option<CompiledPattern>,
}

/// How far a group of operands has come.
#[derive(Clone, Copy)]
pub enum Progress {
    /// One of its alternatives held, so that the group does.
    Met,
    /// An operand of the present alternative didn't hold.
    Failed,
    /// All operands of the present alternative have held so far.
    Going,
}

/// A group of operands that `&&` and `||` join.
#[derive(Clone, Copy)]
pub struct Group {
    /// None where the group isn't evaluated.
    pub progress: Option<Progress>,
    /// Whether an odd number of `!` stands before the next operand.
    pub negated: bool,
}

/// The groups that are open, the innermost apart from the others.
#[derive(Drop)]
pub struct Groups {
    pub top: Group,
    pub outer: Vec<Group>,
}

/// How far an alternative has come behind an operand of this value.
fn settled(negated: bool, value: bool) -> Progress
    ensures { result ≡ settled negated value }
{
    match (negated, value) {
        (false, true) | (true, false) => Progress::Going,
        (false, false) | (true, true) => Progress::Failed,
    }
}

/// How a group within this one begins.
fn opened(progress: Option<Progress>) -> Option<Progress>
    ensures { result ≡ opened progress }
{
    match progress {
        Some(Progress::Going) => Some(Progress::Going),
        Some(Progress::Met) | Some(Progress::Failed) | None => None,
    }
}

/// How far a group has come behind `||`.
fn alternative(progress: Option<Progress>) -> Option<Progress>
    ensures { result ≡ alternative progress }
{
    match progress {
        Some(Progress::Going) | Some(Progress::Met) => Some(Progress::Met),
        Some(Progress::Failed) => Some(Progress::Going),
        None => None,
    }
}

/// Whether a group holds that has come so far.
fn is_met(progress: Option<Progress>) -> bool
    ensures { result ≡ is_met progress }
{
    match progress {
        Some(Progress::Going) | Some(Progress::Met) => true,
        Some(Progress::Failed) | None => false,
    }
}

/// How far the group around a closed one has come.
fn shut(negated: bool, outer: Option<Progress>, inner: Option<Progress>) -> Option<Progress>
    ensures { result ≡ shut negated outer inner }
{
    match outer {
        Some(Progress::Going) => Some(settled(negated, is_met(inner))),
        other => other,
    }
}

/// A group behind an atom, which is tested where its value is asked for.
fn after_atom(
    alloc: Global,
    group: Group,
    atom: &Atom,
    compiled: Option<&CompiledPattern>,
    scope: &mut Scope,
    dict: &Dict,
) -> Result<Group, NoMemory>
    requires moment { IsInTime scope.old.moment }
    requires ready { IsReady (pattern_of_atom atom.now) (option_copied compiled) }
    ensures group { IfOk result (λ next. (next, scope.new) ≡ atom_taken atom.now group scope.old dict.now) }
    ensures alone { OnlyCaptures scope.old scope.new }
{
    let progress = match group.progress {
        Some(Progress::Going) => {
            let value = test(alloc, atom, compiled, scope, dict)?;
            Some(settled(group.negated, value))
        }
        other => other,
    };
    let negated = false;
    Ok(Group { progress, negated })
}

impl Groups {
    /// The group of a whole condition.
    pub fn new(alloc: Global) -> Groups
        ensures { groups_of result ≡ fresh_group ∷ [] }
    {
        let top = Group {
            progress: Some(Progress::Going),
            negated: false,
        };
        let outer = Vec::new(alloc);
        Groups { top, outer }
    }

    /// Opens a group.
    fn open(&mut self) -> Result<(), NoMemory>
        ensures { OnOk result (groups_of self.new ≡ opening (groups_of self.old)) }
    {
        self.outer.push(self.top)?;
        self.top = Group {
            progress: opened(self.top.progress),
            negated: false,
        };
        Ok(())
    }

    /// Closes the innermost group, where one is open.
    fn close(&mut self)
        ensures { groups_of self.new ≡ closing (groups_of self.old) }
    {
        if let Some(parent) = self.outer.pop() {
            self.top = Group {
                progress: shut(parent.negated, parent.progress, self.top.progress),
                negated: false,
            };
        }
    }

    /// Takes a step.
    pub fn advance(
        &mut self,
        alloc: Global,
        step: &Step,
        scope: &mut Scope,
        dict: &Dict,
    ) -> Result<(), NoMemory>
        requires moment { IsInTime scope.old.moment }
        requires ready { IsReady (pattern_in step.now.token) step.now.pattern }
        ensures step { OnOk result ((groups_of self.new, scope.new)
            ≡ advance step.now.token (groups_of self.old) scope.old dict.now) }
        ensures alone { OnlyCaptures scope.old scope.new }
    {
        match &step.token {
            Token::Not => self.top.negated = !self.top.negated,
            Token::Open => self.open()?,
            Token::Close => self.close(),
            Token::And => {}
            Token::Or => self.top.progress = alternative(self.top.progress),
            Token::Atom(atom) => {
                self.top = after_atom(alloc, self.top, atom, step.pattern.as_ref(), scope, dict)?;
            }
        }
        Ok(())
    }

    /// Whether the innermost group holds.
    pub fn is_met(&self) -> bool
        ensures { result ≡ top_met (groups_of self.now) }
    {
        is_met(self.top.progress)
    }
}
