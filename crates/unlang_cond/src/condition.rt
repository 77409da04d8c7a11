//! Conditions.

ghost use Rattle.std.specs.Prelude.{◌≡◌};

use crate::CondFault;
use crate::cutting::{Cut, tokens_of};
use crate::fault::{fault_of, refusal_of};
use crate::groups::{Groups, Step};
use crate::steps::steps_of;
use rad_dict::Dict;
use rad_outside::NoMemory;
use rad_value::Scope;
use std::alloc::Global;
use std::marker::Model;

/// A condition that was read, with its patterns compiled. Contracts see it as its tree of atoms, in which a pattern is its text.
#[derive(Drop)]
pub struct Cond {
    steps: Vec<Step>,
}

impl Model for Cond {
    ghost use Rattle.std.specs.Prelude.{◌≡◌};
    ghost use Rattle.unlang_cond.specs.Trees.{Tree, tree_of};
    ghost use Rattle.unlang_cond.specs.Codes.{tree_code};
    ghost use Rattle.unlang_cond.specs.Tokens.{depth_from};
    ghost use Rattle.unlang_cond.specs.Steps.{tokens_in, AreReady};

    ghost Value = { Tree };

    ghost coded = { tree_code };

    ghost view = { λ cond. tree_of (tokens_in cond.steps.items) };

    ghost invariant = { λ cond. AreReady cond.steps.items × (depth_from 0 (tokens_in cond.steps.items) ≡ 0) };
}

impl Cond {
    ghost use Rattle.std.specs.Prelude.{Some, Ok, IfOk, IfErr, OnOk};
    ghost use Rattle.rad_outside.specs.Moments.{IsInTime};
    ghost use Rattle.unlang_cond.specs.Tests.{OnlyCaptures};
    ghost use Rattle.unlang_cond.specs.Trees.{holds};
    ghost use Rattle.unlang_cond.specs.Tokens.{tokens_of};
    ghost use Rattle.unlang_cond.specs.Steps.{AreFit};
    ghost use Rattle.unlang_cond.specs.Conditions.{condition_of, reading_of, IsFaultOf};

    /// The condition of a text, or its first fault. One that is read has no pattern that is refused. Which of them it is is a
    /// function of the text and the dictionary, unless memory runs out; a pattern of 10 MiB when compiled is want of memory.
    pub fn parse(alloc: Global, text: &[u8], dict: &Dict) -> Result<Cond, CondFault>
        ensures whole { IfOk result (λ cond. reading_of text.now dict.now ≡ Ok cond) }
        ensures read { IfOk result (λ cond. condition_of text.now dict.now ≡ Some cond) }
        ensures patterns { OnOk result (AreFit (tokens_of text.now dict.now).0) }
        ensures fault { IfErr result (λ fault. IsFaultOf fault text.now dict.now) }
    {
        let Ok(Cut { tokens, wrong }) = tokens_of(alloc, text, dict) else {
            return Err(CondFault::NoMemory);
        };
        let steps = match steps_of(alloc, tokens) {
            Ok(steps) => steps,
            Err(error) => return Err(refusal_of(text.len(), error)),
        };
        match wrong {
            Some(wrong) => Err(fault_of(text.len(), wrong)),
            None => Ok(Cond { steps }),
        }
    }

    /// Whether the condition holds. A look for a pattern sets the scope's captures, and nothing else of the scope changes.
    pub fn holds(&self, alloc: Global, scope: &mut Scope, dict: &Dict) -> Result<bool, NoMemory>
        requires { IsInTime scope.old.moment }
        ensures holds { IfOk result (λ value. (value, scope.new) ≡ holds self.now scope.old dict.now) }
        ensures alone { OnlyCaptures scope.old scope.new }
    {
        let mut groups = Groups::new(alloc);
        for step in &self.steps {
            groups.advance(alloc, step, scope, dict)?;
        }
        Ok(groups.is_met())
    }
}
