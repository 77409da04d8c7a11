ghost use Rattle.std.specs.Prelude.{◌≡◌, true, IfOk, OnErr};
ghost use Rattle.rad_words.specs.declared.sections.Section.{Section};
ghost use Rattle.rad_words.specs.declared.sections.Section.TheVariants.{Accounting};
ghost use Rattle.rad_outside.specs.Moments.{IsInTime};
ghost use Rattle.rad_dict.specs.Definitions.{Definitions};
ghost use Rattle.mod_base.specs.Methods.{has_method};
ghost use Rattle.mod_base.specs.Meaning.{Meaning, IsLawful};
ghost use Rattle.mod_base.specs.Situation.{Situation};
ghost use Rattle.mod_base.specs.Reaching.{Reaches, Stops};

use crate::method_set::MethodSet;
use rad_dict::Dict;
use rad_outside::NoMemory;
use rad_value::Scope;
use rad_words::{Code, Section};
use rad_world::World;
use std::alloc::Global;

/// A module: what a policy calls by name, as radiusd.conf(5) and unlang(5) have it.
pub trait Module: Drop {
    /// What it means.
    ghost meaning: { Meaning Self };

    /// The sections for which it has a method.
    fn methods(&self) -> MethodSet
        ensures { result.methods ≡ meaning.methods self.now };

    /// Runs the method for a section, and answers its code. After want of memory the scope is given up, and the effects
    /// that were made are the first of such a run.
    fn call<W: World>(
        &self,
        alloc: Global,
        method: Section,
        scope: &mut Scope,
        world: &mut W,
        dict: &Dict,
    ) -> Result<Code, NoMemory>
        requires in_time { IsInTime scope.old.moment }
        requires method { has_method (meaning.methods self.now) method ≡ true }
        requires changes { method ≡ Accounting → (W.state world.old).takes_changes ≡ true }
        ensures ok { IfOk result (λ code. Reaches scope.old (W.state world.old) (meaning.does self.now dict.now method) scope.new (W.state world.new) (λ s. (s, code))) }
        ensures memory { OnErr result (Stops scope.old (W.state world.old) (λ s. (meaning.does self.now dict.now method s).0.effects) (W.state world.new)) };

    /// Whatever the situation, its effects only grow, each by one answer of a device, only pairs within its frame change,
    /// and the rest of the scope stays.
    ghost lawful: { (m : Self) (dict : Definitions) (method : Section) (situation : Situation) → IsLawful (meaning.edits m) method situation (meaning.does m dict method situation).0 };
}
