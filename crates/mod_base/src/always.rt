ghost use Rattle.std.specs.Prelude.{true, false, replicate};
ghost use Rattle.mod_base.specs.Lawful.{lawful_alone};

use crate::method_set::MethodSet;
use crate::module::Module;
use rad_dict::Dict;
use rad_outside::NoMemory;
use rad_value::Scope;
use rad_words::{Code, Section};
use rad_world::World;
use std::alloc::Global;

/// The kind `always`: a module that answers one code for every section, and does nothing.
#[derive(Clone, Copy, Debug, PartialEq, Eq)]
pub struct Always {
    pub code: Code,
}

impl Module for Always {
    ghost meaning = { record {
      methods = λ m. replicate 6 true;
      edits = λ m list attr. false;
      does = λ m dict method situation. (situation, m.code);
    } };

    fn methods(&self) -> MethodSet {
        MethodSet { methods: [true; 6] }
    }

    fn call<W: World>(
        &self,
        _alloc: Global,
        _method: Section,
        _scope: &mut Scope,
        _world: &mut W,
        _dict: &Dict,
    ) -> Result<Code, NoMemory> {
        Ok(self.code)
    }

    ghost lawful = { λ m dict method situation. lawful_alone (λ list attr. false) method situation };
}
