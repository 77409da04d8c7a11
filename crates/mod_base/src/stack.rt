ghost use Rattle.std.specs.Prelude.{◌≡◌, [], ◌∷◌, ◌++◌, slice_get, OnOk, OnErr};
ghost use Rattle.std.specs.Option.{option_copied};

use crate::module::Module;
use rad_outside::NoMemory;
use std::alloc::Global;
use std::marker::Model;

/// The modules of a site, by their instance numbers from 0.
#[derive(Drop)]
pub struct Stack<M> {
    modules: Vec<M>,
}

impl<M> Model for Stack<M> {
    ghost use Rattle.std.specs.Prelude.{List};
    ghost use Rattle.std.specs.Coded.{coded_list};

    ghost Value = { List M };

    ghost coded = { coded_list M.code };

    ghost view = { λ s. s.modules.items };
}

impl<M: Module> Stack<M> {
    /// No modules.
    pub fn new(alloc: Global) -> Stack<M>
        ensures { result ≡ [] }
    {
        Stack {
            modules: Vec::new(alloc),
        }
    }

    /// Adds a module, whose number is how many there were.
    pub fn push(&mut self, module: M) -> Result<(), NoMemory>
        ensures ok { OnOk result (self.new ≡ self.old ++ «module» ∷ []) }
        ensures err { OnErr result (self.new ≡ self.old) }
    {
        self.modules.push(module)?;
        Ok(())
    }

    /// The module of a number, or none exactly where the number is at least how many there are.
    pub fn get(&self, n: u32) -> Option<&M>
        ensures { option_copied result ≡ slice_get self.now n }
    {
        self.modules.get(n as usize)
    }
}
