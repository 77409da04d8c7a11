//! The instances of a site's modules, by name and by number.

ghost use Rattle.std.specs.Prelude.{◌≡◌, [], ◌∷◌, ◌++◌, length, OnOk, OnErr};
ghost use Rattle.rad_text.specs.Answers.{IsAnswer};
ghost use Rattle.unlang_tree.specs.Instances.{number_of, methods_at, number_for, says};

use crate::fault::AddFault;
use indexmap::IndexMap;
use mod_base::MethodSet;
use std::alloc::Global;
use std::marker::Model;

/// How many instances there can be.
const LIMIT: usize = 1024;

/// The instances of a site's modules. An instance's number is its place, from 0.
#[derive(Drop)]
pub struct Instances {
    methods: IndexMap<Vec<u8>, MethodSet>,
}

impl Model for Instances {
    ghost use Rattle.std.specs.Prelude.{List, map, ◌≤◌, length};
    ghost use Rattle.unlang_tree.specs.Instances.{Instance, instance_of};

    ghost Value = { List Instance };

    ghost view = { λ i. map instance_of i.methods.entries };

    ghost invariant = { λ i. length i.methods.entries ≤ 1024 };
}

impl Instances {
    /// No instances.
    pub fn new(alloc: Global) -> Instances
        ensures { result ≡ [] }
    {
        Instances {
            methods: IndexMap::new(alloc),
        }
    }

    /// Adds an instance with these methods, and answers its number. Names are compared octet by octet.
    #[tactic(auto, unfolding(crate::specs::Instances::number_for))]
    pub fn add(&mut self, name: &[u8], methods: MethodSet) -> Result<u32, AddFault>
        ensures answer { IsAnswer says (number_for self.old name.now) result }
        ensures ok { OnOk result (self.new ≡ self.old ++ record { name = name.now; methods = methods } ∷ []) }
        ensures err { OnErr result (self.new ≡ self.old) }
    {
        if self.methods.get_index_of(name).is_some() {
            return Err(AddFault::Taken);
        }
        let number = self.methods.len();
        if number >= LIMIT {
            return Err(AddFault::Full(number as u32));
        }
        let name = Vec::from_slice(*self.methods.allocator(), name)?;
        self.methods.insert(name, methods)?;
        Ok(number as u32)
    }

    /// The number of the instance of this name.
    pub fn find(&self, name: &[u8]) -> Option<u32>
        ensures { result ≡ number_of self.now name.now }
    {
        match self.methods.get_index_of(name) {
            Some(number) => Some(number as u32),
            None => None,
        }
    }

    /// The methods of the instance of this number.
    pub fn methods(&self, number: u32) -> Option<MethodSet>
        ensures { result ≡ methods_at self.now number }
    {
        match self.methods.get_index(number as usize) {
            Some((_, methods)) => Some(*methods),
            None => None,
        }
    }

    /// How many instances there are.
    pub fn len(&self) -> u32
        ensures { result ≡ length self.now }
    {
        self.methods.len() as u32
    }
}
