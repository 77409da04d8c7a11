ghost use Rattle.std.specs.Prelude.{◌≡◌, ◌<◌, ◌-◌, [], ◌∷◌, ◌++◌, length, OnOk, OnErr};
ghost use Rattle.std.specs.List.{slice_get};

use rad_outside::NoMemory;
use std::alloc::Global;
use std::marker::Model;

/// What the devices of a world answered, in order: true for each call that was done, false for each that failed.
#[derive(Debug, Drop)]
pub struct Answers {
    items: Vec<bool>,
}

impl Model for Answers {
    ghost use Rattle.std.specs.Prelude.{◌-◌, vec_len, vec_capacity};
    ghost use Rattle.rad_world.specs.Answers.{Kept};

    ghost Value = { Kept };

    ghost view = { λ a. record { given = a.items.items; room = vec_capacity a.items - vec_len a.items } };
}

impl Answers {
    /// No answers. The list grows with this allocator.
    pub fn new(alloc: Global) -> Answers
        ensures { result.given ≡ [] }
    {
        Answers {
            items: Vec::new(alloc),
        }
    }

    /// How many answers there are.
    pub fn len(&self) -> usize
        ensures { result ≡ length self.now.given }
    {
        self.items.len()
    }

    /// The n-th answer, counted from 0, or none exactly where n is at least the length.
    pub fn get(&self, n: usize) -> Option<bool>
        ensures { result ≡ slice_get self.now.given n }
    {
        self.items.get(n).copied()
    }

    /// Makes room for one answer more. The list stays as it is, and after an error its room does too.
    pub fn make_room(&mut self) -> Result<(), NoMemory>
        ensures list { self.new.given ≡ self.old.given }
        ensures room { OnOk result (0 < self.new.room) }
        ensures kept { OnErr result (self.new ≡ self.old) }
    {
        self.items.reserve(1)?;
        Ok(())
    }

    /// Puts an answer at the list's end, where there is room for it. It takes no memory.
    pub fn add(&mut self, answer: bool)
        requires { 0 < self.old.room }
        ensures list { self.new.given ≡ self.old.given ++ answer ∷ [] }
        ensures room { self.new.room ≡ self.old.room - 1 }
    {
        self.items.push_reserved(answer);
    }
}
