ghost use Rattle.std.specs.Prelude.{◌≡◌, ◌++◌, ◌∷◌, []};
ghost use Rattle.rad_outside.specs.Telling.{Tells};
ghost use Rattle.rad_edge.specs.Memory.{risen};
ghost use Rattle.rad_edge.specs.MemList.{number_at, told_by};

use super::repeating::Repeating;
use rad_outside::Luck;
use std::marker::Model;

/// A source that gives a list of words, and then the last one again and again. An empty list gives 0.
#[derive(Debug, Drop)]
pub struct ListLuck {
    words: Repeating,
}

impl Model for ListLuck {
    ghost use Rattle.rad_edge.specs.MemList.{ListState};

    ghost Value = { ListState };

    ghost view = { λ l. l.words };
}

impl ListLuck {
    /// A source that was never asked.
    pub fn new(words: Vec<u64>) -> ListLuck
        ensures { result ≡ record { numbers = words.items; asked = 0 } }
    {
        ListLuck {
            words: Repeating::new(words),
        }
    }
}

impl Luck for ListLuck {
    ghost told = { told_by };

    fn word(&mut self) -> u64
        ensures told { Tells (told_by self.old) (told_by self.new) (λ before now. now ≡ before ++ result ∷ []) }
        ensures word { result ≡ number_at self.old.numbers self.old.asked }
        ensures state { self.new ≡ record { numbers = self.old.numbers; asked = risen self.old.asked } }
    {
        self.words.next()
    }
}
