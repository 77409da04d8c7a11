ghost use Rattle.std.specs.Prelude.{◌≡◌, ◌++◌, ◌∷◌, []};
ghost use Rattle.rad_outside.specs.Telling.{Tells};
ghost use Rattle.rad_edge.specs.Memory.{risen};
ghost use Rattle.rad_edge.specs.MemList.{number_at, told_by};

use super::repeating::Repeating;
use rad_outside::Clock;
use std::marker::Model;

/// A clock that gives a list of moments, and then the last one again and again. An empty list gives 0.
#[derive(Debug, Drop)]
pub struct ListClock {
    moments: Repeating,
}

impl Model for ListClock {
    ghost use Rattle.rad_edge.specs.MemList.{ListState};

    ghost Value = { ListState };

    ghost view = { λ c. c.moments };
}

impl ListClock {
    /// A clock that was never asked.
    pub fn new(moments: Vec<u64>) -> ListClock
        ensures { result ≡ record { numbers = moments.items; asked = 0 } }
    {
        ListClock {
            moments: Repeating::new(moments),
        }
    }
}

impl Clock for ListClock {
    ghost told = { told_by };

    fn now(&mut self) -> u64
        ensures told { Tells (told_by self.old) (told_by self.new) (λ before now. now ≡ before ++ result ∷ []) }
        ensures moment { result ≡ number_at self.old.numbers self.old.asked }
        ensures state { self.new ≡ record { numbers = self.old.numbers; asked = risen self.old.asked } }
    {
        self.moments.next()
    }
}
