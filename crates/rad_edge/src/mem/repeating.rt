ghost use Rattle.std.specs.Prelude.{◌≡◌};
ghost use Rattle.rad_edge.specs.Memory.{risen};
ghost use Rattle.rad_edge.specs.MemList.{number_at};

use std::marker::Model;

/// A list of numbers that is gone through once, and then gives its last one again and again, or 0 where it is empty.
#[derive(Debug, Drop)]
pub struct Repeating {
    numbers: Vec<u64>,
    asked: u64,
}

impl Model for Repeating {
    ghost use Rattle.rad_edge.specs.MemList.{ListState};

    ghost Value = { ListState };

    ghost view = { λ r. record { numbers = r.numbers.items; asked = r.asked } };
}

impl Repeating {
    pub fn new(numbers: Vec<u64>) -> Repeating
        ensures { result ≡ record { numbers = numbers.items; asked = 0 } }
    {
        Repeating { numbers, asked: 0 }
    }

    pub fn next(&mut self) -> u64
        ensures number { result ≡ number_at self.old.numbers self.old.asked }
        ensures state { self.new ≡ record { numbers = self.old.numbers; asked = risen self.old.asked } }
    {
        let asked = self.asked;
        self.asked = asked.saturating_add(1);
        match self.numbers.get(asked as usize) {
            Some(number) => *number,
            None => self.numbers.last().copied().unwrap_or(0),
        }
    }
}
