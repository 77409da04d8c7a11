ghost use Rattle.std.specs.Prelude.{◌≡◌};
ghost use Rattle.rad_edge.specs.Failing.{is_next, fails_next, called, next_cut};

use std::marker::Model;

/// The calls that are to fail, by their numbers, counted from 1.
#[derive(Debug, Drop)]
pub struct Failing<C: Drop> {
    failing: Vec<C>,
    made: u64,
}

impl<C: Drop> Model for Failing<C> {
    ghost use Rattle.rad_edge.specs.Failing.{Plan};

    ghost Value = { Plan C };

    ghost view = { λ f. record { failing = f.failing.items; made = f.made } };
}

impl<C: Drop> Failing<C> {
    /// These calls are to fail, and none was made yet.
    pub fn new(failing: Vec<C>) -> Failing<C>
        ensures { result ≡ record { failing = failing.items; made = 0 } }
    {
        Failing { failing, made: 0 }
    }
}

impl Failing<u64> {
    /// Counts one more call, and says whether it is to fail.
    pub fn next(&mut self) -> bool
        ensures answer { result ≡ fails_next self.old }
        ensures state { self.new ≡ called self.old }
    {
        let made = self.made;
        self.made = made.saturating_add(1);
        self.failing
            .iter()
            .any(|number| is_number_after(made, *number))
    }
}

impl Failing<(u64, usize)> {
    /// Counts one more append, and answers how many octets are still appended where it is to fail.
    pub fn next_cut(&mut self) -> Option<usize>
        ensures answer { result ≡ next_cut self.old }
        ensures state { self.new ≡ called self.old }
    {
        let made = self.made;
        self.made = made.saturating_add(1);
        self.failing
            .iter()
            .find(|cut| is_number_after(made, cut.0))
            .map(|cut| cut.1)
    }
}

/// Whether the call after so many has this number. Calls past the end of 64 bits have none.
fn is_number_after(made: u64, number: u64) -> bool
    ensures { result ≡ is_next made number }
{
    made.checked_add(1) == Some(number)
}
