//! The seats of a desk.
ghost use Rattle.std.specs.Prelude.{◌≡◌, true, length};
ghost use Rattle.rad_turn.specs.Seats.{is_idle, name_of, out_of};
ghost use Rattle.rad_turn.specs.Names.{is_rising};

use crate::stands::Stands;
use crate::view::Known;
use atomic_table as table;

/// The right to take turns at one desk, under a name. What it knows is seen by clauses alone.
#[derive(Drop)]
pub struct Seat<S: Stands> {
    pub(crate) place: table::Seat<S, Known<S>>,
    pub(crate) name: u32,
    pub(crate) out: Vec<u32>,
    ghost idle: { is_idle place.me.0 ≡ true },
    ghost empty: { length place.me.1 ≡ 0 },
    ghost named: { name_of place.me.0 ≡ name },
    ghost others: { out_of place.me.0 ≡ out.items },
    ghost rising: { is_rising 0 out.items ≡ true },
}

impl<S: Stands> Seat<S> {
    ghost use Rattle.std.specs.Prelude.{◌≡◌, length};
    ghost use Rattle.rad_turn.specs.Sides.{view};

    /// The seat's name, which is 0 for the first seat.
    pub fn name(&self) -> u32
        ensures { result ≡ (view self.now).name }
    {
        self.name
    }

    /// How many other seats are out, at the first seat.
    pub fn others(&self) -> usize
        ensures { result ≡ length (view self.now).out }
    {
        self.out.len()
    }
}
