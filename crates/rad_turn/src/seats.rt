//! How other seats come and go.
use crate::desk::Desk;
use crate::law::{Cut, Glue, Settle};
use crate::names::{add_name, free_name, remove_name};
use crate::seat::Seat;
use crate::stands::Stands;
use rad_outside::NoMemory;

impl<S: Stands> Desk<S> {
    ghost use Rattle.std.specs.Prelude.{◌≡◌, ◌-◌, ◌^◌, ◌<◌, length, IfOk, OnErr};
    ghost use Rattle.rad_turn.specs.Seated.{Parts, Joins};
    ghost use Rattle.rad_turn.specs.Sides.{view, IsOf};

    /// A new seat beside the first one, with the least positive name that isn't out. It has seen as much.
    pub fn split(&self, seat: &mut Seat<S>) -> Result<Seat<S>, NoMemory>
        requires own { IsOf self.now seat.old }
        requires first { (view seat.old).name ≡ 0 }
        requires room { length (view seat.old).out < 2 ^ 32 - 1 }
        ensures own { IsOf self.now seat.new }
        ensures parts { IfOk result (λ new. IsOf self.now new × Parts (view seat.old) (view seat.new) (view new)) }
        ensures refused { OnErr result (view seat.new ≡ view seat.old) }
    {
        let name = free_name(seat.out.as_slice());
        let out = Vec::new(*seat.out.allocator());
        add_name(&mut seat.out, name)?;
        let place = self.table.shared.split_seat::<Cut>(&mut seat.place);
        Ok(Seat { place, name, out })
    }

    /// The first seat takes in another one: it has then seen what either had.
    pub fn join(&self, seat: &mut Seat<S>, other: Seat<S>)
        requires own { IsOf self.now seat.old × IsOf self.now other }
        requires first { (view seat.old).name ≡ 0 }
        ensures own { IsOf self.now seat.new }
        ensures joins { Joins S.by (view seat.old) (view other) (view seat.new) }
    {
        let Seat {
            place,
            name,
            out: _,
        } = other;
        self.table.shared.join_seat::<Glue>(&mut seat.place, place);
        self.table.shared.load::<Settle<S>>(&mut seat.place, 0);
        remove_name(&mut seat.out, name);
    }
}
