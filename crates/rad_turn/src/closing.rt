//! How a desk is made, and how its value comes back.
use crate::desk::Desk;
use crate::fault::CloseFault;
use crate::seat::Seat;
use crate::stands::Stands;
use atomic_table::{Refused, Table};
use rad_outside::NoMemory;
use std::alloc::{AllocFailed, Global};
use std::snapshot::Snapshot;

impl<S: Stands> Desk<S> {
    ghost use Rattle.std.specs.Prelude.{◌≡◌, ◌≢◌, ℕ, [], IfOk, IfErr};
    ghost use Rattle.rad_turn.specs.declared.fault.CloseFault.TheVariants.{OtherSeats};
    ghost use Rattle.rad_turn.specs.Views.{Stood, beginner};
    ghost use Rattle.rad_turn.specs.Sides.{view, IsOf};

    /// A desk over a value that stands for the empty history, and its first seat. Without memory the value comes back.
    pub fn new(alloc: Global, value: S) -> Result<(Desk<S>, Seat<S>), (S, NoMemory)>
        requires stands { S.stands value [] }
        ensures made { IfOk result (λ made. IsOf made.0 made.1 × (view made.1 ≡ beginner (S.origin value) (S.beginning value))) }
        ensures back { IfErr result (λ back. back.0 ≡ value) }
    {
        let about = Snapshot::of(&value);
        let mut slots = Vec::new(alloc);
        if let Err(failed) = slots.push(value) {
            let AllocFailed { value } = failed;
            slots.destroy_empty();
            return Err((value, NoMemory));
        }
        match Table::new(alloc, &[0], slots, &about) {
            Ok((table, place)) => {
                let seat = Seat {
                    place,
                    name: 0,
                    out: Vec::new(alloc),
                };
                Ok((Desk { table }, seat))
            }
            Err(Refused { mut slots }) => {
                let Some(value) = slots.pop() else {
                    unreachable!()
                };
                slots.destroy_empty();
                Err((value, NoMemory))
            }
        }
    }

    /// The value, where no other seat is out. Else desk and seat come back as they were.
    pub fn close(self, seat: Seat<S>) -> Result<S, CloseFault<S>>
        requires own { IsOf self seat }
        requires first { (view seat).name ≡ 0 }
        ensures closed { IfOk result (λ value. ((view seat).out ≡ []) × Stood S.stands S.origin (view seat).origin (view seat).seen value) }
        ensures refused { IfErr result (λ fault. ((view seat).out ≢ []) × (fault ≡ OtherSeats self seat)) }
    {
        if !seat.out.is_empty() {
            return Err(CloseFault::OtherSeats(self, seat));
        }
        let Desk { table } = self;
        let Seat {
            place,
            name: _,
            out: _,
        } = seat;
        let mut closed = table.close_with(place);
        let value = closed.take(0);
        closed.free();
        Ok(value)
    }
}
