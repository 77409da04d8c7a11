//! A desk over a counter, with its seats.
ghost use Rattle.std.specs.Prelude.{◌≡◌, ◌<◌, length, IfSome};
ghost use Rattle.rad_turn.specs.Sides.{view, IsOf, IsOf-prop, AreOf, AreOf-prop};

use crate::counter::{Count, Counter};
use rad_outside::NoMemory;
use rad_turn::{CloseFault, Desk, Seat};
use std::alloc::Global;
use std::sync::Wait;

/// More other seats than this are never out.
const MOST: usize = 1000;

/// All seats are the desk's, and the first one is the first.
#[derive(Drop)]
pub struct Office {
    desk: Desk<Counter>,
    first: Seat<Counter>,
    others: Vec<Seat<Counter>>,
    ghost own: { IsOf desk first } by { IsOf-prop desk first },
    ghost named: { (view first).name ≡ 0 },
    ghost owns: { AreOf desk others.items } by { AreOf-prop desk others.items },
}

impl Office {
    /// A desk over a counter that has counted nothing.
    pub fn open(alloc: Global) -> Result<Office, NoMemory> {
        match Desk::new(alloc, Counter { steps: 0 }) {
            Ok((desk, first)) => Ok(Office {
                desk,
                first,
                others: Vec::new(alloc),
            }),
            Err((_, fault)) => Err(fault),
        }
    }

    /// A seat more: its name, or none where too many are out.
    pub fn split(&mut self) -> Result<Option<u32>, NoMemory> {
        if self.first.others() >= MOST {
            return Ok(None);
        }
        let seat = self.desk.split(&mut self.first)?;
        let name = seat.name();
        put_in(&self.desk, &mut self.others, seat)?;
        Ok(Some(name))
    }

    /// The seat of this name is joined into the first one. False where none of this name is out.
    pub fn join(&mut self, name: u32) -> bool {
        let Some(at) = self.place_of(name) else {
            return false;
        };
        let other = take_out(&self.desk, &mut self.others, at);
        self.desk.join(&mut self.first, other);
        true
    }

    /// A turn of the first seat: its number, or none where the desk is worn.
    pub fn turn_first<R: Wait>(&mut self, rt: &R) -> Option<u64> {
        let mut step = Count {
            by: self.first.name(),
        };
        self.desk.turn(rt, &mut self.first, &mut step).ok()
    }

    /// A turn of another seat: its number, or none where the desk is worn or no seat of this name is out.
    pub fn turn<R: Wait>(&mut self, rt: &R, name: u32) -> Result<Option<u64>, NoMemory> {
        let Some(at) = self.place_of(name) else {
            return Ok(None);
        };
        let mut seat = take_out(&self.desk, &mut self.others, at);
        let mut step = Count { by: seat.name() };
        let number = self.desk.turn(rt, &mut seat, &mut step).ok();
        put_in(&self.desk, &mut self.others, seat)?;
        Ok(number)
    }

    /// How many steps were counted, or the office as it was where another seat is out.
    pub fn close(self) -> Result<u64, Office> {
        let Office {
            desk,
            first,
            others,
        } = self;
        match desk.close(first) {
            Ok(counter) => Ok(counter.steps),
            Err(CloseFault::OtherSeats(desk, first)) => Err(Office {
                desk,
                first,
                others,
            }),
        }
    }

    fn place_of(&self, name: u32) -> Option<usize>
        ensures { IfSome result (λ at. at < length self.now.others.items) }
    {
        self.others.iter().position(|seat| seat.name() == name)
    }
}

fn take_out(desk: &Desk<Counter>, others: &mut Vec<Seat<Counter>>, at: usize) -> Seat<Counter>
    requires there { at < length others.old.items }
    requires owns { AreOf desk.now others.old.items }
    ensures own { IsOf desk.now result }
    ensures owns { AreOf desk.now others.new.items }
{
    let _ = desk;
    others.remove(at)
}

fn put_in(
    desk: &Desk<Counter>,
    others: &mut Vec<Seat<Counter>>,
    seat: Seat<Counter>,
) -> Result<(), NoMemory>
    requires own { IsOf desk.now seat }
    requires owns { AreOf desk.now others.old.items }
    ensures owns { AreOf desk.now others.new.items }
{
    let _ = desk;
    others.push(seat)?;
    Ok(())
}
