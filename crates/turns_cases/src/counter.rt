//! A counter behind a desk, and the step that counts.
use rad_turn::{Move as DeskMove, Stands};

/// How many steps were made.
#[derive(Drop)]
pub struct Counter {
    pub steps: u64,
}

impl Stands for Counter {
    ghost use Rattle.std.specs.Prelude.{◌≡◌, length};

    /// The name of the seat that made a step.
    type Entry = u32;

    type Origin = ();

    type Beginning = ();

    ghost by = { λ name. name };

    ghost origin = { λ _. tt };

    ghost beginning = { λ _. tt };

    ghost stands = { λ counter log. counter.steps ≡ length log };
}

/// A step of a seat.
#[derive(Drop)]
pub struct Count {
    pub by: u32,
}

impl DeskMove<Counter> for Count {
    ghost use Rattle.std.specs.Prelude.{◌≡◌, ◌+◌, ◌^◌, ◌<◌, length};

    /// The number of the step.
    type Reply = u64;

    ghost worker = { λ step. step.by };

    ghost may = { λ _ log. length log < 2 ^ 62 };

    ghost does = { λ _ before reply after _. (reply ≡ before.steps + 1) × (after.steps ≡ reply) };

    ghost entry = { λ step _ _ _ _. step.by };

    fn apply(&mut self, value: &mut Counter) -> u64 {
        value.steps += 1;
        value.steps
    }
}
