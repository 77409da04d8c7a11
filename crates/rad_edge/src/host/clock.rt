ghost use Rattle.std.specs.Prelude.{◌≡◌, None};

use rad_outside::Clock;
use std::marker::Model;
use std::rt;

/// The system's clock, seen as its last moment. Where the system's clock fails, that one is given again, or 0 at first.
#[derive(Drop)]
pub struct HostClock<R> {
    rt: R,
    last: u64,
}

impl<R> Model for HostClock<R> {
    ghost use Rattle.std.specs.Prelude.{ℕ};

    ghost Value = { ℕ };

    ghost view = { λ c. c.last };
}

impl<R: rt::Clock> HostClock<R> {
    /// A clock that was never asked.
    pub fn new(rt: R) -> HostClock<R>
        ensures { result ≡ 0 }
    {
        HostClock { rt, last: 0 }
    }
}

impl<R: rt::Clock> Clock for HostClock<R> {
    ghost told = { λ _. None };

    fn now(&mut self) -> u64
        ensures { self.new ≡ result }
    {
        if let Ok(since) = self.rt.since_1970() {
            self.last = since.as_secs();
        }
        self.last
    }
}
