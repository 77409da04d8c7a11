ghost use Rattle.std.specs.Prelude.{◌≡◌, ◌++◌, ◌∷◌, [], ℕ, List, Option};
ghost use Rattle.rad_outside.specs.Telling.{Tells};

/// The last moment that the server counts to, in seconds since 1970 (9892-03-08 12:26:40 UTC). This project's own.
pub const LAST_MOMENT: u64 = 250_000_000_000;

/// A clock. It never fails.
pub trait Clock {
    /// The moments that it has given, in order.
    ghost told: { Self → Option (List ℕ) };

    /// Seconds since 1970-01-01 00:00:00 UTC.
    fn now(&mut self) -> u64
        ensures { Tells (told self.old) (told self.new) (λ before now. now ≡ before ++ result ∷ []) };
}

/// A source of random words. It never fails.
pub trait Luck {
    /// The words that it has given, in order.
    ghost told: { Self → Option (List ℕ) };

    /// 64 random bits.
    fn word(&mut self) -> u64
        ensures { Tells (told self.old) (told self.new) (λ before now. now ≡ before ++ result ∷ []) };
}
