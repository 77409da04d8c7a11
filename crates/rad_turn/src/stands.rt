//! What a value behind a desk means, and what a step on it does.
ghost use Rattle.std.specs.Prelude.{◌≡◌, ℕ, List, [], ◌∷◌, ◌++◌};

/// A value that is the state after a stated history.
pub trait Stands {
    /// What one step adds to the history.
    type Entry;
    /// What the history goes out from. The value keeps it, and no step changes it.
    type Origin;
    /// What stood at the beginning, which the seats' views alone keep.
    type Beginning;

    // The name of the seat whose step made an entry.
    ghost by: { Self.Entry → ℕ };

    ghost origin: { Self → Self.Origin };

    ghost beginning: { Self → Self.Beginning };

    // The value is the state after this history, from its origin.
    ghost stands: { Self → List Self.Entry → Type 0 };
}

/// A step on a value.
pub trait Move<S: Stands> {
    type Reply;

    // The name of the seat that makes it.
    ghost worker: { Self → ℕ };

    // The histories after which it may be applied.
    ghost may: { Self → List S.Entry → Type 0 };

    // What it does: of the step and the value before, the reply, and the value and the step after.
    ghost does: { Self → S → Self.Reply → S → Self → Type 0 };

    // The entry that it adds, of the same five.
    ghost entry: { Self → S → Self.Reply → S → Self → S.Entry };

    fn apply(&mut self, value: &mut S) -> Self::Reply
        requires { (log : List S.Entry) × S.stands value.old log × may self.old log }
        ensures done { does self.old value.old result value.new self.new }
        ensures named { S.by (entry self.old value.old result value.new self.new) ≡ worker self.old }
        ensures origin { S.origin value.new ≡ S.origin value.old }
        ensures stands { (log : List S.Entry) → S.stands value.old log → may self.old log → S.stands value.new (log ++ entry self.old value.old result value.new self.new ∷ []) };
}
