//! The laws of what worlds make, in the words of whoever relies on them. They are facts about the definitions, and the
//! function does nothing.

ghost use Rattle.std.specs.Prelude.{◌≡◌, ◌++◌, ◌≤◌, [], ℕ, List, false};
ghost use Rattle.std.specs.List.{list_any};
ghost use Rattle.std.specs.Prelude.{not};
ghost use Rattle.rad_outside.specs.Telling.{Rose};
ghost use Rattle.rad_world.specs.Effects.{Effect, answers_of, writes_of, lines_of};
ghost use Rattle.rad_world.specs.World.{WorldState, Gains};

/// A world that did nothing has made no effects; what it makes in one stretch and in the next is made in order; and where
/// its count of faults of files, or of the log, didn't rise, each piece, or each line, was done.
pub fn worlds_go_on()
    ensures nothing { (world : WorldState) → Gains world world [] }
    ensures joined { (first second third : WorldState) (made more : List Effect) → Gains first second made → Gains second third more → Gains first third (made ++ more) }
    ensures writes { (before now : WorldState) (made : List Effect) → Gains before now made → ¬ (Rose before.write_faults now.write_faults) → list_any not (writes_of made) ≡ false }
    ensures lines { (before now : WorldState) (made : List Effect) → Gains before now made → ¬ (Rose before.line_faults now.line_faults) → list_any not (lines_of made) ≡ false }
{}
