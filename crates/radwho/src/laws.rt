//! The laws of what is shown, in the words of whoever reads it. They are facts about the definitions, and the functions do
//! nothing.

ghost use Rattle.std.specs.Prelude.{◌≡◌, ◌≤◌, ℕ, Bool, true, false, List};
ghost use Rattle.std.specs.List.{AllByRecursion};
ghost use Rattle.rad_sessions.specs.Laws.{AreOctets};
ghost use Rattle.rad_args.specs.Words.{is_in};
ghost use Rattle.radwho.specs.Lines.{escaped};

/// Octets are shown as printed ASCII, whatever they are, so that no name can break a line or speak to a terminal; and where
/// commas part fields none stands within a field, so that a line has as many fields as it was given.
pub fn fields_stay_apart()
    ensures printed { (commas : Bool) (octets : List ℕ) → AreOctets octets → AllByRecursion (λ c. (32 ≤ c) × (c ≤ 126)) (escaped commas octets) }
    ensures commas { (octets : List ℕ) → AreOctets octets → is_in 44 (escaped true octets) ≡ false }
{}
