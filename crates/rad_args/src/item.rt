//! The items of a command line.

ghost use Rattle.std.specs.Prelude.{◌≡◌};
ghost use Rattle.std.specs.Option.{option_map};
ghost use Rattle.rad_args.specs.Words.{is_letter};
ghost use Rattle.rad_args.specs.Found.{value_in};

use rad_outside::Octets;

/// One thing that a command line says.
#[derive(Debug, Drop)]
pub enum Item {
    /// A letter without a value.
    Letter(u8),
    /// A letter with its value.
    Valued(u8, Octets),
    /// A plain word.
    Plain(Octets),
}

impl Item {
    /// Whether this is the letter, with a value or without.
    pub(crate) fn is_letter(&self, letter: u8) -> bool
        ensures { result ≡ is_letter letter self.now }
    {
        match self {
            Item::Letter(other) => *other == letter,
            Item::Valued(other, _) => *other == letter,
            Item::Plain(_) => false,
        }
    }

    /// The value, where this is the letter with one.
    pub(crate) fn value_in(&self, letter: u8) -> Option<&[u8]>
        ensures { option_map (λ v. v.now) result ≡ value_in letter self.now }
    {
        match self {
            Item::Letter(_) => None,
            Item::Valued(other, value) if *other == letter => Some(value.as_slice()),
            Item::Valued(_, _) => None,
            Item::Plain(_) => None,
        }
    }
}
