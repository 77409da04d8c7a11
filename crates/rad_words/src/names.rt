//! Tables of names and numbers.

ghost use Rattle.std.specs.Prelude.{◌≡◌, length, map, IsTrue, IfSome, Some};
ghost use Rattle.std.specs.Option.{option_copied};
ghost use Rattle.std.specs.Str.{str_eq_ignore_ascii_case};
ghost use Rattle.rad_words.specs.Names.{row_of, differ, number_in, name_in, IsNamedIn, AreInverse};

use std::marker::Model;

/// The table of these rows, each a number and its name as octets, as `names![1 b"Start", 2 b"Stop"]`.
#[macro_export]
macro_rules! names {
    ($($number:literal $name:literal),* $(,)?) => {
        $crate::Names::of(&[$(($name, $number)),*])
    };
}

/// A name and its number.
pub type NameRow = (&'static [u8], u32);

/// A table of `N` names and their numbers, in which a name is looked up by its number and a number by
/// its name, in any case of its ASCII letters. The names differ, case aside, and the numbers differ.
#[derive(Debug, Drop)]
pub struct Names<const N: usize> {
    rows: &'static [NameRow],
}

impl<const N: usize> Model for Names<N> {
    ghost use Rattle.std.specs.Prelude.{◌≡◌, List, map, length, IsTrue};
    ghost use Rattle.rad_words.specs.Names.{Row, row_of, differ};

    ghost Value = { List Row };

    ghost view = { λ t. map row_of t.rows.now };

    ghost invariant = { λ t. (length t.rows.now ≡ N) × IsTrue (differ (map row_of t.rows.now)) };
}

impl<const N: usize> Names<N> {
    /// The table of these rows. It takes no memory: the rows stand where the program has them.
    pub fn of(rows: &'static [NameRow]) -> Names<N>
        requires length { length rows.now ≡ N }
        requires differ { IsTrue (differ (map row_of rows.now)) }
        ensures rows { result ≡ map row_of rows.entry.now }
        ensures inverse { AreInverse result }
    {
        Names { rows }
    }

    /// The number of this name, in any case of its ASCII letters, or none where no row has it.
    pub fn number(&self, name: &[u8]) -> Option<u32>
        ensures exact { result ≡ number_in self.now name.now }
        ensures inverse { IfSome result (λ number. IsNamedIn self.now number name.now) }
    {
        number_in(self.rows, name)
    }

    /// The name of this number, or none where no row has it.
    pub fn name(&self, number: u32) -> Option<&[u8]>
        ensures exact { option_copied result ≡ name_in self.now number }
        ensures inverse { IfSome result (λ name. number_in self.now name.now ≡ Some number) }
    {
        name_in(self.rows, number)
    }

    /// The rows, in order.
    pub fn rows(&self) -> &[NameRow]
        ensures rows { map row_of result.now ≡ self.now }
        ensures length { length result.now ≡ N }
    {
        self.rows
    }
}

/// Whether two names are one, in any case of their ASCII letters.
fn is_same_name(one: &[u8], other: &[u8]) -> bool
    ensures { result ≡ str_eq_ignore_ascii_case one.now other.now }
{
    one.eq_ignore_ascii_case(other)
}

/// The number of this name among the rows.
fn number_in(rows: &[NameRow], name: &[u8]) -> Option<u32>
    ensures { result ≡ number_in (map row_of rows.now) name.now }
{
    for (row, number) in rows {
        if is_same_name(row, name) {
            return Some(*number);
        }
    }
    None
}

/// The name of this number among the rows.
fn name_in(rows: &[NameRow], number: u32) -> Option<&'static [u8]>
    ensures { option_copied result ≡ name_in (map row_of rows.now) number }
{
    for (name, other) in rows {
        if *other == number {
            return Some(*name);
        }
    }
    None
}
