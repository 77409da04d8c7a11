//! The laws of texts, in the words of whoever writes them. They are facts about the definitions, and the functions do
//! nothing.

ghost use Rattle.std.specs.Prelude.{◌≡◌, ℕ, ◌<◌, ◌^◌, List, ◌∷◌, ◌++◌, length, IsTrue, Some, codes};
ghost use Rattle.std.specs.Str.Parse.{AllDigits, digits_value_after};
ghost use Rattle.rad_text.specs.Lines.{lines_of, is_line};
ghost use Rattle.rad_text.specs.Numerals.{number_of, numeral_of, below};
ghost use Rattle.rad_text.specs.Addresses.{address_of, dotted};

/// What is written as a line is read as that line, whether a newline ends it or a carriage return and a newline, and the
/// lines behind it are those of the text behind that. A line has no newline and doesn't end in a carriage return; one
/// within it stays.
pub fn lines_end_as_they_are_written()
    ensures newline { (line rest : List ℕ) → IsTrue (is_line line) → lines_of (line ++ 10 ∷ rest) ≡ line ∷ lines_of rest }
    ensures carriage_return { (line rest : List ℕ) → IsTrue (is_line line) → lines_of (line ++ 13 ∷ 10 ∷ rest) ≡ line ∷ lines_of rest }
{}

/// Digits, one or more, are read as the number that they write in their radix, leading zeros or none, wherever it is
/// below 2^32, and as no number where it isn't.
pub fn numerals_are_read_by_their_digits()
    ensures { (radix : ℕ) (text : List ℕ) → 0 < length text → AllDigits radix text → number_of radix text ≡ below (2 ^ 32) (digits_value_after radix 0 text) }
{}

/// An address is printed as the text that is read as it.
pub fn addresses_are_read_back()
    ensures { (address : ℕ) → address < 2 ^ 32 → address_of (dotted address) ≡ Some address }
{}
