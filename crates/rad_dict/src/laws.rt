//! The law of dictionaries: what is written is read back. It is a fact about the definitions, and the function does
//! nothing.

ghost use Rattle.std.specs.Prelude.{◌≡◌, ℕ, Bool, List, ◌≤◌, length, Some, Ok};
ghost use Rattle.rad_outside.specs.Files.{File};
ghost use Rattle.rad_text.specs.Paths.{last_part};
ghost use Rattle.rad_dict.specs.Lines.{Statement, line_at, states};
ghost use Rattle.rad_dict.specs.Includes.{dict_from, dict_read};
ghost use Rattle.rad_dict.specs.FirstReading.{reading_of};
ghost use Rattle.rad_dict.specs.Written.{line_text, lines_text, IsWritable, AreWritable, statements_read};
ghost use Rattle.rad_dict.specs.WrittenDefinitions.{Writing, statements_of, defined_by, IsNew};

/// A statement that is written as a line is read as that statement, wherever its names are of their form. A file of such
/// lines is the dictionary that the statements make known one after another beyond the base, or the fault of the first
/// that can't stand, by its line; whether its lines end with a carriage return and a newline or with a newline alone. So
/// definitions whose names are new, that are written as their vendors, attributes and values, are read back in their
/// order behind the base.
pub fn written_dictionaries_are_read_back()
    ensures line { (one : Statement) → IsWritable one → line_at (line_text one) ≡ Some (states one) }
    ensures file { (returns : Bool) (path : List ℕ) (files : List File) (statements : List Statement) → AreWritable statements → length (lines_text returns statements) ≤ 4194304
        → dict_from path files (Some (lines_text returns statements)) ≡ dict_read (statements_read (last_part path) 1 (reading_of (length (lines_text returns statements))) statements) }
    ensures definitions { (returns : Bool) (path : List ℕ) (files : List File) (writing : Writing) → IsNew writing → AreWritable (statements_of writing) → length (lines_text returns (statements_of writing)) ≤ 4194304
        → dict_from path files (Some (lines_text returns (statements_of writing))) ≡ Ok (defined_by writing) }
{}
