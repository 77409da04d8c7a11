//! The laws of the forms in memory, in the words of who uses them. They are facts about the definitions, and the
//! functions do nothing.

ghost use Rattle.std.specs.Prelude.{◌≡◌, ◌++◌, ◌∷◌, ◌&&◌, ℕ, List, not};
ghost use Rattle.std.specs.List.{list_any};
ghost use Rattle.std.specs.List.Sorted.{IsStrictlySortedBy};
ghost use Rattle.std.specs.Cmp.Lexicographic.{slice_cmp};
ghost use Rattle.std.specs.Ordering.{nat_cmp};
ghost use Rattle.rad_outside.specs.Files.{File, names_in, has_path, has_slash, is_among};

/// What is listed of a folder: a name stands in the list exactly where it has no slash and the map has a file at the
/// folder's path, a slash and the name. The names ascend in byte order, so each stands there once.
pub fn folders_are_listed_whole_and_in_order()
    ensures whole { (dir name : List ℕ) (files : List File) → is_among name (names_in dir files) ≡ (not (has_slash name) && has_path (dir ++ 47 ∷ name) files) }
    ensures ordered { (dir : List ℕ) (files : List File) → IsStrictlySortedBy (slice_cmp nat_cmp) (names_in dir files) }
{}
