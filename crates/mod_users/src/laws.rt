//! What an operator relies on in a users file: facts about the definitions alone. The functions do nothing.

ghost use Rattle.std.specs.Prelude.{◌≡◌, ℕ, List, [], ◌∷◌, ◌++◌, true, false};
ghost use Rattle.rad_value.specs.PairLists.{PairLists};
ghost use Rattle.rad_dict.specs.Definitions.{Definitions};
ghost use Rattle.mod_users.specs.declared.entry.Entry.{Entry};
ghost use Rattle.mod_users.specs.declared.form.Form.{Form};
ghost use Rattle.mod_users.specs.Reading.{drafts_of};
ghost use Rattle.mod_users.specs.Written.{entries_text, numbered, AreWritable, AreBack};
ghost use Rattle.mod_users.specs.Fits.{fits};
ghost use Rattle.mod_users.specs.Files.{falls_through, files_done};

use rad_dict::Dict;

/// The first entry that matches and doesn't fall through decides: what stands behind it in the file changes nothing.
pub fn the_first_entry_without_fall_through_decides()
    ensures { (front rest : List Entry) (entry : Entry) (key : List ℕ) (dict : Definitions) (lists : PairLists)
        → fits entry key lists.request dict ≡ true → falls_through entry ≡ false
        → files_done (front ++ entry ∷ rest) key dict lists ≡ files_done (front ++ entry ∷ []) key dict lists }
{}

/// An entry that doesn't match the request changes nothing, wherever it stands in the file.
pub fn entries_that_do_not_match_change_nothing()
    ensures { (front rest : List Entry) (entry : Entry) (key : List ℕ) (dict : Definitions) (lists : PairLists)
        → fits entry key lists.request dict ≡ false
        → files_done (front ++ entry ∷ rest) key dict lists ≡ files_done (front ++ rest) key dict lists }
{}

/// The module edits the control list and the reply list alone: the request's pairs stay as they came.
pub fn requests_stay_as_they_came()
    ensures { (users : List Entry) (key : List ℕ) (dict : Definitions) (lists : PairLists)
        → (files_done users key dict lists).0.request ≡ lists.request }
{}

/// Entries that are written as a users file or as a filter file are read back, with all of their items, by every dictionary:
/// wherever each item's operator may stand there, and its value is of its attribute's kind, a pattern a text, and what `=*`
/// and `!*` have is empty.
pub fn written_users_are_read_back(dict: &Dict)
    ensures { (form : Form) (entries : List Entry) → AreWritable form dict.now entries
        → AreBack (numbered 1 entries) (drafts_of form (entries_text entries dict.now) dict.now) }
{
    dict.each_name_means_one_thing();
}
