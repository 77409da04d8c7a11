//! What an operator relies on in a filter: facts about the definitions alone. The functions do nothing.

ghost use Rattle.std.specs.Prelude.{◌≡◌, ℕ, List, false};
ghost use Rattle.rad_words.specs.declared.attributes.AttrId.{AttrId};
ghost use Rattle.rad_words.specs.declared.codes.Code.TheVariants as codes;
ghost use Rattle.rad_value.specs.declared.edits.ListName.{ListName};
ghost use Rattle.rad_value.specs.Pairs.{pairs_of};
ghost use Rattle.rad_value.specs.PairLists.{PairLists, list_of};
ghost use Rattle.rad_dict.specs.Definitions.{Definitions};
ghost use Rattle.mod_users.specs.declared.entry.Entry.{Entry};
ghost use Rattle.mod_users.specs.Files.{has_any};
ghost use Rattle.mod_filter.specs.Filter.{found, filter_done};
ghost use Rattle.mod_filter.specs.Laws.{AreSomeOf};
ghost use Rattle.mod_filter.specs.Module.{filter_writes};

/// A filter never adds a pair but by `:=`: of an attribute that no item of its file writes, a filtered list has some of the pairs
/// that it had, in their order. And where the file has no entry for the key, nothing changes.
pub fn filters_never_add_but_by_set()
    ensures adds { (users : List Entry) (key : List ℕ) (dict : Definitions) (list : ListName) (lists : PairLists) (attr : AttrId) → filter_writes users attr ≡ false
        → AreSomeOf (pairs_of attr (list_of (filter_done users key dict list lists).0 list)) (pairs_of attr (list_of lists list)) }
    ensures without { (users : List Entry) (key : List ℕ) (dict : Definitions) (list : ListName) (lists : PairLists) → has_any (found users key) ≡ false
        → filter_done users key dict list lists ≡ (lists, codes.Noop) }
{}
