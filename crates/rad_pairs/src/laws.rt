//! The law of texts: what is printed is read back. It is a fact about the definitions and every dictionary, and the
//! function does nothing.

ghost use Rattle.std.specs.Prelude.{◌≡◌, List, [], ◌∷◌, map, Ok};
ghost use Rattle.rad_value.specs.declared.values.Pair.{Pair};
ghost use Rattle.rad_pairs.specs.ValueText.{pair_text};
ghost use Rattle.rad_pairs.specs.Items.{items_of};
ghost use Rattle.rad_pairs.specs.ReadingBack.{IsOfKind, AreOfKind, item_of, lines_text};

use rad_dict::Dict;

/// The text of a pair reads back as that pair, with the operator `=`, wherever the pair's value is of its
/// attribute's kind. So does a text of many pairs, each on a line of its own, in the same order.
pub fn printed_pairs_are_read_back(dict: &Dict)
    ensures pair { (pair : Pair) → IsOfKind pair dict.now → items_of (pair_text pair dict.now) dict.now ≡ Ok (item_of pair ∷ []) }
    ensures lines { (pairs : List Pair) → AreOfKind pairs dict.now → items_of (lines_text pairs dict.now) dict.now ≡ Ok (map item_of pairs) }
{
    dict.each_name_means_one_thing();
}
