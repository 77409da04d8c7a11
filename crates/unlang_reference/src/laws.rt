//! The law of references, in the words of whoever writes them. It is a fact about the definitions, and the function does
//! nothing.

ghost use Rattle.std.specs.Prelude.{◌≡◌, ℕ, List, Ok};
ghost use Rattle.rad_dict.specs.Definitions.{Definitions};
ghost use Rattle.unlang_reference.specs.declared.reference.Reference.{Reference};
ghost use Rattle.unlang_reference.specs.Reading.{reference_of};
ghost use Rattle.unlang_reference.specs.Written.{IsReference};

/// The name of an attribute, perhaps behind the name of a list and a colon and before a place in brackets, is read as the
/// reference to those values, in any case of the list's letters and under every dictionary.
pub fn written_references_are_read_back()
    ensures { (dict : Definitions) (reference : Reference) (text : List ℕ) → IsReference dict reference text → reference_of text dict ≡ Ok reference }
{}
