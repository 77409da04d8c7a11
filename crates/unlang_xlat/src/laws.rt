//! The laws of expansions, in the words of whoever writes them. They are facts about the definitions, and the functions do
//! nothing.

ghost use Rattle.std.specs.Prelude.{◌≡◌, ◌<◌, ◌^◌, ℕ, List, length, Ok, Err};
ghost use Rattle.rad_dict.specs.Definitions.{Definitions};
ghost use Rattle.unlang_xlat.specs.declared.part.Part.{Part};
ghost use Rattle.unlang_xlat.specs.declared.fault.XlatFault.{XlatFault};
ghost use Rattle.unlang_xlat.specs.Faults.{parsed};
ghost use Rattle.unlang_xlat.specs.Places.{IsAtSign};
ghost use Rattle.unlang_xlat.specs.Written.{IsExpansionOf};

/// Parts that are written one behind the other, each as its row of unlang(5) says and with plain text between them, are read
/// as these parts under every dictionary, wherever parts in braces stand within one another 32 deep at most.
pub fn written_expansions_are_read_back()
    ensures { (dict : Definitions) (parts : List Part) (text : List ℕ) → IsExpansionOf dict parts text → parsed text dict ≡ Ok parts }
{}

/// The offset that a fault of a text carries is that of a percent sign in it, wherever the text is shorter than 2^32 octets.
pub fn faults_are_told_at_a_percent_sign()
    ensures { (dict : Definitions) (text : List ℕ) (fault : XlatFault) → length text < 2 ^ 32 → parsed text dict ≡ Err fault → IsAtSign text fault }
{}
