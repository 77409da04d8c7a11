//! How conditions are read, in the words of whoever writes them: facts about the definitions alone. The functions do nothing.

ghost use Rattle.std.specs.Prelude.{◌≡◌, ◌⊎◌, ◌<◌, ◌^◌, ℕ, List, [], ◌∷◌, length, Some};
ghost use Rattle.std.specs.Option.{option_map};
ghost use Rattle.rad_dict.specs.Definitions.{Definitions};
ghost use Rattle.unlang_cond.specs.declared.atom.Atom.{Atom};
ghost use Rattle.unlang_cond.specs.declared.atom.Token.TheVariants as token;
ghost use Rattle.unlang_cond.specs.declared.fault.CondFault.{CondFault};
ghost use Rattle.unlang_cond.specs.declared.fault.CondFault.TheVariants as fault;
ghost use Rattle.unlang_cond.specs.Trees.{Tree, Leaf, Not, And, Or, tree_of};
ghost use Rattle.unlang_cond.specs.Conditions.{condition_of, IsFaultOf};
ghost use Rattle.unlang_cond.specs.Places.{IsToldAt};
ghost use Rattle.unlang_cond.specs.Written.{IsCondition};
ghost use Rattle.unlang_cond.specs.Outlines.{outline, HasRefused, cond_text, IsSpelled};

/// `&&` binds tighter than `||` on either side of it, `!` tighter than both, and parentheses group: `a || b && c` is `a`, or
/// both others; `a && b || c` is both first, or `c`; `! a && b` is not `a`, and `b`; `(a || b) && c` is one of the first, and
/// `c`.
#[tactic(auto, unfolding(crate::specs::Trees::grown))]
pub fn and_binds_tighter_than_or()
    ensures or_and { (a b c : Atom)
        → tree_of (token.Atom a ∷ token.Or ∷ token.Atom b ∷ token.And ∷ token.Atom c ∷ []) ≡ Or (Leaf a) (And (Leaf b) (Leaf c)) }
    ensures and_or { (a b c : Atom)
        → tree_of (token.Atom a ∷ token.And ∷ token.Atom b ∷ token.Or ∷ token.Atom c ∷ []) ≡ Or (And (Leaf a) (Leaf b)) (Leaf c) }
    ensures not_and { (a b : Atom)
        → tree_of (token.Not ∷ token.Atom a ∷ token.And ∷ token.Atom b ∷ []) ≡ And (Not (Leaf a)) (Leaf b) }
    ensures grouped { (a b c : Atom)
        → tree_of (token.Open ∷ token.Atom a ∷ token.Or ∷ token.Atom b ∷ token.Close ∷ token.And ∷ token.Atom c ∷ [])
        ≡ And (Or (Leaf a) (Leaf b)) (Leaf c) }
{}

/// Atoms that `!`, `&&` and `||` join, with parentheses and blanks where they may stand, are the condition that they write,
/// under every dictionary: each atom as the row of unlang(5) by which it is spelled. Such a text is refused only where `regex`
/// refuses one of its patterns, or where memory runs out.
pub fn written_conditions_are_read_back()
    ensures read { (dict : Definitions) (tree : Tree) (text : List ℕ) → IsCondition dict tree text
        → option_map outline (condition_of text dict) ≡ Some tree }
    ensures accepted { (dict : Definitions) (tree : Tree) (text : List ℕ) (told : CondFault) → IsCondition dict tree text → IsFaultOf told text dict
        → (told ≡ fault.NoMemory) ⊎ HasRefused tree }
{}

/// A tree is printed with parentheses only where its operators ask for them: around `||` beside `&&`, around `&&` and `||`
/// behind `!`, and around a right side that is joined like the whole. So printed, with each atom spelled by its row, it is
/// written as conditions are.
pub fn conditions_are_printed_as_they_are_written()
    ensures { (dict : Definitions) (spell : Atom → List ℕ) (tree : Tree) → IsSpelled dict spell tree → IsCondition dict tree (cond_text spell tree) }
{}

/// A bad condition is told at its end or at a part of it, never at a blank; an unknown attribute at the `&` of its reference or
/// at the quote of its text; and a refused pattern at its slash, wherever the text is shorter than 2^32 octets.
pub fn faults_are_told_where_they_stand()
    ensures { (dict : Definitions) (text : List ℕ) (told : CondFault) → length text < 2 ^ 32 → IsFaultOf told text dict → IsToldAt text told }
{}
