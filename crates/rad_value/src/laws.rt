//! What an operator relies on when a policy edits a list: facts about the definitions alone. The function does nothing.

ghost use Rattle.std.specs.Prelude.{◌≡◌, [], ◌∷◌, ◌++◌, List, filter, map, not, if◌then◌else◌};
ghost use Rattle.rad_value.specs.Comparison.{is_equal};
ghost use Rattle.rad_value.specs.Edit.{edited_by, has_attr};
ghost use Rattle.rad_value.specs.Pairs.{is_of, pairs_of, values_of};
ghost use Rattle.rad_value.specs.declared.edits.EditOp.{EditOp};
ghost use Rattle.rad_value.specs.declared.edits.EditOp.TheVariants as op;
ghost use Rattle.rad_value.specs.declared.values.Pair.{Pair};

/// What each operator of unlang(5), `update`, leaves: the pairs of other attributes stay, in order, and the attribute's own
/// values are, after `=`, what they were, or the new one where there was none; after `:=` the new one alone; after `+=`
/// what they were and then the new one; after `-=` those that differ from it; after `!*` none; and after `==` those that
/// equal it.
pub fn edits_have_their_meaning()
    ensures others { (o : EditOp) (pair : Pair) (pairs : List Pair)
        → filter (λ p. not (is_of pair.attr p)) (edited_by o pair pairs) ≡ filter (λ p. not (is_of pair.attr p)) pairs }
    ensures added { (pair : Pair) (pairs : List Pair) → values_of pair.attr (edited_by op.AddIfNone pair pairs)
        ≡ (if has_attr pair.attr pairs then values_of pair.attr pairs else pair.value ∷ []) }
    ensures set { (pair : Pair) (pairs : List Pair) → values_of pair.attr (edited_by op.Set pair pairs) ≡ pair.value ∷ [] }
    ensures appended { (pair : Pair) (pairs : List Pair) → values_of pair.attr (edited_by op.Append pair pairs)
        ≡ values_of pair.attr pairs ++ pair.value ∷ [] }
    ensures removed { (pair : Pair) (pairs : List Pair) → values_of pair.attr (edited_by op.Remove pair pairs)
        ≡ filter (λ v. not (is_equal v pair.value)) (values_of pair.attr pairs) }
    ensures cleared { (pair : Pair) (pairs : List Pair) → values_of pair.attr (edited_by op.RemoveAll pair pairs) ≡ [] }
    ensures kept { (pair : Pair) (pairs : List Pair) → values_of pair.attr (edited_by op.Keep pair pairs)
        ≡ filter (λ v. is_equal v pair.value) (values_of pair.attr pairs) }
{}
