//! The law of rejected requests: a fact about the definitions, whose function does nothing.

ghost use Rattle.std.specs.Prelude.{◌≡◌, ℕ, List, [], false};
ghost use Rattle.rad_words.specs.declared.attributes.AttrId.{AttrId};
ghost use Rattle.rad_words.specs.Attribute.{same_attr};
ghost use Rattle.rad_value.specs.declared.values.Pair.{Pair};
ghost use Rattle.rad_value.specs.Pairs.{values_of};
ghost use Rattle.rad_dict.specs.Definitions.{Definitions};
ghost use Rattle.mod_base.specs.Situation.{Situation};
ghost use Rattle.rad_access.specs.declared.verdict.Verdict.{Verdict};
ghost use Rattle.rad_access.specs.Attributes.{reply_message};
ghost use Rattle.rad_access.specs.Decided.{kept, refused, decided};
ghost use Rattle.rad_access.specs.Rejects.{RejectNeverAdds, with_reply};
ghost use Rattle.rad_access.specs.Policies.{Policies as AnyPolicies};

/// The reply of a rejected request has its Reply-Messages, and what Post-Auth-Type REJECT adds. Of every other attribute that
/// nothing in REJECT can add it has no pair, whatever its user, or post-auth, had put into the reply list. And what is done for
/// a rejected request is the same for all reply lists of the same Reply-Messages: nothing else of the list shows in it.
pub fn rejected_replies_have_messages_and_what_reject_adds()
    ensures others { (policies : AnyPolicies) (dict : Definitions) (server : List ℕ) (begun : Situation) (attr : AttrId) → same_attr attr reply_message ≡ false → RejectNeverAdds policies server attr
        → (decided policies dict server begun).1 ≡ Verdict.Reject → values_of attr (decided policies dict server begun).0.scope.lists.reply ≡ [] }
    ensures nothing { (policies : AnyPolicies) (dict : Definitions) (server : List ℕ) (rejected : Situation) (reply : List Pair) → kept reply ≡ kept rejected.scope.lists.reply
        → refused policies dict server (with_reply reply rejected) ≡ refused policies dict server rejected }
{}
