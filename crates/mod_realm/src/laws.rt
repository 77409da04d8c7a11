//! What an operator relies on: facts about the definitions alone. The functions do nothing.

ghost use Rattle.std.specs.Prelude.{◌≡◌, ◌==◌, [], ◌∷◌, ℕ, List, true, false, not};
ghost use Rattle.std.specs.List.{list_all};
ghost use Rattle.rad_words.specs.declared.codes.Code.TheVariants as codes;
ghost use Rattle.rad_words.specs.declared.sections.Section.TheVariants.{Authorize, Preacct};
ghost use Rattle.rad_value.specs.declared.values.Value.TheVariants.{Text};
ghost use Rattle.rad_value.specs.PairLists.{PairLists};
ghost use Rattle.rad_value.specs.Pairs.{values_of};
ghost use Rattle.mod_realm.specs.Attributes.{realm, stripped_user_name};
ghost use Rattle.mod_realm.specs.Parting.{parted};
ghost use Rattle.mod_realm.specs.Realms.{Realm};
ghost use Rattle.mod_realm.specs.Named.{realm_done};
ghost use Rattle.mod_realm.specs.OfRealm.{name_of, IsOfRealm};
ghost use Rattle.mod_realm.specs.declared.parting.RealmFormat.{RealmFormat};

/// A name `user@realm` is parted at its last delimiter and a name `realm/user` at its first, whatever stands in the user's
/// part.
pub fn names_are_parted_at_the_delimiter()
    ensures { (format : RealmFormat) (delimiter : ℕ) (user realm : List ℕ) → list_all (λ octet. not (octet == delimiter)) realm ≡ true
        → parted format delimiter (name_of format delimiter user realm) ≡ (user, realm) }
{}

/// A request of at most 510 pairs whose User-Name is `user@realm`, or `realm/user`, with a realm that is configured and no
/// Realm yet: the answer is ok, Realm is the name as it is configured, and Stripped-User-Name is the user, whatever stands in
/// it; with `nostrip` it stays as it was.
pub fn users_of_a_realm_are_named()
    ensures code { (realms : List Realm) (format : RealmFormat) (delimiter : ℕ) (lists : PairLists) (user : List ℕ) (one : Realm) → IsOfRealm realms format delimiter lists user one
        → (realm_done realms format delimiter Authorize lists).1 ≡ codes.Ok }
    ensures realm { (realms : List Realm) (format : RealmFormat) (delimiter : ℕ) (lists : PairLists) (user : List ℕ) (one : Realm) → IsOfRealm realms format delimiter lists user one
        → values_of realm (realm_done realms format delimiter Authorize lists).0.request ≡ Text one.name ∷ [] }
    ensures user { (realms : List Realm) (format : RealmFormat) (delimiter : ℕ) (lists : PairLists) (user : List ℕ) (one : Realm) → IsOfRealm realms format delimiter lists user one
        → one.nostrip ≡ false → values_of stripped_user_name (realm_done realms format delimiter Authorize lists).0.request ≡ Text user ∷ [] }
    ensures whole { (realms : List Realm) (format : RealmFormat) (delimiter : ℕ) (lists : PairLists) (user : List ℕ) (one : Realm) → IsOfRealm realms format delimiter lists user one
        → one.nostrip ≡ true → values_of stripped_user_name (realm_done realms format delimiter Authorize lists).0.request ≡ values_of stripped_user_name lists.request }
    ensures preacct { (realms : List Realm) (format : RealmFormat) (delimiter : ℕ) (lists : PairLists)
        → realm_done realms format delimiter Preacct lists ≡ realm_done realms format delimiter Authorize lists }
{}
