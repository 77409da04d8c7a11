//! The law of realms: a site's realms are what its blocks say. It is a fact about the definitions, and the function does nothing.

ghost use Rattle.std.specs.Prelude.{◌≡◌, List, [], Some, Ok, map, filter};
ghost use Rattle.rad_conf.specs.declared.tree.Node.{Node};
ghost use Rattle.mod_realm.specs.declared.realms.Realm.{Realm};
ghost use Rattle.rad_build.specs.Said.{AreNew};
ghost use Rattle.rad_build.specs.RealmBlock.{realms_in};
ghost use Rattle.rad_build.specs.RealmsSaid.{said_of, is_realm_block, HasAnotherName};

/// The realms of a site that is built are what its blocks `realm NAME { .. }` say, one each, in order: the name as it is
/// written, and names stay whole exactly where the name alone `nostrip` is among the items of the block. Each has another name,
/// case aside, than those before it.
pub fn realms_are_what_their_blocks_say()
    ensures said { (nodes : List Node) (realms : List Realm) → realms_in nodes ≡ Ok realms
        → map (λ (one : Realm). Some one) realms ≡ map said_of (filter is_realm_block nodes) }
    ensures new { (nodes : List Node) (realms : List Realm) → realms_in nodes ≡ Ok realms → AreNew HasAnotherName [] realms }
{}
