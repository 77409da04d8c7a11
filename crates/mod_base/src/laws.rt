//! The laws of modules and their runs, in the words of whoever relies on them. They are facts about the definitions, and
//! the functions do nothing.

ghost use Rattle.std.specs.Prelude.{◌≡◌, ◌++◌, Bool, List, false};
ghost use Rattle.rad_words.specs.declared.attributes.AttrId.{AttrId};
ghost use Rattle.rad_words.specs.declared.sections.Section.{Section};
ghost use Rattle.rad_value.specs.declared.edits.ListName.{ListName};
ghost use Rattle.rad_value.specs.declared.scope.Scope.{Scope};
ghost use Rattle.rad_value.specs.PairLists.{list_of};
ghost use Rattle.rad_value.specs.Pairs.{values_of};
ghost use Rattle.rad_world.specs.Effects.{Effect};
ghost use Rattle.rad_world.specs.World.{WorldState};
ghost use Rattle.mod_base.specs.Situation.{Situation};
ghost use Rattle.mod_base.specs.Meaning.{IsLawful};
ghost use Rattle.mod_base.specs.Reaching.{Reaches, Stops};

/// What a module leaves alone: the values of an attribute outside its frame stay, in order, whatever the module does.
pub fn modules_keep_their_frames()
    ensures { (edits : ListName → AttrId → Bool) (method : Section) (before now : Situation) (list : ListName) (attr : AttrId) → IsLawful edits method before now → edits list attr ≡ false
        → values_of attr (list_of now.scope.lists list) ≡ values_of attr (list_of before.scope.lists list) }
{}

/// A run that came to a place and from there to another came to the other; one that stopped on its way from there has
/// stopped.
pub fn runs_are_joined()
    ensures reaches { (scope0 scope1 scope2 : Scope) (world0 world1 world2 : WorldState) (meaning left rest : Situation → List Effect)
        → Reaches scope0 world0 meaning scope1 world1 left → Reaches scope1 world1 left scope2 world2 rest → Reaches scope0 world0 meaning scope2 world2 rest }
    ensures stops { (scope0 scope1 : Scope) (world0 world1 world2 : WorldState) (meaning left : Situation → List Effect)
        → Reaches scope0 world0 meaning scope1 world1 left → Stops scope1 world1 left world2 → Stops scope0 world0 meaning world2 }
{}
