//! The laws of policies, in the words of whoever writes them. They are facts about the definitions, and the functions do
//! nothing.

ghost use Rattle.std.specs.Prelude.{◌≡◌, ◌≢◌, ◌<◌, ◌≤◌, [], ◌∷◌, ◌++◌, ℕ, List, Option, Some, None, true, false, IsSome};
ghost use Rattle.std.specs.List.{list_any, AllByRecursion};
ghost use Rattle.rad_words.specs.declared.codes.Code.{Code};
ghost use Rattle.rad_words.specs.declared.codes.Code.TheVariants as code;
ghost use Rattle.rad_words.specs.declared.sections.Section.{Section};
ghost use Rattle.rad_tables.specs.declared.group_kind.GroupKind.{GroupKind};
ghost use Rattle.rad_words.specs.declared.attributes.AttrId.{AttrId};
ghost use Rattle.rad_value.specs.declared.edits.ListName.{ListName};
ghost use Rattle.rad_value.specs.PairLists.{PairLists, list_of};
ghost use Rattle.rad_value.specs.Pairs.{values_of};
ghost use Rattle.rad_dict.specs.Definitions.{Definitions};
ghost use Rattle.mod_base.specs.Situation.{Situation};
ghost use Rattle.unlang_tree.specs.declared.update.Line.{Line};
ghost use Rattle.unlang_tree.specs.declared.statement.Statement.{Statement};
ghost use Rattle.unlang_code.specs.Frames.{edits_of, goes_to};
ghost use Rattle.unlang_code.specs.Leaves.{EachLeaf, LeafKeeps};
ghost use Rattle.rad_value.specs.declared.scope.Scope.{Scope};
ghost use Rattle.unlang_cond.specs.Tests.{OnlyCaptures};
ghost use Rattle.unlang_tree.specs.declared.statement.Arm.{Arm, out-Arm};
ghost use Rattle.unlang_code.specs.Branches.{NoneHolds};
ghost use Rattle.unlang_code.specs.Choosing.{asks};
ghost use Rattle.unlang_code.specs.Run.{section_done, updated, in_scope, nothing, arm_done, if_done};
ghost use Rattle.rad_tables.specs.declared.action_table.Action.TheVariants as action;
ghost use Rattle.unlang_tree.specs.declared.policies.ServerTree.{ServerTree};
ghost use Rattle.unlang_code.specs.declared.section_id.SectionId.{SectionId};
ghost use Rattle.unlang_code.specs.Sections.{found, statements_of};
ghost use Rattle.unlang_code.specs.declared.judgement.Child.{Child};
ghost use Rattle.unlang_code.specs.Judgement.{ends, judged, priority_of};
ghost use Rattle.unlang_code.specs.Operators.{members_done, AnswersBehind, RunsOne};
ghost use Rattle.unlang_tree.specs.declared.statement.GroupForm.TheVariants as form;

use mod_base::Module;

/// What a group answers. Behind children that don't end it, a child whose action is `return` ends it with its own code, and
/// one whose action is `reject` with reject, whatever stands behind. Where no child ends it, it has the code of the child
/// that weighs more than all before it and no less than all behind it. Without children it gives no code.
pub fn groups_answer_as_their_children()
    ensures returned { (before : List Child) (child : Child) (later : List Child) → list_any ends before ≡ false → child.action ≡ action.Return → judged (before ++ child ∷ later) ≡ Some child.code }
    ensures rejected { (before : List Child) (child : Child) (later : List Child) → list_any ends before ≡ false → child.action ≡ action.Reject → judged (before ++ child ∷ later) ≡ Some code.Reject }
    ensures greatest { (before : List Child) (child : Child) (later : List Child) → list_any ends (before ++ child ∷ later) ≡ false
        → AllByRecursion (λ c. priority_of c < priority_of child) before → AllByRecursion (λ c. priority_of c ≤ priority_of child) later → judged (before ++ child ∷ later) ≡ Some child.code }
    ensures without { judged [] ≡ None }
{}

/// Whatever section is found in policies has statements, so that it can be run.
pub fn found_sections_stand()
    ensures { (servers : List ServerTree) (server : ℕ) (kind : Section) (sub : Option (List ℕ)) (id : SectionId) → found servers server kind sub ≡ Some id → IsSome (statements_of servers id) }
{}

/// What a section leaves alone, whatever the request and the devices: the values of an attribute that none of its modules'
/// frames has and none of its updates names stay, in order.
pub fn sections_keep_their_frames<M: Module>()
    ensures { (stack : List M) (dict : Definitions) (kind : Section) (statements : List Statement) (situation : Situation) (list : ListName) (attr : AttrId) → edits_of M.meaning stack statements list attr ≡ false
        → values_of attr (list_of (section_done M.meaning stack dict kind statements situation).0.scope.lists list) ≡ values_of attr (list_of situation.scope.lists list) }
{}

/// An update leaves each list to which none of its lines goes, whatever the request; so one whose lines all go to one list
/// leaves the other two.
pub fn updates_leave_other_lists()
    ensures { (dict : Definitions) (section : Section) (kind : GroupKind) (lines : List Line) (situation : Situation) (list : ListName) → list_any (goes_to list) lines ≡ false
        → list_of (updated dict section kind lines situation).situation.scope.lists list ≡ list_of situation.scope.lists list }
{}

/// A fact of the three lists of a request, for the law below.
pub trait ListFact {
    /// The lists are so.
    ghost holds: { PairLists → Type 0 };
}

/// Whatever is true of the lists and stays true at each call of a module and at each line of an update in a section,
/// whatever the situation, is true of them behind the section too.
pub fn sections_keep_what_their_statements_keep<M: Module, F: ListFact>()
    ensures { (stack : List M) (dict : Definitions) (kind : Section) (statements : List Statement) → EachLeaf (LeafKeeps F.holds M.meaning stack dict kind) statements
        → (situation : Situation) → F.holds situation.scope.lists → F.holds (section_done M.meaning stack dict kind statements situation).0.scope.lists }
{}

/// In a `redundant` block a member that succeeds is the last that runs: where it answers any code but fail, by the default
/// actions, the block comes to the same, whatever members stand behind it.
pub fn redundant_blocks_end_with_a_success<M: Module>()
    ensures { (stack : List M) (dict : Definitions) (kind : Section) (before : List Statement) (member : Statement) (later : List Statement) (situation : Situation) (answer : Code)
        → answer ≢ code.Fail → AnswersBehind M.meaning stack dict kind before member situation answer
        → members_done M.meaning stack dict kind form.Redundant (before ++ member ∷ later) situation ≡ members_done M.meaning stack dict kind form.Redundant (before ++ member ∷ []) situation }
{}

/// A `load-balance` block with members runs exactly one of them, the picked one.
pub fn load_balance_blocks_run_one_member<M: Module>()
    ensures { (stack : List M) (dict : Definitions) (kind : Section) (first : Statement) (others : List Statement) (situation : Situation) → RunsOne M.meaning stack dict kind (first ∷ others) situation }
{}

/// An `if` runs the first arm whose condition holds: it does what the block of that arm does in the scope that the questions up
/// to its own left, whatever arms stand behind it, so that no condition behind it is looked at; and an `else` is always taken.
/// Where no condition holds nothing is done and the `if` is no child. The questions leave all of the scope but its captures.
pub fn ifs_run_the_first_arm_that_holds<M: Module>()
    ensures first { (stack : List M) (dict : Definitions) (section : Section) (before : List Arm) (arm : Arm) (later : List Arm) (kind : GroupKind) (situation : Situation) (so_far : Scope) (now : Scope)
        → NoneHolds dict before situation.scope so_far → asks dict (out-Arm arm).condition so_far ≡ (true, now)
        → if_done M.meaning stack dict section (before ++ arm ∷ later) kind situation ≡ arm_done M.meaning stack dict section arm kind (in_scope now situation) }
    ensures none { (stack : List M) (dict : Definitions) (section : Section) (arms : List Arm) (kind : GroupKind) (situation : Situation) (now : Scope) → NoneHolds dict arms situation.scope now
        → if_done M.meaning stack dict section arms kind situation ≡ nothing (in_scope now situation) }
    ensures captures { (dict : Definitions) (arms : List Arm) (before : Scope) (now : Scope) → NoneHolds dict arms before now → OnlyCaptures before now }
{}
