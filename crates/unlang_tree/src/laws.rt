//! The laws of policies, in the words of whoever writes them. They are facts about the definitions, and the functions do
//! nothing.

ghost use Rattle.std.specs.Prelude.{◌≡◌, Bool, true, ℕ, ◌+◌, ◌-◌, ◌<◌, ◌≤◌, List, [], ◌∷◌, ◌++◌, length, codes, Option, Some, None, Ok, Err};
ghost use Rattle.rad_conf.specs.declared.tree.Node.{Node};
ghost use Rattle.rad_conf.specs.declared.tree.Word.{Word};
ghost use Rattle.rad_words.specs.declared.sections.Section.{Section as AnySection};
ghost use Rattle.unlang_tree.specs.declared.statement.Statement.{Statement as AnyStatement};
ghost use Rattle.unlang_tree.specs.Sites.{Site};
ghost use Rattle.unlang_tree.specs.Groups.{statement_at, statements_of};
ghost use Rattle.unlang_tree.specs.Policies.{servers_of};
ghost use Rattle.unlang_tree.specs.declared.statement.Call.{Call as AnyCall};
ghost use Rattle.unlang_tree.specs.declared.policies.ServerTree.{ServerTree};
ghost use Rattle.unlang_tree.specs.EachCall.{EachCall, EachCallOf, IsMet, Passes};
ghost use Rattle.unlang_tree.specs.Calls.{kind_of, body_of};
ghost use Rattle.unlang_tree.specs.Written.{IsBlock, CallsPolicy, Spell, IsUnknown};
ghost use Rattle.unlang_tree.specs.WrittenGroups.{Begins, group_from, SpellBlock, arm_from, if_from, IsAsking, SpellArms, Around, LeadsBack};
ghost use Rattle.unlang_cond.specs.Trees.{Tree as AnyCondition};
ghost use Rattle.unlang_tree.specs.declared.statement.Arm.{Arm as AnyArm};
ghost use Rattle.unlang_tree.specs.declared.statement.GroupForm.{GroupForm as AnyForm};
ghost use Rattle.unlang_tree.specs.declared.statement.Override.{Override as AnyOverride};

use crate::fault::TreeFault;
use crate::statement::GroupForm;
use rad_words::Section;

/// A section that is written as calls of instances by their names is read as exactly these calls, in order, each with the
/// place of its name, wherever the server has room for so many; `-name` is such a call where there is the instance, and
/// is passed over where there is none.
pub fn written_calls_are_read()
    ensures { (site : Site) (section : AnySection) (room : ℕ) (nodes : List Node) (calls : List AnyStatement) → Spell site section nodes calls
        → length calls ≤ room → statements_of site section room nodes ≡ Ok calls }
{}

/// The first word behind good calls that calls nothing is the fault of its section, at its place, whatever stands
/// behind it.
pub fn the_first_unknown_word_is_the_fault()
    ensures { (site : Site) (section : AnySection) (room : ℕ) (good : List Node) (calls : List AnyStatement) (bad : Node) (name : List ℕ) (rest : List Node)
        → Spell site section good calls → length calls ≤ room → IsUnknown site section bad name
        → statements_of site section room (good ++ bad ∷ rest) ≡ Err (TreeFault.UnknownModule bad.place name) }
{}

/// A site with one server, `server NAME { authorize { .. } }`, whose section is written as calls of instances, is read as
/// that server of that name, with these calls in its section authorize and nothing else.
pub fn a_written_site_is_read()
    ensures { (site : Site) (server : Node) (authorize : Node) (name : Word) (nodes : List Node) (calls : List AnyStatement)
        → site.root ≡ server ∷ [] → IsBlock server (codes "server") (Some name) (authorize ∷ []) → IsBlock authorize (codes "authorize") None nodes
        → Spell site Section.Authorize nodes calls → length calls ≤ 65536
        → servers_of site ≡ Ok (record { name = name.text; sections = record { section = Section.Authorize; statements = calls; subsections = [] } ∷ [] } ∷ []) }
{}

/// A block that is written as `group { .. }`, or with the word of its kin, with calls of instances and policies, `return`, `if` with
/// its arms, actions of its own and such blocks in it, no more than 31 within one another, is read as that block, with these actions and exactly
/// these statements in order, wherever the server has room for it and them: it is one statement, and leaves so many fewer.
pub fn a_written_group_is_read()
    ensures { (site : Site) (section : AnySection) (room : ℕ) (node : Node) (form : AnyForm) (word : List ℕ) (name : Option Word) (body : List Node) (own : List AnyOverride) (inner : List AnyStatement) (count : ℕ)
        → Begins form word → IsBlock node word name body → SpellBlock site section 31 [] body own inner count → count < room → room ≤ 65536
        → statement_at site section room node ≡ Ok (Some (record { statement = group_from node form own inner; room = room - 1 - count })) }
{}

/// An `if` that is written directly in a section, with the `elsif` and `else` behind it, is read as one statement with exactly
/// these arms, in order: each with the condition that its text says, `else` with none, and with exactly the statements in it. A
/// `-name` of nothing may stand before each arm. In blocks and policies the same is a part of what they spell.
pub fn a_written_if_is_read()
    ensures { (site : Site) (section : AnySection) (room : ℕ) (node : Node) (later : List Node) (condition : AnyCondition) (body : List Node) (inner : List AnyStatement) (count : ℕ) (arms : List AnyArm) (more : ℕ)
        → IsAsking site node (codes "if") condition body → SpellBlock site section 31 [] body [] inner count → SpellArms site section 31 [] later arms more
        → count + more < room → room ≤ 65536
        → statements_of site section room (node ∷ later) ≡ Ok (if_from node (arm_from (Some condition) inner ∷ arms) ∷ []) }
{}

/// An `elsif` or an `else` behind good calls alone follows no `if`: it is the fault UnknownKeyword of its section, at its place,
/// whatever it asks and whatever stands in it and behind it.
pub fn a_stray_else_is_an_unknown_keyword()
    ensures asking { (site : Site) (section : AnySection) (room : ℕ) (good : List Node) (calls : List AnyStatement) (bad : Node) (name : Option Word) (body rest : List Node)
        → Spell site section good calls → length calls ≤ room → IsBlock bad (codes "elsif") name body
        → statements_of site section room (good ++ bad ∷ rest) ≡ Err (TreeFault.UnknownKeyword bad.place) }
    ensures last { (site : Site) (section : AnySection) (room : ℕ) (good : List Node) (calls : List AnyStatement) (bad : Node) (name : Option Word) (body rest : List Node)
        → Spell site section good calls → length calls ≤ room → IsBlock bad (codes "else") name body
        → statements_of site section room (good ++ bad ∷ rest) ≡ Err (TreeFault.UnknownKeyword bad.place) }
{}

/// A word that calls a policy is read as the policy's statements, laid out where the word stands and read in the calling section:
/// exactly these statements in order, with blocks no more than 32 within one another, and with the policies that they call
/// laid out in turn, none of them within itself. The call is one statement, and leaves so many fewer than its own.
pub fn a_called_policy_is_read_where_it_stands()
    ensures { (site : Site) (section : AnySection) (room : ℕ) (node : Node) (word : List ℕ) (policy : Node) (inner : List AnyStatement) (count : ℕ)
        → CallsPolicy site section node word policy → SpellBlock site section 32 (kind_of policy ∷ []) (body_of policy) [] inner count → count < room → room ≤ 65536
        → statement_at site section room node ≡ Ok (Some (record { statement = group_from node GroupForm.Policy [] inner; room = room - 1 - count })) }
{}

/// A call that leads back to a policy in which it stands, through as many other policies as there are, each called by the first
/// thing in the one before it, is the fault PolicyLoop of its section, at the place of the call that closes the ring, wherever
/// the server has room for the calls before it.
pub fn a_policy_that_calls_itself_is_a_loop()
    ensures { (site : Site) (section : AnySection) (room before : ℕ) (node : Node) (last : Node)
        → LeadsBack site section [] before node last → before ≤ room → room ≤ 65536 → statement_at site section room node ≡ Err (TreeFault.PolicyLoop last.place) }
{}

/// A block of statements around which 32 others stand within one another, each the first thing in the one before it, is the
/// fault TooDeep of its section, at the block's own place, wherever the server has room for the others.
pub fn the_33rd_block_is_too_deep()
    ensures { (site : Site) (section : AnySection) (room : ℕ) (node : Node) (last : Node)
        → Around 32 node last → 32 ≤ room → statement_at site section room node ≡ Err (TreeFault.TooDeep last.place) }
{}

/// In the policies of a configuration each call is of an instance that is there and has a method for the section in which
/// the call stands.
pub fn each_call_can_be_made()
    ensures { (site : Site) (servers : List ServerTree) → servers_of site ≡ Ok servers → EachCallOf (IsMet site.instances) servers }
{}

/// What is so of each call of policies is so of each where something wider is asked: among the statements of one section, and
/// among those of servers. The test may look at the section in which the call stands.
pub fn what_holds_of_each_call_can_be_widened()
    ensures statements { (test wider : AnySection → AnyCall → Bool) → ((section : AnySection) (call : AnyCall) → test section call ≡ true → wider section call ≡ true)
        → (section : AnySection) (statements : List AnyStatement) → EachCall (Passes test) section statements → EachCall (Passes wider) section statements }
    ensures servers { (test wider : AnySection → AnyCall → Bool) → ((section : AnySection) (call : AnyCall) → test section call ≡ true → wider section call ≡ true)
        → (servers : List ServerTree) → EachCallOf (Passes test) servers → EachCallOf (Passes wider) servers }
{}
