//! The statements of a section, with blocks and policies within one another. What stands within a statement is read by the same
//! functions with a statement less to go, so that no configuration leads deeper than a server has room for statements.

ghost use Rattle.std.specs.Prelude.{◌≡◌, ◌-◌, OnOk, IfOk};
ghost use Rattle.std.specs.Option.{option_map};
ghost use Rattle.unlang_tree.specs.Readings.{Gives, Leaves, after_each};
ghost use Rattle.unlang_tree.specs.Sites.{site_of};
ghost use Rattle.unlang_tree.specs.Depths.{depth_of};
ghost use Rattle.unlang_tree.specs.Groups.{plain_block, plain_statement, group_block, group_of, group_at, if_of, arm_at, policy_call, statement_by, and_also, with_own_action, has_own_actions, with_member, begun, opened_at, statement_at, with_statement, members_of};

use crate::actions::{overrides_of, with_override};
use crate::arms::{arm_of, condition_at, is_last_open, not_stray, with_next};
use crate::calls::{body_of, kind_of, not_open};
use crate::depth::{DepthRef, with_name};
use crate::fault::TreeFault;
use crate::policy_calls::{braces_at, policy_called};
use crate::refusal::{Wrong, one_deeper, one_more, refuse};
use crate::site::SiteRef;
use crate::statement::{Arm, Arms, Group, GroupForm, Overrides, StatementKind, Statements};
use crate::statements::{Counted, call_block_at, is_pair, update_statement, with_room, word_at};
use crate::words::{ArmWord, form_named, is_later_block, is_update};
use rad_conf::{Item, Node, Word};
use rad_outside::{NoMemory, Place};
use rad_words::Section;
use std::alloc::Global;
use unlang_cond::Cond;

/// How many blocks stand within one another at most.
const MOST_LEVELS: u32 = 32;

/// How many statements stand within one another at most: as many as a server has room for.
const MOST_WITHIN: u32 = 65_536;

/// What was read of what stands within a statement: its own actions, its statements, and how many statements more the server
/// has room for.
#[derive(Drop)]
pub struct Members {
    pub overrides: Overrides,
    pub statements: Statements,
    pub room: usize,
}

/// Nothing was read yet but these actions.
fn begun(alloc: Global, overrides: Overrides, room: usize) -> Members
    ensures { result ≡ begun overrides room }
{
    Members {
        overrides,
        statements: Statements::new(alloc),
        room,
    }
}

/// A block that opens nothing and calls no policy.
#[tactic(auto, unfolding(crate::specs::Groups::plain_block))]
fn plain_block(
    alloc: Global,
    site: &SiteRef<'_>,
    section: Section,
    levels: u32,
    room: usize,
    place: &Place,
    kind: &[u8],
    name: &Option<Word>,
    body: &[Node],
) -> Result<Option<Counted>, TreeFault>
    ensures { Gives result (plain_block (site_of site.now) section levels room place.now kind.now name.now body.now) }
{
    if is_update(kind) {
        return update_statement(alloc, site, levels, room, place, name, body);
    }
    if is_later_block(kind) {
        return refuse(alloc, place, Wrong::NotBuilt);
    }
    call_block_at(alloc, site, section, levels, room, place, kind, name, body)
}

/// A statement that opens nothing and calls no policy; none where it counts as not written.
#[tactic(auto, unfolding(crate::specs::Groups::plain_statement))]
fn plain_statement(
    alloc: Global,
    site: &SiteRef<'_>,
    section: Section,
    levels: u32,
    room: usize,
    node: &Node,
) -> Result<Option<Counted>, TreeFault>
    ensures { Gives result (plain_statement (site_of site.now) section levels room node.now) }
{
    let place = &node.place;
    match &node.item {
        Item::Pair(_, _, _) => refuse(alloc, place, Wrong::BadAction),
        Item::Name(word) => word_at(alloc, site, section, room, place, word.text.as_slice()),
        Item::Block(kind, name, body) => {
            let kind = kind.text.as_slice();
            let body = body.as_slice();
            plain_block(alloc, site, section, levels, room, place, kind, name, body)
        }
    }
}

/// The form and the nodes of a block of statements.
fn group_block(node: &Node) -> Option<(GroupForm, &[Node])>
    ensures { option_map (λ block. (block.0, block.1.now)) result ≡ group_block node.now }
{
    match &node.item {
        Item::Pair(_, _, _) => None,
        Item::Name(_) => None,
        Item::Block(kind, _, body) => match form_named(kind.text.as_slice()) {
            None => None,
            Some(form) => Some((form, body.as_slice())),
        },
    }
}

/// The block of statements of what was read.
fn group_of(form: GroupForm, members: Members) -> StatementKind
    ensures { result ≡ group_of form members }
{
    StatementKind::Group(Group {
        form,
        overrides: members.overrides,
        statements: members.statements,
    })
}

/// A block of statements.
#[cycle(blocks)]
#[tactic(auto, unfolding(crate::specs::Groups::group_at))]
fn group_at(
    alloc: Global,
    site: &SiteRef<'_>,
    section: Section,
    within: u32,
    depth: &DepthRef<'_>,
    room: usize,
    place: &Place,
    form: GroupForm,
    body: &[Node],
) -> Result<Counted, TreeFault>
    ensures { Gives result (group_at (opened_at (site_of site.now) section within) (depth_of depth.now) room place.now form body.now) }
{
    one_deeper(alloc, depth.levels, place)?;
    one_more(alloc, room, place)?;
    let inner = DepthRef {
        levels: depth.levels.saturating_sub(1),
        entered: depth.entered,
    };
    let none = Overrides::new(alloc);
    let left = room.saturating_sub(1);
    let members = members_in(
        alloc, site, section, within, &inner, place, form, none, left, body,
    )?;
    let left = members.room;
    Ok(with_room(alloc, left, place, group_of(form, members))?)
}

/// The `if` of one arm.
fn if_of(
    alloc: Global,
    condition: Option<Cond>,
    statements: Statements,
) -> Result<StatementKind, NoMemory>
    ensures { IfOk result (λ kind. kind ≡ if_of condition statements) }
{
    let mut arms = Arms::new(alloc);
    arms.push(Arm {
        condition,
        statements,
    })?;
    Ok(StatementKind::If(arms))
}

/// An arm, as an `if` of its own.
#[cycle(blocks)]
#[tactic(auto, unfolding(crate::specs::Groups::arm_at))]
fn arm_at(
    alloc: Global,
    site: &SiteRef<'_>,
    section: Section,
    within: u32,
    depth: &DepthRef<'_>,
    room: usize,
    word: ArmWord,
    node: &Node,
) -> Result<Counted, TreeFault>
    ensures { Gives result (arm_at (opened_at (site_of site.now) section within) (site_of site.now) (depth_of depth.now) room word node.now) }
{
    let place = &node.place;
    let condition = condition_at(alloc, site.dict, word, node)?;
    one_deeper(alloc, depth.levels, place)?;
    one_more(alloc, room, place)?;
    let inner = DepthRef {
        levels: depth.levels.saturating_sub(1),
        entered: depth.entered,
    };
    let none = Overrides::new(alloc);
    let form = GroupForm::Policy;
    let left = room.saturating_sub(1);
    let body = body_of(node);
    let members = members_in(
        alloc, site, section, within, &inner, place, form, none, left, body,
    )?;
    let after = members.room;
    let kind = if_of(alloc, condition, members.statements)?;
    Ok(with_room(alloc, after, place, kind)?)
}

/// The call of a policy.
#[cycle(blocks)]
#[tactic(auto, unfolding(crate::specs::Groups::policy_call))]
fn policy_call(
    alloc: Global,
    site: &SiteRef<'_>,
    section: Section,
    within: u32,
    depth: &DepthRef<'_>,
    room: usize,
    node: &Node,
    policy: &Node,
) -> Result<Counted, TreeFault>
    ensures { Gives result (policy_call (opened_at (site_of site.now) section within) (depth_of depth.now) room node.now policy.now) }
{
    let place = &node.place;
    let name = kind_of(policy);
    not_open(alloc, depth.entered, place, name)?;
    braces_at(alloc, node, depth.levels)?;
    one_more(alloc, room, place)?;
    let own = overrides_of(alloc, body_of(node))?;
    let names = with_name(alloc, depth.entered, name)?;
    let inner = DepthRef {
        levels: depth.levels,
        entered: names.as_slice(),
    };
    let form = GroupForm::Policy;
    let left = room.saturating_sub(1);
    let body = body_of(policy);
    let members = members_in(
        alloc, site, section, within, &inner, place, form, own, left, body,
    )?;
    let rest = members.room;
    Ok(with_room(alloc, rest, place, group_of(form, members))?)
}

/// The statement of a node, where the server has room for so many more; none where it counts as not written.
#[cycle(blocks)]
#[tactic(auto, unfolding(crate::specs::Groups::statement_by))]
fn statement_by(
    alloc: Global,
    site: &SiteRef<'_>,
    section: Section,
    within: u32,
    depth: &DepthRef<'_>,
    room: usize,
    node: &Node,
) -> Result<Option<Counted>, TreeFault>
    ensures { Gives result (statement_by (opened_at (site_of site.now) section within) (site_of site.now) section (depth_of depth.now) room node.now) }
{
    if let Some(policy) = policy_called(alloc, site.root, section, node)? {
        let one = policy_call(alloc, site, section, within, depth, room, node, policy)?;
        return Ok(Some(one));
    }
    if let Some((form, body)) = group_block(node) {
        let place = &node.place;
        let one = group_at(alloc, site, section, within, depth, room, place, form, body)?;
        return Ok(Some(one));
    }
    match arm_of(node) {
        None => plain_statement(alloc, site, section, depth.levels, room, node),
        Some(word) => {
            let one = arm_at(alloc, site, section, within, depth, room, word, node)?;
            Ok(Some(one))
        }
    }
}

/// What was read, with what a node reads as, where it counts as written.
fn and_also(
    alloc: Global,
    members: &mut Members,
    node: &Node,
    one: Option<Counted>,
) -> Result<(), NoMemory>
    ensures { OnOk result (members.new ≡ and_also members.old node.now one) }
{
    match one {
        None => Ok(()),
        Some(one) => {
            let Counted { statement, room } = one;
            members.room = room;
            with_next(alloc, &mut members.statements, node, statement)
        }
    }
}

/// An action of the block's own. After a fault what was read is given up.
#[tactic(auto, unfolding(crate::specs::Groups::with_own_action))]
fn with_own_action(alloc: Global, members: &mut Members, node: &Node) -> Result<(), TreeFault>
    ensures { Leaves result (with_own_action members.old node.now) members.new }
{
    with_override(alloc, &mut members.overrides, node)
}

/// Whether a pair among the nodes of such a statement is an action of its own.
fn has_own_actions(form: GroupForm) -> bool
    ensures { result ≡ has_own_actions form }
{
    match form {
        GroupForm::Group
        | GroupForm::Redundant
        | GroupForm::LoadBalance
        | GroupForm::RedundantLoadBalance => true,
        GroupForm::Policy => false,
    }
}

/// What was read, with one more node. After a fault it is given up.
#[cycle(blocks)]
#[tactic(auto, unfolding(crate::specs::Groups::with_member))]
fn with_member(
    alloc: Global,
    site: &SiteRef<'_>,
    section: Section,
    within: u32,
    depth: &DepthRef<'_>,
    form: GroupForm,
    members: &mut Members,
    node: &Node,
) -> Result<(), TreeFault>
    ensures { Leaves result (with_member (opened_at (site_of site.now) section within) (site_of site.now) section (depth_of depth.now) form members.old node.now) members.new }
{
    if has_own_actions(form) && is_pair(node) {
        return with_own_action(alloc, members, node);
    }
    not_stray(alloc, is_last_open(members.statements.as_slice()), node)?;
    let one = statement_by(alloc, site, section, within, depth, members.room, node)?;
    and_also(alloc, members, node, one)?;
    Ok(())
}

/// What was read, with each of these nodes, in order.
#[cycle(blocks)]
fn each_member(
    alloc: Global,
    site: &SiteRef<'_>,
    section: Section,
    within: u32,
    depth: &DepthRef<'_>,
    form: GroupForm,
    first: Members,
    body: &[Node],
) -> Result<Members, TreeFault>
    ensures { Gives result (after_each (with_member (opened_at (site_of site.now) section within) (site_of site.now) section (depth_of depth.now) form) first body.now) }
{
    let mut members = first;
    for node in body {
        with_member(
            alloc,
            site,
            section,
            within,
            depth,
            form,
            &mut members,
            node,
        )?;
    }
    Ok(members)
}

/// What stands within a statement, where so many statements more may stand within one another.
#[cycle(blocks)]
fn members_in(
    alloc: Global,
    site: &SiteRef<'_>,
    section: Section,
    within: u32,
    depth: &DepthRef<'_>,
    place: &Place,
    form: GroupForm,
    overrides: Overrides,
    room: usize,
    body: &[Node],
) -> Result<Members, TreeFault>
    ensures { Gives result (opened_at (site_of site.now) section within (depth_of depth.now) place.now form overrides room body.now) }
{
    if within == 0 {
        return refuse(alloc, place, Wrong::TooMany);
    }
    let first = begun(alloc, overrides, room);
    each_member(alloc, site, section, within - 1, depth, form, first, body)
}

/// The statement of a node directly in a section, where the server has room for so many more.
pub(crate) fn statement_at(
    alloc: Global,
    site: &SiteRef<'_>,
    section: Section,
    room: usize,
    node: &Node,
) -> Result<Option<Counted>, TreeFault>
    ensures { Gives result (statement_at (site_of site.now) section room node.now) }
{
    let depth = DepthRef {
        levels: MOST_LEVELS,
        entered: &[],
    };
    statement_by(alloc, site, section, MOST_WITHIN, &depth, room, node)
}

/// The statements with that of one more node. After a fault they are given up.
#[tactic(auto, unfolding(crate::specs::Groups::with_statement))]
fn with_statement(
    alloc: Global,
    site: &SiteRef<'_>,
    section: Section,
    members: &mut Members,
    node: &Node,
) -> Result<(), TreeFault>
    ensures { Leaves result (with_statement (site_of site.now) section members.old node.now) members.new }
{
    not_stray(alloc, is_last_open(members.statements.as_slice()), node)?;
    let one = statement_at(alloc, site, section, members.room, node)?;
    and_also(alloc, members, node, one)?;
    Ok(())
}

/// The statements of a section's nodes, in order, and how many more the server has room for.
pub(crate) fn members_of(
    alloc: Global,
    site: &SiteRef<'_>,
    section: Section,
    room: usize,
    nodes: &[Node],
) -> Result<Members, TreeFault>
    ensures { Gives result (members_of (site_of site.now) section room nodes.now) }
{
    let mut members = begun(alloc, Overrides::new(alloc), room);
    for node in nodes {
        with_statement(alloc, site, section, &mut members, node)?;
    }
    Ok(members)
}
