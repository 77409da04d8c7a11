//! The nodes of a section: its statements, and its subsections.

ghost use Rattle.std.specs.Prelude.{◌≡◌, [], OnOk};
ghost use Rattle.std.specs.Option.{option_map, option_copied};
ghost use Rattle.unlang_tree.specs.Readings.{Gives, Leaves};
ghost use Rattle.unlang_tree.specs.Sites.{site_of};
ghost use Rattle.unlang_tree.specs.Sections.{subsection_word, is_subsection, subsection_block, with_subsection, name_called, policy_name, own_name, with_call, with_run, with_own, with_written, with_one, with_part, parts_of};

use crate::arms::{is_open, not_stray, with_next};
use crate::calls::called_name;
use crate::fault::TreeFault;
use crate::groups::{members_of, statement_at};
use crate::policies::{Subsection, Subsections};
use crate::site::SiteRef;
use crate::statement::{GroupForm, Statement, StatementKind, Statements};
use crate::statements::Counted;
use rad_conf::{Item, Node};
use rad_outside::{NoMemory, Octets};
use rad_words::Section;
use std::alloc::Global;

/// What is known of a section: its statements, its subsections, and how many statements more the server has room for.
#[derive(Drop)]
pub struct Parts {
    pub statements: Statements,
    pub subsections: Subsections,
    pub room: usize,
    /// An `elsif` or `else` may follow.
    pub may_go_on: bool,
}

/// The word that begins a subsection of a section; nothing where it has none.
fn subsection_word(section: Section) -> &'static [u8]
    ensures { result.now ≡ subsection_word section }
{
    match section {
        Section::Authenticate => b"Auth-Type",
        Section::PostAuth => b"Post-Auth-Type",
        Section::Authorize | Section::Session | Section::Preacct | Section::Accounting => b"",
    }
}

/// Whether a block's kind begins a subsection of a section.
fn is_subsection(section: Section, kind: &[u8]) -> bool
    ensures { result ≡ is_subsection section kind.now }
{
    kind.eq_ignore_ascii_case(subsection_word(section))
}

/// The name and the nodes of a subsection.
fn subsection_block(section: Section, node: &Node) -> Option<(&[u8], &[Node])>
    ensures { option_map (λ block. (block.0.now, block.1.now)) result ≡ subsection_block section node.now }
{
    match &node.item {
        Item::Pair(_, _, _) => None,
        Item::Name(_) => None,
        Item::Block(kind, name, body) => match name {
            None => None,
            Some(name) => {
                if is_subsection(section, kind.text.as_slice()) {
                    Some((name.text.as_slice(), body.as_slice()))
                } else {
                    None
                }
            }
        },
    }
}

/// One more subsection, with these nodes. After a fault what was known is given up.
#[tactic(auto, unfolding(crate::specs::Sections::with_subsection))]
fn with_subsection(
    alloc: Global,
    site: &SiteRef<'_>,
    section: Section,
    known: &mut Parts,
    name: &[u8],
    body: &[Node],
) -> Result<(), TreeFault>
    ensures { Leaves result (with_subsection (site_of site.now) section known.old name.now body.now) known.new }
{
    let members = members_of(alloc, site, section, known.room, body)?;
    let name = Octets::of(alloc, name)?;
    known.room = members.room;
    known.may_go_on = false;
    let statements = members.statements;
    known.subsections.push(Subsection { name, statements })?;
    Ok(())
}

/// The name that an item calls, where it is a call.
fn name_called(node: &Node) -> Option<&[u8]>
    ensures { option_copied result ≡ name_called node.now }
{
    match &node.item {
        Item::Pair(_, _, _) => None,
        Item::Name(word) => Some(called_name(word.text.as_slice())),
        Item::Block(kind, _, _) => Some(called_name(kind.text.as_slice())),
    }
}

/// The name that the call of a policy has; another block of statements has none.
fn policy_name(node: &Node, form: GroupForm) -> Option<&[u8]>
    ensures { option_copied result ≡ policy_name node.now form }
{
    match form {
        GroupForm::Group
        | GroupForm::Redundant
        | GroupForm::LoadBalance
        | GroupForm::RedundantLoadBalance => None,
        GroupForm::Policy => name_called(node),
    }
}

/// The name of the subsection that a plain call directly in authenticate stands for.
fn own_name<'a>(node: &'a Node, kind: &StatementKind) -> Option<&'a [u8]>
    ensures { option_copied result ≡ own_name node.now kind.now }
{
    match kind {
        StatementKind::Call(_) => name_called(node),
        StatementKind::Group(group) => policy_name(node, group.form),
        StatementKind::Return => None,
        StatementKind::Update(_) => None,
        StatementKind::If(_) => None,
    }
}

/// The subsections with a call that stands for one, where it has a name.
fn push_call(
    alloc: Global,
    name: Option<&[u8]>,
    statement: Statement,
    subsections: &mut Subsections,
) -> Result<(), NoMemory>
    ensures { OnOk result (subsections.new ≡ with_call (option_copied name.entry) statement subsections.old) }
{
    let Some(name) = name else {
        return Ok(());
    };
    let name = Octets::of(alloc, name)?;
    let mut statements = Statements::new(alloc);
    statements.push(statement)?;
    subsections.push(Subsection { name, statements })?;
    Ok(())
}

/// The parts with a statement that runs with the section, or more arms of the last one.
fn with_run(alloc: Global, node: &Node, known: &mut Parts, one: Counted) -> Result<(), NoMemory>
    ensures { OnOk result (known.new ≡ with_run node.now known.old one) }
{
    known.room = one.room;
    known.may_go_on = is_open(&one.statement);
    with_next(alloc, &mut known.statements, node, one.statement)
}

/// The parts with a statement directly in authenticate.
fn with_own(alloc: Global, node: &Node, known: &mut Parts, one: Counted) -> Result<(), NoMemory>
    ensures { OnOk result (known.new ≡ with_own node.now known.old one) }
{
    let Counted { statement, room } = one;
    known.room = room;
    known.may_go_on = is_open(&statement);
    let name = own_name(node, &statement.kind);
    push_call(alloc, name, statement, &mut known.subsections)
}

/// The parts with a statement directly in a section.
fn with_written(
    alloc: Global,
    section: Section,
    node: &Node,
    known: &mut Parts,
    one: Counted,
) -> Result<(), NoMemory>
    ensures { OnOk result (known.new ≡ with_written section node.now known.old one) }
{
    match section {
        Section::Authenticate => with_own(alloc, node, known, one),
        Section::Authorize
        | Section::Session
        | Section::Preacct
        | Section::Accounting
        | Section::PostAuth => with_run(alloc, node, known, one),
    }
}

/// The parts with a statement directly in a section, where it counts as written.
fn with_one(
    alloc: Global,
    section: Section,
    node: &Node,
    known: &mut Parts,
    one: Option<Counted>,
) -> Result<(), NoMemory>
    ensures { OnOk result (known.new ≡ with_one section node.now known.old one) }
{
    match one {
        None => Ok(()),
        Some(one) => with_written(alloc, section, node, known, one),
    }
}

/// What is known after one more node. After a fault it is given up.
#[tactic(auto, unfolding(crate::specs::Sections::with_part))]
fn with_part(
    alloc: Global,
    site: &SiteRef<'_>,
    section: Section,
    known: &mut Parts,
    node: &Node,
) -> Result<(), TreeFault>
    ensures { Leaves result (with_part (site_of site.now) section known.old node.now) known.new }
{
    if let Some((name, body)) = subsection_block(section, node) {
        return with_subsection(alloc, site, section, known, name, body);
    }
    not_stray(alloc, known.may_go_on, node)?;
    let one = statement_at(alloc, site, section, known.room, node)?;
    with_one(alloc, section, node, known, one)?;
    Ok(())
}

/// What is known of a section by its nodes.
pub(crate) fn parts_of(
    alloc: Global,
    site: &SiteRef<'_>,
    section: Section,
    room: usize,
    body: &[Node],
) -> Result<Parts, TreeFault>
    ensures { Gives result (parts_of (site_of site.now) section room body.now) }
{
    let mut known = Parts {
        statements: Statements::new(alloc),
        subsections: Subsections::new(alloc),
        room,
        may_go_on: false,
    };
    for node in body {
        with_part(alloc, site, section, &mut known, node)?;
    }
    Ok(known)
}
