//! Source trees as text: each server as `NAME{..}`, in it each section as its name, its statements and its subsections
//! and a semicolon. A statement is ` LINE:call NUMBER`, by the number of the instance, with `{CODE=ACTION ..}` where it has
//! actions of its own, ` LINE:return`, ` LINE:update{..}` as `updates` says, or ` LINE:FORM(..)` for a block of statements, with its own
//! actions before its statements; the call of a policy is such a block of the form `policy`. An `if` is ` LINE:if(..)`, each arm of
//! it as `true(..)` or `false(..)`, by whether its condition holds of an empty request, or `else(..)`. A subsection is ` [NAME..]`
//! with its statements. No servers at all are `nothing`.

use crate::updates::push_update;
use rad_dict::Dict;
use rad_outside::{NoMemory, Peer};
use rad_tables::Action;
use rad_value::{Lists, Scope};
use rad_words::{Code, Section};
use shared_cases::push_number;
use std::alloc::Global;
use unlang_cond::Cond;
use unlang_tree::{Arm, GroupForm, Override, Policies, SectionTree, Statement, StatementKind};

/// The text of all servers, under the dictionary of their conditions.
pub fn policies_text(alloc: Global, policies: &Policies, dict: &Dict) -> Result<Vec<u8>, NoMemory> {
    let mut text = Vec::new(alloc);
    for server in policies.servers() {
        text.extend_from_slice(server.name.as_slice())?;
        text.push(b'{')?;
        for section in server.sections.as_slice() {
            push_section(alloc, &mut text, section, dict)?;
        }
        text.push(b'}')?;
    }
    if text.is_empty() {
        text.extend_from_slice(b"nothing")?;
    }
    Ok(text)
}

fn word_of(section: Section) -> &'static [u8] {
    match section {
        Section::Authorize => b"authorize",
        Section::Authenticate => b"authenticate",
        Section::Session => b"session",
        Section::Preacct => b"preacct",
        Section::Accounting => b"accounting",
        Section::PostAuth => b"post-auth",
    }
}

fn push_section(
    alloc: Global,
    to: &mut Vec<u8>,
    section: &SectionTree,
    dict: &Dict,
) -> Result<(), NoMemory> {
    to.extend_from_slice(word_of(section.section))?;
    push_statements(alloc, to, section.statements.as_slice(), dict)?;
    for subsection in section.subsections.as_slice() {
        to.extend_from_slice(b" [")?;
        to.extend_from_slice(subsection.name.as_slice())?;
        push_statements(alloc, to, subsection.statements.as_slice(), dict)?;
        to.push(b']')?;
    }
    to.push(b';')?;
    Ok(())
}

/// Writes statements; of more than eight the first, the last and their number alone.
#[cycle(statements)]
fn push_statements(
    alloc: Global,
    to: &mut Vec<u8>,
    statements: &[Statement],
    dict: &Dict,
) -> Result<(), NoMemory> {
    let count = statements.len();
    if count <= 8 {
        for statement in statements {
            push_statement(alloc, to, statement, dict)?;
        }
        return Ok(());
    }
    if let (Some(first), Some(last)) = (statements.first(), statements.last()) {
        push_statement(alloc, to, first, dict)?;
        to.extend_from_slice(b" ..")?;
        push_statement(alloc, to, last, dict)?;
        to.extend_from_slice(b" of ")?;
        push_number(alloc, to, count as u64)?;
    }
    Ok(())
}

/// Writes a statement, with those in it.
#[cycle(statements)]
fn push_statement(
    alloc: Global,
    to: &mut Vec<u8>,
    statement: &Statement,
    dict: &Dict,
) -> Result<(), NoMemory> {
    to.push(b' ')?;
    push_number(alloc, to, u64::from(statement.place.line))?;
    match &statement.kind {
        StatementKind::Call(call) => {
            to.extend_from_slice(b":call ")?;
            push_number(alloc, to, u64::from(call.instance))?;
            push_overrides(alloc, to, call.overrides.as_slice())
        }
        StatementKind::Group(group) => {
            to.push(b':')?;
            to.extend_from_slice(form_name(group.form))?;
            push_overrides(alloc, to, group.overrides.as_slice())?;
            to.push(b'(')?;
            push_statements(alloc, to, group.statements.as_slice(), dict)?;
            Ok(to.push(b')')?)
        }
        StatementKind::Return => Ok(to.extend_from_slice(b":return")?),
        StatementKind::Update(lines) => {
            to.push(b':')?;
            push_update(alloc, to, lines.as_slice())
        }
        StatementKind::If(arms) => {
            to.extend_from_slice(b":if(")?;
            push_arms(alloc, to, arms.as_slice(), dict)?;
            Ok(to.push(b')')?)
        }
    }
}

/// Writes the arms of an `if`; of more than eight the first, the last and their number alone.
#[cycle(statements)]
fn push_arms(alloc: Global, to: &mut Vec<u8>, arms: &[Arm], dict: &Dict) -> Result<(), NoMemory> {
    let count = arms.len();
    if count <= 8 {
        for arm in arms {
            push_arm(alloc, to, arm, dict)?;
        }
        return Ok(());
    }
    if let (Some(first), Some(last)) = (arms.first(), arms.last()) {
        push_arm(alloc, to, first, dict)?;
        to.extend_from_slice(b"..")?;
        push_arm(alloc, to, last, dict)?;
        to.extend_from_slice(b" of ")?;
        push_number(alloc, to, count as u64)?;
    }
    Ok(())
}

/// Writes an arm, with the statements in it.
#[cycle(statements)]
fn push_arm(alloc: Global, to: &mut Vec<u8>, arm: &Arm, dict: &Dict) -> Result<(), NoMemory> {
    to.extend_from_slice(asked(alloc, &arm.condition, dict)?)?;
    to.push(b'(')?;
    push_statements(alloc, to, arm.statements.as_slice(), dict)?;
    Ok(to.push(b')')?)
}

/// What an arm asks: whether its condition holds of an empty request.
fn asked(alloc: Global, condition: &Option<Cond>, dict: &Dict) -> Result<&'static [u8], NoMemory> {
    let Some(condition) = condition else {
        return Ok(b"else");
    };
    let from = Peer { addr: 0, port: 0 };
    let mut scope = Scope::new(Lists::new(alloc), from, 0, 0, [0; 16]);
    if condition.holds(alloc, &mut scope, dict)? {
        Ok(b"true")
    } else {
        Ok(b"false")
    }
}

/// The word of a form of blocks.
fn form_name(form: GroupForm) -> &'static [u8] {
    match form {
        GroupForm::Group => b"group",
        GroupForm::Redundant => b"redundant",
        GroupForm::LoadBalance => b"load-balance",
        GroupForm::RedundantLoadBalance => b"redundant-load-balance",
        GroupForm::Policy => b"policy",
    }
}

/// Writes the actions that aren't the default ones, as `{CODE=ACTION ..}`.
fn push_overrides(alloc: Global, to: &mut Vec<u8>, overrides: &[Override]) -> Result<(), NoMemory> {
    if overrides.is_empty() {
        return Ok(());
    }
    let mut before: &[u8] = b"{";
    for one in overrides {
        to.extend_from_slice(before)?;
        to.extend_from_slice(name_of(one.code))?;
        to.push(b'=')?;
        push_action(alloc, to, one.action)?;
        before = b" ";
    }
    Ok(to.push(b'}')?)
}

fn push_action(alloc: Global, to: &mut Vec<u8>, action: Action) -> Result<(), NoMemory> {
    match action {
        Action::Return => Ok(to.extend_from_slice(b"return")?),
        Action::Reject => Ok(to.extend_from_slice(b"reject")?),
        Action::Priority(priority) => push_number(alloc, to, u64::from(priority)),
    }
}

/// The name of a return code.
fn name_of(code: Code) -> &'static [u8] {
    match code {
        Code::Reject => b"reject",
        Code::Fail => b"fail",
        Code::Ok => b"ok",
        Code::Handled => b"handled",
        Code::Invalid => b"invalid",
        Code::Userlock => b"userlock",
        Code::Notfound => b"notfound",
        Code::Noop => b"noop",
        Code::Updated => b"updated",
    }
}
