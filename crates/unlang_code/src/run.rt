//! A section's statements, run over a request.

ghost use Rattle.std.specs.Prelude.{◌≡◌, true, None, ◌≤◌, length, map, IfOk, OnOk, OnErr};
ghost use Rattle.std.specs.List.{AllByRecursion};
ghost use Rattle.rad_words.specs.declared.sections.Section.TheVariants.{Accounting};
ghost use Rattle.rad_outside.specs.Moments.{IsInTime};
ghost use Rattle.mod_base.specs.Reaching.{Reaches, Stops};
ghost use Rattle.unlang_tree.specs.EachCall.{calls_in, calls_in_kind};
ghost use Rattle.unlang_tree.specs.declared.statement.Arm.{Arm, out-Arm};
ghost use Rattle.unlang_tree.specs.declared.statement.Group.{out-Group};
ghost use Rattle.unlang_code.specs.Run.{called, update_code, one_child, IsUpdate, kind_done, statement_done, run_of, formed, rotated, balanced_in, group_done, arm_done, if_done, section_done};
ghost use Rattle.unlang_code.specs.Progressing.{come_to, done_in, ends_as};
ghost use Rattle.unlang_code.specs.Serving.{IsServed, AreServed};

use crate::arms::taken_of;
use crate::judgement::{Child, child_of, default_code};
use crate::members::{as_done, not_taken, of_child, picked, returned};
use crate::observer::Observer;
use crate::progress::{Done, Ended, Progress, absorbed, end_of};
use crate::update::do_lines;
use mod_base::{Module, Stack, World};
use rad_dict::Dict;
use rad_outside::NoMemory;
use rad_tables::GroupKind;
use rad_value::Scope;
use rad_words::{Code, Section};
use std::alloc::Global;
use unlang_tree::{Arm, Call, Group, GroupForm, Line, Statement, StatementKind};

/// Calls a module, whose code is the last code.
fn call<M: Module, W: World>(
    alloc: Global,
    stack: &Stack<M>,
    section: Section,
    kind: GroupKind,
    call: &Call,
    scope: &mut Scope,
    world: &mut W,
    dict: &Dict,
) -> Result<Done, NoMemory>
    requires served { IsServed M.meaning stack.now section call.now }
    requires in_time { IsInTime scope.old.moment }
    requires changes { section ≡ Accounting → (W.state world.old).takes_changes ≡ true }
    ensures ok { IfOk result (λ value. Reaches scope.old (W.state world.old) (called M.meaning stack.now dict.now section kind call.now) scope.new (W.state world.new) (done_in value)) }
    ensures in_time { OnOk result (IsInTime scope.new.moment) }
    ensures memory { OnErr result (Stops scope.old (W.state world.old) (λ s. (called M.meaning stack.now dict.now section kind call.now s).situation.effects) (W.state world.new)) }
{
    let Some(module) = stack.get(call.instance) else {
        unreachable!()
    };
    let code = module.call(alloc, section, scope, world, dict)?;
    scope.last = Some(code);
    Ok(of_child(child_of(section, kind, call.overrides.as_slice(), code)))
}

/// Does an update.
fn update(
    alloc: Global,
    section: Section,
    kind: GroupKind,
    lines: &[Line],
    scope: &mut Scope,
    dict: &Dict,
) -> Result<Child, NoMemory>
    requires { IsInTime scope.old.moment }
    ensures done { IfOk result (λ child. IsUpdate dict.now section kind lines.now scope.old scope.new child) }
    ensures in_time { OnOk result (IsInTime scope.new.moment) }
{
    let done = do_lines(alloc, lines, scope, dict)?;
    Ok(child_of(section, kind, &[], update_code(done)))
}

/// The code of an update whose lines were all done, or weren't.
fn update_code(done: bool) -> Code
    ensures { result ≡ update_code done }
{
    if done { Code::Noop } else { Code::Fail }
}

/// Does a statement of this kind.
#[cycle(running)]
fn run_kind<M: Module, W: World, O: Observer>(
    alloc: Global,
    stack: &Stack<M>,
    section: Section,
    kind: GroupKind,
    statement: &StatementKind,
    scope: &mut Scope,
    world: &mut W,
    dict: &Dict,
    observer: &mut O,
) -> Result<Done, NoMemory>
    requires served { AllByRecursion (IsServed M.meaning stack.now section) (calls_in_kind statement.now) }
    requires in_time { IsInTime scope.old.moment }
    requires changes { section ≡ Accounting → (W.state world.old).takes_changes ≡ true }
    ensures ok { IfOk result (λ value. Reaches scope.old (W.state world.old) (kind_done M.meaning stack.now dict.now section statement.now kind) scope.new (W.state world.new) (done_in value)) }
    ensures in_time { OnOk result (IsInTime scope.new.moment) }
    ensures memory { OnErr result (Stops scope.old (W.state world.old) (λ s. (kind_done M.meaning stack.now dict.now section statement.now kind s).situation.effects) (W.state world.new)) }
{
    match statement {
        StatementKind::Call(called) => {
            call(alloc, stack, section, kind, called, scope, world, dict)
        }
        StatementKind::Group(group) => run_group(
            alloc, stack, section, kind, group, scope, world, dict, observer,
        ),
        StatementKind::Return => Ok(returned()),
        StatementKind::Update(lines) => {
            let child = update(alloc, section, kind, lines.as_slice(), scope, dict)?;
            Ok(of_child(child))
        }
        StatementKind::If(arms) => run_if(
            alloc,
            stack,
            section,
            kind,
            arms.as_slice(),
            scope,
            world,
            dict,
            observer,
        ),
    }
}

/// Does a statement, and tells the observer its code.
#[cycle(running)]
fn run_statement<M: Module, W: World, O: Observer>(
    alloc: Global,
    stack: &Stack<M>,
    section: Section,
    kind: GroupKind,
    statement: &Statement,
    scope: &mut Scope,
    world: &mut W,
    dict: &Dict,
    observer: &mut O,
) -> Result<Done, NoMemory>
    requires served { AllByRecursion (IsServed M.meaning stack.now section) (calls_in statement.now) }
    requires in_time { IsInTime scope.old.moment }
    requires changes { section ≡ Accounting → (W.state world.old).takes_changes ≡ true }
    ensures ok { IfOk result (λ value. Reaches scope.old (W.state world.old) (statement_done M.meaning stack.now dict.now section statement.now kind) scope.new (W.state world.new) (done_in value)) }
    ensures in_time { OnOk result (IsInTime scope.new.moment) }
    ensures memory { OnErr result (Stops scope.old (W.state world.old) (λ s. (statement_done M.meaning stack.now dict.now section statement.now kind s).situation.effects) (W.state world.new)) }
{
    let done = run_kind(
        alloc,
        stack,
        section,
        kind,
        &statement.kind,
        scope,
        world,
        dict,
        observer,
    )?;
    if let Some(child) = done.child {
        observer.ran(&statement.place, child.code);
    }
    Ok(done)
}

/// Does statements in order, behind the heaviest child so far, up to the first behind which their group is over.
#[cycle(running)]
fn run_members<M: Module, W: World, O: Observer>(
    alloc: Global,
    stack: &Stack<M>,
    section: Section,
    kind: GroupKind,
    leading: Option<Child>,
    statements: &[Statement],
    scope: &mut Scope,
    world: &mut W,
    dict: &Dict,
    observer: &mut O,
) -> Result<Progress, NoMemory>
    requires served { AreServed M.meaning stack.now section statements.now }
    requires in_time { IsInTime scope.old.moment }
    requires changes { section ≡ Accounting → (W.state world.old).takes_changes ≡ true }
    ensures ok { IfOk result (λ value. Reaches scope.old (W.state world.old) (λ s. come_to leading (run_of M.meaning stack.now dict.now section kind statements.now s)) scope.new (W.state world.new) (λ s. (s, value))) }
    ensures in_time { OnOk result (IsInTime scope.new.moment) }
    ensures memory { OnErr result (Stops scope.old (W.state world.old) (λ s. (run_of M.meaning stack.now dict.now section kind statements.now s).situation.effects) (W.state world.new)) }
{
    let mut leading = leading;
    for statement in statements {
        let done = run_statement(
            alloc, stack, section, kind, statement, scope, world, dict, observer,
        )?;
        match absorbed(leading, done) {
            Progress::Going(heaviest) => leading = heaviest,
            Progress::Over(ended) => return Ok(Progress::Over(ended)),
        }
    }
    Ok(Progress::Going(leading))
}

/// Runs all members of a block, from that of a number on and once round.
#[cycle(running)]
fn run_around<M: Module, W: World, O: Observer>(
    alloc: Global,
    stack: &Stack<M>,
    section: Section,
    kind: GroupKind,
    statements: &[Statement],
    place: usize,
    scope: &mut Scope,
    world: &mut W,
    dict: &Dict,
    observer: &mut O,
) -> Result<Progress, NoMemory>
    requires within { place ≤ length statements.now }
    requires served { AreServed M.meaning stack.now section statements.now }
    requires in_time { IsInTime scope.old.moment }
    requires changes { section ≡ Accounting → (W.state world.old).takes_changes ≡ true }
    ensures ok { IfOk result (λ value. Reaches scope.old (W.state world.old) (λ s. come_to None (run_of M.meaning stack.now dict.now section kind (rotated place statements.now) s)) scope.new (W.state world.new) (λ s. (s, value))) }
    ensures in_time { OnOk result (IsInTime scope.new.moment) }
    ensures memory { OnErr result (Stops scope.old (W.state world.old) (λ s. (run_of M.meaning stack.now dict.now section kind (rotated place statements.now) s).situation.effects) (W.state world.new)) }
{
    let (before, from) = statements.split_at(place);
    let so_far = run_members(
        alloc, stack, section, kind, None, from, scope, world, dict, observer,
    )?;
    match so_far {
        Progress::Going(leading) => run_members(
            alloc, stack, section, kind, leading, before, scope, world, dict, observer,
        ),
        Progress::Over(ended) => Ok(Progress::Over(ended)),
    }
}

/// Runs one member of a block, or all from it on and once round.
#[cycle(running)]
fn run_balanced<M: Module, W: World, O: Observer>(
    alloc: Global,
    stack: &Stack<M>,
    section: Section,
    kind: GroupKind,
    statements: &[Statement],
    scope: &mut Scope,
    world: &mut W,
    dict: &Dict,
    observer: &mut O,
) -> Result<Ended, NoMemory>
    requires served { AreServed M.meaning stack.now section statements.now }
    requires in_time { IsInTime scope.old.moment }
    requires changes { section ≡ Accounting → (W.state world.old).takes_changes ≡ true }
    ensures ok { IfOk result (λ value. Reaches scope.old (W.state world.old) (λ s. ends_as (balanced_in kind (map (statement_done M.meaning stack.now dict.now section) statements.now) s)) scope.new (W.state world.new) (λ s. (s, value))) }
    ensures in_time { OnOk result (IsInTime scope.new.moment) }
    ensures memory { OnErr result (Stops scope.old (W.state world.old) (λ s. (balanced_in kind (map (statement_done M.meaning stack.now dict.now section) statements.now) s).situation.effects) (W.state world.new)) }
{
    let Some(place) = picked(scope, statements.len()) else {
        return Ok(end_of(Progress::Going(None)));
    };
    let so_far = match kind {
        GroupKind::Plain => {
            let (_, from) = statements.split_at(place);
            let (one, _) = from.split_at(1);
            run_members(
                alloc, stack, section, kind, None, one, scope, world, dict, observer,
            )?
        }
        GroupKind::Redundant => run_around(
            alloc, stack, section, kind, statements, place, scope, world, dict, observer,
        )?,
    };
    scope.choices = scope.choices.wrapping_add(1);
    Ok(end_of(so_far))
}

/// Runs all members of a block in order.
#[cycle(running)]
fn run_in_order<M: Module, W: World, O: Observer>(
    alloc: Global,
    stack: &Stack<M>,
    section: Section,
    kind: GroupKind,
    statements: &[Statement],
    scope: &mut Scope,
    world: &mut W,
    dict: &Dict,
    observer: &mut O,
) -> Result<Ended, NoMemory>
    requires served { AreServed M.meaning stack.now section statements.now }
    requires in_time { IsInTime scope.old.moment }
    requires changes { section ≡ Accounting → (W.state world.old).takes_changes ≡ true }
    ensures ok { IfOk result (λ value. Reaches scope.old (W.state world.old) (λ s. ends_as (run_of M.meaning stack.now dict.now section kind statements.now s)) scope.new (W.state world.new) (λ s. (s, value))) }
    ensures in_time { OnOk result (IsInTime scope.new.moment) }
    ensures memory { OnErr result (Stops scope.old (W.state world.old) (λ s. (run_of M.meaning stack.now dict.now section kind statements.now s).situation.effects) (W.state world.new)) }
{
    let so_far = run_members(
        alloc, stack, section, kind, None, statements, scope, world, dict, observer,
    )?;
    Ok(end_of(so_far))
}

/// Runs the members of a block of a form.
#[cycle(running)]
fn run_formed<M: Module, W: World, O: Observer>(
    alloc: Global,
    stack: &Stack<M>,
    section: Section,
    form: GroupForm,
    statements: &[Statement],
    scope: &mut Scope,
    world: &mut W,
    dict: &Dict,
    observer: &mut O,
) -> Result<Ended, NoMemory>
    requires served { AreServed M.meaning stack.now section statements.now }
    requires in_time { IsInTime scope.old.moment }
    requires changes { section ≡ Accounting → (W.state world.old).takes_changes ≡ true }
    ensures ok { IfOk result (λ value. Reaches scope.old (W.state world.old) (λ s. ends_as (formed form (map (statement_done M.meaning stack.now dict.now section) statements.now) s)) scope.new (W.state world.new) (λ s. (s, value))) }
    ensures in_time { OnOk result (IsInTime scope.new.moment) }
    ensures memory { OnErr result (Stops scope.old (W.state world.old) (λ s. (formed form (map (statement_done M.meaning stack.now dict.now section) statements.now) s).situation.effects) (W.state world.new)) }
{
    let plain = GroupKind::Plain;
    let redundant = GroupKind::Redundant;
    match form {
        GroupForm::Group => run_in_order(
            alloc, stack, section, plain, statements, scope, world, dict, observer,
        ),
        GroupForm::Redundant => run_in_order(
            alloc, stack, section, redundant, statements, scope, world, dict, observer,
        ),
        GroupForm::LoadBalance => run_balanced(
            alloc, stack, section, plain, statements, scope, world, dict, observer,
        ),
        GroupForm::RedundantLoadBalance => run_balanced(
            alloc, stack, section, redundant, statements, scope, world, dict, observer,
        ),
        GroupForm::Policy => run_in_order(
            alloc, stack, section, plain, statements, scope, world, dict, observer,
        ),
    }
}

/// Runs a block, which is judged in its group by its own code and actions.
#[cycle(running)]
fn run_group<M: Module, W: World, O: Observer>(
    alloc: Global,
    stack: &Stack<M>,
    section: Section,
    kind: GroupKind,
    group: &Group,
    scope: &mut Scope,
    world: &mut W,
    dict: &Dict,
    observer: &mut O,
) -> Result<Done, NoMemory>
    requires served { AreServed M.meaning stack.now section (out-Group group.now).statements }
    requires in_time { IsInTime scope.old.moment }
    requires changes { section ≡ Accounting → (W.state world.old).takes_changes ≡ true }
    ensures ok { IfOk result (λ value. Reaches scope.old (W.state world.old) (group_done M.meaning stack.now dict.now section group.now kind) scope.new (W.state world.new) (done_in value)) }
    ensures in_time { OnOk result (IsInTime scope.new.moment) }
    ensures memory { OnErr result (Stops scope.old (W.state world.old) (λ s. (group_done M.meaning stack.now dict.now section group.now kind s).situation.effects) (W.state world.new)) }
{
    let ended = run_formed(
        alloc,
        stack,
        section,
        group.form,
        group.statements.as_slice(),
        scope,
        world,
        dict,
        observer,
    )?;
    Ok(as_done(section, kind, group.overrides.as_slice(), ended))
}

/// Runs the block of an arm of an `if`, and judges it in its group.
#[cycle(running)]
fn run_arm<M: Module, W: World, O: Observer>(
    alloc: Global,
    stack: &Stack<M>,
    section: Section,
    kind: GroupKind,
    arm: &Arm,
    scope: &mut Scope,
    world: &mut W,
    dict: &Dict,
    observer: &mut O,
) -> Result<Done, NoMemory>
    requires served { AreServed M.meaning stack.now section (out-Arm arm.now).statements }
    requires in_time { IsInTime scope.old.moment }
    requires changes { section ≡ Accounting → (W.state world.old).takes_changes ≡ true }
    ensures ok { IfOk result (λ value. Reaches scope.old (W.state world.old) (arm_done M.meaning stack.now dict.now section arm.now kind) scope.new (W.state world.new) (done_in value)) }
    ensures in_time { OnOk result (IsInTime scope.new.moment) }
    ensures memory { OnErr result (Stops scope.old (W.state world.old) (λ s. (arm_done M.meaning stack.now dict.now section arm.now kind s).situation.effects) (W.state world.new)) }
{
    let ended = run_in_order(
        alloc,
        stack,
        section,
        GroupKind::Plain,
        arm.statements.as_slice(),
        scope,
        world,
        dict,
        observer,
    )?;
    Ok(as_done(section, kind, &[], ended))
}

/// Tries the conditions of an `if` up to the first that holds, and runs the block behind it. Where none holds nothing runs.
#[cycle(running)]
fn run_if<M: Module, W: World, O: Observer>(
    alloc: Global,
    stack: &Stack<M>,
    section: Section,
    kind: GroupKind,
    arms: &[Arm],
    scope: &mut Scope,
    world: &mut W,
    dict: &Dict,
    observer: &mut O,
) -> Result<Done, NoMemory>
    requires served { AllByRecursion (λ (arm : Arm). AreServed M.meaning stack.now section (out-Arm arm).statements) arms.now }
    requires in_time { IsInTime scope.old.moment }
    requires changes { section ≡ Accounting → (W.state world.old).takes_changes ≡ true }
    ensures ok { IfOk result (λ value. Reaches scope.old (W.state world.old) (if_done M.meaning stack.now dict.now section arms.now kind) scope.new (W.state world.new) (done_in value)) }
    ensures in_time { OnOk result (IsInTime scope.new.moment) }
    ensures memory { OnErr result (Stops scope.old (W.state world.old) (λ s. (if_done M.meaning stack.now dict.now section arms.now kind s).situation.effects) (W.state world.new)) }
{
    let taken = taken_of(alloc, arms, scope, dict)?;
    match taken {
        Some(arm) => run_arm(
            alloc, stack, section, kind, arm, scope, world, dict, observer,
        ),
        None => Ok(not_taken()),
    }
}

/// Runs the statements of a section from its beginning, and answers its code.
pub(crate) fn run_section<M: Module, W: World, O: Observer>(
    alloc: Global,
    stack: &Stack<M>,
    section: Section,
    statements: &[Statement],
    scope: &mut Scope,
    world: &mut W,
    dict: &Dict,
    observer: &mut O,
) -> Result<Code, NoMemory>
    requires served { AreServed M.meaning stack.now section statements.now }
    requires in_time { IsInTime scope.old.moment }
    requires changes { section ≡ Accounting → (W.state world.old).takes_changes ≡ true }
    ensures ok { IfOk result (λ value. Reaches scope.old (W.state world.old) (section_done M.meaning stack.now dict.now section statements.now) scope.new (W.state world.new) (λ s. (s, value))) }
    ensures in_time { OnOk result (IsInTime scope.new.moment) }
    ensures memory { OnErr result (Stops scope.old (W.state world.old) (λ s. (section_done M.meaning stack.now dict.now section statements.now s).0.effects) (W.state world.new)) }
{
    scope.last = None;
    scope.loops = [None, None, None, None, None, None, None, None];
    let so_far = run_members(
        alloc,
        stack,
        section,
        GroupKind::Plain,
        None,
        statements,
        scope,
        world,
        dict,
        observer,
    )?;
    Ok(match end_of(so_far).code {
        Some(code) => code,
        None => default_code(section),
    })
}
