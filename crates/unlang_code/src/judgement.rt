//! What a group of statements answers, from the codes of its children.

ghost use Rattle.std.specs.Prelude.{◌≡◌};
ghost use Rattle.unlang_code.specs.Judgement.{same_code, overridden, child_of, ended_by, priority_of, heavier_of, default_code};

use rad_tables::{Action, GroupKind, default_actions};
use rad_words::{Code, Section};
use unlang_tree::Override;

/// A statement that gave a code, and the group's action on it.
#[derive(Clone, Copy, Debug, PartialEq, Eq)]
pub(crate) struct Child {
    pub(crate) code: Code,
    pub(crate) action: Action,
}

/// Whether two codes are one.
fn same_code(a: Code, b: Code) -> bool
    ensures { result ≡ same_code a b }
{
    a as u8 == b as u8
}

/// The action that overrides give for a code, or this one where there is none.
fn overridden(overrides: &[Override], code: Code, default: Action) -> Action
    ensures { result ≡ overridden overrides.now code default }
{
    let mut action = default;
    for item in overrides {
        if same_code(item.code, code) {
            action = item.action;
        }
    }
    action
}

/// The child that a code is, in a group of this kind in a section, under its own overrides.
pub(crate) fn child_of(
    section: Section,
    kind: GroupKind,
    overrides: &[Override],
    code: Code,
) -> Child
    ensures { result ≡ child_of section kind overrides.now code }
{
    let default = default_actions(section, kind).at(code);
    Child {
        code,
        action: overridden(overrides, code, default),
    }
}

/// The code of the group, where a child ends it.
pub(crate) fn ended_by(child: Child) -> Option<Code>
    ensures { result ≡ ended_by child }
{
    match child.action {
        Action::Return => Some(child.code),
        Action::Reject => Some(Code::Reject),
        Action::Priority(_) => None,
    }
}

/// How much a child weighs.
fn priority_of(child: Child) -> u32
    ensures { result ≡ priority_of child }
{
    match child.action {
        Action::Priority(priority) => priority,
        Action::Return | Action::Reject => 0,
    }
}

/// The heaviest of the children so far, and one more. Of those that weigh the same it is the first.
pub(crate) fn heavier_of(leading: Option<Child>, child: Child) -> Child
    ensures { result ≡ heavier_of leading child }
{
    match leading {
        None => child,
        Some(leading) => {
            if priority_of(leading) < priority_of(child) {
                child
            } else {
                leading
            }
        }
    }
}

/// The code of a section without children.
pub(crate) fn default_code(section: Section) -> Code
    ensures { result ≡ default_code section }
{
    match section {
        Section::Authorize => Code::Notfound,
        Section::Authenticate => Code::Reject,
        Section::Session => Code::Fail,
        Section::Preacct | Section::Accounting | Section::PostAuth => Code::Noop,
    }
}
