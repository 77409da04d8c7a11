ghost use Rattle.std.specs.Prelude.{◌≡◌, ◌≢◌, length};
ghost use Rattle.rad_words.specs.declared.codes.Code.{Code};
ghost use Rattle.rad_tables.specs.ActionList.{action_of};
ghost use Rattle.rad_tables.specs.DefaultActions.{default_action};

use crate::default_rows::DefaultRow;
use crate::group_kind::GroupKind;
use rad_words::{Code, Section};
use std::marker::Model;

/// What a group does on the code of a child: it ends with that code, it ends with `reject`, or it goes
/// on and weighs the code by a priority, 1 to 64, the greatest of which wins.
#[derive(Clone, Copy, Debug, PartialEq, Eq)]
pub enum Action {
    Return,
    Reject,
    Priority(u32),
}

/// The actions of a group, one for each code: nine of them, in the order of `Code`.
#[derive(Clone, Copy, Debug)]
pub struct Actions<const N: usize> {
    actions: [Action; N],
}

impl<const N: usize> Model for Actions<N> {
    ghost use Rattle.std.specs.Prelude.{List};
    ghost use Rattle.rad_tables.specs.declared.action_table.Action.{Action};

    ghost Value = { List Action };

    ghost view = { λ a. a.actions };

    ghost inverse = { λ actions. record { actions = actions } };
}

impl<const N: usize> Actions<N> {
    /// The action on `code`.
    pub fn at(&self, code: Code) -> Action
        requires { N ≡ 9 }
        ensures { result ≡ action_of self.now code }
    {
        self.actions[code as usize]
    }

    /// The same actions but for the one on `code`, in whose place this one comes.
    pub fn with(self, code: Code, action: Action) -> Actions<N>
        requires { N ≡ 9 }
        ensures changed { action_of result code ≡ action }
        ensures others { (other : Code) → other ≢ code → action_of result other ≡ action_of self.entry other }
        ensures nine { length result ≡ length self.entry }
    {
        let mut actions = self.actions;
        actions[code as usize] = action;
        Actions { actions }
    }
}

/// An action as the table below writes it: R is return, a number is that priority.
macro_rules! action {
    (R) => {
        Action::Return
    };
    ($priority:literal) => {
        Action::Priority($priority)
    };
}

/// The actions in a group of this kind in this section, from a table with a row for each code.
macro_rules! actions_of {
    ($section:expr, $kind:expr; $($code:ident $authorize:tt $authenticate:tt $session:tt $accounting:tt $redundant:tt)*) => {
        Actions {
            actions: [$(
                DefaultRow {
                    authorize: action!($authorize),
                    authenticate: action!($authenticate),
                    session: action!($session),
                    accounting: action!($accounting),
                    redundant: action!($redundant),
                }
                .cell($section, $kind)
            ),*],
        }
    };
}

/// The default actions of a group of this kind in this section, before a child's own actions take the
/// place of single ones. This project's own table, after FreeRADIUS 3 and unlang(5).
pub fn default_actions(section: Section, kind: GroupKind) -> Actions<9>
    ensures cells { (code : Code) → action_of result code ≡ default_action section kind code }
    ensures nine { length result ≡ 9 }
{
    // The columns: authorize and post-auth; authenticate; session; preacct and accounting; every section inside `redundant`.
    actions_of!(section, kind;
        Reject R R R R R
        Fail R 1 1 R 1
        Ok 3 R R 2 R
        Handled R R R R R
        Invalid R 1 R R R
        Userlock R R R R R
        Notfound 1 R R R R
        Noop 2 1 R 1 R
        Updated 4 1 R 3 R
    )
}
