ghost use Rattle.std.specs.Prelude.{◌≡◌};
ghost use Rattle.rad_tables.specs.DefaultActions.{column_of, row};

use crate::action_table::Action;
use crate::group_kind::GroupKind;
use rad_words::Section;

/// The default actions on one code, a column for each kind of place.
#[derive(Clone, Copy, Debug)]
pub(crate) struct DefaultRow {
    /// In authorize and post-auth.
    pub authorize: Action,
    pub authenticate: Action,
    pub session: Action,
    /// In preacct and accounting.
    pub accounting: Action,
    /// Inside `redundant` and `redundant-load-balance`, the same in every section.
    pub redundant: Action,
}

impl DefaultRow {
    /// The action in a group of this kind in this section.
    pub(crate) fn cell(self, section: Section, kind: GroupKind) -> Action
        ensures { result ≡ column_of section kind
            (row self.authorize self.authenticate self.session self.accounting self.redundant) }
    {
        match (kind, section) {
            (GroupKind::Redundant, _) => self.redundant,
            (GroupKind::Plain, Section::Authorize | Section::PostAuth) => self.authorize,
            (GroupKind::Plain, Section::Authenticate) => self.authenticate,
            (GroupKind::Plain, Section::Session) => self.session,
            (GroupKind::Plain, Section::Preacct | Section::Accounting) => self.accounting,
        }
    }
}
