//! Entries as they are read, before their patterns are compiled.

ghost use Rattle.std.specs.Prelude.{◌≡◌, IfOk};
ghost use Rattle.mod_users.specs.Reading.{with_replies};

use crate::fault::LineFault;
use crate::placed::PlacedList;
use rad_outside::{NoMemory, Octets};

/// An entry of a users file, each of its items with the place of its value.
#[derive(Debug, Drop)]
pub struct Draft {
    pub name: Octets,
    pub checks: PlacedList,
    pub replies: PlacedList,
    pub line: u32,
}

/// The entries of a users file up to its first fault, and that fault; a pattern isn't tried yet.
#[derive(Debug, Drop)]
pub struct Drafts {
    pub drafts: Vec<Draft>,
    pub wrong: Option<LineFault>,
}

impl Draft {
    /// The entry with these reply items behind its own.
    pub(crate) fn with_replies(self, items: PlacedList) -> Result<Draft, NoMemory>
        ensures { IfOk result (λ draft. draft ≡ with_replies items self) }
    {
        let Draft {
            name,
            checks,
            replies,
            line,
        } = self;
        let mut replies = replies.into_vec();
        let mut items = items.into_vec();
        replies.append(&mut items)?;
        Ok(Draft {
            name,
            checks,
            replies: PlacedList::from_vec(replies),
            line,
        })
    }
}
