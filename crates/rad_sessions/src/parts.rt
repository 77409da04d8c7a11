//! Sessions in 256 parts by their users, so that a change builds the parts that it changes and shares the others.

ghost use Rattle.std.specs.Prelude.{◌≡◌, ◌≤◌, false, length, OnOk, IfOk};
ghost use Rattle.std.specs.Option.{option_copied};
ghost use Rattle.rad_sessions.specs.Listed.{AreInOrder, after, count_of, is_too_many, limit, session_at};

use crate::change::Change;
use crate::listed::Listed;
use crate::part::part_of;
use crate::part_list::{found_in, joined, lengths, parts_after};
use crate::session::Session;
use crate::session_list::SessionList;
use rad_outside::NoMemory;
use std::alloc::Global;
use std::marker::Model;
use std::sync::Arc;

/// Sessions in order of their places, kept in the parts of their users.
#[derive(Debug, Drop)]
pub(crate) struct Parts {
    parts: Vec<Arc<Listed>>,
}

impl Model for Parts {
    ghost use Rattle.std.specs.Prelude.{List, [], map};
    ghost use Rattle.std.specs.Arc.{arc_value};
    ghost use Rattle.rad_sessions.specs.declared.session.Session.{Session};
    ghost use Rattle.rad_sessions.specs.Parts.{IsParted, joined};

    ghost Value = { List Session };

    ghost view = { λ p. joined [] (map arc_value p.parts.items) };

    ghost invariant = { λ p. IsParted (map arc_value p.parts.items) };
}

impl Parts {
    /// The parts of a list.
    pub(crate) fn of(alloc: Global, listed: &Listed) -> Result<Parts, NoMemory>
        ensures { IfOk result (λ parts. parts ≡ listed.now) }
    {
        let mut parts = Vec::with_capacity(alloc, 256)?;
        for number in 0..256usize {
            parts.push(Arc::new(alloc, listed.part(alloc, number)?)?)?;
        }
        Ok(Parts { parts })
    }

    /// How many sessions there are.
    pub(crate) fn len(&self) -> usize
        requires { length self.now ≤ limit }
        ensures { result ≡ length self.now }
    {
        lengths(self.parts.as_slice())
    }

    /// The session at a place: each part is looked into.
    pub(crate) fn at(&self, nas: u32, port: u32) -> Option<&Session>
        ensures { option_copied result ≡ session_at (nas, port) self.now }
    {
        found_in(self.parts.as_slice(), nas, port)
    }

    /// How many sessions a user has: the user's part is walked alone.
    pub(crate) fn count(&self, user: &[u8]) -> u32
        requires { length self.now ≤ limit }
        ensures { result ≡ count_of user.now self.now }
    {
        match self.parts.get(part_of(user)) {
            Some(part) => part.count(user),
            None => 0,
        }
    }

    /// Whether a change would add a session to as many as may stand.
    pub(crate) fn is_too_many(&self, change: &Change) -> bool
        requires { length self.now ≤ limit }
        ensures { result ≡ is_too_many self.now change.now }
    {
        match change {
            Change::Begin(session) => {
                self.len() >= 65536 && self.at(session.nas, session.port).is_none()
            }
            _ => false,
        }
    }

    /// The sessions after a change; the parts that it leaves are shared.
    pub(crate) fn after(&self, alloc: Global, change: &Change) -> Result<Parts, NoMemory>
        ensures list { IfOk result (λ parts. parts ≡ after self.now change.now) }
        ensures fits { IfOk result (λ parts. is_too_many self.now change.now ≡ false → length self.now ≤ limit → length parts ≤ limit) }
    {
        Ok(Parts {
            parts: parts_after(alloc, self.parts.as_slice(), change)?,
        })
    }

    /// The sessions in order.
    pub(crate) fn sorted(&self, alloc: Global) -> Result<SessionList, NoMemory>
        ensures list { IfOk result (λ list. list ≡ self.now) }
        ensures order { OnOk result (AreInOrder self.now) }
    {
        joined(alloc, self.parts.as_slice())?.sorted(alloc)
    }
}
