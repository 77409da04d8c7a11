//! A list of sessions in which a place is found without a look at the others.

ghost use Rattle.std.specs.Prelude.{◌≡◌, ◌≤◌, ◌+◌, [], length, OnOk, IfOk, if◌then◌else◌};
ghost use Rattle.std.specs.Arc.{arc_value};
ghost use Rattle.std.specs.Option.{option_copied};
ghost use Rattle.std.specs.List.{filter};
ghost use Rattle.rad_sessions.specs.Keyed.{grown};
ghost use Rattle.rad_sessions.specs.Listed.{AreInOrder, place_of, session_at, begun, ended, begun_again, renewed_at, is_elsewhere, count_of, limit};
ghost use Rattle.rad_sessions.specs.Parts.{all_begun, is_in};

use crate::part::part_of;
use crate::session::Session;
use crate::session_list::SessionList;
use rad_outside::NoMemory;
use std::alloc::Global;
use std::collections::BTreeMap;
use std::marker::Model;
use std::sync::Arc;

/// Sessions in order of their places; each is shared, so that a copy of the list copies none.
#[derive(Debug, Drop)]
pub(crate) struct Listed {
    entries: BTreeMap<(u32, u32), Arc<Session>>,
}

impl Model for Listed {
    ghost use Rattle.std.specs.Prelude.{List};
    ghost use Rattle.std.specs.Arc.{arc_value};
    ghost use Rattle.rad_sessions.specs.declared.session.Session.{Session};
    ghost use Rattle.rad_sessions.specs.Keyed.{sessions_of, AreKeyed};

    ghost Value = { List Session };

    ghost view = { λ l. sessions_of arc_value l.entries.entries };

    ghost invariant = { λ l. AreKeyed arc_value l.entries.entries };
}

impl Listed {
    /// No sessions.
    pub(crate) fn new(alloc: Global) -> Listed
        ensures { result ≡ [] }
    {
        Listed {
            entries: BTreeMap::new(alloc),
        }
    }

    /// How many sessions there are.
    pub(crate) fn len(&self) -> usize
        ensures { result ≡ length self.now }
    {
        self.entries.len()
    }

    /// The session at a place.
    pub(crate) fn at(&self, nas: u32, port: u32) -> Option<&Session>
        ensures { option_copied result ≡ session_at (nas, port) self.now }
    {
        match self.entries.get(&(nas, port)) {
            Some(session) => Some(&**session),
            None => None,
        }
    }

    /// One session more in its place, instead of one there.
    pub(crate) fn begin(&mut self, alloc: Global, session: Session) -> Result<(), NoMemory>
        ensures list { OnOk result (self.new ≡ begun session self.old) }
        ensures grown { OnOk result (length self.new ≡ length self.old + grown (session_at (place_of session) self.old)) }
    {
        self.begin_shared(Arc::new(alloc, session)?)
    }

    /// One session more in its place, which is shared.
    fn begin_shared(&mut self, session: Arc<Session>) -> Result<(), NoMemory>
        ensures list { OnOk result (self.new ≡ begun (arc_value session) self.old) }
        ensures grown { OnOk result (length self.new ≡ length self.old + grown (session_at (place_of (arc_value session)) self.old)) }
    {
        let place = (session.nas, session.port);
        self.entries.insert(place, session)?;
        Ok(())
    }

    /// One session more, where it stands in a part.
    fn begin_in(&mut self, part: usize, session: &Arc<Session>) -> Result<(), NoMemory>
        ensures { OnOk result (self.new ≡ (if is_in part (arc_value session.now) then begun (arc_value session.now) self.old else self.old)) }
    {
        if part_of(session.user.as_slice()) == part {
            self.begin_shared(Arc::try_clone(session)?)
        } else {
            Ok(())
        }
    }

    /// The sessions of a part.
    pub(crate) fn part(&self, alloc: Global, part: usize) -> Result<Listed, NoMemory>
        ensures list { IfOk result (λ listed. listed ≡ filter (is_in part) self.now) }
        ensures order { OnOk result (AreInOrder self.now) }
    {
        let mut listed = Listed::new(alloc);
        for (_, session) in self.entries.iter() {
            listed.begin_in(part, session)?;
        }
        Ok(listed)
    }

    /// With the sessions of another list, each in its place.
    pub(crate) fn take_in(&mut self, other: &Listed) -> Result<(), NoMemory>
        ensures { OnOk result (self.new ≡ all_begun self.old other.now) }
    {
        for (_, session) in &other.entries {
            self.begin_shared(Arc::try_clone(session)?)?;
        }
        Ok(())
    }

    /// Without the session at a place.
    pub(crate) fn end(&mut self, nas: u32, port: u32)
        ensures list { self.new ≡ ended (nas, port) self.old }
        ensures shorter { length self.new ≤ length self.old }
    {
        self.entries.remove(&(nas, port));
    }

    /// Without the sessions of a NAS.
    pub(crate) fn clear(&mut self, nas: u32)
        ensures list { self.new ≡ filter (is_elsewhere nas) self.old }
        ensures shorter { length self.new ≤ length self.old }
    {
        self.entries.retain(|place, _| place.0 != nas);
    }

    /// The session at a place with another address of its user; without one there, nothing changes.
    pub(crate) fn renew(
        &mut self,
        alloc: Global,
        nas: u32,
        port: u32,
        framed: u32,
    ) -> Result<(), NoMemory>
        ensures list { OnOk result (self.new ≡ begun_again (renewed_at (nas, port) framed self.old) self.old) }
        ensures length { OnOk result (length self.new ≡ length self.old) }
    {
        match self.renewed_at(alloc, nas, port, framed)? {
            Some(session) => self.begin(alloc, session),
            None => Ok(()),
        }
    }

    /// The session at a place, with another address of its user.
    fn renewed_at(
        &self,
        alloc: Global,
        nas: u32,
        port: u32,
        framed: u32,
    ) -> Result<Option<Session>, NoMemory>
        ensures { IfOk result (λ session. session ≡ renewed_at (nas, port) framed self.now) }
    {
        match self.at(nas, port) {
            Some(session) => Ok(Some(session.with_framed(alloc, framed)?)),
            None => Ok(None),
        }
    }

    /// How many sessions a user has.
    pub(crate) fn count(&self, user: &[u8]) -> u32
        requires { length self.now ≤ limit }
        ensures { result ≡ count_of user.now self.now }
    {
        let mut count = 0u32;
        for (_, session) in &self.entries {
            if session.user.as_slice() == user {
                count += 1;
            }
        }
        count
    }

    /// The sessions in order.
    pub(crate) fn sorted(&self, alloc: Global) -> Result<SessionList, NoMemory>
        ensures list { IfOk result (λ list. list ≡ self.now) }
        ensures order { OnOk result (AreInOrder self.now) }
    {
        let mut items = Vec::new(alloc);
        for (_, session) in self.entries.iter() {
            items.push(Arc::try_clone(session)?)?;
        }
        Ok(SessionList::from_vec(items))
    }

    /// The same sessions, each shared.
    pub(crate) fn copy(&self) -> Result<Listed, NoMemory>
        ensures { IfOk result (λ listed. listed ≡ self.now) }
    {
        Ok(Listed {
            entries: self.entries.clone()?,
        })
    }
}
