//! The sessions that a server keeps, and room for their next change.

ghost use Rattle.std.specs.Prelude.{◌≡◌, [], Some, None, false, OnOk, OnErr, IfOk};
ghost use Rattle.std.specs.Option.{option_copied};
ghost use Rattle.rad_sessions.specs.Listed.{AreInOrder, session_at, after, count_of, is_too_many};
ghost use Rattle.std.specs.Arc.{arc_value};
ghost use Rattle.rad_sessions.specs.Keyed.{IsReady};
ghost use Rattle.rad_sessions.specs.Kept.{Kept, without_room, IsFullWhere};
ghost use Rattle.rad_sessions.specs.Log.{folded};

use crate::change::Change;
use crate::fault::RoomFault;
use crate::folding::folded;
use crate::listed::Listed;
use crate::parts::Parts;
use crate::session::Session;
use crate::session_list::SessionList;
use rad_outside::NoMemory;
use std::alloc::Global;
use std::marker::Model;
use std::sync::Arc;

/// The list that takes the present one's place when a change is done.
#[derive(Debug, Drop)]
struct Room {
    change: Change,
    ready: Arc<Parts>,
}

/// Sessions in order of their places, 65,536 at most, and the change that room was made for, or none. The list is kept in
/// parts and shared with snapshots; a change builds the parts that it changes beside it.
#[derive(Debug, Drop)]
pub struct Sessions {
    alloc: Global,
    shared: Option<Arc<Parts>>,
    room: Option<Room>,
}

impl Model for Sessions {
    ghost use Rattle.std.specs.Prelude.{◌≤◌, length, IfSome};
    ghost use Rattle.std.specs.Arc.{arc_value};
    ghost use Rattle.std.specs.Option.{option_map};
    ghost use Rattle.rad_sessions.specs.Listed.{limit};
    ghost use Rattle.rad_sessions.specs.Keyed.{list_of, IsReady};
    ghost use Rattle.rad_sessions.specs.Kept.{Kept};

    ghost Value = { Kept };

    ghost view = { λ s. record { sessions = list_of arc_value s.shared; room = option_map (λ r. r.change) s.room } };

    ghost invariant = { λ s. record {
      fits : length (list_of arc_value s.shared) ≤ limit;
      room : IfSome s.room (λ r. IsReady (list_of arc_value s.shared) r.change (arc_value r.ready));
    } };
}

impl Sessions {
    /// No sessions.
    pub fn new(alloc: Global) -> Sessions
        ensures { result ≡ without_room [] }
    {
        Sessions {
            alloc,
            shared: None,
            room: None,
        }
    }

    /// The session on a port of a NAS.
    pub fn at(&self, nas: u32, port: u32) -> Option<&Session>
        ensures { option_copied result ≡ session_at (nas, port) self.now.sessions }
    {
        match &self.shared {
            Some(parts) => parts.at(nas, port),
            None => None,
        }
    }

    /// How many sessions a user has; names are compared octet by octet.
    pub fn count(&self, user: &[u8]) -> u32
        ensures { result ≡ count_of user.now self.now.sessions }
    {
        match &self.shared {
            Some(parts) => parts.count(user),
            None => 0,
        }
    }

    /// The same sessions, without room. They stay as they are whatever is done to these.
    pub fn snapshot(&self) -> Result<Sessions, NoMemory>
        ensures { IfOk result (λ sessions. sessions ≡ without_room self.now.sessions) }
    {
        Ok(Sessions {
            alloc: self.alloc,
            shared: match &self.shared {
                Some(parts) => Some(Arc::try_clone(parts)?),
                None => None,
            },
            room: None,
        })
    }

    /// Does a change for which room was made, which takes no memory. No room is left.
    pub fn apply(&mut self, change: Change)
        requires { self.old.room ≡ Some change }
        ensures { self.new ≡ without_room (after self.old.sessions change) }
    {
        if let Some(room) = self.room.take() {
            self.shared = Some(room.ready);
        }
    }

    /// Makes room for this very change and leaves the list; room that was made before is given up. It is full, with
    /// 65,536, exactly where a session would be added to as many; after an error everything is as before.
    pub fn make_room(&mut self, change: &Change) -> Result<(), RoomFault>
        ensures list { self.new.sessions ≡ self.old.sessions }
        ensures room { OnOk result (self.new.room ≡ Some change.now) }
        ensures kept { OnErr result (self.new ≡ self.old) }
        ensures full { IsFullWhere (is_too_many self.old.sessions change.now) result }
    {
        if self.is_full_for(change) {
            return Err(RoomFault::Full(65536));
        }
        let room = self.room_for(change)?;
        self.room = Some(room);
        Ok(())
    }

    /// Whether a change would add a session to as many as may stand.
    fn is_full_for(&self, change: &Change) -> bool
        ensures { result ≡ is_too_many self.now.sessions change.now }
    {
        match &self.shared {
            Some(parts) => parts.is_too_many(change),
            None => false,
        }
    }

    /// The list after a change, beside the present one.
    fn room_for(&self, change: &Change) -> Result<Room, NoMemory>
        requires { is_too_many self.now.sessions change.now ≡ false }
        ensures { IfOk result (λ room. (room.change ≡ change.now) × IsReady self.now.sessions change.now (arc_value room.ready)) }
    {
        let ready = self.list_after(change)?;
        Ok(Room {
            change: change.copy(self.alloc)?,
            ready,
        })
    }

    /// The list after a change.
    fn list_after(&self, change: &Change) -> Result<Arc<Parts>, NoMemory>
        requires { is_too_many self.now.sessions change.now ≡ false }
        ensures { IfOk result (λ ready. IsReady self.now.sessions change.now (arc_value ready)) }
    {
        let next = match &self.shared {
            Some(parts) => parts.after(self.alloc, change)?,
            None => Parts::of(self.alloc, &Listed::new(self.alloc))?.after(self.alloc, change)?,
        };
        Ok(Arc::new(self.alloc, next)?)
    }

    /// The sessions in order of their places, no two at one.
    pub fn sorted(&self) -> Result<SessionList, NoMemory>
        ensures list { IfOk result (λ list. list ≡ self.now.sessions) }
        ensures order { OnOk result (AreInOrder self.now.sessions) }
    {
        match &self.shared {
            Some(parts) => parts.sorted(self.alloc),
            None => Ok(SessionList::from_vec(Vec::new(self.alloc))),
        }
    }
}

/// The sessions of a log: its whole and exact lines, in order. What stands behind the last newline, any other line, and a
/// line that would add a session to 65,536 change nothing.
pub fn fold_log(alloc: Global, bytes: &[u8]) -> Result<Sessions, NoMemory>
    ensures { IfOk result (λ sessions. sessions ≡ without_room (folded bytes.now)) }
{
    let list = folded(alloc, bytes)?;
    let parts = Parts::of(alloc, &list)?;
    Ok(Sessions {
        alloc,
        shared: Some(Arc::new(alloc, parts)?),
        room: None,
    })
}
