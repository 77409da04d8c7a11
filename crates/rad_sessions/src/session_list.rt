ghost use Rattle.std.specs.Prelude.{◌≡◌, length, map};
ghost use Rattle.std.specs.Arc.{arc_value};
ghost use Rattle.std.specs.List.{slice_get};
ghost use Rattle.std.specs.Option.{option_copied};

use crate::session::Session;
use std::marker::Model;
use std::sync::Arc;

/// A list of sessions.
#[derive(Debug, Drop)]
pub struct SessionList {
    items: Vec<Arc<Session>>,
}

impl Model for SessionList {
    ghost use Rattle.std.specs.Prelude.{List, map};
    ghost use Rattle.std.specs.Arc.{arc_value};
    ghost use Rattle.rad_sessions.specs.declared.session.Session.{Session};

    ghost Value = { List Session };

    ghost view = { λ l. map arc_value l.items.items };
}

impl SessionList {
    /// The list of a vector.
    pub(crate) fn from_vec(items: Vec<Arc<Session>>) -> SessionList
        ensures { result ≡ map arc_value items.items }
    {
        SessionList { items }
    }

    /// How many sessions there are.
    pub fn len(&self) -> usize
        ensures { result ≡ length self.now }
    {
        self.items.len()
    }

    /// The session at a position from 0, or none exactly where the position is at least the length.
    pub fn get(&self, index: usize) -> Option<&Session>
        ensures { option_copied result ≡ slice_get self.now index }
    {
        match self.items.get(index) {
            Some(session) => Some(&**session),
            None => None,
        }
    }
}
