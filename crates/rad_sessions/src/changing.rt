//! What changes and the lines of a log do to a list of sessions.

ghost use Rattle.std.specs.Prelude.{◌≡◌, ◌≤◌, false, length, OnOk};
ghost use Rattle.rad_sessions.specs.Listed.{after, is_too_many, limit};
ghost use Rattle.rad_sessions.specs.Log.{after_said, after_line};

use crate::change::Change;
use crate::lines::change_of;
use crate::listed::Listed;
use rad_outside::NoMemory;
use std::alloc::Global;

impl Listed {
    /// The list after a change.
    #[tactic(auto, unfolding(crate::specs::Listed::after))]
    pub(crate) fn change(&mut self, alloc: Global, change: Change) -> Result<(), NoMemory>
        ensures list { OnOk result (self.new ≡ after self.old change) }
        ensures fits { OnOk result (is_too_many self.old change ≡ false → length self.old ≤ limit → length self.new ≤ limit) }
    {
        match change {
            Change::Begin(session) => self.begin(alloc, session),
            Change::Renew { nas, port, framed } => self.renew(alloc, nas, port, framed),
            Change::End { nas, port } => {
                self.end(nas, port);
                Ok(())
            }
            Change::Clear { nas } => {
                self.clear(nas);
                Ok(())
            }
        }
    }

    /// Whether a change would add a session to as many as may stand.
    pub(crate) fn is_too_many(&self, change: &Change) -> bool
        ensures { result ≡ is_too_many self.now change.now }
    {
        match change {
            Change::Begin(session) => {
                self.len() >= 65536 && self.at(session.nas, session.port).is_none()
            }
            _ => false,
        }
    }

    /// The list after what a line says.
    fn after_said(&mut self, alloc: Global, said: Option<Change>) -> Result<(), NoMemory>
        ensures list { OnOk result (self.new ≡ after_said self.old said) }
        ensures fits { OnOk result (length self.old ≤ limit → length self.new ≤ limit) }
    {
        match said {
            Some(change) => {
                if self.is_too_many(&change) {
                    Ok(())
                } else {
                    self.change(alloc, change)
                }
            }
            None => Ok(()),
        }
    }

    /// The list after a line of a log.
    pub(crate) fn after_line(&mut self, alloc: Global, line: &[u8]) -> Result<(), NoMemory>
        ensures list { OnOk result (self.new ≡ after_line self.old line.now) }
        ensures fits { OnOk result (length self.old ≤ limit → length self.new ≤ limit) }
    {
        let said = change_of(alloc, line)?;
        self.after_said(alloc, said)
    }
}
