//! The sessions that are wanted.

ghost use Rattle.std.specs.Prelude.{◌≡◌};
ghost use Rattle.radwho.specs.Lines.{has_user, has_nas, is_wanted};

use rad_outside::Octets;
use rad_sessions::Session;

/// Which sessions of which log are wanted, and whether as raw lines: those of a user, those of a NAS by its address in network
/// order as a number, or all.
#[derive(Debug, Drop)]
pub(crate) struct Wanted {
    pub is_raw: bool,
    pub user: Option<Octets>,
    pub nas: Option<u32>,
    pub path: Octets,
}

impl Wanted {
    /// Whether this user's sessions are wanted; the case of ASCII letters doesn't count.
    fn has_user(&self, name: &[u8]) -> bool
        ensures { result ≡ has_user self.now.user name.now }
    {
        match &self.user {
            Some(user) => user.as_slice().eq_ignore_ascii_case(name),
            None => true,
        }
    }

    /// Whether the sessions of this NAS are wanted.
    fn has_nas(&self, nas: u32) -> bool
        ensures { result ≡ has_nas self.now.nas nas }
    {
        match self.nas {
            Some(wanted) => wanted == nas,
            None => true,
        }
    }

    /// Whether a session is among those that are wanted.
    pub(crate) fn is_wanted(&self, session: &Session) -> bool
        ensures { result ≡ is_wanted self.now session.now }
    {
        self.has_user(session.user.as_slice()) && self.has_nas(session.nas)
    }
}
