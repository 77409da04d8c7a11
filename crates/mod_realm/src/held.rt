//! The realms as a module holds them: its own, or a site's, which its modules share.

ghost use Rattle.std.specs.Prelude.{◌≡◌};
ghost use Rattle.std.specs.Arc.{arc_value};

use crate::realms::Realms;
use std::marker::Model;
use std::sync::Arc;

/// Where a module's realms are.
#[derive(Drop)]
enum Place {
    Own(Realms),
    Shared(Arc<Realms>),
}

/// The realms of a module. Contracts see them as a list, whoever else holds them.
#[derive(Drop)]
pub(crate) struct Held {
    place: Place,
}

impl Model for Held {
    ghost use Rattle.std.specs.Prelude.{List};
    ghost use Rattle.mod_realm.specs.Realms.{Realm};
    ghost use Rattle.mod_realm.specs.Held.{realms_at};

    ghost Value = { List Realm };

    ghost view = { λ h. realms_at h.place };
}

impl Held {
    /// Realms of the module's own.
    pub(crate) fn own(realms: Realms) -> Held
        ensures { result ≡ realms }
    {
        Held {
            place: Place::Own(realms),
        }
    }

    /// Realms that others hold, too.
    pub(crate) fn shared(realms: Arc<Realms>) -> Held
        ensures { result ≡ arc_value realms }
    {
        Held {
            place: Place::Shared(realms),
        }
    }

    /// The realms.
    pub(crate) fn realms(&self) -> &Realms
        ensures { result.now ≡ self.now }
    {
        match &self.place {
            Place::Own(realms) => realms,
            Place::Shared(realms) => realms,
        }
    }
}
