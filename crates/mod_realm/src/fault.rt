use rad_outside::NoMemory;
use std::alloc::AllocFailed;
use thiserror::Error;

/// Why a realm was not added. The realms are as they were.
#[derive(Clone, Copy, Debug, PartialEq, Eq, Error)]
pub enum RealmFault {
    /// There is a realm of this name, case aside.
    #[error("Taken")]
    Taken,
    #[error("NoMemory")]
    NoMemory,
}

impl From<NoMemory> for RealmFault {
    ghost use Rattle.std.specs.Prelude.{◌≡◌};
    ghost use Rattle.mod_realm.specs.declared.fault.RealmFault.TheVariants as fault;

    ghost from_gives = { λ _ e. e ≡ fault.NoMemory };

    fn from(_e: NoMemory) -> RealmFault {
        RealmFault::NoMemory
    }
}

impl<T: Drop> From<AllocFailed<T>> for RealmFault {
    ghost use Rattle.std.specs.Prelude.{◌≡◌};
    ghost use Rattle.mod_realm.specs.declared.fault.RealmFault.TheVariants as fault;

    ghost from_gives = { λ _ e. e ≡ fault.NoMemory };

    fn from(_e: AllocFailed<T>) -> RealmFault {
        RealmFault::NoMemory
    }
}
