//! Why an instance can't be added, and why a policy can't be built.

ghost use Rattle.std.specs.Prelude.{◌≡◌};

use rad_outside::{NoMemory, Octets, Place};
use std::alloc::{AllocError, AllocFailed};
use thiserror::Error;

/// Why an instance was not added. The instances are as they were.
#[derive(Clone, Copy, Debug, PartialEq, Eq, Error)]
pub enum AddFault {
    /// There is an instance of this name.
    #[error("Taken")]
    Taken,
    /// There are so many instances: 1,024.
    #[error("Full")]
    Full(u32),
    #[error("NoMemory")]
    NoMemory,
}

/// The first fault of the policies of a configuration, in reading order, after unlang(5).
#[derive(Debug, Drop, Error)]
pub enum TreeFault {
    /// No instance and no policy has the word that is called.
    #[error("UnknownModule")]
    UnknownModule(Place, Octets),
    /// The instance that is called has no method for the section.
    #[error("NoSuchMethod")]
    NoSuchMethod(Place),
    /// A block that is no statement.
    #[error("UnknownKeyword")]
    UnknownKeyword(Place),
    /// An action of no form, or a pair where none can stand.
    #[error("BadAction")]
    BadAction(Place),
    /// An `update`, or a line of it, of no form.
    #[error("BadUpdate")]
    BadUpdate(Place),
    #[error("BadCondition")]
    BadCondition(Place),
    /// A pattern of a condition that can't be matched.
    #[error("BadPattern")]
    BadPattern(Place),
    #[error("BadExpansion")]
    BadExpansion(Place),
    /// A policy that calls itself.
    #[error("PolicyLoop")]
    PolicyLoop(Place),
    /// The 33rd block within one another, or the ninth loop.
    #[error("TooDeep")]
    TooDeep(Place),
    /// The 65,537th statement of one server.
    #[error("TooMany")]
    TooMany(Place),
    /// It isn't built yet.
    #[error("NotBuilt")]
    NotBuilt(Place),
    #[error("NoMemory")]
    NoMemory,
}

impl From<NoMemory> for TreeFault {
    ghost use Rattle.unlang_tree.specs.declared.fault.TreeFault.TheVariants as fault;

    ghost from_gives = { λ _ e. e ≡ fault.NoMemory };

    fn from(_e: NoMemory) -> TreeFault {
        TreeFault::NoMemory
    }
}

impl From<AllocError> for TreeFault {
    ghost use Rattle.unlang_tree.specs.declared.fault.TreeFault.TheVariants as fault;

    ghost from_gives = { λ _ e. e ≡ fault.NoMemory };

    fn from(_e: AllocError) -> TreeFault {
        TreeFault::NoMemory
    }
}

impl<T: Drop> From<AllocFailed<T>> for TreeFault {
    ghost use Rattle.unlang_tree.specs.declared.fault.TreeFault.TheVariants as fault;

    ghost from_gives = { λ _ e. e ≡ fault.NoMemory };

    fn from(_e: AllocFailed<T>) -> TreeFault {
        TreeFault::NoMemory
    }
}

impl From<NoMemory> for AddFault {
    ghost use Rattle.unlang_tree.specs.declared.fault.AddFault.TheVariants as fault;

    ghost from_gives = { λ _ e. e ≡ fault.NoMemory };

    fn from(_e: NoMemory) -> AddFault {
        AddFault::NoMemory
    }
}

impl From<AllocError> for AddFault {
    ghost use Rattle.unlang_tree.specs.declared.fault.AddFault.TheVariants as fault;

    ghost from_gives = { λ _ e. e ≡ fault.NoMemory };

    fn from(_e: AllocError) -> AddFault {
        AddFault::NoMemory
    }
}

impl<T: Drop> From<AllocFailed<T>> for AddFault {
    ghost use Rattle.unlang_tree.specs.declared.fault.AddFault.TheVariants as fault;

    ghost from_gives = { λ _ e. e ≡ fault.NoMemory };

    fn from(_e: AllocFailed<T>) -> AddFault {
        AddFault::NoMemory
    }
}
