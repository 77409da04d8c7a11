//! Why a site can't be built.

ghost use Rattle.std.specs.Prelude.{◌≡◌};

use mod_users::UsersFault;
use rad_conf::ConfFault;
use rad_dict::DictFault;
use rad_outside::{NoMemory, Octets, Place};
use std::alloc::{AllocError, AllocFailed};
use thiserror::Error;
use unlang_tree::TreeFault;

/// Why a generation can't be built: the first fault of its files.
/// Want of memory and a read fault are always variants of their own, never inside another.
#[derive(Debug, Drop, Error)]
pub enum BuildFault {
    #[error("Conf")]
    Conf(ConfFault),
    #[error("Dict")]
    Dict(DictFault),
    /// A setting out of its form, or a thing that must not stand there: its place and its word.
    #[error("BadSetting")]
    BadSetting(Place, Octets),
    /// A users file, by its name, and what is wrong in it.
    #[error("Users")]
    Users(Octets, UsersFault),
    /// What is wrong in the sections of a server, or a thing that isn't built yet.
    #[error("Tree")]
    Tree(TreeFault),
    /// A module of a kind that there isn't: its place and the kind.
    #[error("UnknownModule")]
    UnknownModule(Place, Octets),
    #[error("ReadFault")]
    ReadFault,
    #[error("NoMemory")]
    NoMemory,
}

impl From<ConfFault> for BuildFault {
    ghost use Rattle.rad_build.specs.ConfFault.{fault_of};

    ghost from_gives = { λ e fault. fault ≡ fault_of e };

    fn from(e: ConfFault) -> BuildFault {
        match e {
            ConfFault::ReadFault => BuildFault::ReadFault,
            ConfFault::NoMemory => BuildFault::NoMemory,
            ConfFault::Unclosed(place) => BuildFault::Conf(ConfFault::Unclosed(place)),
            ConfFault::Stray(place) => BuildFault::Conf(ConfFault::Stray(place)),
            ConfFault::BadQuote(place) => BuildFault::Conf(ConfFault::BadQuote(place)),
            ConfFault::NoVariable(place) => BuildFault::Conf(ConfFault::NoVariable(place)),
            ConfFault::TooDeep(place) => BuildFault::Conf(ConfFault::TooDeep(place)),
            ConfFault::Missing(place) => BuildFault::Conf(ConfFault::Missing(place)),
            ConfFault::TooLong(place) => BuildFault::Conf(ConfFault::TooLong(place)),
        }
    }
}

impl From<DictFault> for BuildFault {
    ghost use Rattle.rad_build.specs.DictFault.{fault_of};

    ghost from_gives = { λ e fault. fault ≡ fault_of e };

    fn from(e: DictFault) -> BuildFault {
        match e {
            DictFault::ReadFault => BuildFault::ReadFault,
            DictFault::NoMemory => BuildFault::NoMemory,
            DictFault::BadLine(place) => BuildFault::Dict(DictFault::BadLine(place)),
            DictFault::UnknownVendor(place) => BuildFault::Dict(DictFault::UnknownVendor(place)),
            DictFault::Taken(place) => BuildFault::Dict(DictFault::Taken(place)),
            DictFault::TooDeep(place) => BuildFault::Dict(DictFault::TooDeep(place)),
            DictFault::Missing(place) => BuildFault::Dict(DictFault::Missing(place)),
            DictFault::TooLong(place) => BuildFault::Dict(DictFault::TooLong(place)),
        }
    }
}

impl From<TreeFault> for BuildFault {
    ghost use Rattle.rad_build.specs.TreeFault.{fault_of};

    ghost from_gives = { λ e fault. fault ≡ fault_of e };

    fn from(e: TreeFault) -> BuildFault {
        match e {
            TreeFault::NoMemory => BuildFault::NoMemory,
            TreeFault::UnknownModule(place, word) => {
                BuildFault::Tree(TreeFault::UnknownModule(place, word))
            }
            TreeFault::NoSuchMethod(place) => BuildFault::Tree(TreeFault::NoSuchMethod(place)),
            TreeFault::UnknownKeyword(place) => BuildFault::Tree(TreeFault::UnknownKeyword(place)),
            TreeFault::BadAction(place) => BuildFault::Tree(TreeFault::BadAction(place)),
            TreeFault::BadUpdate(place) => BuildFault::Tree(TreeFault::BadUpdate(place)),
            TreeFault::BadCondition(place) => BuildFault::Tree(TreeFault::BadCondition(place)),
            TreeFault::BadPattern(place) => BuildFault::Tree(TreeFault::BadPattern(place)),
            TreeFault::BadExpansion(place) => BuildFault::Tree(TreeFault::BadExpansion(place)),
            TreeFault::PolicyLoop(place) => BuildFault::Tree(TreeFault::PolicyLoop(place)),
            TreeFault::TooDeep(place) => BuildFault::Tree(TreeFault::TooDeep(place)),
            TreeFault::TooMany(place) => BuildFault::Tree(TreeFault::TooMany(place)),
            TreeFault::NotBuilt(place) => BuildFault::Tree(TreeFault::NotBuilt(place)),
        }
    }
}

impl From<NoMemory> for BuildFault {
    ghost use Rattle.rad_build.specs.declared.fault.BuildFault.TheVariants as fault;

    ghost from_gives = { λ _ e. e ≡ fault.NoMemory };

    fn from(_e: NoMemory) -> BuildFault {
        BuildFault::NoMemory
    }
}

impl From<AllocError> for BuildFault {
    ghost use Rattle.rad_build.specs.declared.fault.BuildFault.TheVariants as fault;

    ghost from_gives = { λ _ e. e ≡ fault.NoMemory };

    fn from(_e: AllocError) -> BuildFault {
        BuildFault::NoMemory
    }
}

impl<T: Drop> From<AllocFailed<T>> for BuildFault {
    ghost use Rattle.rad_build.specs.declared.fault.BuildFault.TheVariants as fault;

    ghost from_gives = { λ _ e. e ≡ fault.NoMemory };

    fn from(_e: AllocFailed<T>) -> BuildFault {
        BuildFault::NoMemory
    }
}
