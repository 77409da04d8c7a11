ghost use Rattle.std.specs.Prelude.{◌≡◌};

use rad_outside::NoMemory;
use thiserror::Error;

/// Why a piece wasn't appended.
#[derive(Clone, Copy, Debug, PartialEq, Eq, Error)]
pub enum AppendFault {
    /// The device failed, after a proper prefix of the piece.
    #[error("Failed")]
    Failed,
    /// No device was called.
    #[error("NoMemory")]
    NoMemory,
}

impl From<NoMemory> for AppendFault {
    ghost use Rattle.rad_world.specs.declared.fault.AppendFault.TheVariants as faults;

    ghost from_gives = { λ _ e. e ≡ faults.NoMemory };

    fn from(_e: NoMemory) -> AppendFault {
        AppendFault::NoMemory
    }
}

/// Why a change of the sessions wasn't done.
#[derive(Clone, Copy, Debug, PartialEq, Eq, Error)]
pub enum ChangeFault {
    /// The device that keeps the changes failed.
    #[error("Failed")]
    Failed,
    /// As many sessions stand as may; their number. No device was called.
    #[error("Full {0}")]
    Full(u32),
    /// No device was called.
    #[error("NoMemory")]
    NoMemory,
}

impl From<NoMemory> for ChangeFault {
    ghost use Rattle.rad_world.specs.declared.fault.ChangeFault.TheVariants as faults;

    ghost from_gives = { λ _ e. e ≡ faults.NoMemory };

    fn from(_e: NoMemory) -> ChangeFault {
        ChangeFault::NoMemory
    }
}
