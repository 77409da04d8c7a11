ghost use Rattle.std.specs.Prelude.{◌≡◌};

use rad_outside::NoMemory;
use thiserror::Error;

/// Why there is no room for a change.
#[derive(Clone, Copy, Debug, PartialEq, Eq, Error)]
pub enum RoomFault {
    /// As many sessions stand as may; their number.
    #[error("Full {0}")]
    Full(u32),
    #[error("NoMemory")]
    NoMemory,
}

impl From<NoMemory> for RoomFault {
    ghost use Rattle.rad_sessions.specs.declared.fault.RoomFault.TheVariants as faults;

    ghost from_gives = { λ _ e. e ≡ faults.NoMemory };

    fn from(_e: NoMemory) -> RoomFault {
        RoomFault::NoMemory
    }
}
