//! Why a run stops before its last packet.

use rad_outside::NoMemory;

/// Why a packet can't be made.
#[derive(Clone, Copy, Debug, PartialEq, Eq)]
pub enum Unmade {
    /// A User-Password of an Access-Request has more than 128 octets.
    PasswordTooLong,
    /// The packet would have more than 4,096 octets, or its group has 2^31 pairs or more.
    TooLong,
}

/// Why a run stops before its last packet.
#[derive(Clone, Copy, Debug, PartialEq, Eq)]
pub enum Stop {
    Unmade(Unmade),
    /// The wire failed.
    SocketFault,
    /// The sink failed.
    WriteFault,
    NoMemory,
}

impl From<NoMemory> for Stop {
    ghost use Rattle.std.specs.Prelude.{◌≡◌};
    ghost use Rattle.radclient.specs.declared.stop.Stop.TheVariants as stop;

    ghost from_gives = { λ _ e. e ≡ stop.NoMemory };

    fn from(_e: NoMemory) -> Stop {
        Stop::NoMemory
    }
}
