use rad_outside::NoMemory;
use thiserror::Error;

/// Why a request isn't made.
#[derive(Clone, Copy, Debug, PartialEq, Eq, Error)]
pub enum RequestFault {
    /// A User-Password of an Access-Request has more than 128 octets. So many the first such has.
    #[error("PasswordTooLong")]
    PasswordTooLong(u32),
    /// The packet would have more than 4,096 octets. So many it would have.
    #[error("TooLong")]
    TooLong(u32),
    #[error("NoMemory")]
    NoMemory,
}

impl From<NoMemory> for RequestFault {
    ghost use Rattle.std.specs.Prelude.{◌≡◌};
    ghost use Rattle.rad_wire.specs.declared.request_fault.RequestFault.TheVariants as fault;

    ghost from_gives = { λ _ e. e ≡ fault.NoMemory };

    fn from(_e: NoMemory) -> RequestFault {
        RequestFault::NoMemory
    }
}
