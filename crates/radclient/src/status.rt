//! The exit statuses.

ghost use Rattle.std.specs.Prelude.{◌≡◌};
ghost use Rattle.radclient.specs.Program.{number_of};

/// How a run of the program ends.
#[derive(Clone, Copy, Debug, PartialEq, Eq)]
pub enum Status {
    /// Every packet got a good reply.
    Done,
    /// A packet got an Access-Reject, or no accepted reply.
    Unanswered,
    /// The words or the file's pairs were refused, or a packet can't be made.
    Refused,
    /// The file is missing or can't be read.
    ReadFault,
    /// The wire failed.
    SocketFault,
    /// The sink failed.
    WriteFault,
    NoMemory,
}

impl Status {
    pub(crate) fn number(self) -> u8
        ensures { result ≡ number_of self }
    {
        match self {
            Status::Done => 0,
            Status::Unanswered => 1,
            Status::Refused => 2,
            Status::ReadFault => 3,
            Status::SocketFault => 4,
            Status::WriteFault => 6,
            Status::NoMemory => 8,
        }
    }
}
