ghost use Rattle.std.specs.Prelude.{◌≡◌};
ghost use Rattle.radiusd.specs.ExitStatuses.{number_of};

/// How a run of the server ended.
#[derive(Clone, Copy, Debug, PartialEq, Eq)]
pub(crate) enum Status {
    /// The wire of the listener ended, or the server was stopped.
    Done,
    /// The words aren't those of the server.
    Words,
    /// The configuration has a fault.
    Configuration,
    /// A file of the configuration couldn't be read.
    ReadFault,
    /// A socket couldn't be had, or a worker was deaf.
    SocketFault,
    /// A line couldn't be printed.
    PrintFault,
    /// The history is full.
    Worn,
    NoMemory,
}

impl Status {
    /// The exit status of the program.
    pub(crate) fn number(self) -> u8
        ensures { result ≡ number_of self }
    {
        match self {
            Status::Done => 0,
            Status::Words => 1,
            Status::Configuration => 2,
            Status::ReadFault => 3,
            Status::SocketFault => 4,
            Status::PrintFault => 6,
            Status::Worn => 7,
            Status::NoMemory => 8,
        }
    }
}
