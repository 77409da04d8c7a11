ghost use Rattle.std.specs.Prelude.{◌≡◌};
ghost use Rattle.radwho.specs.Run.{number_of, ending_of};

/// How a run ended.
#[derive(Clone, Copy, Debug, PartialEq, Eq)]
pub(crate) enum Status {
    /// The sessions were shown.
    Done,
    /// The words are refused.
    Words,
    /// The log couldn't be read.
    ReadFault,
    /// The log has more octets than it may.
    TooLong,
    /// The lines couldn't be printed.
    PrintFault,
    NoMemory,
}

impl Status {
    /// The exit status of the program.
    pub(crate) fn number(self) -> u8
        ensures number { result ≡ number_of self }
        ensures ending { ending_of result ≡ self }
    {
        match self {
            Status::Done => 0,
            Status::Words => 1,
            Status::ReadFault => 3,
            Status::TooLong => 5,
            Status::PrintFault => 6,
            Status::NoMemory => 8,
        }
    }
}
