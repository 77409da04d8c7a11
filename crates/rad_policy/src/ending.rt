use rad_outside::Octets;

/// How a request ended, as the history keeps it: with these octets as its reply, without one, or for want of memory.
#[derive(Debug, Drop)]
pub enum Ending {
    Sent(Octets),
    Withheld,
    OutOfMemory,
}
