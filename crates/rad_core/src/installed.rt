use rad_outside::Octets;

/// What became of a load.
#[derive(Debug, Drop)]
pub enum Installed<F> {
    /// It is the present generation, the n-th so far, counted from 1.
    Generation(u64),
    /// It was a fault, or there was no memory.
    Refused(F),
    /// It has no server of this name, which a listener serves.
    ListenerGone(Octets),
}
