use crate::installed::Installed;
use crate::seen::Seen;
use crate::started::StartAnswer;
use rad_outside::Listen;
use rad_policy::{Arrived, Ending};
use std::collections::LinkedList;

/// An entry of the history: what was asked of the core, and what it answered. It exists in proofs alone, and no value
/// of it is made.
pub enum Entry<P, F> {
    /// A datagram was taken by the worker that its arrival names.
    Start(Arrived, StartAnswer),
    /// A worker ended the request of a place.
    Finish(u32, u64, Ending),
    /// A worker loaded a generation or a fault for these listeners.
    Install(u32, Result<P, F>, LinkedList<Listen>, Installed<F>),
    /// A worker looked at the server.
    Look(u32, Seen),
    /// A worker stopped the server.
    Stop(u32),
}
