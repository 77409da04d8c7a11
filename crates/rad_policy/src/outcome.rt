use rad_outside::Octets;
use std::sync::Arc;

/// What a policy gave for a request: a reply of at most 4,096 octets, none, or want of memory.
#[derive(Debug, Drop)]
pub enum Outcome {
    Sent(Arc<Octets>),
    Withheld,
    NoMemory,
}
