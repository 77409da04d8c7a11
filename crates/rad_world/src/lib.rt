//! What a policy reaches outside of itself while it runs: files that grow and sessions that change.
//! The one model is what a world is at a moment: the answers that its devices gave so far, the effects that were made, the
//! sessions now, and its counts of faults; each call adds at most one effect and its answer, or nothing at all.
//! Above it stand modules and policies, which are generic over the trait, and the programs, which give worlds over their
//! devices.
#![tactic(auto)]

mod answers;
mod fault;
mod laws;
mod world;

pub use answers::Answers;
pub use fault::{AppendFault, ChangeFault};
pub use laws::worlds_go_on;
pub use world::World;
