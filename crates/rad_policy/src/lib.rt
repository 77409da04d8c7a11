//! What the core knows of a policy: a trait whose one ghost member says what a generation of a site means, the arrivals
//! that it is asked about, and the outcomes that it gives.
//! The one model is that meaning: from a folder's files to a generation, and from an arrival, a moment and a luck word to
//! the octets of a reply or none.
//! Above it stand the core, which is generic over the trait, and the sites, which keep it.
#![tactic(auto)]

mod arrival;
mod ending;
mod outcome;
mod policy;

pub use arrival::{Arrival, Arrived};
pub use ending::Ending;
pub use outcome::Outcome;
pub use policy::Policy;
