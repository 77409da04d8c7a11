//! The state machine of requests: what a datagram is answered, and what the server's state is afterwards.
//! The one model is the server's state with its history of entries, each of which may come in the state before it
//! and leads to the state after it. Behind a desk the history is what the desk's seats have seen, and isn't stored.
//! Above it stands the server, which asks it one event at a time, each a turn of a `Post`; of the policy it knows the
//! trait `Policy` alone.
#![tactic(auto)]

mod entry;
mod finishes;
mod installed;
mod installs;
mod kept;
mod key;
mod laws;
mod looks;
mod machine;
mod post;
mod row;
mod seen;
mod standing;
mod started;
mod starts;
mod steps;
mod table;

pub use entry::Entry;
pub use installed::Installed;
pub use laws::repeats_get_the_first_reply;
pub use machine::Core;
pub use post::{Post, crosses_threads};
pub use rad_policy::{Arrival, Arrived, Ending, Outcome, Policy};
pub use seen::Seen;
pub use started::{StartAnswer, Started, Ticket};
