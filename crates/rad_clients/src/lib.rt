//! The clients of a site: the networks from which requests may come, each with the secret shared with it.
//! The one model is the list of clients in the order of their text; of the clients whose network has an address, the one
//! with the longest prefix is the address's.
//! Above it stand the sites, which read clients from a configuration and look one up for each datagram.
#![tactic(auto)]

mod clients;
mod network;
mod written;

pub use clients::Clients;
pub use written::{Network, network_of};
