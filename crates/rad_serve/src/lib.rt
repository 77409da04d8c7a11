//! Serving: the hub that keeps the history of a site's generations and requests, one datagram's whole way through it, and the
//! loop that serves a kit until its worker leaves.
//! The one model is the hub's history, which is legal and whose state the core has; a run of the loop is one record over the
//! entries that it adds, of what the kit's devices tell.
//! The server `radiusd` stands above it, which reads words, loads the site, prints lines and answers statuses.
#![tactic(auto)]

mod counts;
mod hub;
mod left;
mod serving;
mod turn;

pub use counts::{Counts, Tally, counts_between};
pub use hub::Hub;
pub use left::Left;
pub use serving::{WORKER, serve};
