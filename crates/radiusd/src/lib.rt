//! The server: the words of its command line, the load of its site, what it prints and answers, and the top call.
//! The one model is that of `rad_serve`, the hub's history; the top call's contract is one record, the headline, over the
//! entries that the call adds to it.
//! Only the thin program stands above it, which makes the real devices and hands them in.
#![tactic(auto)]

mod checking;
mod install;
mod lines;
mod order;
mod printing;
mod site;
mod status;
mod top;
mod words;

pub use rad_serve::Hub;
pub use rad_site::{BuildFault, Generation, TreeFault};
pub use top::radiusd;
