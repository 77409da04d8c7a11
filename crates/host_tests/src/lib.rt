//! Worked examples that no file can hold: files, sockets and a second of the host, and the server over real UDP.
//! There is no model: each test calls public names of `rad_edge` and, over UDP, the server's top call.
//! Nothing stands above this crate: it has tests alone, so that the crates below are proved once.
#![tactic(auto)]

#[cfg(test)]
mod crews;
#[cfg(test)]
mod files;
#[cfg(test)]
mod server;
#[cfg(test)]
mod wires;
