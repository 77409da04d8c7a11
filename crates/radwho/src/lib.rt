//! Who is logged in: the sessions that a log of the server says, as lines.
//! It has no state; its one model is a run, by its words, the log that it reads and the lines that it prints.
//! Only the thin program stands above it, which hands in the host's files and standard output.
#![tactic(auto)]

mod asking;
mod columns;
mod escapes;
mod laws;
mod listing;
mod printing;
mod raw;
mod showing;
mod status;
mod top;
mod wanted;

pub use laws::fields_stay_apart;
pub use top::radwho;
