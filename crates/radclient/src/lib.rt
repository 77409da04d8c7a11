//! The client: it reads groups of pairs, sends a request for each, and prints the replies.
//! The one model is `client_run`, a function of what was asked, the groups and what the wire and the luck still have to
//! answer, which gives the sends, the lines and how the run ends; the top call does that run.
//! Only the thin program stands above it, which makes the real devices and hands them in.
#![tactic(auto)]

mod asked;
mod asking;
mod ending;
mod fault;
mod groups;
mod laws;
mod lines;
mod making;
mod printing;
mod running;
mod sending;
mod serving;
mod status;
mod stop;
mod top;
mod words;

pub use laws::{
    groups_are_parted_by_empty_lines, replies_are_taken_as_they_are_accepted,
    resends_have_the_same_octets, status_says_what_packets_got, the_fault_is_the_first_wrong_line,
    words_ask_within_their_ranges,
};
pub use top::radclient;
