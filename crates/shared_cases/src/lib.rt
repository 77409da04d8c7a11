//! Worked examples as files that anybody can read and add to without a proof: how a case is written, and how what a
//! program gives for it is compared with what its file says. The model is none: these are tests' tools without
//! contracts, and each program that uses them shows by a file of wrong cases that a difference is found. Above it
//! stand the programs `*_cases`, which say what is given for a case.
#![tactic(auto)]

mod block_form;
mod case;
mod peers;
mod row_form;
mod spelling;
mod tally;
mod transcript;

pub use block_form::blocks;
pub use case::{Case, Field};
pub use peers::{peer_of, push_peer};
pub use row_form::rows;
pub use spelling::{
    after_word, decimal, hexadecimal, numbers, push_hexadecimal, push_number, texts, words,
};
pub use tally::{Form, Subject, Tally};
pub use transcript::{push_printed, push_sent};
