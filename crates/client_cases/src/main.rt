//! Worked examples of the client, over devices in memory: the program reads them from files, runs each through the client's
//! top call, and compares all that the client did with what the file says. A case is written in fields; what they mean stands
//! at the head of `data/trying.cases`. There is no model and no contract. Nothing stands above it.
#![tactic(auto)]

mod plan;
mod running;
mod script;
mod transcript;

use running::Client;
use shared_cases::{Form, Tally};
use std::process::ExitCode;

/// The files of cases.
const FILES: [&str; 4] = [
    "trying.cases",
    "groups.cases",
    "failing.cases",
    "words.cases",
];

/// Tries all cases, and those whose expectations are wrong on purpose.
fn main(rt: HostRuntime) -> ExitCode {
    let mut client = Client;
    let mut tally = Tally::new(rt.alloc());
    for file in FILES {
        tally.judge_file(rt, &mut client, Form::Blocks, file);
    }
    let mut wrong = Tally::new(rt.alloc());
    wrong.judge_file(rt, &mut client, Form::Blocks, "wrong.cases");
    tally.finish(&rt, &wrong)
}
